//! Laws of runs and their faults, on functions without effect.

ghost use Rattle.std.specs.Prelude.{◌≡◌, List};
ghost use Rattle.event_log.specs.declared.entry.Run.{Run};
ghost use Rattle.sound_run.specs.Sound.{Opened, Sound};
ghost use Rattle.auditor.specs.{Faults.{IsFault, IsFirstFault}, NoFaults.HasNoFault, Transcripts.opened_by};

use crate::{Fault, OpenedObject};
use event_log::SeqObject;

/// A sound run has none of the faults.
pub fn sound_has_no_fault<O: SeqObject>()
    ensures { (opened_objects : List (OpenedObject O O.Params O.Call O.Reply)) → (run : Run O O.Params O.Call O.Reply) →
        Sound O.SeqObject (opened_by opened_objects) run → (f : Fault) → IsFault O.SeqObject (opened_by opened_objects) run f → ⊥ }
{}

/// A run whose logs are sound, whose entries are as they must be and whose events are all taken is sound.
pub fn no_fault_is_sound<O: SeqObject>()
    ensures { (opened_objects : List (OpenedObject O O.Params O.Call O.Reply)) → (run : Run O O.Params O.Call O.Reply) →
        HasNoFault O.SeqObject opened_objects run → Sound O.SeqObject (opened_by opened_objects) run }
{}

/// A run has one first fault at most.
pub fn first_faults_agree<O: SeqObject>()
    ensures { (objects : List (Opened O.Params)) → (run : Run O O.Params O.Call O.Reply) → (f g : Fault) →
        IsFirstFault O.SeqObject objects run f → IsFirstFault O.SeqObject objects run g → f ≡ g }
{}
