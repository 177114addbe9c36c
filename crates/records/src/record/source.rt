//! Reading a record from a source, piece by piece.

ghost use Rattle.std.specs.Prelude.{◌≡◌, true, Some, Err, IfOk, IfErr, OnOk, OnErr};
ghost use Rattle.event_log.specs.Stream.{counted};
ghost use Rattle.sound_run.specs.Sound.{Sound};
ghost use Rattle.kernel_words.specs.{declared.form.Form.Form, declared.form.Form.TheVariants.One};
ghost use Rattle.records.specs.{RecordFaults.text_in, RecordRanges.{RecordFitsIn, Record as Shown}, RecordSources.{SpellsRecord, NamesBadLineOfRest, IsReadFrom}, Runs.opened_of, Unlimited.WasSound};
ghost use Rattle.record_lines.specs.Sources.{IsReadOut};

use crate::{Record, read_into, sound_as_before};
use event_log::{SeqObject, Source};
use kernel_object::KernelObject;
use record_lines::{RecordLists, TextFault};
use std::alloc::Global;

impl Record {
    /// Reads the source to its end: the record that its bytes spell. Of these no more is held than a line and a piece. A bad
    /// line is known as soon as it is there, and then nothing is kept; but the source is read on, so that a bad line never
    /// hides that reading failed.
    pub fn read_from<S: Source>(alloc: Global, source: &mut S) -> Result<Record, TextFault>
        ensures found { IfOk result (SpellsRecord (S.remaining source.old)) }
        ensures only { (form : Form) (r : Shown) → RecordFitsIn form r → S.remaining source.old ≡ Some (text_in form r) → IsReadFrom r result }
        ensures fault { IfErr result (NamesBadLineOfRest (S.remaining source.old)) }
        ensures to_end { (result ≡ Err TextFault.OutOfMemory → ⊥) → (result ≡ Err TextFault.ReadFailed → ⊥) →
            IsReadOut (S.remaining source.old) (S.remaining source.new) }
        ensures one_failed { result ≡ Err TextFault.ReadFailed → S.failed source.new ≡ counted true (S.failed source.old) }
        ensures no_other { (result ≡ Err TextFault.ReadFailed → ⊥) → S.failed source.new ≡ S.failed source.old }
        ensures sound_as_before { (r : Shown) → RecordFitsIn One r → S.remaining source.old ≡ Some (text_in One r) → WasSound ⟦<KernelObject as SeqObject>⟧ r →
            IfOk result (λ given. Sound ⟦<KernelObject as SeqObject>⟧ (opened_of given.settings) given.run) }
    {
        sound_as_before();
        match read_into(alloc, source, RecordLists::new(alloc)) {
            Ok((settings, lists)) => Ok(Record::from_lists(settings, lists)),
            Err(fault) => Err(fault),
        }
    }
}
