//! Runs of many callers: what callers leave that do their scripts on new cells and join.

ghost use Rattle.std.specs.Prelude.{◌≡◌, ℕ, Some, map, slice_get};
ghost use Rattle.event_log.specs.Entries.{asked_of};
ghost use Rattle.word_rule.specs.Cell.{PassView, OwnsAll};
ghost use Rattle.sound_run.specs.Sound.{Sound};
ghost use Rattle.guarded_cell.specs.{Runs.{WheneverWorked, run_left}, Workers.opened_of_cell};

use event_log::SeqObject;

/// A law of all cells, without effect. Where each CPU did its script on new cells, and its passes were joined to the last
/// ones, the run that is left is sound, each transcript asks for just its script, and each last pass owns every number of
/// its cell, so that the cell can be closed.
pub fn joined_runs_are_sound<O: SeqObject>()
    ensures sound { WheneverWorked O.SeqObject (λ cells joined scripts transcripts.
        Sound O.SeqObject (map opened_of_cell cells) (run_left joined transcripts)) }
    ensures asks { WheneverWorked O.SeqObject (λ cells joined scripts transcripts. map (map asked_of) transcripts ≡ scripts) }
    ensures whole { WheneverWorked O.SeqObject (λ cells joined scripts transcripts.
        (x : ℕ) (j : PassView O O.Params O.Call O.Reply) → slice_get joined x ≡ Some j → OwnsAll j.caller) }
{}
