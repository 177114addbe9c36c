//! Runs whose logs and transcripts are in the ranges of a record.

ghost use Rattle.std.specs.{Prelude.{◌≡◌, List, length, true}, List.AllByRecursion};
ghost use Rattle.sound_run.specs.Sound.{Sound};
ghost use Rattle.event_log.specs.{declared.event.Event.Event, Log.Legal};
ghost use Rattle.kernel_object.specs.{declared.call.KParams.KParams, declared.call.KCall.KCall, declared.call.KReply.KReply, declared.object.KernelObject.KernelObject, KernelTypes.KernelRun, Kernel.kernel_in_range};
ghost use Rattle.records.specs.{RecordRanges.RunFits, Runs.{opened_of, TranscriptAsks}, Settings.{Settings, SettingsFit}};
ghost use Rattle.kernel_words.specs.Ranges.{call_fits, reply_fits, log_asks, log_answers};

use console_ring::stays_within;
use event_log::SeqObject;
use kernel_object::KernelObject;
use page_pool::stays_whole;
use shared_queue::stays_distinct;
use wake_list::stays_once;

/// A law of all objects of the kernel, without effect: a legal log whose calls are in range has replies in range.
pub fn replies_fit()
    ensures { (p : KParams) (log : List (Event KernelObject KParams KCall KReply)) → kernel_in_range p ≡ true → Legal ⟦<KernelObject as SeqObject>⟧ p log →
        log_asks call_fits log ≡ true → log_answers reply_fits log ≡ true }
{
    stays_distinct();
    stays_whole();
    stays_within();
    stays_once();
}

/// A law of all runs, without effect: a sound run under settings, whose entries asked for what is in its ranges, is in its
/// ranges as a whole, so that it has a text.
pub fn sound_runs_fit()
    ensures { (settings : Settings) (run : KernelRun) → SettingsFit settings →
        Sound ⟦<KernelObject as SeqObject>⟧ (opened_of settings) run → length run.transcripts ≡ settings.cpus →
        AllByRecursion (TranscriptAsks (length settings.objects)) run.transcripts → RunFits settings run }
{
    replies_fit();
}
