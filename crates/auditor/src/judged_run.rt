//! A run that was judged.

ghost use Rattle.std.specs.Prelude.{◌≡◌, length, map, option_map, slice_get};
ghost use Rattle.auditor.specs.KeptLogs.{events_in};
ghost use Rattle.record_lines.specs.{Reading.words, Words.separated};
ghost use Rattle.kernel_words.specs.ItemText.{step_words};
ghost use Rattle.sound_run.specs.Sound.{log_of};

use crate::StepRows;
use crate::kept_log::KeptLog;
use crate::received_run::WholeRun;
use event_log::SeqObject;
use kernel_object::KernelObject;
use records::StepTexts;
use std::marker::Model;

/// A run that is sound. Of its events it has the CPU and the steps, packed, and of its entries nothing. Contracts alone know
/// the rest.
#[derive(Drop)]
pub struct JudgedRun<O: SeqObject, R: StepRows<O>> {
    received: WholeRun<O>,
    logs: Vec<KeptLog<O, R>>,
}

impl<O: SeqObject, R: StepRows<O>> Model for JudgedRun<O, R> {
    ghost use Rattle.std.specs.Prelude.{◌≡◌};
    ghost use Rattle.event_log.specs.declared.entry.Run.{Run};
    ghost use Rattle.auditor.specs.KeptLogs.{events_in};

    ghost Value = { Run O O.Params O.Call O.Reply };

    ghost view = { λ j. j.received };

    ghost invariant = { λ j. events_in j.logs.items ≡ j.received.logs };
}

impl<O: SeqObject, R: StepRows<O>> JudgedRun<O, R> {
    /// The run that was received, of which these logs were kept.
    pub(crate) fn new(received: WholeRun<O>, logs: Vec<KeptLog<O, R>>) -> JudgedRun<O, R>
        requires { events_in logs.items ≡ received.logs }
        ensures { result ≡ received }
    {
        JudgedRun { received, logs }
    }

    /// How many objects the run has.
    #[inline(always)]
    pub fn objects(&self) -> usize
        ensures { result ≡ length self.now.logs }
    {
        self.logs.as_slice().len()
    }

    /// The CPU of the event at that index of the object's log, if there is one.
    #[inline(always)]
    pub fn event_cpu(&self, object: usize, index: usize) -> Option<usize>
        ensures { result ≡ option_map (λ e. e.cpu) (slice_get (log_of object self.now) index) }
    {
        if object >= self.logs.as_slice().len() {
            return None;
        }
        let kept = &self.logs[object];
        if index >= kept.log.len() {
            return None;
        }
        Some(kept.log.cpu(index) as usize)
    }
}

impl JudgedRun<KernelObject, StepTexts> {
    /// The text of the steps of the event at that index of the object's log, if there is one: their words.
    #[inline(always)]
    pub fn text(&self, object: usize, index: usize) -> Option<&[u8]>
        ensures { option_map (λ text. words text.now) result ≡ option_map (λ e. separated (map step_words e.steps.list.items)) (slice_get (log_of object self.now) index) }
    {
        if object >= self.logs.as_slice().len() {
            return None;
        }
        let kept = &self.logs[object];
        if index >= kept.log.len() {
            return None;
        }
        Some(kept.log.text(index))
    }
}
