//! A judged run, with the shapes of its entries.

ghost use Rattle.std.specs.Prelude.{◌≡◌, map, option_map, slice_get};
ghost use Rattle.log_merge.specs.Shapes.{shape_of};
ghost use Rattle.record_lines.specs.{Reading.words, Words.separated};
ghost use Rattle.kernel_words.specs.ItemText.{step_words};
ghost use Rattle.sound_run.specs.Sound.{log_of};

use crate::run_shape::{EntryShape, RunShape};
use auditor::{JudgedRun, StepRows};
use event_log::{SeqObject, Series};
use kernel_object::KernelObject;
use records::StepTexts;
use std::marker::Model;

/// A sound run: two bytes of each entry, and of each event its CPU and its steps as the rows keep them. Contracts alone know the rest.
#[derive(Drop)]
pub struct ShapedRun<O: SeqObject, R: StepRows<O>> {
    run: JudgedRun<O, R>,
    transcripts: Vec<Series<EntryShape>>,
}

impl<O: SeqObject, R: StepRows<O>> Model for ShapedRun<O, R> {
    ghost use Rattle.std.specs.Prelude.{◌≡◌, map};
    ghost use Rattle.event_log.specs.declared.entry.Run.{Run};
    ghost use Rattle.log_merge.specs.Shapes.{shape_of};

    ghost Value = { Run O O.Params O.Call O.Reply };

    ghost view = { λ s. s.run };

    ghost invariant = { λ s. s.transcripts.items ≡ map (map shape_of) s.run.transcripts };
}

impl<O: SeqObject, R: StepRows<O>> ShapedRun<O, R> {
    /// The run whose entries have these shapes.
    pub fn new(run: JudgedRun<O, R>, transcripts: Vec<Series<EntryShape>>) -> ShapedRun<O, R>
        requires { transcripts.items ≡ map (map shape_of) run.transcripts }
        ensures { result ≡ run }
    {
        ShapedRun { run, transcripts }
    }
}

impl ShapedRun<KernelObject, StepTexts> {
    /// The text of the steps of the event at that index of the object's log, if there is one: their words.
    #[inline(always)]
    pub(crate) fn text(&self, object: usize, index: usize) -> Option<&[u8]>
        ensures { option_map (λ text. words text.now) result ≡ option_map (λ e. separated (map step_words e.steps.list.items)) (slice_get (log_of object self.now) index) }
    {
        self.run.text(object, index)
    }
}

impl<O: SeqObject, R: StepRows<O>> RunShape<O> for ShapedRun<O, R> {
    ghost run = { λ run. run };

    #[inline(always)]
    fn cpus(&self) -> usize {
        self.transcripts.as_slice().len()
    }

    #[inline(always)]
    fn objects(&self) -> usize {
        self.run.objects()
    }

    #[inline(always)]
    fn entry(&self, cpu: usize, index: usize) -> Option<EntryShape> {
        let transcript = self.transcripts.as_slice().get(cpu)?;
        let entry = transcript.as_slice().get(index)?;
        Some(*entry)
    }

    #[inline(always)]
    fn event_cpu(&self, object: usize, index: usize) -> Option<usize> {
        self.run.event_cpu(object, index)
    }
}
