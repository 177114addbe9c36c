//! A record in one order.

ghost use Rattle.std.specs.{Prelude.{◌≡◌, true, OnOk, OnErr}, Io.KnownBytes.Appends};
ghost use Rattle.event_log.specs.Stream.{counted};
ghost use Rattle.log_merge.specs.MergedText.{merged_text};
ghost use Rattle.record_lines.specs.Output.{AppendsBeginning};
ghost use Rattle.sound_run.specs.Orders.{IsOrder};

use crate::record_merge::Merged;
use crate::run_lines::write_order;
use crate::shaped_run::ShapedRun;
use event_log::Sink;
use kernel_object::KernelObject;
use record_lines::WriteFailed;
use records::{Settings, StepTexts};
use std::marker::Model;

/// The settings of a record, its run in its shape, and the one order of its entries.
#[derive(Drop)]
pub struct OrderedRecord {
    settings: Settings,
    run: ShapedRun<KernelObject, StepTexts>,
    merged: Merged,
}

impl Model for OrderedRecord {
    ghost use Rattle.log_merge.specs.Ordered.{Ordered};
    ghost use Rattle.sound_run.specs.Orders.{IsOrder};

    ghost Value = { Ordered };

    ghost view = { λ r. record { of = record { settings = r.settings; run = r.run }; places = r.merged.places } };

    ghost invariant = { λ r. IsOrder r.run r.merged.places };
}

impl OrderedRecord {
    /// The record of these settings and this run, in that order.
    pub fn new(
        settings: Settings,
        run: ShapedRun<KernelObject, StepTexts>,
        merged: Merged,
    ) -> OrderedRecord
        requires { IsOrder run merged.places }
        ensures { result ≡ record { of = record { settings = settings; run = run }; places = merged.places } }
    {
        OrderedRecord {
            settings,
            run,
            merged,
        }
    }

    /// Writes a line for each place: its CPU, its entry's object and steps, or `noroom`. It takes no memory.
    pub fn write<W: Sink>(&self, out: &mut W) -> Result<(), WriteFailed>
        ensures ok { OnOk result (Appends (W.contents out.old) (W.contents out.new) (merged_text self.now.of self.now.places)) }
        ensures none_failed { OnOk result (W.failed out.new ≡ W.failed out.old) }
        ensures err { OnErr result (AppendsBeginning (W.contents out.old) (W.contents out.new) (merged_text self.now.of self.now.places)) }
        ensures one_failed { OnErr result (W.failed out.new ≡ counted true (W.failed out.old)) }
    {
        write_order(&self.settings, &self.run, &self.merged, out)
    }
}
