//! A record's entries in one order.

ghost use Rattle.std.specs.{Prelude.{◌≡◌, ◌<◌, Err, List, IfOk, IfErr}, List.AllByRecursion};
ghost use Rattle.auditor.specs.{Faults.IsFirstFault, VerdictText.IsNamed};
ghost use Rattle.log_merge.specs.MergedRecords.{IsMerged, HasCycle};
ghost use Rattle.records.specs.Runs.{opened_of};
ghost use Rattle.sound_run.specs.{Orders.HasOrder, Sound.Sound};

use crate::run_merge::{Merging, merge_run};
use auditor::{Fault, Verdict, audit};
use event_log::{OutOfMemory, SeqObject, Series};
use kernel_object::KernelObject;
use records::{MOST_ENTRIES, Record};
use sound_run::Place;
use std::alloc::Global;

/// The entries of a record in one order.
#[derive(Debug, Drop)]
pub struct Merged {
    pub places: Series<Place>,
}

/// Why no order is given.
#[derive(Debug, Drop)]
pub enum MergeFault {
    OutOfMemory,
    /// The record isn't sound: the first fault.
    Unsound(Fault),
    /// There is no order: entries of different CPUs, each of which has to come behind one that comes behind the next one, and
    /// the last behind one that comes behind the first.
    Cycle(Series<Place>),
}

impl From<OutOfMemory> for MergeFault {
    ghost use Rattle.log_merge.specs.declared.record_merge.MergeFault.TheVariants.{OutOfMemory};

    ghost from_gives = { λ _ fault. fault ≡ OutOfMemory };

    fn from(fault: OutOfMemory) -> MergeFault {
        let OutOfMemory = fault;
        MergeFault::OutOfMemory
    }
}

/// One order over all entries of the record: each CPU's in theirs, those done on an object in its log's, and those without
/// room behind all that were done on their object. At each place stands the least CPU that can come. A sound record that has
/// an order is refused for want of memory alone.
pub fn merge(alloc: Global, record: &Record) -> Result<Merged, MergeFault>
    ensures unsound { (f : Fault) → result ≡ Err (MergeFault.Unsound f) →
        IsFirstFault ⟦<KernelObject as SeqObject>⟧ (opened_of «record».now.settings) «record».now.run f }
    ensures reported { (f : Fault) → result ≡ Err (MergeFault.Unsound f) → IsNamed «record».now.settings f }
    ensures order { IfOk result (λ m. IsMerged ⟦<KernelObject as SeqObject>⟧ (opened_of «record».now.settings) «record».now.run m.places) }
    ensures cycle { (c : List Place) → result ≡ Err (MergeFault.Cycle c) →
        HasCycle ⟦<KernelObject as SeqObject>⟧ (opened_of «record».now.settings) «record».now.run c }
    ensures given { Sound ⟦<KernelObject as SeqObject>⟧ (opened_of «record».now.settings) «record».now.run → HasOrder «record».now.run →
        IfErr result (λ f. f ≡ MergeFault.OutOfMemory) }
    ensures few { (c : List Place) → result ≡ Err (MergeFault.Cycle c) → AllByRecursion (λ p. p.entry < MOST_ENTRIES) c }
{
    let verdict = audit(alloc, record)?;
    match verdict {
        Verdict::Unsound(fault) => Err(MergeFault::Unsound(fault)),
        Verdict::Sound => {
            let merging = merge_run(alloc, record.run())?;
            match merging {
                Merging::Order(places) => Ok(Merged { places }),
                Merging::Cycle(cycle) => Err(MergeFault::Cycle(cycle)),
            }
        }
    }
}
