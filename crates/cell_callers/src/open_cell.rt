//! A cell that C has opened.

ghost use Rattle.std.specs.Prelude.{◌≡◌, ◌<◌};
ghost use Rattle.std_alloc.specs.Arc.{arc_value};
ghost use Rattle.guarded_cell.specs.Kinds.{fixed_of};
ghost use Rattle.cell_callers.specs.{Facts.of_props, OpenCells.{AreHome, IsBack}};

use event_log::SeqObject;
use guarded_cell::AnyCell;
use std::alloc::Global;
use std::sync::Arc;
use word_rule::Pass;

/// A cell with the passes that no caller has: those that weren't given out yet, and one that joins all that were returned.
#[derive(Drop)]
pub struct OpenCell<O: SeqObject> {
    pub cell: Arc<AnyCell<O>, Global>,
    /// Pass k owns the CPU k.
    pub passes: Vec<Pass<O>>,
    /// It owns the CPUs that were returned, which are the first.
    pub home: Option<Pass<O>>,
    pub back: u8,
    pub cpus: u8,
    pub ghost of: { AreHome (arc_value cell) passes.items } by { Prim.hlevel of_props },
    pub ghost returned: { IsBack (arc_value cell) back home } by { Prim.hlevel of_props },
    pub ghost some: { (fixed_of (arc_value cell)).numbers ≡ cpus },
    pub ghost any: { 0 < cpus },
}
