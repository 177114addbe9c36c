//! Orders of records of one's own, for callers in C.

ghost use Rattle.judge.specs.OwnOrders.{IsOwnOrderReported};

use crate::custom_audit::copied;
use crate::merge::report_turns;
use crate::report::{BAD_LINE, CYCLE, MISTOLD, OUT_OF_MEMORY, SOUND};
use crate::{CustomMergeFault, CustomMergeJudge, Report, Turn};
use custom_records::read_custom;
use record_lines::LinesFault;
use std::alloc::Global;

/// What is reported of the record that the bytes spell, if of each log so many steps are right.
fn order_of(alloc: Global, text: &[u8], right: &[u64], room: &mut [Turn]) -> Report
    ensures { IsOwnOrderReported text.now right.now room.old room.new result }
{
    let Ok(counts) = copied(alloc, right) else {
        return Report::new(OUT_OF_MEMORY, 0, 0, 0);
    };
    let read = match read_custom(alloc, text, CustomMergeJudge::new(alloc, counts)) {
        Ok(read) => read,
        Err(LinesFault::OutOfMemory) => return Report::new(OUT_OF_MEMORY, 0, 0, 0),
        Err(LinesFault::Line(line)) => return Report::new(BAD_LINE, line, 0, 0),
    };
    // No clause says that a sink's own numbers stay while it is handed over a record, so they are compared.
    if read.1.right() != right {
        return Report::new(OUT_OF_MEMORY, 0, 0, 0);
    }
    match read.1.into_merged() {
        Ok(places) => report_turns(SOUND, places.as_slice(), room),
        Err(CustomMergeFault::Cycle(cycle)) => report_turns(CYCLE, cycle.as_slice(), room),
        Err(CustomMergeFault::Unsound(fault)) => Report::of_fault(fault),
        Err(CustomMergeFault::Mistold(mistold)) => Report::new(MISTOLD, mistold.object, 0, 0),
        Err(CustomMergeFault::OutOfMemory) => Report::new(OUT_OF_MEMORY, 0, 0, 0),
    }
}

/// Puts the entries of the record that the bytes spell in one order, if of each log so many steps, from the first on, are right,
/// and writes it at the front of the room; or the cycle that excludes one.
#[unsafe(no_mangle)]
pub extern "C" fn mc2_custom_merge(
    alloc: Global,
    text: &[u8],
    right: &[u64],
    room: &mut [Turn],
    report: &mut Report,
)
    ensures { IsOwnOrderReported text.now right.now room.old room.new report.new }
{
    *report = order_of(alloc, text, right, room);
}
