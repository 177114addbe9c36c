//! Orders for callers in C.

ghost use Rattle.std.specs.Prelude.{◌≡◌, ◌≤◌, ◌++◌, length, map, drop};
ghost use Rattle.judge.specs.Orders.{IsOrderReported, turn_of, places_report, room_with};

use crate::Report;
use crate::report::{BAD_LINE, CYCLE, NO_ROOM, OUT_OF_MEMORY, SOUND};
use auditor::ReferenceKernelObject;
use log_merge::{MergeFault, MergeJudge, Place};
use record_lines::LinesFault;
use records::read_text_into;
use std::alloc::Global;

/// An entry by its place: a CPU and the index of one of its entries, both from 0.
#[derive(Clone, Copy, Debug, PartialEq, Eq, Drop)]
#[repr(C)]
pub struct Turn {
    pub cpu: u64,
    pub entry: u64,
}

/// Writes the places at the front of the room.
fn put_turns(places: &[Place], room: &mut [Turn])
    requires { length places.now ≤ length room.old }
    ensures { room.new ≡ map turn_of places.now ++ drop (length places.now) room.old }
{
    for i in 0..places.len() {
        room[i] = Turn {
            cpu: places[i].cpu as u64,
            entry: places[i].entry as u64,
        };
    }
}

/// Reports the places under that kind, if there is room for them.
pub(crate) fn report_turns(kind: u32, places: &[Place], room: &mut [Turn]) -> Report
    ensures report { result ≡ places_report kind (length room.old) places.now }
    ensures room { room.new ≡ room_with places.now room.old }
{
    if places.len() > room.len() {
        return Report::new(NO_ROOM, places.len(), 0, 0);
    }
    put_turns(places, room);
    Report::new(kind, places.len(), 0, 0)
}

/// What is reported of the record that the bytes spell.
fn order_of(alloc: Global, text: &[u8], room: &mut [Turn]) -> Report
    ensures { IsOrderReported text.now room.old room.new result }
{
    let judge = MergeJudge::<ReferenceKernelObject>::new(alloc);
    let read = match read_text_into(alloc, text, judge) {
        Ok(read) => read,
        Err(LinesFault::OutOfMemory) => return Report::new(OUT_OF_MEMORY, 0, 0, 0),
        Err(LinesFault::Line(line)) => return Report::new(BAD_LINE, line, 0, 0),
    };
    match read.1.into_merged() {
        Ok(ordered) => report_turns(SOUND, ordered.1.places.as_slice(), room),
        Err(MergeFault::Cycle(cycle)) => report_turns(CYCLE, cycle.as_slice(), room),
        Err(MergeFault::Unsound(fault)) => Report::of_fault(fault),
        Err(MergeFault::OutOfMemory) => Report::new(OUT_OF_MEMORY, 0, 0, 0),
    }
}

/// Puts the entries of the record that the bytes spell in one order, and writes it at the front of the room; or the cycle that
/// excludes one.
#[unsafe(no_mangle)]
pub extern "C" fn mc2_merge(alloc: Global, text: &[u8], room: &mut [Turn], report: &mut Report)
    ensures { IsOrderReported text.now room.old room.new report.new }
{
    *report = order_of(alloc, text, room);
}
