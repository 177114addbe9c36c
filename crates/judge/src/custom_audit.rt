//! Verdicts on records of one's own, for callers in C.

ghost use Rattle.std.specs.Prelude.{◌≡◌, IfOk};
ghost use Rattle.judge.specs.OwnReport.{IsOwnVerdictReported};

use crate::report::{BAD_LINE, MISTOLD, OUT_OF_MEMORY};
use crate::{CustomJudge, Report};
use custom_records::read_custom;
use event_log::OutOfMemory;
use record_lines::LinesFault;
use std::alloc::Global;

/// The counts once more.
pub(crate) fn copied(alloc: Global, counts: &[u64]) -> Result<Vec<u64>, OutOfMemory>
    ensures { IfOk result (λ copy. copy.items ≡ counts.now) }
{
    let mut copy = Vec::with_capacity(alloc, counts.len())?;
    copy.extend_from_slice(counts)?;
    Ok(copy)
}

/// What is reported of the record that the bytes spell, if of each log so many steps are right.
fn verdict_of(alloc: Global, text: &[u8], right: &[u64]) -> Report
    ensures { IsOwnVerdictReported text.now right.now result }
{
    let Ok(counts) = copied(alloc, right) else {
        return Report::new(OUT_OF_MEMORY, 0, 0, 0);
    };
    let read = match read_custom(alloc, text, CustomJudge::new(alloc, counts)) {
        Ok(read) => read,
        Err(LinesFault::OutOfMemory) => return Report::new(OUT_OF_MEMORY, 0, 0, 0),
        Err(LinesFault::Line(line)) => return Report::new(BAD_LINE, line, 0, 0),
    };
    // No clause says that a sink's own numbers stay while it is handed over a record, so they are compared.
    if read.1.right() != right {
        return Report::new(OUT_OF_MEMORY, 0, 0, 0);
    }
    match read.1.verdict() {
        Ok(verdict) => Report::of_verdict(verdict),
        Err(mistold) => Report::new(MISTOLD, mistold.object, 0, 0),
    }
}

/// Judges the record that the bytes spell, if of each log so many steps, from the first on, are right: reports whether it is sound,
/// or its first fault, by every model that has these counts.
#[unsafe(no_mangle)]
pub extern "C" fn mc2_custom_audit(alloc: Global, text: &[u8], right: &[u64], report: &mut Report)
    ensures { IsOwnVerdictReported text.now right.now report.new }
{
    *report = verdict_of(alloc, text, right);
}
