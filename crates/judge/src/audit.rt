//! Verdicts for callers in C.

ghost use Rattle.judge.specs.Report.{IsVerdictReported};

use crate::Report;
use crate::report::{BAD_LINE, OUT_OF_MEMORY};
use auditor::{RecordJudge, ReferenceKernelObject};
use record_lines::LinesFault;
use records::read_text_into;
use std::alloc::Global;

/// What is reported of the record that the bytes spell.
fn verdict_of(alloc: Global, text: &[u8]) -> Report
    ensures { IsVerdictReported text.now result }
{
    let judge = RecordJudge::<ReferenceKernelObject>::new(alloc);
    match read_text_into(alloc, text, judge) {
        Ok(read) => Report::of_verdict(read.1.verdict()),
        Err(LinesFault::OutOfMemory) => Report::new(OUT_OF_MEMORY, 0, 0, 0),
        Err(LinesFault::Line(line)) => Report::new(BAD_LINE, line, 0, 0),
    }
}

/// Judges the record that the bytes spell, and reports whether it is sound, or its first fault.
#[unsafe(no_mangle)]
pub extern "C" fn mc2_audit(alloc: Global, text: &[u8], report: &mut Report)
    ensures { IsVerdictReported text.now report.new }
{
    *report = verdict_of(alloc, text);
}
