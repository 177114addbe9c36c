//! Single lines of records of one's own, for callers in C.

ghost use Rattle.std.specs.{Prelude.{◌≡◌, ◌≤◌, length, None, IfSome, IfNone}, Option.option_map};
ghost use Rattle.judge.specs.OwnLines.{IsLineAt, IsLineReported, any_log_at, object_report, log_report, event_report, words_report};
ghost use Rattle.custom_records.specs.LineReading.{any_head, custom_object_at, custom_event_at};
ghost use Rattle.record_lines.specs.{Reading.{left, words}, LineParts.name_word_at};

use crate::LineReport;
use crate::custom_report::{put_numbers, put_steps};
use custom_records::{
    CustomHead, CustomName, CustomObject, CustomSettings, Spoken, event_line, is_number_next,
    log_line, object_line,
};
use event_log::{Event, Steps};
use record_lines::{Words, key, name_in, split_line, word};
use std::alloc::Global;

/// No line with its end begins there.
pub const NO_LINE: u32 = 0;

/// An object's line.
pub const OBJECT_LINE: u32 = 1;

/// The head of a log.
pub const LOG_LINE: u32 = 2;

/// An event's line.
pub const EVENT_LINE: u32 = 3;

/// Another line.
pub const OTHER_LINE: u32 = 4;

/// The line that begins at that byte, if it has its end.
fn line_from(text: &[u8], at: usize) -> Option<&[u8]>
    ensures found { IfSome result (λ line. IsLineAt text.now at line.now) }
    ensures none { (line : _) → IfNone result (IsLineAt text.now at line → ⊥) }
{
    if at > text.len() {
        return None;
    }
    let (_, rest) = text.split_at(at);
    let (line, _) = split_line(rest)?;
    Some(line)
}

/// The name that is next.
#[tactic(auto, unfolding(record_lines::specs::LineParts::name_word_at))]
fn name(at: Words<'_>) -> Option<CustomName>
    ensures { option_map (λ x. x.bytes) result ≡ option_map (λ x. x.0) (name_word_at (left at.entry)) }
{
    let (word, _) = word(at)?;
    name_in(word)
}

/// The name of a log, and how many events its head says that it has.
#[tactic(auto, unfolding(crate::specs::OwnLines::any_log_at))]
fn any_log(line: &[u8]) -> Option<(CustomName, u32)>
    ensures { option_map (λ x. (x.0.bytes, x.1)) result ≡ any_log_at (words line.now) }
{
    // Most lines are events, which have another first word.
    let Some(_) = key(b"log", Some(line)) else {
        return None;
    };
    let (_, rest) = word(Some(line))?;
    let name = name(rest)?;
    let count = log_line(name.as_str().as_bytes(), line)?;
    Some((name, count))
}

/// A head of 256 CPUs and no objects, in which no word refuses.
fn head_of_any(alloc: Global) -> CustomHead
    ensures { result ≡ any_head }
{
    CustomHead {
        cpus: 256,
        objects: Vec::new(alloc),
        refusing: Vec::new(alloc),
    }
}

fn report_object(object: &CustomSettings, report: &mut LineReport)
    ensures { report.new ≡ object_report report.old object.now }
{
    report.kind = OBJECT_LINE;
    report.limit = u64::from(object.events);
    report.count = object.numbers.len() as u64;
    report.name = Spoken::of_word(object.name.as_str().as_bytes()).letters();
    report.object_kind = Spoken::of_word(object.kind.as_str().as_bytes()).letters();
    put_numbers(object.numbers.as_slice(), &mut report.numbers);
}

fn report_log(name: &[u8], count: u32, report: &mut LineReport)
    requires { length name.now ≤ 16 }
    ensures { report.new ≡ log_report report.old (name.now, count) }
{
    report.kind = LOG_LINE;
    report.limit = u64::from(count);
    report.name = Spoken::of_word(name).letters();
}

fn report_event(event: &Event<CustomObject>, report: &mut LineReport)
    ensures { report.new ≡ event_report report.old event.now }
{
    report.kind = EVENT_LINE;
    report.cpu = u32::from(event.cpu);
    report.count = event.steps.list.len() as u64;
    put_steps(event.steps.list.as_slice(), &mut report.steps);
}

/// Reports what the line is, which is an event's or another.
fn report_event_or_other(alloc: Global, line: &[u8], report: &mut LineReport)
    ensures { report.new ≡ words_report report.old None None (custom_event_at any_head (words line.now)) }
{
    let mut event = Event {
        cpu: 0,
        steps: Steps::default(),
    };
    match event_line(&head_of_any(alloc), line, &mut event) {
        Some(_) => report_event(&event, report),
        None => report.kind = OTHER_LINE,
    }
}

/// Reports what the line is, whichever it is.
#[inline(never)]
fn report_any(alloc: Global, line: &[u8], report: &mut LineReport)
    ensures { report.new ≡ words_report report.old (custom_object_at (words line.now)) (any_log_at (words line.now)) (custom_event_at any_head (words line.now)) }
{
    if let Some(object) = object_line(line) {
        return report_object(&object, report);
    }
    if let Some((name, count)) = any_log(line) {
        return report_log(name.as_str().as_bytes(), count, report);
    }
    report_event_or_other(alloc, line, report)
}

/// Reports what the line is.
fn report_line(alloc: Global, line: &[u8], report: &mut LineReport)
    ensures { report.new ≡ words_report report.old (custom_object_at (words line.now)) (any_log_at (words line.now)) (custom_event_at any_head (words line.now)) }
{
    // Most lines are events, and no other begins with a digit.
    if is_number_next(Some(line)) {
        return report_event_or_other(alloc, line, report);
    }
    report_any(alloc, line, report)
}

/// Reports what the line is that begins at that byte of the text, and where the one behind it begins.
#[unsafe(no_mangle)]
pub extern "C" fn mc2_custom_line(alloc: Global, text: &[u8], at: usize, report: &mut LineReport)
    ensures { IsLineReported text.now at report.old report.new }
{
    match line_from(text, at) {
        None => report.kind = NO_LINE,
        Some(line) => {
            report.next = (at + line.len() + 1) as u64;
            report_line(alloc, line, report);
        }
    }
}
