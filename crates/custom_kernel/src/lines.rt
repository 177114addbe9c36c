//! An object of the kernel and its log among the lines of a text, for callers in C.

ghost use Rattle.std.specs.{Prelude.{◌≡◌, ◌++◌, [], true, drop, MatchOption, IfSome, IfOk}, Option.option_map};
ghost use Rattle.event_log.specs.Log.{steps_of};
ghost use Rattle.kernel_object.specs.Kernel.{kernel_in_range};
ghost use Rattle.custom_records.specs.LineReading.{any_head};
ghost use Rattle.custom_kernel.specs.Lines.{line_of, events_at, event_of, events_of, head_from, params_from_line, IsKernelCount, NoKernelLog};
ghost use Rattle.record_lines.specs.Reading.{words};

use crate::{KernelCount, kernel_params};
use custom_records::{CustomHead, CustomObject, event_line, log_line, object_line};
use event_log::{Event, OutOfMemory, Steps};
use kernel_object::KParams;
use record_lines::{name_in, split_line, word};
use std::alloc::Global;

/// The first line, and what stands behind it.
fn first_line(text: &[u8]) -> Option<(&[u8], &[u8])>
    ensures { option_map (λ l. (l.0.now, l.1.now)) result ≡ line_of text.now }
{
    split_line(text)
}

/// The line that begins at that byte, and what stands behind it.
fn line_from(text: &[u8], at: usize) -> Option<(&[u8], &[u8])>
    ensures { option_map (λ l. (l.0.now, l.1.now)) result ≡ line_of (drop at text.now) }
{
    if at > text.len() {
        return None;
    }
    let (_, rest) = text.split_at(at);
    first_line(rest)
}

/// What the object whose line begins at that byte is opened with.
fn params_from(text: &[u8], at: usize) -> Option<KParams>
    ensures params { result ≡ params_from_line text.now at }
    ensures able { IfSome result (λ p. kernel_in_range p ≡ true) }
{
    let (line, _) = line_from(text, at)?;
    let object = object_line(line)?;
    kernel_params(object.kind.as_str().as_bytes(), object.numbers.as_slice())
}

/// How many events the head of a log says.
#[tactic(auto, unfolding(crate::specs::Lines::events_at, record_lines::specs::LineParts::name_word_at))]
fn events_said(line: &[u8]) -> Option<u32>
    ensures { result ≡ events_at (words line.now) }
{
    let (_, rest) = word(Some(line))?;
    let (name, _) = word(rest)?;
    let name = name_in(name)?;
    log_line(name.as_str().as_bytes(), line)
}

/// How many events the head that begins at that byte says, and what stands behind it.
fn log_from(text: &[u8], at: usize) -> Option<(u32, &[u8])>
    ensures { option_map (λ h. (h.0, h.1.now)) result ≡ head_from text.now at }
{
    let (line, rest) = line_from(text, at)?;
    let events = events_said(line)?;
    Some((events, rest))
}

/// A head of 256 CPUs and no objects, in which no word refuses.
fn head_of_any(alloc: Global) -> CustomHead
    ensures { result ≡ any_head }
{
    CustomHead {
        cpus: 256,
        objects: Vec::new(alloc),
        refusing: Vec::new(alloc),
    }
}

/// The event of the first line, and what stands behind it.
fn next_event<'a>(head: &CustomHead, text: &'a [u8]) -> Option<(Event<CustomObject>, &'a [u8])>
    requires { head.now ≡ any_head }
    ensures { option_map (λ e. (e.0, e.1.now)) result ≡ event_of text.now }
{
    let (line, rest) = first_line(text)?;
    let mut event = Event {
        cpu: 0,
        steps: Steps::default(),
    };
    event_line(head, line, &mut event)?;
    Some((event, rest))
}

/// Counts the steps of up to so many events that begin the text.
fn count_events(head: &CustomHead, most: u32, text: &[u8], count: &mut KernelCount)
    requires head { head.now ≡ any_head }
    requires none { count.old.steps ≡ [] }
    ensures params { count.new.params ≡ count.old.params }
    ensures steps { count.new.steps ≡ steps_of (events_of most text.now) }
{
    let mut left = text;
    for _done in 0..most {
        let Some((event, rest)) = next_event(head, left) else {
            return;
        };
        count.event(&event);
        left = rest;
    }
}

/// Of the object of one of the four kinds whose line begins at the byte `object`, how many steps of its log are right from the
/// first on. The head of that log begins at the byte `log`. None if no such object and no such head begin there.
pub fn kernel_count(
    alloc: Global,
    text: &[u8],
    object: usize,
    log: usize,
) -> Result<Option<u64>, OutOfMemory>
    ensures { IfOk result (λ found. MatchOption found (NoKernelLog text.now object log) (λ n. IsKernelCount text.now object log n)) }
{
    let Some(params) = params_from(text, object) else {
        return Ok(None);
    };
    let Some((most, rest)) = log_from(text, log) else {
        return Ok(None);
    };
    let mut count = KernelCount::open(alloc, &params)?;
    count_events(&head_of_any(alloc), most, rest, &mut count);
    Ok(Some(count.right()))
}
