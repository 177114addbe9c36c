//! Reading the first bytes of a source.

ghost use Rattle.std.specs.{Prelude.{◌≡◌, ◌<◌, ◌≤◌, true, length, Err, IfOk, OnOk}, Io.KnownBytes.Consumes};
ghost use Rattle.event_log.specs.Stream.{counted};
ghost use Rattle.record_lines.specs.{Sources.IsRest, Sources.ReadsAtMost};

use crate::SourceFault;
use event_log::{OutOfMemory, Source};
use std::alloc::Global;

/// The first bytes of the source: so many, or all if it has fewer. No more are read.
pub fn read_up_to<S: Source>(
    alloc: Global,
    source: &mut S,
    most: usize,
) -> Result<Vec<u8>, SourceFault<OutOfMemory>>
    ensures few { IfOk result (λ bytes. length bytes.items ≤ most) }
    ensures front { IfOk result (λ bytes. Consumes (S.remaining source.old) (S.remaining source.new) bytes.items) }
    ensures whole { IfOk result (λ bytes. length bytes.items < most → IsRest (S.remaining source.old) bytes.items) }
    ensures few_read { ReadsAtMost most (S.remaining source.old) (S.remaining source.new) }
    ensures none_failed { OnOk result (S.failed source.new ≡ S.failed source.old) }
    ensures one_failed { result ≡ Err SourceFault.ReadFailed → S.failed source.new ≡ counted true (S.failed source.old) }
    ensures no_other { (result ≡ Err SourceFault.ReadFailed → ⊥) → S.failed source.new ≡ S.failed source.old }
{
    let mut bytes = Vec::new(alloc);
    let mut left = most;
    while left > 0 {
        let mut buffer = [0u8; 4096];
        let room = smaller(left, buffer.len());
        let front = &mut buffer[..room];
        let Ok(count) = source.read(front) else {
            return Err(SourceFault::ReadFailed);
        };
        if count == 0 {
            return Ok(bytes);
        }
        if bytes.extend_from_slice(&front[..count]).is_err() {
            return Err(SourceFault::Reported(OutOfMemory));
        }
        left -= count;
    }
    Ok(bytes)
}

/// The smaller number.
fn smaller(one: usize, other: usize) -> usize
    ensures one { result ≤ one }
    ensures other { result ≤ other }
    ensures some { 0 < one → 0 < other → 0 < result }
{
    if one < other { one } else { other }
}
