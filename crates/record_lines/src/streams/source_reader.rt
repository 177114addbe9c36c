//! Reading a source to its end.

ghost use Rattle.std.specs.Prelude.{◌≡◌, true, ℕ, List, Some, Err, IfOk, OnOk};
ghost use Rattle.event_log.specs.Stream.{counted};

use crate::streams::feeding::{SourceFault, TakesPieces, feed_all};
use event_log::{OutOfMemory, Source};
use std::alloc::Global;

/// All bytes of the source.
pub fn read_all<S: Source>(
    alloc: Global,
    source: &mut S,
) -> Result<Vec<u8>, SourceFault<OutOfMemory>>
    ensures whole { IfOk result (λ bytes. (all : List ℕ) → S.remaining source.old ≡ Some all → bytes.items ≡ all) }
    ensures none_failed { OnOk result (S.failed source.new ≡ S.failed source.old) }
    ensures one_failed { result ≡ Err SourceFault.ReadFailed → S.failed source.new ≡ counted true (S.failed source.old) }
    ensures no_other { (result ≡ Err SourceFault.ReadFailed → ⊥) → S.failed source.new ≡ S.failed source.old }
{
    let mut bytes = Vec::new(alloc);
    let mut buffer = [0u8; 65536];
    match feed_all(source, &mut bytes, &mut buffer) {
        Ok(()) => Ok(bytes),
        Err(fault) => Err(fault),
    }
}

impl TakesPieces for Vec<u8> {
    ghost use Rattle.std.specs.Prelude.{◌≡◌, ◌++◌};
    ghost use Rattle.record_lines.specs.Feeding.{RefusesAny};

    type Fault = OutOfMemory;

    ghost takes = { λ first text now. now.items ≡ first.items ++ text };

    ghost refuses = { RefusesAny };

    fn take_piece(&mut self, piece: &[u8]) -> Result<(), OutOfMemory> {
        match self.extend_from_slice(piece) {
            Ok(()) => Ok(()),
            Err(_) => Err(OutOfMemory),
        }
    }

    fn out_of_memory() -> OutOfMemory {
        OutOfMemory
    }
}
