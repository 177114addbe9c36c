//! Reading a source to its end, piece by piece.

ghost use Rattle.std.specs.Prelude.{◌≡◌, ◌<◌, ◌++◌, true, ℕ, List, [], length, Err, IfErr, OnOk};
ghost use Rattle.event_log.specs.Stream.{counted};
ghost use Rattle.record_lines.specs.{Feeding.{HasTakenRest, HasRefused}, Sources.IsReadOut};

use event_log::Source;

/// Why the text of a source was not read.
#[derive(Clone, Copy, Debug, PartialEq, Eq, Drop)]
pub enum SourceFault<F> {
    ReadFailed,
    /// The fault that the taker of the text reports.
    Reported(F),
}

/// The taker of a text that comes in pieces.
pub trait TakesPieces: Drop {
    /// Why a piece is not taken.
    type Fault: Drop;

    /// From the first on the text was taken, and nothing else.
    ghost takes: { Self → List ℕ → Self → Type 0 };

    /// From the first on the text is refused with that fault, however it goes on.
    ghost refuses: { Self → List ℕ → Self.Fault → Type 0 };

    /// Takes the next piece.
    fn take_piece(&mut self, piece: &[u8]) -> Result<(), Self::Fault>
        requires { (first : Self) × (text : List ℕ) × takes first text self.old }
        ensures ok { (first : Self) (text : List ℕ) → takes first text self.old → OnOk result (takes first (text ++ piece.now) self.new) }
        ensures refused { (first : Self) (text : List ℕ) → takes first text self.old → IfErr result (refuses first (text ++ piece.now)) };

    /// That memory ran out.
    fn out_of_memory() -> Self::Fault
        ensures { (first : Self) (text : List ℕ) → refuses first text result };
}

/// Hands the rest of the source to its taker, in pieces that the buffer has room for. What is refused ends it.
pub fn feed_all<S: Source, P: TakesPieces>(
    source: &mut S,
    reader: &mut P,
    buffer: &mut [u8],
) -> Result<(), SourceFault<P::Fault>>
    requires first { P.takes reader.old [] reader.old }
    requires room { 0 < length buffer.old }
    ensures taken { OnOk result (HasTakenRest (P.takes reader.old) (S.remaining source.old) reader.new) }
    ensures to_end { OnOk result (IsReadOut (S.remaining source.old) (S.remaining source.new)) }
    ensures refused { (f : P.Fault) → result ≡ Err (SourceFault.Reported f) →
        HasRefused (P.refuses reader.old) (S.remaining source.old) (S.remaining source.new) f }
    ensures none_failed { OnOk result (S.failed source.new ≡ S.failed source.old) }
    ensures one_failed { result ≡ Err SourceFault.ReadFailed → S.failed source.new ≡ counted true (S.failed source.old) }
    ensures no_other { (result ≡ Err SourceFault.ReadFailed → ⊥) → S.failed source.new ≡ S.failed source.old }
{
    for _ in 0..u64::MAX {
        let Ok(count) = source.read(buffer) else {
            return Err(SourceFault::ReadFailed);
        };
        if count == 0 {
            return Ok(());
        }
        match reader.take_piece(&buffer[..count]) {
            Ok(()) => {}
            Err(fault) => return Err(SourceFault::Reported(fault)),
        }
    }
    // No text has as many pieces, and no memory could hold one.
    Err(SourceFault::Reported(P::out_of_memory()))
}
