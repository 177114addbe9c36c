//! Reading a record into a sink.

ghost use Rattle.std.specs.{Prelude.{◌≡◌, Some, Err, IfOk, IfErr}, Prelude.true};
ghost use Rattle.event_log.specs.Stream.{counted};
ghost use Rattle.kernel_words.specs.declared.form.Form.{Form};
ghost use Rattle.records.specs.{RecordFaults.text_in, RecordRanges.{RecordFits, RecordFitsIn, Record as Shown}, RecordSources.{SpellsRecord, NamesBadLineOfRest, IsReadFrom}, RecordStates.received_record, KernelForm.{no_head, settings_in}};
ghost use Rattle.record_lines.specs.{Received.{only_head, IsWholeWith}, Sources.IsReadOut, Then.ok_map};

use crate::record::reader::whole_parts;
use crate::record::state::RecordState;
use crate::{KernelForm, Settings};
use event_log::{OutOfMemory, Source};
use record_lines::{LinesFault, Pieces, RecordSink, SourceFault, TakesPieces, TextFault, feed_all};
use std::alloc::Global;

/// Reads the source to its end: the settings of the record that its bytes spell, and the sink, which was handed over the
/// rest of the record. Of the bytes no more is held than a line and a piece. A bad line is known as soon as it is there, and
/// then nothing is kept; but the source is read on, so that a bad line never hides that reading failed.
pub fn read_into<S: Source, K: RecordSink<KernelForm>>(
    alloc: Global,
    source: &mut S,
    sink: K,
) -> Result<(Settings, K), TextFault>
    requires { K.received sink ≡ only_head no_head }
    ensures found { IfOk result (λ given. SpellsRecord (S.remaining source.old) (received_record (K.received given.1))) }
    ensures settings { IfOk result (λ given. given.0 ≡ settings_in (K.received given.1).head) }
    ensures whole { IfOk result (λ given. IsWholeWith (K.received given.1).head (K.received given.1)) }
    ensures fit { IfOk result (λ given. RecordFits (received_record (K.received given.1))) }
    ensures only { (form : Form) (r : Shown) → RecordFitsIn form r → S.remaining source.old ≡ Some (text_in form r) →
        IsReadFrom r (ok_map (λ given. received_record (K.received given.1)) result) }
    ensures fault { IfErr result (NamesBadLineOfRest (S.remaining source.old)) }
    ensures to_end { (result ≡ Err TextFault.OutOfMemory → ⊥) → (result ≡ Err TextFault.ReadFailed → ⊥) →
        IsReadOut (S.remaining source.old) (S.remaining source.new) }
    ensures one_failed { result ≡ Err TextFault.ReadFailed → S.failed source.new ≡ counted true (S.failed source.old) }
    ensures no_other { (result ≡ Err TextFault.ReadFailed → ⊥) → S.failed source.new ≡ S.failed source.old }
{
    let mut pieces = Pieces::new(alloc, RecordState::new(alloc, sink));
    let mut buffer = [0u8; 4096];
    match feed_all(source, &mut pieces, &mut buffer) {
        Ok(()) => Ok(whole_parts(pieces)?),
        Err(SourceFault::Reported(LinesFault::Line(number))) => {
            match feed_all(source, &mut Skipping, &mut buffer) {
                Ok(()) => Err(TextFault::BadLine(number)),
                Err(SourceFault::ReadFailed) => Err(TextFault::ReadFailed),
                Err(SourceFault::Reported(OutOfMemory)) => Err(TextFault::OutOfMemory),
            }
        }
        Err(fault) => Err(TextFault::from(fault)),
    }
}

/// Takes all that is read, and keeps nothing of it.
#[derive(Drop)]
struct Skipping;

impl TakesPieces for Skipping {
    ghost use Rattle.record_lines.specs.Feeding.{TakesAny, RefusesAny};

    type Fault = OutOfMemory;

    ghost takes = { TakesAny };

    ghost refuses = { RefusesAny };

    fn take_piece(&mut self, _piece: &[u8]) -> Result<(), OutOfMemory> {
        Ok(())
    }

    fn out_of_memory() -> OutOfMemory {
        OutOfMemory
    }
}
