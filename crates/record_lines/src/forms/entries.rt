//! Handing over the entries of a record.

ghost use Rattle.std.specs.Prelude.{◌≡◌, true, false, Some, None, Ok, Err, OnOk, OnErr};
ghost use Rattle.record_lines.specs.{FormAgreed.Agree, Received.with_entry, declared.forms.place.Next.TheVariants.{Entry as AwaitsEntry}};

use crate::forms::place::ReaderPlace;
use crate::{LineFault, RecordForm, RecordSink};
use event_log::OutOfMemory;

/// Hands over the entry of the line by its text, if the sink recognises it so.
#[inline(always)]
fn is_recognised<F: RecordForm, K: RecordSink<F>>(
    at: &ReaderPlace<F::Head>,
    sink: &mut K,
    line: &[u8],
) -> Result<bool, OutOfMemory>
    requires place { at.now.awaits ≡ AwaitsEntry }
    requires agree { Agree F.RecordForm at.now (K.received sink.old) }
    ensures known { result ≡ Ok true → (e : F.Entry) × (F.entry_at at.now.head line.now ≡ Some e) × (K.received sink.new ≡ with_entry (K.received sink.old) e) × F.EntryFits at.now.head e }
    ensures unknown { result ≡ Ok false → K.received sink.new ≡ K.received sink.old }
    ensures err { OnErr result (K.received sink.new ≡ K.received sink.old) }
{
    match F::entry_front(&at.head, line) {
        Some((object, looks, tail)) => sink.recognises(object, looks, tail),
        None => Ok(false),
    }
}

/// Hands over the entry that the line spells, after reading it.
#[inline(always)]
fn hand_over_read<F: RecordForm, K: RecordSink<F>>(
    at: &ReaderPlace<F::Head>,
    sink: &mut K,
    entry: &mut F::Entry,
    line: &[u8],
) -> Result<(), LineFault>
    requires place { at.now.awaits ≡ AwaitsEntry }
    requires agree { Agree F.RecordForm at.now (K.received sink.old) }
    ensures ok { OnOk result ((e : F.Entry) × (F.entry_at at.now.head line.now ≡ Some e) × (K.received sink.new ≡ with_entry (K.received sink.old) e) × F.EntryFits at.now.head e) }
    ensures err { OnErr result (K.received sink.new ≡ K.received sink.old) }
    ensures refused { result ≡ Err LineFault.Refused → F.entry_at at.now.head line.now ≡ None }
{
    let Some(()) = F::entry_line(&at.head, line, entry) else {
        return Err(LineFault::Refused);
    };
    sink.entry(entry)?;
    Ok(())
}

/// Hands over the entry that the line spells.
#[inline(always)]
pub(crate) fn hand_over_entry<F: RecordForm, K: RecordSink<F>>(
    at: &ReaderPlace<F::Head>,
    sink: &mut K,
    entry: &mut F::Entry,
    line: &[u8],
) -> Result<(), LineFault>
    requires place { at.now.awaits ≡ AwaitsEntry }
    requires agree { Agree F.RecordForm at.now (K.received sink.old) }
    ensures ok { OnOk result ((e : F.Entry) × (F.entry_at at.now.head line.now ≡ Some e) × (K.received sink.new ≡ with_entry (K.received sink.old) e) × F.EntryFits at.now.head e) }
    ensures err { OnErr result (K.received sink.new ≡ K.received sink.old) }
    ensures refused { result ≡ Err LineFault.Refused → F.entry_at at.now.head line.now ≡ None }
{
    if is_recognised::<F, K>(at, sink, line)? {
        return Ok(());
    }
    hand_over_read::<F, K>(at, sink, entry, line)
}
