//! Writing a merged record.

ghost use Rattle.std.specs.{Prelude.{◌≡◌, true, [], ◌∷◌, map, OnOk, OnErr}, Io.KnownBytes.Appends};
ghost use Rattle.event_log.specs.Stream.{counted};
ghost use Rattle.log_merge.specs.MergedText.{entry_words, place_words, merged_text};
ghost use Rattle.record_lines.specs.Output.{AppendsBeginning, PutsLines};
ghost use Rattle.records.specs.Settings.{name_at};

use crate::entry_lookup::entry_at;
use crate::record_merge::Merged;
use event_log::{Entry, Run, Sink};
use kernel_object::KernelObject;
use record_lines::{Buffered, WriteFailed, begin_line, end_line, put_word};
use records::{Record, Settings, put_done};
use sound_run::Place;

/// The name of the object at that place, from 0.
pub(crate) fn name_of(settings: &Settings, object: u8) -> &[u8]
    ensures { result.now ≡ name_at settings.entry.now object }
{
    match settings.objects().get(object as usize) {
        Some(object) => object.name(),
        None => b"",
    }
}

fn put_entry<W: Sink>(
    text: &mut Buffered<W>,
    settings: &Settings,
    cpu: usize,
    entry: &Entry<KernelObject>,
)
    ensures { PutsLines W.Sink text.old text.new (entry_words settings.now cpu entry.now ∷ []) }
{
    begin_line(text, cpu as u64);
    put_word(text, name_of(settings, entry.object));
    put_done(text, &entry.done);
    end_line(text);
}

/// Puts the line of the entry at the place.
fn put_place<W: Sink>(
    text: &mut Buffered<W>,
    settings: &Settings,
    run: &Run<KernelObject>,
    place: Place,
)
    ensures { PutsLines W.Sink text.old text.new (place_words settings.now run.now place ∷ []) }
{
    let Some(entry) = entry_at(run, place.cpu, place.entry) else {
        end_line(text);
        return;
    };
    put_entry(text, settings, place.cpu, entry);
}

fn put_places<W: Sink>(
    text: &mut Buffered<W>,
    settings: &Settings,
    run: &Run<KernelObject>,
    places: &[Place],
)
    ensures { PutsLines W.Sink text.old text.new (map (place_words settings.now run.now) places.now) }
{
    for place in places {
        put_place(text, settings, run, *place);
    }
}

/// Writes a line for each place: its CPU, its entry's object and steps, or `noroom`. It takes no memory. A place where the
/// record has no entry has an empty line; an order has none such.
pub fn write_merged<W: Sink>(
    record: &Record,
    merged: &Merged,
    out: &mut W,
) -> Result<(), WriteFailed>
    ensures ok { OnOk result (Appends (W.contents out.old) (W.contents out.new) (merged_text «record».now merged.now.places)) }
    ensures none_failed { OnOk result (W.failed out.new ≡ W.failed out.old) }
    ensures err { OnErr result (AppendsBeginning (W.contents out.old) (W.contents out.new) (merged_text «record».now merged.now.places)) }
    ensures one_failed { OnErr result (W.failed out.new ≡ counted true (W.failed out.old)) }
{
    let mut text = Buffered::new(out);
    put_places(
        &mut text,
        record.settings(),
        record.run(),
        merged.places.as_slice(),
    );
    text.finish()
}
