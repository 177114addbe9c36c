//! The report of a run: what the entries on each object cost.

ghost use Rattle.std.specs.Prelude.{◌≡◌, ◌<◌, ◌^◌, [], ◌∷◌, ◌++◌, length, string_bytes, IfOk, OnOk};
ghost use Rattle.record_lines.specs.Words.{sentence, text_of_lines};
ghost use Rattle.cpu_worker.specs.Report.{all_entries, object_words, run_words, report_text};

use crate::sums::Sums;
use event_log::{Entry, OutOfMemory, Series};
use scripts::{KernelObject, ObjectSettings, Record, lock_word};
use std::alloc::Global;

/// Puts the line of an object.
fn put_object(text: &mut String, object: &ObjectSettings, sums: Sums) -> Result<(), OutOfMemory>
    ensures { OnOk result (string_bytes text.new ≡ string_bytes text.old ++ (sentence (object_words object.now sums) ++ 10 ∷ [])) }
{
    let name = object.name_str();
    let lock = lock_word(object.lock());
    let Sums {
        entries,
        noroom,
        looks,
        most,
    } = sums;
    writeln!(
        text,
        "{name} {lock} entries {entries} noroom {noroom} looks {looks} most {most}"
    )
    .map_err(|_| OutOfMemory)
}

/// Puts the last line.
fn put_run(text: &mut String, cpus: u8, entries: usize) -> Result<(), OutOfMemory>
    ensures { OnOk result (string_bytes text.new ≡ string_bytes text.old ++ (sentence (run_words cpus entries) ++ 10 ∷ [])) }
{
    writeln!(text, "cpus {cpus} entries {entries}").map_err(|_| OutOfMemory)
}

/// The number of all entries.
fn count(transcripts: &[Series<Entry<KernelObject>>]) -> usize
    requires { length (all_entries transcripts.now) < 2 ^ 64 }
    ensures { result ≡ length (all_entries transcripts.now) }
{
    let mut entries = 0;
    for transcript in transcripts {
        entries += transcript.as_slice().len();
    }
    entries
}

/// A line for each object of the settings, in order, and one for the whole run.
pub fn report(alloc: Global, record: &Record) -> Result<String, OutOfMemory>
    ensures text { IfOk result (λ text. string_bytes text ≡ report_text «record».now) }
{
    let settings = record.settings();
    let transcripts = record.run().transcripts.as_slice();
    let mut text = String::new(alloc);
    for (place, object) in settings.objects().iter().enumerate() {
        put_object(&mut text, object, Sums::of(place, transcripts))?;
    }
    put_run(&mut text, settings.cpus(), count(transcripts))?;
    Ok(text)
}
