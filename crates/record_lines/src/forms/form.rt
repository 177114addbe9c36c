//! What a form of records is.

ghost use Rattle.std.specs.{Prelude.{◌≡◌, ℕ, List, Option, Bool, ◌<◌, ◌≤◌, ◌^◌, true, false, OnOk, OnErr, Err, Some, None, IfSome}, Option.option_map};

use crate::LineFault;
use std::alloc::Global;

/// The lines of a form of records: of a head, which names CPUs and objects, of a log for each object, of a transcript for each
/// CPU, and of the record's end.
pub trait RecordForm: Drop {
    /// What the head has said, so far.
    type Head: Drop;

    type Event: Drop;

    type Entry: Drop;

    /// The head before any line.
    ghost no_head: { Self.Head };

    /// The head after a line more.
    ghost head_after: { Self.Head → List ℕ → Option Self.Head };

    /// The head has all of its lines.
    ghost is_whole: { Self.Head → Bool };

    /// How many objects the head names.
    ghost objects: { Self.Head → ℕ };

    /// How many CPUs it names.
    ghost cpus: { Self.Head → ℕ };

    /// The most events of a log.
    ghost most_events: { ℕ };

    /// The most entries of a transcript.
    ghost most_entries: { ℕ };

    /// How many events the head of that object's log says.
    ghost log_at: { Self.Head → ℕ → List ℕ → Option ℕ };

    ghost event_at: { Self.Head → List ℕ → Option Self.Event };

    /// How many entries the head of that CPU's transcript says.
    ghost cpu_at: { Self.Head → ℕ → List ℕ → Option ℕ };

    ghost entry_at: { Self.Head → List ℕ → Option Self.Entry };

    /// The line ends the record.
    ghost ends: { List ℕ → Bool };

    /// The text spells the steps of the event.
    ghost SpellsSteps: { List ℕ → Self.Event → Type 0 };

    /// Under that head, on that object, with so many looks, the text behind them spells the entry.
    ghost TailSpells: { Self.Head → ℕ → ℕ → List ℕ → Self.Entry → Type 0 };

    /// What was read of a head is within its limits, where more lines of it come.
    ghost HeadPart: { Self.Head → Type 0 };

    /// So is a whole head.
    ghost HeadFits: { Self.Head → Type 0 };

    ghost EventFits: { Self.Head → Self.Event → Type 0 };

    ghost EntryFits: { Self.Head → Self.Entry → Type 0 };

    /// The lines of a head.
    ghost head_text: { Self.Head → List (List ℕ) };

    /// The head of that object's log, of so many events.
    ghost log_text: { Self.Head → ℕ → ℕ → List ℕ };

    ghost event_text: { Self.Head → Self.Event → List ℕ };

    /// The head of that CPU's transcript, of so many entries.
    ghost cpu_text: { Self.Head → ℕ → ℕ → List ℕ };

    ghost entry_text: { Self.Head → Self.Entry → List ℕ };

    ghost end_text: { List ℕ };

    /// What each line of the form is.
    ghost IsLine: { List ℕ → Type 0 };

    /// A head before any line. It takes no memory.
    fn new_head(alloc: Global) -> Self::Head
        ensures is { result ≡ no_head }
        ensures part { HeadPart result }
        ensures more { is_whole result ≡ false };

    /// An event to read in.
    fn new_event() -> Self::Event;

    /// An entry to read in.
    fn new_entry() -> Self::Entry;

    /// Takes a line of a head.
    fn head_line(alloc: Global, head: &mut Self::Head, line: &[u8]) -> Result<(), LineFault>
        requires part { HeadPart head.old }
        requires more { is_whole head.old ≡ false }
        ensures ok { OnOk result (head_after head.old line.now ≡ Some head.new) }
        ensures part { OnOk result (is_whole head.new ≡ false → HeadPart head.new) }
        ensures whole { OnOk result (is_whole head.new ≡ true → HeadFits head.new) }
        ensures err { OnErr result (head.new ≡ head.old) }
        ensures refused { result ≡ Err LineFault.Refused → head_after head.old line.now ≡ None };

    /// Whether the head has all of its lines.
    fn is_whole(head: &Self::Head) -> bool
        ensures { result ≡ is_whole head.now };

    /// How many objects the head names.
    fn objects(head: &Self::Head) -> usize
        requires { HeadFits head.now }
        ensures { result ≡ objects head.now };

    /// How many CPUs it names.
    fn cpus(head: &Self::Head) -> u16
        requires { HeadFits head.now }
        ensures { result ≡ cpus head.now };

    /// How many events the head of that object's log says.
    fn log_line(head: &Self::Head, object: usize, line: &[u8]) -> Option<u64>
        requires fit { HeadFits head.now }
        requires object { object < objects head.now }
        ensures is { result ≡ log_at head.now object line.now }
        ensures few { IfSome result (λ n. n ≤ most_events) };

    /// Makes of the event what its line spells, and answers the text of its steps.
    fn event_line<'a>(
        head: &Self::Head,
        line: &'a [u8],
        event: &mut Self::Event,
    ) -> Option<&'a [u8]>
        requires fit { HeadFits head.now }
        ensures event { option_map (λ _. event.new) result ≡ event_at head.now line.now }
        ensures fit { IfSome result (λ _. EventFits head.now event.new) }
        ensures text { IfSome result (λ text. SpellsSteps text.now event.new) };

    /// The object and the looks at the front of an entry's line, and the text behind them, where the entry may be recognised by
    /// that text.
    fn entry_front<'a>(head: &Self::Head, line: &'a [u8]) -> Option<(u8, u64, &'a [u8])>
        requires fit { HeadFits head.now }
        ensures bound { IfSome result (λ x. x.0 < objects head.now) }
        ensures known { IfSome result (λ x. (e : Self.Entry) → TailSpells head.now x.0 x.1 x.2.now e → (entry_at head.now line.now ≡ Some e) × EntryFits head.now e) };

    /// How many entries the head of that CPU's transcript says.
    fn cpu_line(head: &Self::Head, cpu: u16, line: &[u8]) -> Option<u64>
        requires fit { HeadFits head.now }
        requires cpu { cpu < cpus head.now }
        ensures is { result ≡ cpu_at head.now cpu line.now }
        ensures few { IfSome result (λ n. n ≤ most_entries) };

    /// Makes of the entry what its line spells.
    fn entry_line(head: &Self::Head, line: &[u8], entry: &mut Self::Entry) -> Option<()>
        requires fit { HeadFits head.now }
        ensures entry { option_map (λ _. entry.new) result ≡ entry_at head.now line.now }
        ensures fit { IfSome result (λ _. EntryFits head.now entry.new) };

    /// Whether the line ends the record.
    fn end_line(line: &[u8]) -> bool
        ensures { result ≡ ends line.now };

    /// Events and entries can be counted.
    ghost few: { (most_events < 2 ^ 64) × (most_entries < 2 ^ 64) };

    /// A whole head names objects and CPUs.
    ghost some: { (h : Self.Head) → HeadFits h → (0 < objects h) × (0 < cpus h) };
}
