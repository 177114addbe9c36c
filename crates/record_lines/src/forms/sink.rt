//! The receiver of a record.

ghost use Rattle.std.specs.Prelude.{true, false, Ok, List, ◌≡◌, ◌<◌, ◌≤◌, length, OnOk, OnErr};
ghost use Rattle.record_lines.specs.Received.{only_head, with_count, with_event, with_log, with_entry, with_transcript, InLogs, InTranscripts, IsAtHead};

use crate::RecordForm;
use event_log::OutOfMemory;

/// It receives the parts of a record as they are read, in their order, and keeps of them what it needs. Contracts
/// speak of all that was handed over, of which nothing has to lie in memory.
pub trait RecordSink<F: RecordForm>: Drop {
    ghost use Rattle.record_lines.specs.Received.{Received};

    /// What was handed over.
    ghost received: { Self → Received F.Head F.Event F.Entry };

    /// The head is whole, and logs follow.
    fn begin(&mut self, head: &F::Head) -> Result<(), OutOfMemory>
        requires nothing { received self.old ≡ only_head F.no_head }
        requires fit { F.HeadFits head.now }
        ensures ok { OnOk result (received self.new ≡ only_head head.now) }
        ensures err { OnErr result (received self.new ≡ received self.old) };

    /// A log of so many events follows.
    fn begin_log(&mut self, count: u64) -> Result<(), OutOfMemory>
        requires place { InLogs F.RecordForm (received self.old) }
        requires head { IsAtHead (received self.old) (received self.old).events }
        requires few { count ≤ F.most_events }
        ensures ok { OnOk result (received self.new ≡ with_count (received self.old) count) }
        ensures err { OnErr result (received self.new ≡ received self.old) };

    /// The log's next event, and the text of its steps. The sink may take the event, and leave another.
    fn event(&mut self, event: &mut F::Event, text: &[u8]) -> Result<(), OutOfMemory>
        requires place { InLogs F.RecordForm (received self.old) }
        requires begun { (received self.old).begun ≡ true }
        requires more { length (received self.old).events < (received self.old).count }
        requires fit { F.EventFits (received self.old).head event.old }
        requires text { F.SpellsSteps text.now event.old }
        ensures ok { OnOk result (received self.new ≡ with_event (received self.old) event.old) }
        ensures err { OnErr result (received self.new ≡ received self.old) };

    /// The log has all of its events.
    fn end_log(&mut self) -> Result<(), OutOfMemory>
        requires place { InLogs F.RecordForm (received self.old) }
        requires begun { (received self.old).begun ≡ true }
        requires all { length (received self.old).events ≡ (received self.old).count }
        ensures ok { OnOk result (received self.new ≡ with_log (received self.old)) }
        ensures err { OnErr result (received self.new ≡ received self.old) };

    /// A transcript of so many entries follows.
    fn begin_transcript(&mut self, count: u64) -> Result<(), OutOfMemory>
        requires place { InTranscripts F.RecordForm (received self.old) }
        requires head { IsAtHead (received self.old) (received self.old).entries }
        requires few { count ≤ F.most_entries }
        ensures ok { OnOk result (received self.new ≡ with_count (received self.old) count) }
        ensures err { OnErr result (received self.new ≡ received self.old) };

    /// Whether the sink recognises the transcript's next entry by its object, its looks and the text behind them. Then it is
    /// handed over by that. A sink may always say no: then the entry is read, and handed over by `entry`.
    fn recognises(&mut self, object: u8, looks: u64, tail: &[u8]) -> Result<bool, OutOfMemory>
        requires place { InTranscripts F.RecordForm (received self.old) }
        requires begun { (received self.old).begun ≡ true }
        requires more { length (received self.old).entries < (received self.old).count }
        requires object { object < F.objects (received self.old).head }
        ensures known { result ≡ Ok true → (e : F.Entry) × F.TailSpells (received self.old).head object looks tail.now e × (received self.new ≡ with_entry (received self.old) e) }
        ensures unknown { result ≡ Ok false → received self.new ≡ received self.old }
        ensures err { OnErr result (received self.new ≡ received self.old) };

    /// The transcript's next entry. The sink may take it, and leave another.
    fn entry(&mut self, entry: &mut F::Entry) -> Result<(), OutOfMemory>
        requires place { InTranscripts F.RecordForm (received self.old) }
        requires begun { (received self.old).begun ≡ true }
        requires more { length (received self.old).entries < (received self.old).count }
        requires fit { F.EntryFits (received self.old).head entry.old }
        ensures ok { OnOk result (received self.new ≡ with_entry (received self.old) entry.old) }
        ensures err { OnErr result (received self.new ≡ received self.old) };

    /// The transcript has all of its entries.
    fn end_transcript(&mut self) -> Result<(), OutOfMemory>
        requires place { InTranscripts F.RecordForm (received self.old) }
        requires begun { (received self.old).begun ≡ true }
        requires all { length (received self.old).entries ≡ (received self.old).count }
        ensures ok { OnOk result (received self.new ≡ with_transcript (received self.old)) }
        ensures err { OnErr result (received self.new ≡ received self.old) };

    /// Memory was refused, and no record comes: all that was handed over counts no more.
    fn forget(&mut self)
        ensures { received self.new ≡ only_head F.no_head };
}
