//! Reading a text line by line, piece by piece.

ghost use Rattle.std.specs.Prelude.{◌≡◌, ◌<◌, ◌≤◌, ◌++◌, ◌∷◌, ◌↔◌, ℕ, List, [], true, false, length, None, Ok, Err, IfSome, IsTrue, OnOk};
ghost use Rattle.record_lines.specs.{LineMachine.{RefusesText, RefusesLine, Passes, ChangesNothing, BeginsIdle, IsHeld, IsShort, TakesText}, Pieces.{HasFed, Keeps}, Words.NoEnd};

use crate::streams::feeding::TakesPieces;
use crate::text::fault::{LineFault, LinesFault};
use crate::text::split::split_line;
use std::alloc::Global;

/// No line of a record has more bytes, and no entry of scripts.
pub const MOST_BYTES: usize = 1024;

/// A state that takes the lines of a text, one after the other.
pub trait TakesLines: Drop {
    /// The line takes the one state to the other.
    ghost takes: { List ℕ → Self → Self → Type 0 };

    /// The line can't come there.
    ghost refuses: { List ℕ → Self → Type 0 };

    /// A line that begins with the byte may have so many bytes.
    ghost fits: { ℕ → ℕ → Type 0 };

    /// Takes a line, which has no end in it.
    fn take_line(&mut self, line: &[u8]) -> Result<(), LineFault>
        requires { NoEnd line.now }
        ensures ok { OnOk result (takes line.now self.old self.new) }
        ensures refused { result ≡ Err LineFault.Refused → refuses line.now self.old };

    /// Whether lines that begin with the byte change nothing, whatever follows it.
    fn passes(&self, first: u8) -> bool
        ensures passes { result ≡ true → (rest : List ℕ) → takes (first ∷ rest) self.now self.now }
        ensures exactly { IsTrue result ↔ ChangesNothing takes self.now first };

    /// Whether no line can come that begins with the byte and has so many bytes or more.
    fn is_too_long(&self, first: u8, count: usize) -> bool
        ensures refused { result ≡ true → (rest : List ℕ) → count ≤ length (first ∷ rest) → refuses (first ∷ rest) self.now }
        ensures long { result ≡ true → fits first count → ⊥ }
        ensures short { result ≡ false → fits first count }
        ensures few { result ≡ false → (ChangesNothing takes self.now first → ⊥) → count ≤ MOST_BYTES };
}

/// Takes the lines of a text that comes in pieces. Of the text no more is held than a line without an end, of at most
/// `MOST_BYTES`, and of that nothing where it changes nothing, however long it gets. After a fault no more can be taken.
#[derive(Drop)]
pub struct Pieces<L: TakesLines> {
    lines: L,
    number: usize,
    /// Whether the line without an end changes nothing.
    passing: bool,
    pending: Vec<u8>,
}

impl<L: TakesLines> Pieces<L> {
    /// Nothing was taken yet.
    pub fn new(alloc: Global, lines: L) -> Pieces<L>
        ensures lines { result.lines ≡ lines }
        ensures taken { HasFed L.takes lines [] result }
        ensures empty { result.pending.items ≡ [] }
    {
        Pieces {
            lines,
            number: 1,
            passing: false,
            pending: Vec::new(alloc),
        }
    }

    /// The number of the line that comes next, or that has no end yet.
    pub fn number(&self) -> usize
        ensures { result ≡ self.now.number }
    {
        self.number
    }

    /// Whether the text ends with the end of a line, or is empty.
    pub fn is_whole(&self) -> bool
        ensures whole { (start : L) (text : List ℕ) → HasFed L.takes start text self.now → result ≡ true →
            TakesText L.takes text start 1 [] self.now.lines self.now.number }
        ensures unended { (start : L) (text : List ℕ) (taken : HasFed L.takes start text self.now) → result ≡ false → 0 < length taken.unended }
    {
        !self.passing && self.pending.is_empty()
    }

    /// What the lines made.
    pub fn into_lines(self) -> L
        ensures { result ≡ self.lines }
    {
        let Pieces { lines, .. } = self;
        lines
    }

    /// Takes the next piece of the text. A line that can't come is refused as soon as that is known.
    pub fn feed(&mut self, piece: &[u8]) -> Result<(), LinesFault>
        requires { NoEnd self.old.pending.items }
        ensures no_end { OnOk result (NoEnd self.new.pending.items) }
        ensures ok { (start : L) (text : List ℕ) → HasFed L.takes start text self.old → OnOk result (HasFed L.takes start (text ++ piece.now) self.new) }
        ensures refused { (start : L) (text : List ℕ) (n : ℕ) → HasFed L.takes start text self.old → result ≡ Err (LinesFault.Line n) →
            RefusesLine L.takes L.refuses L.fits (text ++ piece.now) start 1 n }
        ensures short { IsShort L.fits self.old.pending.items → OnOk result (IsShort L.fits self.new.pending.items) }
        ensures held { IsHeld L.takes self.old.lines self.old.pending.items → OnOk result (IsHeld L.takes self.new.lines self.new.pending.items) }
    {
        let mut rest = piece;
        while let Some((end, after)) = split_line(rest) {
            self.end_line(end)?;
            rest = after;
        }
        match self.keep(rest) {
            Ok(()) => Ok(()),
            Err(fault) => Err(fault_at(fault, self.number)),
        }
    }

    /// Takes the line that ends with these bytes, and counts it.
    fn end_line(&mut self, end: &[u8]) -> Result<(), LinesFault>
        requires pending { NoEnd self.old.pending.items }
        requires end { NoEnd end.now }
        ensures no_end { OnOk result (NoEnd self.new.pending.items) }
        ensures ok { (start : L) (text : List ℕ) → HasFed L.takes start text self.old →
            OnOk result (HasFed L.takes start (text ++ (end.now ++ 10 ∷ [])) self.new) }
        ensures refused { (start : L) (text after : List ℕ) (n : ℕ) → HasFed L.takes start text self.old → result ≡ Err (LinesFault.Line n) →
            RefusesText L.takes L.refuses (text ++ (end.now ++ 10 ∷ after)) start 1 n }
        ensures short { IsShort L.fits self.old.pending.items → OnOk result (IsShort L.fits self.new.pending.items) }
        ensures held { IsHeld L.takes self.old.lines self.old.pending.items → OnOk result (IsHeld L.takes self.new.lines self.new.pending.items) }
    {
        match self.take(end) {
            Ok(()) => {}
            Err(fault) => return Err(fault_at(fault, self.number)),
        }
        // A text of 2^64 lines has no place in memory, and a source with as many is never read to its end.
        let Some(next) = self.number.checked_add(1) else {
            return Err(LinesFault::OutOfMemory);
        };
        self.number = next;
        Ok(())
    }

    /// Takes the line that ends with these bytes: where it lies if nothing of it came before.
    fn take(&mut self, end: &[u8]) -> Result<(), LineFault>
        requires pending { NoEnd self.old.pending.items }
        requires end { NoEnd end.now }
        ensures number { self.new.number ≡ self.old.number }
        ensures passing { OnOk result (self.new.passing ≡ false) }
        ensures pending { (unended : List ℕ) → Keeps L.takes self.old unended → OnOk result (self.new.pending.items ≡ []) }
        ensures no_end { OnOk result (NoEnd self.new.pending.items) }
        ensures ok { (unended : List ℕ) → Keeps L.takes self.old unended → OnOk result (L.takes (unended ++ end.now) self.old.lines self.new.lines) }
        ensures refused { (unended : List ℕ) → Keeps L.takes self.old unended → result ≡ Err LineFault.Refused → L.refuses (unended ++ end.now) self.old.lines }
        ensures short { IsShort L.fits self.old.pending.items → OnOk result (IsShort L.fits self.new.pending.items) }
        ensures held { IsHeld L.takes self.old.lines self.old.pending.items → OnOk result (IsHeld L.takes self.new.lines self.new.pending.items) }
    {
        if self.passing {
            self.passing = false;
            return Ok(());
        }
        if self.pending.is_empty() {
            return self.lines.take_line(end);
        }
        self.put(end)?;
        let taken = self.lines.take_line(self.pending.as_slice());
        self.pending.clear();
        taken
    }

    /// Keeps the bytes, which have no end of the line behind them: nothing of them where the line changes nothing.
    fn keep(&mut self, bytes: &[u8]) -> Result<(), LineFault>
        requires pending { NoEnd self.old.pending.items }
        requires bytes { NoEnd bytes.now }
        ensures lines { self.new.lines ≡ self.old.lines }
        ensures number { self.new.number ≡ self.old.number }
        ensures no_end { OnOk result (NoEnd self.new.pending.items) }
        ensures ok { (unended : List ℕ) → Keeps L.takes self.old unended → OnOk result (Keeps L.takes self.new (unended ++ bytes.now)) }
        ensures refused { (unended : List ℕ) → Keeps L.takes self.old unended → result ≡ Err LineFault.Refused → (more : List ℕ) →
            L.refuses ((unended ++ bytes.now) ++ more) self.old.lines }
        ensures long { (unended : List ℕ) → Keeps L.takes self.old unended → result ≡ Err LineFault.Refused → IsShort L.fits (unended ++ bytes.now) → ⊥ }
        ensures short { IsShort L.fits self.old.pending.items → OnOk result (IsShort L.fits self.new.pending.items) }
        ensures held { IsHeld L.takes self.old.lines self.old.pending.items → OnOk result (IsHeld L.takes self.new.lines self.new.pending.items) }
    {
        if self.passing {
            return Ok(());
        }
        if self.begins_passing(bytes) {
            self.passing = true;
            return Ok(());
        }
        self.put(bytes)
    }

    /// Puts the bytes behind what is pending, unless the line is too long with them.
    fn put(&mut self, bytes: &[u8]) -> Result<(), LineFault>
        ensures lines { self.new.lines ≡ self.old.lines }
        ensures number { self.new.number ≡ self.old.number }
        ensures passing { self.new.passing ≡ self.old.passing }
        ensures ok { OnOk result (self.new.pending.items ≡ self.old.pending.items ++ bytes.now) }
        ensures refused { result ≡ Err LineFault.Refused → (more : List ℕ) → L.refuses ((self.old.pending.items ++ bytes.now) ++ more) self.old.lines }
        ensures long { result ≡ Err LineFault.Refused → IsShort L.fits (self.old.pending.items ++ bytes.now) → ⊥ }
        ensures short { OnOk result (IsShort L.fits self.new.pending.items) }
        ensures held { (BeginsIdle L.takes self.old.lines (self.old.pending.items ++ bytes.now) → ⊥) → OnOk result (IsHeld L.takes self.new.lines self.new.pending.items) }
    {
        if self.is_too_long(bytes) {
            return Err(LineFault::Refused);
        }
        match self.pending.extend_from_slice(bytes) {
            Ok(()) => Ok(()),
            Err(_) => Err(LineFault::OutOfMemory),
        }
    }

    /// Whether a line begins with these bytes that changes nothing.
    fn begins_passing(&self, bytes: &[u8]) -> bool
        ensures begins { result ≡ true → (self.now.pending.items ≡ []) × Passes L.takes self.now.lines bytes.now }
        ensures exactly { IsTrue result ↔ (self.now.pending.items ≡ []) × BeginsIdle L.takes self.now.lines bytes.now }
    {
        match bytes {
            [first, ..] => self.pending.is_empty() && self.lines.passes(*first),
            [] => false,
        }
    }

    /// Whether no line can begin with what is pending and these bytes.
    fn is_too_long(&self, bytes: &[u8]) -> bool
        ensures refused { result ≡ true → (more : List ℕ) → L.refuses ((self.now.pending.items ++ bytes.now) ++ more) self.now.lines }
        ensures long { result ≡ true → IsShort L.fits (self.now.pending.items ++ bytes.now) → ⊥ }
        ensures short { result ≡ false → IsShort L.fits (self.now.pending.items ++ bytes.now) }
        ensures few { result ≡ false → (BeginsIdle L.takes self.now.lines (self.now.pending.items ++ bytes.now) → ⊥) → length (self.now.pending.items ++ bytes.now) ≤ MOST_BYTES }
    {
        let count = self.pending.len() + bytes.len();
        match first_of(self.pending.as_slice(), bytes) {
            Some(first) => self.lines.is_too_long(first, count),
            None => false,
        }
    }
}

impl<L: TakesLines> TakesPieces for Pieces<L> {
    ghost use Rattle.record_lines.specs.Pieces.{TakesPieces, RefusesPieces};

    type Fault = LinesFault;

    ghost takes = { TakesPieces L.takes };

    ghost refuses = { RefusesPieces L.takes L.refuses L.fits };

    fn take_piece(&mut self, piece: &[u8]) -> Result<(), LinesFault> {
        self.feed(piece)
    }

    fn out_of_memory() -> LinesFault {
        LinesFault::OutOfMemory
    }
}

/// The first byte of both.
fn first_of(front: &[u8], back: &[u8]) -> Option<u8>
    ensures first { IfSome result (λ first. (rest : List ℕ) × (front.now ++ back.now ≡ first ∷ rest)) }
    ensures none { result ≡ None → front.now ++ back.now ≡ [] }
{
    match front {
        [first, ..] => Some(*first),
        [] => match back {
            [first, ..] => Some(*first),
            [] => None,
        },
    }
}

/// That the line of that number was not taken.
fn fault_at(fault: LineFault, number: usize) -> LinesFault
    ensures { (n : ℕ) → result ≡ LinesFault.Line n → (fault ≡ LineFault.Refused) × (n ≡ number) }
{
    match fault {
        LineFault::OutOfMemory => LinesFault::OutOfMemory,
        LineFault::Refused => LinesFault::Line(number),
    }
}
