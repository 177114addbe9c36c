//! Reading the steps of a schedule, byte by byte.

ghost use Rattle.std.specs.Prelude.{◌≡◌, ◌<◌, ◌≤◌, ◌++◌, ◌∷◌, ◌+◌, [], true, false, ℕ, List, length, decimal, Err, IfOk, IfSome, IfNone, OnOk};
ghost use Rattle.sound_run.specs.declared.limits.TheConstants.{MOST_CPUS};
ghost use Rattle.scripts.specs.{ScheduleText.{is_gap, IsSchedule, NamesNoCpu, IsFirstBadWord}, ScheduleReading.{HasReadSteps, EndsWord}};

use crate::schedule::{MOST_STEPS, ScheduleFault};
use arrayvec::ArrayVec;
use record_lines::{TakesPieces, number_of};
use std::alloc::Global;

/// The most digits of a CPU's number.
const MOST_DIGITS: usize = 2;

/// The steps that were read, and what is there of a word that may go on. Nothing else is held of the text.
#[derive(Drop)]
pub(crate) struct StepReader {
    cpus: u8,
    steps: Vec<u8>,
    word: ArrayVec<u8, MOST_DIGITS>,
}

impl StepReader {
    /// Nothing was read yet.
    pub(crate) fn new(alloc: Global, cpus: u8) -> StepReader
        ensures cpus { result.cpus ≡ cpus }
        ensures none { HasReadSteps cpus [] result.steps.items result.word.items }
    {
        let steps = Vec::new(alloc);
        let word = ArrayVec::new();
        StepReader { cpus, steps, word }
    }

    /// Takes the next piece of the text. A word that can't come is refused as soon as that is known, however it goes on.
    pub(crate) fn feed(&mut self, piece: &[u8]) -> Result<(), ScheduleFault>
        requires { (1 ≤ self.old.cpus) × (self.old.cpus ≤ MOST_CPUS) }
        ensures cpus { self.new.cpus ≡ self.old.cpus }
        ensures ok { (text : List ℕ) → HasReadSteps self.old.cpus text self.old.steps.items self.old.word.items →
            OnOk result (HasReadSteps self.old.cpus (text ++ piece.now) self.new.steps.items self.new.word.items) }
        ensures refused { (text more : List ℕ) (n : ℕ) → HasReadSteps self.old.cpus text self.old.steps.items self.old.word.items →
            result ≡ Err (ScheduleFault.Word n) → IsFirstBadWord self.old.cpus ((text ++ piece.now) ++ more) n }
    {
        for byte in piece {
            match self.take(*byte) {
                Ok(()) => {}
                Err(fault) => return Err(fault),
            }
        }
        Ok(())
    }

    /// The steps of the text, which ends here.
    pub(crate) fn finish(self) -> Result<Vec<u8>, ScheduleFault>
        requires { (1 ≤ self.cpus) × (self.cpus ≤ MOST_CPUS) }
        ensures found { (text : List ℕ) → HasReadSteps self.cpus text self.steps.items self.word.items →
            IfOk result (λ steps. IsSchedule self.cpus text steps.items) }
        ensures first_bad { (text : List ℕ) (n : ℕ) → HasReadSteps self.cpus text self.steps.items self.word.items →
            result ≡ Err (ScheduleFault.Word n) → IsFirstBadWord self.cpus text n }
    {
        let mut reader = self;
        match reader.end_word() {
            Ok(()) => Ok(reader.into_steps()),
            Err(fault) => Err(fault),
        }
    }

    /// The steps, without taking memory.
    fn into_steps(self) -> Vec<u8>
        ensures { result ≡ self.steps }
    {
        let StepReader { steps, .. } = self;
        steps
    }

    /// That the word behind the steps can't be there.
    fn refusal(&self) -> ScheduleFault
        ensures { result ≡ ScheduleFault.Word (length self.now.steps.items + 1) }
    {
        ScheduleFault::Word(self.steps.len() + 1)
    }

    /// Takes a byte more.
    fn take(&mut self, byte: u8) -> Result<(), ScheduleFault>
        requires { (1 ≤ self.old.cpus) × (self.old.cpus ≤ MOST_CPUS) }
        ensures cpus { self.new.cpus ≡ self.old.cpus }
        ensures ok { (text : List ℕ) → HasReadSteps self.old.cpus text self.old.steps.items self.old.word.items →
            OnOk result (HasReadSteps self.old.cpus (text ++ byte ∷ []) self.new.steps.items self.new.word.items) }
        ensures refused { (text more : List ℕ) (n : ℕ) → HasReadSteps self.old.cpus text self.old.steps.items self.old.word.items →
            result ≡ Err (ScheduleFault.Word n) → IsFirstBadWord self.old.cpus (text ++ byte ∷ more) n }
    {
        if is_between(byte) {
            self.end_word()
        } else {
            self.put(byte)
        }
    }

    /// Ends the word, if there is one: its CPU does the next step.
    fn end_word(&mut self) -> Result<(), ScheduleFault>
        requires { (1 ≤ self.old.cpus) × (self.old.cpus ≤ MOST_CPUS) }
        ensures cpus { self.new.cpus ≡ self.old.cpus }
        ensures ok { OnOk result (EndsWord self.old.cpus self.old.word.items self.old.steps.items self.new.steps.items) }
        ensures empty { OnOk result (self.new.word.items ≡ []) }
        ensures some { (n : ℕ) → result ≡ Err (ScheduleFault.Word n) → 0 < length self.old.word.items }
        ensures number { (n : ℕ) → result ≡ Err (ScheduleFault.Word n) → n ≡ length self.old.steps.items + 1 }
        ensures bad { (n : ℕ) → result ≡ Err (ScheduleFault.Word n) → NamesNoCpu self.old.cpus self.old.word.items }
    {
        if self.word.is_empty() {
            return Ok(());
        }
        let Some(cpu) = cpu_of(self.cpus, self.word.as_slice()) else {
            return Err(self.refusal());
        };
        if self.steps.push(cpu).is_err() {
            return Err(ScheduleFault::OutOfMemory);
        }
        self.word.clear();
        Ok(())
    }

    /// Puts a byte behind the word, unless no word can be there or none has so many.
    fn put(&mut self, byte: u8) -> Result<(), ScheduleFault>
        requires { is_gap byte ≡ false }
        ensures cpus { self.new.cpus ≡ self.old.cpus }
        ensures steps { self.new.steps.items ≡ self.old.steps.items }
        ensures word { OnOk result (self.new.word.items ≡ self.old.word.items ++ byte ∷ []) }
        ensures room { OnOk result (length self.old.steps.items < MOST_STEPS) }
        ensures number { (n : ℕ) → result ≡ Err (ScheduleFault.Word n) → n ≡ length self.old.steps.items + 1 }
        ensures long { (n : ℕ) → result ≡ Err (ScheduleFault.Word n) → length self.old.steps.items < MOST_STEPS → length self.old.word.items ≡ MOST_DIGITS }
    {
        if self.steps.len() >= MOST_STEPS || self.word.is_full() {
            return Err(self.refusal());
        }
        self.word.push(byte);
        Ok(())
    }
}

impl TakesPieces for StepReader {
    ghost use Rattle.scripts.specs.ScheduleReading.{TakesSteps, RefusesSteps};

    type Fault = ScheduleFault;

    ghost takes = { TakesSteps };

    ghost refuses = { RefusesSteps };

    fn take_piece(&mut self, piece: &[u8]) -> Result<(), ScheduleFault> {
        self.feed(piece)
    }

    fn out_of_memory() -> ScheduleFault {
        ScheduleFault::OutOfMemory
    }
}

/// Whether the byte stands between words.
fn is_between(byte: u8) -> bool
    ensures { result ≡ is_gap byte }
{
    byte == b' ' || byte == b'\n'
}

/// The CPU, of so many, whose number the word is.
fn cpu_of(cpus: u8, word: &[u8]) -> Option<u8>
    requires { 1 ≤ cpus }
    ensures found { IfSome result (λ cpu. (word.now ≡ decimal cpu) × (cpu < cpus)) }
    ensures none { IfNone result (NamesNoCpu cpus word.now) }
{
    let last = u64::from(cpus - 1);
    let number = number_of(word, last)?;
    Some(number as u8)
}
