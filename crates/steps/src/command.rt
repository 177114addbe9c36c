//! A whole command: the words after the program's name in, a status out.

ghost use Rattle.std.specs.Prelude.{◌≡◌, ◌⊎◌, ◌≤◌, true, OnOk, IfOk, IfErr, string_bytes};
ghost use Rattle.event_log.specs.Stream.{counted};
ghost use Rattle.program.specs.{Inputs.says_read_failed, Printing.{Prints, PrintsSome}, Refusals.status_of};
ghost use Rattle.steps.specs.Answers.{Answers, Refuses, RefusesWith};

use crate::answer::answer;
use crate::arguments::{Asked, read_words};
use event_log::Sink;
use program::{Inputs, Refusal};
use scripts::{Buffered, WriteFailed, write_text};
use std::alloc::Global;
use std::fmt::Write;

/// Does what the words ask for, and answers the status. A refusal is one line on `faults`, and a failed write there
/// changes no status. Nothing goes to `out` before the whole answer is known.
pub fn command<I: Inputs, W: Sink, F: Sink>(
    alloc: Global,
    words: &[String],
    inputs: &mut I,
    out: &mut W,
    faults: &mut F,
) -> u8
    ensures done { result ≡ 0 → Prints (Answers (I.held inputs.old) words.now) (W.contents out.old) (W.contents out.new) }
    ensures none_failed { result ≡ 0 → W.failed out.new ≡ W.failed out.old }
    ensures no_line { result ≡ 0 → faults.new ≡ faults.old }
    ensures nothing_written { result ≡ 2 → out.new ≡ out.old }
    ensures refused { result ≡ 2 → RefusesWith (I.held inputs.old) words.now 2 }
    ensures failed { result ≡ 3 → ((out.new ≡ out.old) × RefusesWith (I.held inputs.old) words.now 3)
        ⊎ (PrintsSome (Answers (I.held inputs.old) words.now) (W.contents out.old) (W.contents out.new) × (W.failed out.new ≡ counted true (W.failed out.old))) }
    ensures reads { result ≤ 2 → I.failed inputs.new ≡ I.failed inputs.old }
    ensures statuses { (result ≡ 0) ⊎ ((result ≡ 2) ⊎ (result ≡ 3)) }
{
    match perform(alloc, words, inputs, out) {
        Ok(()) => 0,
        Err(refusal) => refuse(refusal, faults),
    }
}

/// The text that the words ask for.
fn answered<I: Inputs>(alloc: Global, words: &[String], inputs: &mut I) -> Result<String, Refusal>
    ensures answer { IfOk result (λ text. Answers (I.held inputs.old) words.now (string_bytes text)) }
    ensures refused { IfErr result (Refuses (I.held inputs.old) words.now) }
    ensures failures { I.failed inputs.new ≡ counted (says_read_failed result) (I.failed inputs.old) }
{
    match read_words(alloc, words) {
        Ok(Asked::Help(text)) => Ok(text),
        Ok(Asked::For(arguments)) => answer(alloc, inputs, arguments),
        Err(refusal) => Err(refusal),
    }
}

/// Does what the words ask for.
fn perform<I: Inputs, W: Sink>(
    alloc: Global,
    words: &[String],
    inputs: &mut I,
    out: &mut W,
) -> Result<(), Refusal>
    ensures done { OnOk result (Prints (Answers (I.held inputs.old) words.now) (W.contents out.old) (W.contents out.new)) }
    ensures none_failed { OnOk result (W.failed out.new ≡ W.failed out.old) }
    ensures failures { I.failed inputs.new ≡ counted (says_read_failed result) (I.failed inputs.old) }
    ensures refused { IfErr result (λ f. (Refuses (I.held inputs.old) words.now f × (out.new ≡ out.old))
        ⊎ ((f ≡ Refusal.WriteFailed) × PrintsSome (Answers (I.held inputs.old) words.now) (W.contents out.old) (W.contents out.new) × (W.failed out.new ≡ counted true (W.failed out.old)))) }
{
    let text = answered(alloc, words, inputs)?;
    match write_text(text.as_bytes(), out) {
        Ok(()) => Ok(()),
        Err(WriteFailed) => Err(Refusal::WriteFailed),
    }
}

/// Writes the line of the refusal, and answers its status.
pub fn refuse<F: Sink>(refusal: Refusal, faults: &mut F) -> u8
    ensures { result ≡ status_of refusal }
{
    let mut line = Buffered::new(faults);
    let hint = match refusal {
        Refusal::BadWords => " (steps --help has the form)",
        _ => "",
    };
    if writeln!(line, "steps: {refusal}{hint}").is_ok() {
        let _ = line.finish();
    }
    refusal.status()
}
