//! The program's words.

ghost use Rattle.std.specs.{Prelude.{◌≡◌, ◌⊎◌, false, string_bytes, IfOk, IfErr}, List.list_any};
ghost use Rattle.clap.specs.{Kinds.HasKind, Words.{found_of, rows_of}};
ghost use Rattle.steps.specs.Asked.{AreFound, AskNothing, IsAskedBy, faults, has_no_form, is_help, is_no_form};

use crate::form::form;
use clap::error::ErrorKind;
use clap::{ArgMatches, Error};
use program::{BadName, Refusal, wanted_file};
use std::alloc::Global;

/// The files that the words ask for.
#[derive(Clone, Copy, Debug, PartialEq, Eq, Drop)]
pub struct Arguments<'a> {
    pub settings: &'a str,
    pub scripts: &'a str,
    pub schedule: &'a str,
}

/// What the words come to: files, or a text of help or of the version.
#[derive(Debug, Drop)]
pub enum Asked<'a> {
    For(Arguments<'a>),
    Help(String),
}

/// The files by what was found of the words.
fn files<'a>(found: &ArgMatches<'a>) -> Result<Arguments<'a>, BadName>
    ensures found { IfOk result (AreFound (rows_of (found_of found.now))) }
    ensures refused { IfErr result (λ _. (a : Arguments) → AreFound (rows_of (found_of found.now)) a → ⊥) }
{
    let settings = wanted_file(found, "settings")?;
    let scripts = wanted_file(found, "SCRIPTS")?;
    let schedule = wanted_file(found, "SCHEDULE")?;
    Ok(Arguments {
        settings,
        scripts,
        schedule,
    })
}

/// Whether the word asks for help or for the version.
fn is_help(word: &str) -> bool
    ensures { result ≡ is_help word.now }
{
    let bytes = word.as_bytes();
    word == "--help" || word == "--version" || bytes.starts_with(b"-h") || bytes.starts_with(b"-V")
}

/// Whether one of the words does.
fn asks_help(words: &[String]) -> bool
    ensures { result ≡ list_any (λ word. is_help (string_bytes word)) words.now }
{
    words.iter().any(|word| is_help(word.as_str()))
}

/// A text of help or of the version, for which one of the words asks, or a refusal: a word that is refused is no form, unless
/// memory was wanting.
fn reported<'a>(alloc: Global, words: &[String], error: Error) -> Result<Asked<'a>, Refusal>
    requires form { has_no_form words.now ≡ false }
    requires kind { HasKind (faults words.now) error }
    ensures asked { IfOk result (IsAskedBy words.now) }
    ensures refused { IfErr result (λ f. (f ≡ Refusal.OutOfMemory) ⊎ ((f ≡ Refusal.BadWords) × AskNothing words.now)) }
{
    match error.kind() {
        ErrorKind::OutOfMemory => Err(Refusal::OutOfMemory),
        ErrorKind::DisplayHelp | ErrorKind::DisplayVersion if asks_help(words) => {
            match format!(in alloc; "{error}") {
                Ok(text) => Ok(Asked::Help(text)),
                Err(_) => Err(Refusal::OutOfMemory),
            }
        }
        _ => Err(Refusal::BadWords),
    }
}

/// Whether the word is one that a command line often takes, but the form hasn't.
fn is_no_form(word: &str) -> bool
    ensures { result ≡ is_no_form word.now }
{
    word == "--" || word.as_bytes().starts_with(b"--settings=")
}

/// Whether one of the words is.
fn has_no_form(words: &[String]) -> bool
    ensures { result ≡ has_no_form words.now }
{
    words.iter().any(|word| is_no_form(word.as_str()))
}

/// Reads the words after the program's name. Words that aren't of the form are bad words, unless memory was wanting.
pub fn read_words<'a>(alloc: Global, words: &'a [String]) -> Result<Asked<'a>, Refusal>
    ensures asked { IfOk result (IsAskedBy words.now) }
    ensures refused { IfErr result (λ f. (f ≡ Refusal.OutOfMemory) ⊎ ((f ≡ Refusal.BadWords) × AskNothing words.now)) }
{
    if has_no_form(words) {
        return Err(Refusal::BadWords);
    }
    let Ok(form) = form(alloc) else {
        return Err(Refusal::OutOfMemory);
    };
    match form.try_get_matches_from(words) {
        Ok(matches) => match files(&matches) {
            Ok(arguments) => Ok(Asked::For(arguments)),
            Err(BadName) => Err(Refusal::BadWords),
        },
        Err(error) => reported(alloc, words, error),
    }
}
