//! The program's words.

ghost use Rattle.std.specs.{Prelude.{◌≡◌, ◌⊎◌, [], false, IfErr, IfOk, codes, map, string_bytes}, List.list_any};
ghost use Rattle.clap.specs.Words.{fault_of, found_of, kind_of, rows_of, subcommand_of, subcommand_rows_of};
ghost use Rattle.mc2_command.specs.{Asked.{AreFiles, AskNothing, Asks, command_name, is_no_form}, Forms.forms};

use crate::table::forms;
use clap::error::ErrorKind;
use clap::{ArgMatches, Error};
use program::{BadName, Refusal, file, wanted_file};
use std::alloc::Global;
use std::convert::AsStr;

/// What the words ask for. Without a file of scripts, or of the record, standard input is read; without settings `run` has
/// the built-in ones.
#[derive(Clone, Copy, Debug, PartialEq, Eq, Drop)]
pub enum Arguments<'a> {
    Run {
        settings: Option<&'a str>,
        scripts: Option<&'a str>,
    },
    Sim {
        settings: &'a str,
        scripts: &'a str,
        schedule: &'a str,
    },
    Report {
        record: Option<&'a str>,
    },
    Audit {
        record: Option<&'a str>,
    },
    Merge {
        record: Option<&'a str>,
    },
    Upgrade {
        record: Option<&'a str>,
    },
}

/// What `run` asks for by what was found of its words.
fn run_asked<'a>(found: &ArgMatches<'a>) -> Result<Arguments<'a>, BadName>
    ensures named { IfOk result (λ a. codes "run" ≡ command_name a) }
    ensures files { IfOk result (AreFiles (rows_of (found_of found.now))) }
    ensures refused { IfErr result (λ _. (a : Arguments) → codes "run" ≡ command_name a → AreFiles (rows_of (found_of found.now)) a → ⊥) }
{
    let settings = file(found, "settings")?;
    let scripts = file(found, "scripts")?;
    Ok(Arguments::Run { settings, scripts })
}

/// What `sim` asks for by what was found of its words.
fn sim_asked<'a>(found: &ArgMatches<'a>) -> Result<Arguments<'a>, BadName>
    ensures named { IfOk result (λ a. codes "sim" ≡ command_name a) }
    ensures files { IfOk result (AreFiles (rows_of (found_of found.now))) }
    ensures refused { IfErr result (λ _. (a : Arguments) → codes "sim" ≡ command_name a → AreFiles (rows_of (found_of found.now)) a → ⊥) }
{
    let settings = wanted_file(found, "settings")?;
    let scripts = wanted_file(found, "scripts")?;
    let schedule = wanted_file(found, "schedule")?;
    Ok(Arguments::Sim {
        settings,
        scripts,
        schedule,
    })
}

/// What a command on a record asks for by what was found of its words.
fn record_asked<'a>(command: &str, found: &ArgMatches<'a>) -> Result<Arguments<'a>, BadName>
    requires run { codes "run" ≡ command.now → ⊥ }
    requires sim { codes "sim" ≡ command.now → ⊥ }
    ensures named { IfOk result (λ a. command.now ≡ command_name a) }
    ensures files { IfOk result (AreFiles (rows_of (found_of found.now))) }
    ensures refused { IfErr result (λ _. (a : Arguments) → command.now ≡ command_name a → AreFiles (rows_of (found_of found.now)) a → ⊥) }
{
    let record = file(found, "record")?;
    match command {
        "report" => Ok(Arguments::Report { record }),
        "audit" => Ok(Arguments::Audit { record }),
        "merge" => Ok(Arguments::Merge { record }),
        "upgrade" => Ok(Arguments::Upgrade { record }),
        _ => Err(BadName),
    }
}

/// What the command of that name asks for by what was found of its words.
fn asked_by<'a>(command: &str, found: &ArgMatches<'a>) -> Result<Arguments<'a>, BadName>
    ensures named { IfOk result (λ a. command.now ≡ command_name a) }
    ensures files { IfOk result (AreFiles (rows_of (found_of found.now))) }
    ensures refused { IfErr result (λ _. (a : Arguments) → command.now ≡ command_name a → AreFiles (rows_of (found_of found.now)) a → ⊥) }
{
    match command {
        "run" => run_asked(found),
        "sim" => sim_asked(found),
        _ => record_asked(command, found),
    }
}

/// A word that is refused is no form, unless memory was wanting.
fn refusal(error: Error) -> Refusal
    ensures memory { kind_of error ≡ ErrorKind.OutOfMemory → result ≡ Refusal.OutOfMemory }
    ensures other { (kind_of error ≡ ErrorKind.OutOfMemory → ⊥) → result ≡ Refusal.BadWords }
{
    match error.kind() {
        ErrorKind::OutOfMemory => Refusal::OutOfMemory,
        _ => Refusal::BadWords,
    }
}

/// What the reader of words finds by the table of forms.
fn found_by_forms<'a>(alloc: Global, words: &'a [String]) -> Result<ArgMatches<'a>, Refusal>
    ensures taken { IfOk result (λ m. fault_of forms (map string_bytes words.now) ≡ []) }
    ensures read { IfOk result (λ m. subcommand_rows_of m ≡ subcommand_of forms (map string_bytes words.now)) }
    ensures refused { IfErr result (λ f. (f ≡ Refusal.OutOfMemory) ⊎ ((f ≡ Refusal.BadWords) × (fault_of forms (map string_bytes words.now) ≡ [] → ⊥))) }
{
    let Ok(forms) = forms(alloc) else {
        return Err(Refusal::OutOfMemory);
    };
    match forms.try_get_matches_from(words) {
        Ok(matches) => Ok(matches),
        Err(error) => Err(refusal(error)),
    }
}

/// Whether the word is one that a command line often takes, but no form has.
fn is_no_form(word: &str) -> bool
    ensures { result ≡ is_no_form word.now }
{
    word == "--" || word.as_bytes().starts_with(b"--settings=")
}

/// Whether one of the words is.
fn has_no_form(words: &[String]) -> bool
    ensures { result ≡ list_any (λ word. is_no_form (string_bytes word)) words.now }
{
    words.iter().any(|word| is_no_form(word.as_str()))
}

/// Reads the words after the program's name. Words that are no form are bad words, unless memory was wanting. The first of
/// a form is the command: no option comes before it.
pub fn read_words<'a>(alloc: Global, words: &'a [String]) -> Result<Arguments<'a>, Refusal>
    ensures asked { IfOk result (Asks words.now) }
    ensures refused { IfErr result (λ f. (f ≡ Refusal.OutOfMemory) ⊎ ((f ≡ Refusal.BadWords) × AskNothing words.now)) }
{
    if has_no_form(words) {
        return Err(Refusal::BadWords);
    }
    let matches = found_by_forms(alloc, words)?;
    let (Some(first), Some((command, found))) = (words.first(), matches.subcommand()) else {
        return Err(Refusal::BadWords);
    };
    if command != first.as_str() {
        return Err(Refusal::BadWords);
    }
    match asked_by(command, found) {
        Ok(arguments) => Ok(arguments),
        Err(BadName) => Err(Refusal::BadWords),
    }
}
