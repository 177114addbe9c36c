//! The form of words, as the reader of words receives it, with what its help says.

ghost use Rattle.std.specs.Prelude.{◌≡◌, false, IfOk};
ghost use Rattle.clap.specs.Words.{app_of, rule_of};
ghost use Rattle.steps.specs.Form.{form, option, place};

use clap::{Arg, ArgAction, Command};
use std::alloc::{AllocError, Global};

/// The version that `--version` prints.
const VERSION: &str = "1";

/// A file at a place of its own, which may not be left out.
fn file_at<'a>(alloc: Global, id: &'a str, help: &'a str) -> Arg<'a>
    ensures rule { rule_of result ≡ place id.entry.now }
    ensures local { result.global ≡ false }
{
    Arg::new(alloc, id)
        .action(ArgAction::Set)
        .required(true)
        .help(help)
}

/// The option for settings, which may not be left out.
fn settings<'a>(alloc: Global) -> Arg<'a>
    ensures rule { rule_of result ≡ option }
    ensures local { result.global ≡ false }
{
    Arg::new(alloc, "settings")
        .long("settings")
        .value_name("FILE")
        .action(ArgAction::Set)
        .required(true)
        .help("The CPUs and objects, in TOML")
}

/// The only form of words that there is.
pub fn form<'a>(alloc: Global) -> Result<Command<'a>, AllocError>
    ensures { IfOk result (λ c. app_of c ≡ form) }
{
    Command::new(alloc, "steps")
        .bin_name("steps")?
        .about("Prints each step of the step machine, and the words of the lock behind it")
        .version(VERSION)
        .no_binary_name(true)
        .arg(settings(alloc))?
        .arg(file_at(alloc, "SCRIPTS", "What each CPU does, an entry a line"))?
        .arg(file_at(alloc, "SCHEDULE", "The CPU of each step"))
}
