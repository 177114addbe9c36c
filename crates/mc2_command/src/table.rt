//! The table of forms, as the reader of words receives it.

ghost use Rattle.std.specs.Prelude.{◌≡◌, [], true, false, IfOk, codes};
ghost use Rattle.clap.specs.Words.{app_of, rule_of, with_subcommand};
ghost use Rattle.mc2_command.specs.Forms.{forms, on_record, option, place, plain, run_form, sim_form, top};

use clap::{Arg, ArgAction, Command};
use std::alloc::{AllocError, Global};

/// A command without help and version.
fn plain<'a>(alloc: Global, name: &'a str) -> Command<'a>
    ensures app { app_of result ≡ record { top = plain name.entry.now; subs = [] } }
{
    Command::new(alloc, name)
        .disable_help_flag(true)
        .disable_version_flag(true)
}

/// A file at a place of its own.
fn file_at<'a>(alloc: Global, id: &'a str) -> Arg<'a>
    ensures rule { rule_of result ≡ place id.entry.now }
    ensures local { result.global ≡ false }
{
    Arg::new(alloc, id).action(ArgAction::Set)
}

/// `--settings F`, anywhere.
fn settings_option<'a>(alloc: Global) -> Arg<'a>
    ensures rule { rule_of result ≡ option }
    ensures local { result.global ≡ false }
{
    Arg::new(alloc, "settings")
        .long("settings")
        .action(ArgAction::Set)
}

/// The command above with a form more.
fn with_form<'a>(above: Command<'a>, below: Command<'a>) -> Result<Command<'a>, AllocError>
    requires { (app_of below).top.is_plain ≡ true }
    ensures { IfOk result (λ c. app_of c ≡ with_subcommand (app_of above.entry) (app_of below.entry).top) }
{
    above.subcommand(below)
}

/// With the form of a command on a record.
fn with_record<'a>(
    above: Command<'a>,
    alloc: Global,
    name: &'a str,
) -> Result<Command<'a>, AllocError>
    ensures { IfOk result (λ c. app_of c ≡ with_subcommand (app_of above.entry) (on_record name.entry.now)) }
{
    let below = plain(alloc, name).arg(file_at(alloc, "record"))?;
    with_form(above, below)
}

/// With the form of `run`.
fn with_run<'a>(above: Command<'a>, alloc: Global) -> Result<Command<'a>, AllocError>
    ensures { IfOk result (λ c. app_of c ≡ with_subcommand (app_of above.entry) run_form) }
{
    let below = plain(alloc, "run")
        .arg(settings_option(alloc))?
        .arg(file_at(alloc, "scripts"))?;
    with_form(above, below)
}

/// With the form of `sim`.
fn with_sim<'a>(above: Command<'a>, alloc: Global) -> Result<Command<'a>, AllocError>
    ensures { IfOk result (λ c. app_of c ≡ with_subcommand (app_of above.entry) sim_form) }
{
    let below = plain(alloc, "sim")
        .arg(settings_option(alloc).required(true))?
        .arg(file_at(alloc, "scripts").required(true))?
        .arg(file_at(alloc, "schedule").required(true))?;
    with_form(above, below)
}

/// No form yet: a command has to be named.
fn no_forms<'a>(alloc: Global) -> Command<'a>
    ensures { app_of result ≡ record { top = record top { is_leaf = true }; subs = [] } }
{
    plain(alloc, "mc2")
        .disable_help_subcommand(true)
        .no_binary_name(true)
        .subcommand_required(true)
}

/// All forms of words that there are.
pub fn forms<'a>(alloc: Global) -> Result<Command<'a>, AllocError>
    ensures { IfOk result (λ c. app_of c ≡ forms) }
{
    let forms = with_run(no_forms(alloc), alloc)?;
    let forms = with_sim(forms, alloc)?;
    let forms = with_record(forms, alloc, "report")?;
    let forms = with_record(forms, alloc, "audit")?;
    let forms = with_record(forms, alloc, "merge")?;
    with_record(forms, alloc, "upgrade")
}
