//! The lines of scripts: one entry each.

ghost use Rattle.std.specs.Prelude.{◌≡◌, ◌<◌, ◌↔◌, ℕ, List, [], map, length, Err, IsTrue, IfOk, IfErr, OnOk};
ghost use Rattle.scripts.specs.{ScriptFaults.HasReadScripts, ScriptFaults.{Adds, IsFull, NamesFirstBad}, ScriptText.{IsBlank, AreScripts, dealt}};
ghost use Rattle.records.specs.Settings.{Settings as Shown, SettingsFit};

use crate::Scripts;
use crate::script::request_line::request;
use arrayvec::ArrayVec;
use event_log::Todo;
use kernel_object::KernelObject;
use record_lines::{LineFault, LinesFault, MOST_BYTES, Pieces, TakesLines};
use records::{MOST_ENTRIES, Settings};
use std::alloc::Global;
use std::marker::Model;

/// The entries of each CPU that were read.
#[derive(Drop)]
pub(crate) struct ScriptLists<'s> {
    settings: &'s Settings,
    lists: Vec<Vec<Todo<KernelObject>>>,
}

impl<'s> Model for ScriptLists<'s> {
    ghost use Rattle.std.specs.Prelude.{◌≡◌, length, map};
    ghost use Rattle.scripts.specs.ScriptFaults.{ScriptState};
    ghost use Rattle.records.specs.Settings.{SettingsFit};

    ghost Value = { ScriptState };

    ghost view = { λ s. record { settings = s.settings.now; lists = map (λ l. l.items) s.lists.items } };

    ghost invariant = { λ s. (length s.lists.items ≡ s.settings.now.cpus) × SettingsFit s.settings.now };
}

impl<'s> ScriptLists<'s> {
    /// No entries yet.
    pub(crate) fn new(alloc: Global, settings: &'s Settings) -> Result<ScriptLists<'s>, LinesFault>
        ensures lists { IfOk result (λ s. s ≡ record { settings = settings.now; lists = dealt settings.now.cpus [] }) }
        ensures fault { IfErr result (λ f. f ≡ LinesFault.OutOfMemory) }
        ensures fit { SettingsFit settings.now }
    {
        let lists = empty_lists(alloc, settings.cpus())?;
        Ok(ScriptLists { settings, lists })
    }

    /// The entries, without taking memory.
    pub(crate) fn into_lists(self) -> Vec<Vec<Todo<KernelObject>>>
        ensures lists { map (λ l. l.items) result.items ≡ self.entry.lists }
        ensures fit { SettingsFit self.entry.settings }
    {
        let ScriptLists { lists, .. } = self;
        lists
    }
}

impl TakesLines for ScriptLists<'_> {
    ghost use Rattle.scripts.specs.ScriptFaults.{TakesScriptLine, RefusesScriptLine, FitsScriptLine};

    ghost takes = { TakesScriptLine };

    ghost refuses = { RefusesScriptLine };

    ghost fits = { FitsScriptLine };

    fn take_line(&mut self, line: &[u8]) -> Result<(), LineFault> {
        if is_blank(line) {
            return Ok(());
        }
        let settings = self.settings;
        let mut calls = ArrayVec::new();
        let Some((cpu, object)) = request(settings, line, &mut calls) else {
            return Err(LineFault::Refused);
        };
        add(&mut self.lists, cpu, Todo { object, calls })
    }

    fn passes(&self, first: u8) -> bool {
        let _settings = self.settings;
        first == b'#'
    }

    fn is_too_long(&self, first: u8, count: usize) -> bool {
        let _settings = self.settings;
        first != b'#' && count > MOST_BYTES
    }
}

/// The scripts that were read, if the text was whole lines.
pub(crate) fn whole_scripts(pieces: Pieces<ScriptLists<'_>>) -> Result<Scripts, LinesFault>
    requires { (settings : Shown) × (text : List ℕ) × HasReadScripts settings text pieces }
    ensures found { (settings : Shown) (text : List ℕ) → HasReadScripts settings text pieces.entry → IfOk result (AreScripts settings text) }
    ensures fault { (settings : Shown) (text : List ℕ) → HasReadScripts settings text pieces.entry → IfErr result (NamesFirstBad settings text) }
{
    if !pieces.is_whole() {
        return Err(LinesFault::Line(pieces.number()));
    }
    Ok(Scripts::of(pieces.into_lines().into_lists()))
}

/// Whether the line is empty or a comment.
fn is_blank(line: &[u8]) -> bool
    ensures { IsTrue result ↔ IsBlank line.now }
{
    match line {
        [] => true,
        [first, ..] => *first == b'#',
    }
}

/// An empty list for each CPU.
fn empty_lists(alloc: Global, cpus: u8) -> Result<Vec<Vec<Todo<KernelObject>>>, LinesFault>
    ensures lists { IfOk result (λ lists. map (λ l. l.items) lists.items ≡ dealt cpus []) }
    ensures fault { IfErr result (λ f. f ≡ LinesFault.OutOfMemory) }
{
    let mut lists = Vec::new(alloc);
    for _ in 0..cpus {
        match lists.push(Vec::new(alloc)) {
            Ok(()) => {}
            Err(_) => return Err(LinesFault::OutOfMemory),
        }
    }
    Ok(lists)
}

/// Adds an entry at the end of its CPU's list, if there is room for it.
fn add(
    lists: &mut Vec<Vec<Todo<KernelObject>>>,
    cpu: u8,
    todo: Todo<KernelObject>,
) -> Result<(), LineFault>
    requires { cpu < length lists.old.items }
    ensures count { length lists.new.items ≡ length lists.old.items }
    ensures ok { OnOk result (Adds (map (λ l. l.items) lists.old.items) (map (λ l. l.items) lists.new.items) (record { cpu = cpu; todo = todo })) }
    ensures full { result ≡ Err LineFault.Refused → IsFull (map (λ l. l.items) lists.old.items) cpu }
{
    let list = &mut lists[cpu as usize];
    if list.len() >= MOST_ENTRIES {
        return Err(LineFault::Refused);
    }
    list.push(todo)?;
    Ok(())
}
