//! Scripts: what each CPU does.

ghost use Rattle.std.specs.{Prelude.{◌≡◌, ◌↔◌, IsTrue, length, map, nat_lt, IfOk}, List.list_all};
ghost use Rattle.scripts.specs.ScriptText.{ScriptsFit, ScriptsWithin};

use event_log::{OutOfMemory, Todo};
use kernel_object::KernelObject;
use records::{Settings, copy_all};
use std::alloc::Global;
use std::marker::Model;

/// For each CPU its entries in order: at most 64 CPUs and 10,000 entries of each, every entry with 1 to 8 calls on one
/// of at most 16 objects.
#[derive(Drop)]
pub struct Scripts {
    lists: Vec<Vec<Todo<KernelObject>>>,
}

impl Model for Scripts {
    ghost use Rattle.std.specs.Prelude.{List, map};
    ghost use Rattle.kernel_object.specs.KernelTypes.{KernelTodo};
    ghost use Rattle.scripts.specs.ScriptText.{ScriptsWithin};

    ghost Value = { List (List KernelTodo) };

    ghost view = { λ s. map (λ l. l.items) s.lists.items };

    ghost invariant = { λ s. ScriptsWithin (map (λ l. l.items) s.lists.items) };
}

impl Scripts {
    /// Scripts of these lists, one for each CPU.
    pub(crate) fn of(lists: Vec<Vec<Todo<KernelObject>>>) -> Scripts
        requires { ScriptsWithin (map (λ l. l.items) lists.items) }
        ensures { result ≡ map (λ l. l.items) lists.items }
    {
        Scripts { lists }
    }

    /// The script of each CPU.
    pub fn lists(&self) -> &[Vec<Todo<KernelObject>>]
        ensures lists { map (λ l. l.items) result.now ≡ self.now }
        ensures within { ScriptsWithin self.now }
    {
        self.lists.as_slice()
    }

    /// The script of each CPU, without taking memory.
    pub fn into_lists(self) -> Vec<Vec<Todo<KernelObject>>>
        ensures lists { map (λ l. l.items) result.items ≡ self }
        ensures within { ScriptsWithin self }
    {
        let Scripts { lists } = self;
        lists
    }

    /// The same scripts once more.
    pub fn copy(&self, alloc: Global) -> Result<Scripts, OutOfMemory>
        ensures { IfOk result (λ copy. copy ≡ self.now) }
    {
        let lists = copy_lists(alloc, self.lists())?;
        Ok(Scripts::of(lists))
    }

    /// Whether there is one script for each CPU of the settings, and each entry's object is one of theirs.
    pub fn fits(&self, settings: &Settings) -> bool
        ensures { IsTrue result ↔ ScriptsFit settings.now.cpus (length settings.now.objects) self.now }
    {
        let objects = settings.objects().len();
        self.lists().len() == settings.cpus() as usize && are_on(self.lists(), objects)
    }
}

/// The same lists once more, each in memory that is taken at once.
fn copy_lists(
    alloc: Global,
    lists: &[Vec<Todo<KernelObject>>],
) -> Result<Vec<Vec<Todo<KernelObject>>>, OutOfMemory>
    ensures { IfOk result (λ copies. map (λ l. l.items) copies.items ≡ map (λ l. l.items) lists.now) }
{
    let mut copies = Vec::with_capacity(alloc, lists.len())?;
    for list in lists {
        copies.push_reserved(copy_all(alloc, list.as_slice())?);
    }
    Ok(copies)
}

/// Whether each entry is on one of so many objects.
fn is_on(script: &[Todo<KernelObject>], objects: usize) -> bool
    ensures { result ≡ list_all (λ t. nat_lt t.object objects) script.now }
{
    script.iter().all(|todo| (todo.object as usize) < objects)
}

/// Whether each entry of each script is.
fn are_on(lists: &[Vec<Todo<KernelObject>>], objects: usize) -> bool
    ensures { result ≡ list_all (λ l. list_all (λ t. nat_lt t.object objects) l.items) lists.now }
{
    for list in lists {
        if !is_on(list.as_slice(), objects) {
            return false;
        }
    }
    true
}
