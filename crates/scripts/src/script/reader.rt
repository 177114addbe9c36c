//! Reading scripts.

ghost use Rattle.std.specs.Prelude.{◌≡◌, ℕ, List, length, Err, IfOk, IfErr};
ghost use Rattle.kernel_object.specs.KernelTypes.{KernelTodo};
ghost use Rattle.scripts.specs.{ScriptFaults.NamesFirstBad, ScriptText.{AreScripts, ScriptsFit}};

use crate::Scripts;
use crate::script::lines::{ScriptLists, whole_scripts};
use record_lines::{LinesFault, Pieces};
use records::Settings;
use std::alloc::Global;

impl Scripts {
    /// Reads all entries: each CPU's, in the order of their lines.
    pub fn read(alloc: Global, text: &[u8], settings: &Settings) -> Result<Scripts, LinesFault>
        ensures found { IfOk result (λ scripts. AreScripts settings.now text.now scripts) }
        ensures fit { IfOk result (λ scripts. ScriptsFit settings.now.cpus (length settings.now.objects) scripts) }
        ensures fault { IfErr result (NamesFirstBad settings.now text.now) }
        ensures no_scripts { (n : ℕ) (scripts : List (List KernelTodo)) → result ≡ Err (LinesFault.Line n) → AreScripts settings.now text.now scripts → ⊥ }
    {
        let lists = ScriptLists::new(alloc, settings)?;
        let mut pieces = Pieces::new(alloc, lists);
        pieces.feed(text)?;
        whole_scripts(pieces)
    }
}
