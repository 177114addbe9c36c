//! Reading scripts from a source, piece by piece.

ghost use Rattle.std.specs.Prelude.{◌≡◌, true, length, Err, IfOk, IfErr, OnOk};
ghost use Rattle.event_log.specs.Stream.{counted};
ghost use Rattle.scripts.specs.{ScriptFaults.{SpellsRest, NamesFirstBadOfRest}, ScriptText.ScriptsFit};

use crate::Scripts;
use crate::script::lines::{ScriptLists, whole_scripts};
use event_log::Source;
use record_lines::{Pieces, TextFault, feed_all};
use records::Settings;
use std::alloc::Global;

impl Scripts {
    /// Reads the rest of the source, as `read` does its text. A line that can't come is refused as soon as it is there, and
    /// no more is read. No more of the text is held than a line without an end and some 4,096 bytes.
    pub fn read_from<S: Source>(
        alloc: Global,
        source: &mut S,
        settings: &Settings,
    ) -> Result<Scripts, TextFault>
        ensures found { IfOk result (λ scripts. SpellsRest settings.now (S.remaining source.old) scripts) }
        ensures fit { IfOk result (λ scripts. ScriptsFit settings.now.cpus (length settings.now.objects) scripts) }
        ensures fault { IfErr result (NamesFirstBadOfRest settings.now (S.remaining source.old)) }
        ensures none_failed { OnOk result (S.failed source.new ≡ S.failed source.old) }
        ensures one_failed { result ≡ Err TextFault.ReadFailed → S.failed source.new ≡ counted true (S.failed source.old) }
        ensures no_other { (result ≡ Err TextFault.ReadFailed → ⊥) → S.failed source.new ≡ S.failed source.old }
    {
        let lists = ScriptLists::new(alloc, settings)?;
        let mut pieces = Pieces::new(alloc, lists);
        let mut buffer = [0u8; 4096];
        feed_all(source, &mut pieces, &mut buffer)?;
        Ok(whole_scripts(pieces)?)
    }
}
