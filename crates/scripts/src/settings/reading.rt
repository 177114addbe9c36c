//! Reading settings, from memory or from a source.

ghost use Rattle.std.specs.Prelude.{◌≡◌, ◌+◌, true, None, Err, IfOk, IfErr, IsUtf8, OnOk};
ghost use Rattle.toml.specs.{Parse.parse_document, View.table_view};
ghost use Rattle.event_log.specs.Stream.{counted};
ghost use Rattle.records.specs.Settings.{SettingsFit};
ghost use Rattle.scripts.specs.{SettingsText.{Settles, SpellsSettings, NamesFirstFault, not_toml, settings_of}, SettingsSources.{SpellsSettingsRest, NamesFirstFaultOfRest}};
ghost use Rattle.record_lines.specs.Sources.{ReadsAtMost};

use crate::settings::text::settings;
use crate::{BadSettings, Cause, SettingsFault, SettingsKey, SettingsPlace};
use event_log::{OutOfMemory, Source};
use record_lines::{SourceFault, read_up_to};
use records::Settings;
use std::alloc::Global;

/// The most bytes of settings that come from a source.
pub const MOST_SETTINGS_BYTES: usize = 65_536;

/// A text that isn't UTF-8 or no TOML.
fn not_toml() -> BadSettings
    ensures { result ≡ not_toml }
{
    BadSettings {
        place: SettingsPlace::Top,
        key: SettingsKey::Text,
        cause: Cause::NotToml,
    }
}

/// Reads settings. Their type is lower, so that no judge of records stands on what reads it.
pub trait ReadSettings: Drop {
    /// Reads a text that is in memory.
    fn read(alloc: Global, text: &[u8]) -> Result<Self, SettingsFault>;

    /// Reads the rest of a source.
    fn read_from<S: Source>(
        alloc: Global,
        source: &mut S,
    ) -> Result<Self, SourceFault<SettingsFault>>;
}

impl ReadSettings for Settings {
    /// Reads settings. Where memory doesn't run out, it answers what the text spells, or the first fault: `not toml` where
    /// the text isn't UTF-8 or no TOML, and else in the order of the keys.
    fn read(alloc: Global, text: &[u8]) -> Result<Settings, SettingsFault>
        ensures utf8 { IsUtf8 text.now → Settles result (settings_of (parse_document text.now)) }
        ensures not_utf8 { (IsUtf8 text.now → ⊥) → Settles result (settings_of None) }
        ensures found { IfOk result (SpellsSettings text.now) }
        ensures fault { IfErr result (NamesFirstFault text.now) }
        ensures fit { IfOk result (λ s. SettingsFit s) }
    {
        match toml::table_from_slice(alloc, text) {
            Ok(table) => settings(alloc, &table),
            Err(fault) if fault.is_memory() => Err(SettingsFault::OutOfMemory),
            Err(_) => Err(SettingsFault::Refused(not_toml())),
        }
    }

    /// Reads the rest of the source, as `read` does its text. Of more than `MOST_SETTINGS_BYTES` it reads and holds one byte
    /// more than these, and refuses the text as no TOML.
    fn read_from<S: Source>(
        alloc: Global,
        source: &mut S,
    ) -> Result<Settings, SourceFault<SettingsFault>>
        ensures found { IfOk result (SpellsSettingsRest (S.remaining source.old)) }
        ensures fit { IfOk result (λ s. SettingsFit s) }
        ensures fault { IfErr result (NamesFirstFaultOfRest (S.remaining source.old)) }
        ensures few { ReadsAtMost (MOST_SETTINGS_BYTES + 1) (S.remaining source.old) (S.remaining source.new) }
        ensures none_failed { OnOk result (S.failed source.new ≡ S.failed source.old) }
        ensures one_failed { result ≡ Err SourceFault.ReadFailed → S.failed source.new ≡ counted true (S.failed source.old) }
        ensures no_other { (result ≡ Err SourceFault.ReadFailed → ⊥) → S.failed source.new ≡ S.failed source.old }
    {
        let bytes = match read_up_to(alloc, source, MOST_SETTINGS_BYTES + 1) {
            Ok(bytes) => bytes,
            Err(SourceFault::ReadFailed) => return Err(SourceFault::ReadFailed),
            Err(SourceFault::Reported(OutOfMemory)) => {
                return Err(SourceFault::Reported(SettingsFault::OutOfMemory));
            }
        };
        if bytes.len() > MOST_SETTINGS_BYTES {
            return Err(SourceFault::Reported(SettingsFault::Refused(not_toml())));
        }
        match Settings::read(alloc, bytes.as_slice()) {
            Ok(settings) => Ok(settings),
            Err(fault) => Err(SourceFault::Reported(fault)),
        }
    }
}
