//! A console in a table of settings.

ghost use Rattle.std.specs.Prelude.{◌≡◌};
ghost use Rattle.toml.specs.View.{table_view};
ghost use Rattle.kernel_object.specs.declared.kind.Kind.TheVariants.{Console};
ghost use Rattle.scripts.specs.{KindKeys.Console.console_keys, SettingsText.keys_of};

use crate::settings::keys::number_of;
use crate::{BadSettings, SettingsKey, SettingsPlace};
use console_ring::MOST_BYTES;
use toml::Table;

/// The number of bytes of a table of settings.
pub(crate) fn params_in(table: &Table, place: SettingsPlace) -> Result<u32, BadSettings>
    ensures { result ≡ console_keys.params_in place (table_view table.now) }
{
    number_of(table, place, SettingsKey::Bytes, MOST_BYTES)
}

/// The keys of every object, and those of a console.
pub(crate) fn keys() -> &'static [SettingsKey]
    ensures { result.now ≡ keys_of Console }
{
    &[
        SettingsKey::Name,
        SettingsKey::Kind,
        SettingsKey::Lock,
        SettingsKey::Events,
        SettingsKey::Bytes,
    ]
}
