//! A queue of threads in a table of settings.

ghost use Rattle.std.specs.Prelude.{◌≡◌};
ghost use Rattle.toml.specs.View.{table_view};
ghost use Rattle.kernel_object.specs.declared.kind.Kind.TheVariants.{Queue};
ghost use Rattle.scripts.specs.{KindKeys.Queue.queue_keys, SettingsText.keys_of};

use crate::settings::keys::number_of;
use crate::{BadSettings, SettingsKey, SettingsPlace};
use shared_queue::MOST_THREADS;
use toml::Table;

/// The number of threads of a table of settings.
pub(crate) fn params_in(table: &Table, place: SettingsPlace) -> Result<u32, BadSettings>
    ensures { result ≡ queue_keys.params_in place (table_view table.now) }
{
    number_of(table, place, SettingsKey::Threads, MOST_THREADS)
}

/// The keys of every object, and those of a queue.
pub(crate) fn keys() -> &'static [SettingsKey]
    ensures { result.now ≡ keys_of Queue }
{
    &[
        SettingsKey::Name,
        SettingsKey::Kind,
        SettingsKey::Lock,
        SettingsKey::Events,
        SettingsKey::Threads,
    ]
}
