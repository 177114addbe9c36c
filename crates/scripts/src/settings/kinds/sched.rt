//! A scheduler in a table of settings.

ghost use Rattle.std.specs.Prelude.{◌≡◌};
ghost use Rattle.toml.specs.View.{table_view};
ghost use Rattle.kernel_object.specs.declared.kind.Kind.TheVariants.{Sched};
ghost use Rattle.scripts.specs.{KindKeys.Sched.sched_params_in, SettingsText.keys_of};

use crate::settings::keys::number_of;
use crate::{BadSettings, SettingsKey, SettingsPlace};
use toml::Table;
use wake_list::{MOST_CHANNELS, MOST_THREADS, SchedParams};

/// The numbers of threads and channels of a table of settings.
#[tactic(auto, unfolding(crate::specs::KindKeys::Sched::sched_params_in))]
pub(crate) fn params_in(table: &Table, place: SettingsPlace) -> Result<SchedParams, BadSettings>
    ensures { result ≡ sched_params_in place (table_view table.now) }
{
    let threads = number_of(table, place, SettingsKey::Threads, MOST_THREADS)?;
    let channels = number_of(table, place, SettingsKey::Channels, MOST_CHANNELS)?;
    Ok(SchedParams { threads, channels })
}

/// The keys of every object, and those of a scheduler.
pub(crate) fn keys() -> &'static [SettingsKey]
    ensures { result.now ≡ keys_of Sched }
{
    &[
        SettingsKey::Name,
        SettingsKey::Kind,
        SettingsKey::Lock,
        SettingsKey::Events,
        SettingsKey::Threads,
        SettingsKey::Channels,
    ]
}
