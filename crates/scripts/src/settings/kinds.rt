//! What all else takes of a kind in settings: one line of each.

ghost use Rattle.std.specs.Prelude.{◌≡◌};
ghost use Rattle.toml.specs.View.{table_view};
ghost use Rattle.scripts.specs.SettingsText.{keys_of, params_in};

pub mod console;
pub mod pool;
pub mod queue;
pub mod sched;

use crate::{BadSettings, SettingsKey, SettingsPlace};
use kernel_object::{KParams, Kind};
use toml::Table;

/// The parameters of a table of settings, of that kind.
#[tactic(auto, unfolding(crate::specs::SettingsText::params_in))]
pub(crate) fn params_in(
    table: &Table,
    place: SettingsPlace,
    kind: Kind,
) -> Result<KParams, BadSettings>
    ensures { result ≡ params_in place kind (table_view table.now) }
{
    match kind {
        Kind::Queue => Ok(KParams::Queue(queue::params_in(table, place)?)),
        Kind::Pool => Ok(KParams::Pool(pool::params_in(table, place)?)),
        Kind::Console => Ok(KParams::Console(console::params_in(table, place)?)),
        Kind::Sched => Ok(KParams::Sched(sched::params_in(table, place)?)),
    }
}

/// The keys of every object, and those of its kind.
pub(crate) fn keys_of(kind: Kind) -> &'static [SettingsKey]
    ensures { result.now ≡ keys_of kind }
{
    match kind {
        Kind::Queue => queue::keys(),
        Kind::Pool => pool::keys(),
        Kind::Console => console::keys(),
        Kind::Sched => sched::keys(),
    }
}
