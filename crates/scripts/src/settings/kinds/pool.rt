//! A pool of pages in a table of settings.

ghost use Rattle.std.specs.Prelude.{◌≡◌, length, replicate};
ghost use Rattle.toml.specs.View.{view, table_view, items_view};
ghost use Rattle.kernel_object.specs.declared.kind.Kind.TheVariants.{Pool};
ghost use Rattle.scripts.specs.{KindKeys.Pool.{are_integers, quota_from, each_quota, quotas_from, pool_params_in}, SettingsKeys.key_or, SettingsText.keys_of};

use crate::settings::keys::{at, get, number_of};
use crate::{BadSettings, Cause, SettingsKey, SettingsPlace};
use page_pool::{MOST_PAGES, OWNERS, PoolParams};
use toml::{Table, Value};

/// Whether each value is an integer.
fn are_integers(values: &[Value]) -> bool
    ensures { result ≡ are_integers (items_view values.now) }
{
    values.iter().all(|value| value.is_integer())
}

/// A quota.
#[tactic(auto, unfolding(crate::specs::KindKeys::Pool::quota_from))]
fn quota(value: &Value) -> Result<u32, Cause>
    ensures { result ≡ quota_from (view value.now) }
{
    let Some(number) = value.as_integer() else {
        return Err(Cause::WrongType);
    };
    if 0 <= number && number <= i64::from(MOST_PAGES) {
        Ok(number as u32)
    } else {
        Err(Cause::OutOfRange)
    }
}

/// A quota of each value.
fn each_quota(values: &[Value]) -> Result<[u32; OWNERS], Cause>
    requires { length values.now ≡ OWNERS }
    ensures { result ≡ each_quota (items_view values.now) }
{
    let mut quotas = [0; OWNERS];
    for owner in 0..OWNERS {
        quotas[owner] = quota(&values[owner])?;
    }
    Ok(quotas)
}

/// A quota for each owner.
#[tactic(auto, using(crate::proofs::SettingsTables::items_counted), unfolding(crate::specs::KindKeys::Pool::quotas_from))]
fn quotas(value: &Value) -> Result<[u32; OWNERS], Cause>
    ensures { result ≡ quotas_from (view value.now) }
{
    let Some(array) = value.as_array() else {
        return Err(Cause::WrongType);
    };
    let values = array.as_slice();
    if !are_integers(values) {
        return Err(Cause::WrongType);
    }
    if values.len() != OWNERS {
        return Err(Cause::OutOfRange);
    }
    each_quota(values)
}

/// The quotas of a pool of so many pages: as many for each owner, where the table has none.
#[tactic(auto, unfolding(crate::specs::SettingsKeys::key_or, crate::specs::SettingsKeys::at_key))]
fn quotas_of(table: &Table, place: SettingsPlace, pages: u32) -> Result<[u32; OWNERS], BadSettings>
    ensures { result ≡ key_or place SettingsKey.Quotas quotas_from (replicate OWNERS pages) (table_view table.now) }
{
    match get(table, SettingsKey::Quotas) {
        Some(value) => at(place, SettingsKey::Quotas, quotas(value)),
        None => Ok([pages; OWNERS]),
    }
}

/// The number of pages and the quotas of a table of settings.
#[tactic(auto, unfolding(crate::specs::KindKeys::Pool::pool_params_in))]
pub(crate) fn params_in(table: &Table, place: SettingsPlace) -> Result<PoolParams, BadSettings>
    ensures { result ≡ pool_params_in place (table_view table.now) }
{
    let pages = number_of(table, place, SettingsKey::Pages, MOST_PAGES)?;
    let quotas = quotas_of(table, place, pages)?;
    Ok(PoolParams { pages, quotas })
}

/// The keys of every object, and those of a pool.
pub(crate) fn keys() -> &'static [SettingsKey]
    ensures { result.now ≡ keys_of Pool }
{
    &[
        SettingsKey::Name,
        SettingsKey::Kind,
        SettingsKey::Lock,
        SettingsKey::Events,
        SettingsKey::Pages,
        SettingsKey::Quotas,
    ]
}
