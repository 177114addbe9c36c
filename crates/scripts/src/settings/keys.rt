//! The keys of a settings' table, and numbers behind them.

ghost use Rattle.std.specs.{Prelude.{◌≡◌, ◌≤◌, if◌then◌else◌, IfOk}, List.list_any, Option.option_map, Str.bytes_eq};
ghost use Rattle.toml.specs.{Data.get_member, View.{view, table_view}};
ghost use Rattle.scripts.specs.SettingsKeys.{key_word, key_in, at_key, find_key, number_from, has_only, unknown_key};
ghost use Rattle.record_lines.specs.Then.{ok_map};

use crate::{BadSettings, Cause, SettingsKey, SettingsPlace};
use toml::{Table, Value};

/// A cause is a fault of that key, at that place.
#[tactic(auto, unfolding(crate::specs::SettingsKeys::at_key))]
pub(crate) fn at<T>(
    place: SettingsPlace,
    key: SettingsKey,
    found: Result<T, Cause>,
) -> Result<T, BadSettings>
    ensures { result ≡ at_key place key found }
{
    match found {
        Ok(value) => Ok(value),
        Err(cause) => Err(BadSettings { place, key, cause }),
    }
}

/// The value of the key, if the table has one.
pub(crate) fn get<'a>(table: &'a Table, key: SettingsKey) -> Option<&'a Value>
    ensures { option_map (λ v. view v.now) result ≡ get_member (key_word key) (table_view table.now) }
{
    table.get(key.word())
}

/// The value of the key.
#[tactic(auto, unfolding(crate::specs::SettingsKeys::find_key, crate::specs::SettingsKeys::at_key))]
pub(crate) fn find<'a>(
    table: &'a Table,
    place: SettingsPlace,
    key: SettingsKey,
) -> Result<&'a Value, BadSettings>
    ensures { ok_map (λ v. view v.now) result ≡ find_key place key (table_view table.now) }
{
    match get(table, key) {
        Some(value) => Ok(value),
        None => Err(BadSettings {
            place,
            key,
            cause: Cause::Missing,
        }),
    }
}

/// A whole number from 1 to the greatest.
#[tactic(auto, unfolding(crate::specs::SettingsKeys::number_from))]
fn number(value: &Value, high: u32) -> Result<u32, Cause>
    ensures value { result ≡ number_from high (view value.now) }
    ensures bound { IfOk result (λ n. n ≤ high) }
{
    let Some(number) = value.as_integer() else {
        return Err(Cause::WrongType);
    };
    if 1 <= number && number <= i64::from(high) {
        Ok(number as u32)
    } else {
        Err(Cause::OutOfRange)
    }
}

/// The number of the key, from 1 to the greatest.
#[tactic(auto, using(crate::proofs::SettingsTables::at_ok), unfolding(crate::specs::SettingsKeys::key_in))]
pub(crate) fn number_of(
    table: &Table,
    place: SettingsPlace,
    key: SettingsKey,
    high: u32,
) -> Result<u32, BadSettings>
    ensures value { result ≡ key_in place key (number_from high) (table_view table.now) }
    ensures bound { IfOk result (λ n. n ≤ high) }
{
    let value = find(table, place, key)?;
    at(place, key, number(value, high))
}

/// Whether the name is one of the keys.
fn is_one_of(name: &str, keys: &[SettingsKey]) -> bool
    ensures { result ≡ list_any (λ key. bytes_eq (key_word key) name.now) keys.now }
{
    keys.iter().any(|key| key.word() == name)
}

/// Whether each key is one of these.
fn has_only(table: &Table, keys: &[SettingsKey]) -> bool
    ensures { result ≡ has_only keys.now (table_view table.now) }
{
    for name in table.keys() {
        if !is_one_of(name.as_str(), keys) {
            return false;
        }
    }
    true
}

/// Refuses a key that is none of these.
pub(crate) fn refuse_others(
    table: &Table,
    place: SettingsPlace,
    keys: &[SettingsKey],
) -> Result<(), BadSettings>
    ensures { result ≡ if has_only keys.now (table_view table.now) then Ok tt else Err (unknown_key place) }
{
    if has_only(table, keys) {
        Ok(())
    } else {
        Err(BadSettings {
            place,
            key: SettingsKey::Other,
            cause: Cause::Unknown,
        })
    }
}
