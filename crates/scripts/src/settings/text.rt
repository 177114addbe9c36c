//! Reading settings, a TOML text.

ghost use Rattle.std.specs.{Prelude.{◌≡◌, ◌≤◌, [], length, None, IfOk}, List.list_any, Str.bytes_eq};
ghost use Rattle.toml.specs.View.{view, table_view, items_view};
ghost use Rattle.scripts.specs.{SettingsKeys.key_in, SettingsText.{Settles, name_from, kind_from, lock_from, items_from, object_in, object_from, objects_from, settings_in}};
ghost use Rattle.record_lines.specs.Then.{ok_map};

use crate::settings::keys::{at, find, number_of, refuse_others};
use crate::settings::kinds::{keys_of, params_in};
use crate::{BadSettings, Cause, SettingsFault, SettingsKey, SettingsPlace};
use arrayvec::ArrayString;
use event_log::{MOST_EVENTS, Series};
use kernel_object::Kind;
use kernel_words::lock_of_word;
use record_lines::name_of;
use records::{ObjectSettings, Settings, is_taken};
use sound_run::{LockKind, MOST_CELLS, MOST_CPUS};
use std::alloc::Global;
use toml::{Table, Value};

/// Whether one of the earlier objects has the name.
fn is_repeated(name: &str, earlier: &[ObjectSettings]) -> bool
    ensures { result ≡ list_any (λ o. bytes_eq o.name name.now) earlier.now }
{
    is_taken(earlier, name.as_bytes())
}

/// A name that no earlier object has.
#[tactic(auto, unfolding(crate::specs::SettingsText::name_from))]
fn name(value: &Value, earlier: &[ObjectSettings]) -> Result<ArrayString<16>, Cause>
    ensures { ok_map (λ x. x.bytes) result ≡ name_from earlier.now (view value.now) }
{
    let Some(text) = value.as_str() else {
        return Err(Cause::WrongType);
    };
    let Some(name) = name_of(text) else {
        return Err(Cause::BadWord);
    };
    if is_repeated(text, earlier) {
        return Err(Cause::Repeated);
    }
    Ok(name)
}

/// The kind of an object.
#[tactic(auto, unfolding(crate::specs::SettingsText::kind_from))]
fn kind(value: &Value) -> Result<Kind, Cause>
    ensures { result ≡ kind_from (view value.now) }
{
    let Some(word) = value.as_str() else {
        return Err(Cause::WrongType);
    };
    match Kind::of_word(word.as_bytes()) {
        Some(kind) => Ok(kind),
        None => Err(Cause::BadWord),
    }
}

/// The kind of a lock.
#[tactic(auto, unfolding(crate::specs::SettingsText::lock_from))]
fn lock(value: &Value) -> Result<LockKind, Cause>
    ensures { result ≡ lock_from (view value.now) }
{
    let Some(word) = value.as_str() else {
        return Err(Cause::WrongType);
    };
    match lock_of_word(word.as_bytes()) {
        Some(kind) => Ok(kind),
        None => Err(Cause::BadWord),
    }
}

/// The name of the object, which no earlier one has.
#[tactic(auto, using(crate::proofs::SettingsTables::at_map, crate::proofs::SettingsTables::at_ok), unfolding(crate::specs::SettingsKeys::key_in))]
fn name_of_object(
    table: &Table,
    place: SettingsPlace,
    earlier: &[ObjectSettings],
) -> Result<ArrayString<16>, BadSettings>
    ensures { ok_map (λ x. x.bytes) result ≡ key_in place SettingsKey.Name (name_from earlier.now) (table_view table.now) }
{
    let value = find(table, place, SettingsKey::Name)?;
    at(place, SettingsKey::Name, name(value, earlier))
}

/// The kind of the object.
#[tactic(auto, unfolding(crate::specs::SettingsKeys::key_in))]
fn kind_of_object(table: &Table, place: SettingsPlace) -> Result<Kind, BadSettings>
    ensures { result ≡ key_in place SettingsKey.Kind kind_from (table_view table.now) }
{
    let value = find(table, place, SettingsKey::Kind)?;
    at(place, SettingsKey::Kind, kind(value))
}

/// The lock of the object.
#[tactic(auto, unfolding(crate::specs::SettingsKeys::key_in))]
fn lock_of_object(table: &Table, place: SettingsPlace) -> Result<LockKind, BadSettings>
    ensures { result ≡ key_in place SettingsKey.Lock lock_from (table_view table.now) }
{
    let value = find(table, place, SettingsKey::Lock)?;
    at(place, SettingsKey::Lock, lock(value))
}

/// The object of the table, behind earlier objects.
#[tactic(auto, unfolding(crate::specs::SettingsText::object_in))]
fn object_of(
    table: &Table,
    place: SettingsPlace,
    earlier: &[ObjectSettings],
) -> Result<ObjectSettings, BadSettings>
    ensures { result ≡ object_in place earlier.now (table_view table.now) }
{
    let name = name_of_object(table, place, earlier)?;
    let kind = kind_of_object(table, place)?;
    let lock = lock_of_object(table, place)?;
    let events = number_of(table, place, SettingsKey::Events, MOST_EVENTS)?;
    let params = params_in(table, place, kind)?;
    refuse_others(table, place, keys_of(kind))?;
    Ok(ObjectSettings::new(name, lock, events, params))
}

/// The object that the value spells, behind earlier objects.
#[tactic(auto, unfolding(crate::specs::SettingsText::object_from))]
fn object(value: &Value, earlier: &[ObjectSettings]) -> Result<ObjectSettings, BadSettings>
    requires { length earlier.now ≤ MOST_CELLS }
    ensures { result ≡ object_from earlier.now (view value.now) }
{
    let place = SettingsPlace::Object(earlier.len() + 1);
    match value.as_table() {
        Some(table) => object_of(table, place, earlier),
        None => Err(BadSettings {
            place,
            key: SettingsKey::Object,
            cause: Cause::WrongType,
        }),
    }
}

/// The objects that the values spell.
fn objects(alloc: Global, values: &[Value]) -> Result<Vec<ObjectSettings>, SettingsFault>
    requires { length values.now ≤ MOST_CELLS }
    ensures { Settles (ok_map (λ v. v.items) result) (objects_from [] (items_view values.now)) }
{
    let mut objects = Vec::new(alloc);
    for value in values {
        let object = object(value, objects.as_slice())?;
        match objects.push(object) {
            Ok(()) => {}
            Err(_) => return Err(SettingsFault::OutOfMemory),
        }
    }
    Ok(objects)
}

/// The 1 to 16 values that objects are.
#[tactic(auto, using(crate::proofs::SettingsTables::items_counted), unfolding(crate::specs::SettingsText::items_from))]
fn items(value: &Value) -> Result<&[Value], Cause>
    ensures items { ok_map (λ v. items_view v.now) result ≡ items_from (view value.now) }
    ensures few { IfOk result (λ v. length v.now ≤ MOST_CELLS) }
{
    let Some(array) = value.as_array() else {
        return Err(Cause::WrongType);
    };
    if 1 <= array.len() && array.len() <= usize::from(MOST_CELLS) {
        Ok(array.as_slice())
    } else {
        Err(Cause::OutOfRange)
    }
}

/// The values of the key `object`.
#[tactic(auto, using(crate::proofs::SettingsTables::at_map, crate::proofs::SettingsTables::at_ok), unfolding(crate::specs::SettingsKeys::key_in))]
fn items_of(table: &Table) -> Result<&[Value], BadSettings>
    ensures items { ok_map (λ v. items_view v.now) result ≡ key_in SettingsPlace.Top SettingsKey.Object items_from (table_view table.now) }
    ensures few { IfOk result (λ v. length v.now ≤ MOST_CELLS) }
{
    let value = find(table, SettingsPlace::Top, SettingsKey::Object)?;
    at(SettingsPlace::Top, SettingsKey::Object, items(value))
}

/// The settings of the table.
pub(crate) fn settings(alloc: Global, table: &Table) -> Result<Settings, SettingsFault>
    ensures { Settles result (settings_in (table_view table.now)) }
{
    let cpus = number_of(
        table,
        SettingsPlace::Top,
        SettingsKey::Cpus,
        MOST_CPUS as u32,
    )?;
    let objects = objects(alloc, items_of(table)?)?;
    refuse_others(
        table,
        SettingsPlace::Top,
        &[SettingsKey::Cpus, SettingsKey::Object],
    )?;
    Ok(Settings::new(cpus as u8, Series::from_vec(objects)))
}
