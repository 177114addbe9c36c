//! What the head of a record says.

ghost use Rattle.std.specs.Prelude.{◌≡◌};

use arrayvec::{ArrayString, ArrayVec};
use std::marker::Model;

/// The most CPUs of a record.
pub const MOST_CUSTOM_CPUS: u16 = 256;

/// The most objects of a record.
pub const MOST_CUSTOM_OBJECTS: usize = 256;

/// The most numbers of an object.
pub const MOST_SIZES: usize = 32;

/// The most words that refuse.
pub const MOST_WORDS: usize = 32;

/// A name or a word: a lower-case letter, and then such letters or digits, 1 to 16 bytes.
pub type CustomName = ArrayString<16>;

/// An object's name, the word for its lock, the most events of its log, and its kind with its numbers.
#[derive(Drop)]
pub struct CustomSettings {
    pub name: CustomName,
    pub lock: CustomName,
    pub events: u32,
    pub kind: CustomName,
    pub numbers: ArrayVec<u64, MOST_SIZES>,
}

impl Model for CustomSettings {
    ghost use Rattle.custom_records.specs.Settings.{CustomSettings as Shown};

    ghost Value = { Shown };

    ghost view = { λ o. record { name = o.name.bytes; lock = o.lock.bytes; events = o.events; kind = o.kind.bytes; numbers = o.numbers.items } };
}

/// The number of CPUs, the objects, and the words whose replies refuse.
#[derive(Drop)]
pub struct CustomHead {
    pub cpus: u16,
    pub objects: Vec<CustomSettings>,
    pub refusing: Vec<CustomName>,
}

impl Model for CustomHead {
    ghost use Rattle.std.specs.Prelude.{map};
    ghost use Rattle.custom_records.specs.Settings.{CustomHead as Shown};

    ghost Value = { Shown };

    ghost view = { λ h. record { cpus = h.cpus; objects = h.objects.items; refusing = map (λ w. w.bytes) h.refusing.items } };
}
