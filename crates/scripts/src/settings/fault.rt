//! Why settings are refused.

ghost use Rattle.std.specs.Prelude.{◌≡◌};
ghost use Rattle.scripts.specs.SettingsKeys.{key_word};

use std::fmt;

/// Where a fault of settings stands.
#[derive(Clone, Copy, Debug, PartialEq, Eq, Drop)]
pub enum SettingsPlace {
    Top,
    /// The object of that number, from 1.
    Object(usize),
}

/// The key that a fault of settings is of.
#[derive(Clone, Copy, Debug, PartialEq, Eq, Drop)]
pub enum SettingsKey {
    /// The whole text.
    Text,
    Cpus,
    Object,
    Name,
    Kind,
    Lock,
    Events,
    Threads,
    Channels,
    Pages,
    Quotas,
    Bytes,
    /// A key that isn't of this place.
    Other,
}

/// What is wrong with a key of settings.
#[derive(Clone, Copy, Debug, PartialEq, Eq, Drop)]
pub enum Cause {
    NotToml,
    Missing,
    WrongType,
    OutOfRange,
    BadWord,
    Repeated,
    Unknown,
}

/// The first fault of settings.
#[derive(Clone, Copy, Debug, PartialEq, Eq, Drop)]
pub struct BadSettings {
    pub place: SettingsPlace,
    pub key: SettingsKey,
    pub cause: Cause,
}

/// Why settings were not read.
#[derive(Clone, Copy, Debug, PartialEq, Eq, Drop)]
pub enum SettingsFault {
    OutOfMemory,
    Refused(BadSettings),
}

impl From<BadSettings> for SettingsFault {
    ghost use Rattle.std.specs.Prelude.{◌≡◌};
    ghost use Rattle.scripts.specs.declared.settings.fault.SettingsFault.TheVariants.{Refused};

    ghost from_gives = { λ bad fault. fault ≡ Refused bad };

    fn from(bad: BadSettings) -> SettingsFault {
        SettingsFault::Refused(bad)
    }
}

impl SettingsKey {
    /// The key as users write it.
    pub fn word(&self) -> &'static str
        ensures { result.now ≡ key_word self.now }
    {
        match self {
            SettingsKey::Text => "text",
            SettingsKey::Cpus => "cpus",
            SettingsKey::Object => "object",
            SettingsKey::Name => "name",
            SettingsKey::Kind => "kind",
            SettingsKey::Lock => "lock",
            SettingsKey::Events => "events",
            SettingsKey::Threads => "threads",
            SettingsKey::Channels => "channels",
            SettingsKey::Pages => "pages",
            SettingsKey::Quotas => "quotas",
            SettingsKey::Bytes => "bytes",
            SettingsKey::Other => "other",
        }
    }
}

impl Cause {
    /// The cause in the words of a refusal.
    pub fn words(&self) -> &'static str {
        match self {
            Cause::NotToml => "not toml",
            Cause::Missing => "missing",
            Cause::WrongType => "wrong type",
            Cause::OutOfRange => "out of range",
            Cause::BadWord => "bad word",
            Cause::Repeated => "repeated",
            Cause::Unknown => "unknown",
        }
    }
}

impl fmt::Display for BadSettings {
    fn fmt<W: fmt::Write>(&self, f: &mut fmt::Formatter<W>) -> fmt::Result {
        let key = self.key.word();
        let cause = self.cause.words();
        match self.place {
            SettingsPlace::Top => write!(f, "top: {key}: {cause}"),
            SettingsPlace::Object(number) => write!(f, "object {number}: {key}: {cause}"),
        }
    }
}
