//! The settings of a run.

ghost use Rattle.std.specs.Prelude.{◌≡◌, IfOk};
ghost use Rattle.records.specs.Settings.{SettingsFit, built_in_settings};

pub mod lookup;

use crate::copies::{CopyOut, copy_all};
use arrayvec::ArrayString;
use event_log::{OutOfMemory, Series};
use kernel_object::KParams;
use sound_run::LockKind;
use std::alloc::Global;
use std::marker::Model;

/// An object's name, its lock, the most events of its log, and what it is opened with.
#[derive(Drop)]
pub struct ObjectSettings {
    name: ArrayString<16>,
    lock: LockKind,
    events: u32,
    params: KParams,
}

impl Model for ObjectSettings {
    ghost use Rattle.records.specs.Settings.{ObjectSettings as Shown};

    ghost Value = { Shown };

    ghost view = { λ o. record { name = o.name.bytes; lock = o.lock; events = o.events; params = o.params } };
}

/// The number of CPUs, and the objects: 1 to 64 CPUs and 1 to 16 objects of different names, each within its limits.
#[derive(Drop)]
pub struct Settings {
    cpus: u8,
    objects: Series<ObjectSettings>,
}

impl Model for Settings {
    ghost use Rattle.records.specs.Settings.{Settings as Shown, SettingsFit};

    ghost Value = { Shown };

    ghost view = { λ s. record { cpus = s.cpus; objects = s.objects } };

    ghost invariant = { λ s. SettingsFit (record { cpus = s.cpus; objects = s.objects }) };
}

impl ObjectSettings {
    /// An object's settings.
    pub fn new(
        name: ArrayString<16>,
        lock: LockKind,
        events: u32,
        params: KParams,
    ) -> ObjectSettings
        ensures { result ≡ record { name = name.bytes; lock = lock; events = events; params = params } }
    {
        ObjectSettings {
            name,
            lock,
            events,
            params,
        }
    }

    /// Its name: a lower-case letter, and then such letters or digits, 1 to 16 bytes.
    pub fn name(&self) -> &[u8]
        ensures { result.now ≡ self.now.name }
    {
        self.name.as_str().as_bytes()
    }

    /// Its name, as text.
    pub fn name_str(&self) -> &str
        ensures { result.now ≡ self.now.name }
    {
        self.name.as_str()
    }

    /// The kind of its lock.
    pub fn lock(&self) -> LockKind
        ensures { result ≡ self.now.lock }
    {
        self.lock
    }

    /// The most events of its log, 1 to 65,536.
    pub fn events(&self) -> u32
        ensures { result ≡ self.now.events }
    {
        self.events
    }

    /// What it is opened with.
    pub fn params(&self) -> KParams
        ensures { result ≡ self.now.params }
    {
        self.params
    }
}

impl CopyOut for ObjectSettings {
    fn copy_out(&self) -> ObjectSettings {
        ObjectSettings {
            name: self.name,
            lock: self.lock,
            events: self.events,
            params: self.params,
        }
    }
}

impl Settings {
    /// Settings of these objects.
    pub fn new(cpus: u8, objects: Series<ObjectSettings>) -> Settings
        requires { SettingsFit (record { cpus = cpus; objects = objects }) }
        ensures { result ≡ record { cpus = cpus; objects = objects } }
    {
        Settings { cpus, objects }
    }

    /// Two CPUs, and one queue `q0` of 8 threads behind a ticket lock, with at most 100 events.
    pub fn built_in(alloc: Global) -> Result<Settings, OutOfMemory>
        ensures value { IfOk result (λ s. s ≡ built_in_settings) }
        ensures fit { IfOk result (λ s. SettingsFit s) }
    {
        let mut name = ArrayString::new();
        name.push_str("q0");
        let queue = ObjectSettings {
            name,
            lock: LockKind::Ticket,
            events: 100,
            params: KParams::Queue(8),
        };
        let mut objects = Vec::new(alloc);
        objects.push(queue)?;
        Ok(Settings {
            cpus: 2,
            objects: Series::from_vec(objects),
        })
    }

    /// The number of CPUs, 1 to 64.
    pub fn cpus(&self) -> u8
        ensures cpus { result ≡ self.now.cpus }
        ensures fit { SettingsFit self.now }
    {
        self.cpus
    }

    /// The objects, 1 to 16.
    pub fn objects(&self) -> &[ObjectSettings]
        ensures objects { result.now ≡ self.now.objects }
        ensures fit { SettingsFit self.now }
    {
        self.objects.as_slice()
    }

    /// The same settings once more.
    pub fn copy(&self, alloc: Global) -> Result<Settings, OutOfMemory>
        ensures { IfOk result (λ copy. copy ≡ self.now) }
    {
        let objects = copy_all(alloc, self.objects())?;
        Ok(Settings::new(self.cpus(), Series::from_vec(objects)))
    }
}
