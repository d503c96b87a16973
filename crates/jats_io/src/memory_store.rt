//! A store in memory that fails when it is told to.

ghost use Rattle.std.specs.Prelude.{◌≡◌, ◌<◌, ◌^◌, [], ◌∷◌, ◌++◌, OnOk, OnErr};
ghost use Rattle.jats_io.specs.Causes.{Counts, HasCause};
ghost use Rattle.jats_io.specs.Loads.{Failed, Absent, Asks, Loads, put_in};
ghost use Rattle.jats_io.specs.Stored.{LoadsStored};

use crate::sound_store::SoundStore;
use crate::store::{LoadFault, Loaded, Store};
use jats_chars::{NoMemory, Text};
use std::alloc::Global;
use std::marker::Model;

/// Files in memory, and the numbers of the loads that fail, counted from 1.
#[derive(Drop)]
pub struct MemoryStore {
    sound: SoundStore,
    failing: Vec<u64>,
    calls: u64,
    faults: u64,
}

impl Model for MemoryStore {
    ghost use Rattle.jats_io.specs.Stored.{Stored};

    ghost Value = { Stored };

    ghost view = { λ s. record { files = s.sound.files; failing = s.failing.items; calls = s.calls; faults = s.faults; absences = s.sound.absences; asked = s.sound.asked } };
}

impl MemoryStore {
    /// A store that holds nothing, and of which no load fails.
    pub fn new(alloc: Global) -> MemoryStore
        ensures { result ≡ record { files = []; failing = []; calls = 0; faults = 0; absences = 0; asked = [] } }
    {
        MemoryStore {
            sound: SoundStore::new(alloc),
            failing: Vec::new(alloc),
            calls: 0,
            faults: 0,
        }
    }

    /// Adds a name with its bytes. On a name that is held it replaces the bytes.
    pub fn put(&mut self, name: Text, bytes: Vec<u8>) -> Result<(), NoMemory>
        ensures ok { OnOk result (self.new ≡ record self.old { files = put_in self.old.files name bytes.items }) }
        ensures err { OnErr result (self.new ≡ self.old) }
    {
        self.sound.put(name, bytes)
    }

    /// Lists the number of a load, counted from 1, that fails.
    pub fn fail_call(&mut self, number: u64) -> Result<(), NoMemory>
        ensures ok { OnOk result (self.new ≡ record self.old { failing = self.old.failing ++ number ∷ [] }) }
        ensures err { OnErr result (self.new ≡ self.old) }
    {
        self.failing.push(number)?;
        Ok(())
    }

    /// How many loads were made, up to 2^64 - 1.
    pub fn calls(&self) -> u64
        ensures { result ≡ self.now.calls }
    {
        self.calls
    }
}

impl Store for MemoryStore {
    ghost use Rattle.std.specs.Prelude.{Some};

    ghost holds = { λ s. Some s.files };

    ghost faults = { λ s. s.faults };

    ghost absences = { λ s. s.absences };

    ghost asked = { λ s. s.asked };

    fn load(&mut self, alloc: Global, name: &Text, limit: usize) -> Result<Loaded, LoadFault>
        requires { limit < 2 ^ 31 }
        ensures keeps { self.new.files ≡ self.old.files }
        ensures faults { HasCause self.old.faults self.new.faults (Failed result) }
        ensures absences { HasCause self.old.absences self.new.absences (Absent result) }
        ensures failures { Counts self.old.faults self.new.faults (Failed result) }
        ensures absent { Counts self.old.absences self.new.absences (Absent result) }
        ensures asked { Asks self.old.asked self.new.asked name.now result }
        ensures told { Loads self.old.files name.now limit result }
        ensures exact { LoadsStored self.old self.new name.now limit result }
    {
        self.calls = self.calls.saturating_add(1);
        if self.failing.contains(&self.calls) {
            if self.sound.ask(alloc, name).is_err() {
                return Err(LoadFault::NoMemory);
            }
            self.faults = self.faults.saturating_add(1);
            return Err(LoadFault::Failed);
        }
        self.sound.load(alloc, name, limit)
    }
}
