//! A store in memory that never fails.

ghost use Rattle.std.specs.Prelude.{◌≡◌, ◌+◌, ◌-◌, ◌<◌, ◌^◌, [], min, take, IfOk, OnOk, OnErr};
ghost use Rattle.jats_io.specs.Causes.{Counts, HasCause};
ghost use Rattle.jats_io.specs.Loads.{Failed, Absent, Asks, Loads, put_in};
ghost use Rattle.jats_io.specs.Stored.{LoadsSound, Looks, asking};

use crate::store::{LoadFault, Loaded, Store};
use indexmap::IndexMap;
use jats_chars::{NoMemory, Text, TextList};
use std::alloc::{AllocError, Global};
use std::marker::Model;

/// Files in memory. No load of them fails.
#[derive(Drop)]
pub struct SoundStore {
    files: IndexMap<Text, Vec<u8>>,
    absences: u64,
    asked: TextList,
}

impl Model for SoundStore {
    ghost use Rattle.jats_io.specs.Stored.{SoundFiles};

    ghost Value = { SoundFiles };

    ghost use Rattle.jats_io.specs.StoredBy.{sound_files};

    ghost view = { sound_files };
}

impl SoundStore {
    /// A store that holds nothing.
    pub fn new(alloc: Global) -> SoundStore
        ensures { result ≡ record { files = []; absences = 0; asked = [] } }
    {
        SoundStore {
            files: IndexMap::new(alloc),
            absences: 0,
            asked: TextList::new(alloc),
        }
    }

    /// Lists the name as asked for.
    pub(crate) fn ask(&mut self, alloc: Global, name: &Text) -> Result<(), NoMemory>
        ensures ok { OnOk result (self.new ≡ asking self.old name.now) }
        ensures err { OnErr result (self.new ≡ self.old) }
    {
        let name = name.copy(alloc)?;
        self.asked.push(name)
    }

    /// Looks up the first bytes that are held under a name.
    fn look(&mut self, alloc: Global, name: &Text, limit: usize) -> Result<Loaded, LoadFault>
        requires { limit < 2 ^ 31 }
        ensures absences { HasCause self.old.absences self.new.absences (Absent result) }
        ensures exact { Looks self.old self.new name.now limit result }
    {
        match self.files.get(name) {
            None => {
                self.absences = self.absences.saturating_add(1);
                Ok(Loaded::Absent)
            }
            Some(bytes) => match first_bytes(alloc, bytes, limit + 1) {
                Ok(bytes) => Ok(Loaded::Bytes(bytes)),
                Err(_) => Err(LoadFault::NoMemory),
            },
        }
    }

    /// Adds a name with its bytes. On a name that is held it replaces the bytes.
    pub fn put(&mut self, name: Text, bytes: Vec<u8>) -> Result<(), NoMemory>
        ensures ok { OnOk result (self.new ≡ record self.old { files = put_in self.old.files name bytes.items }) }
        ensures err { OnErr result (self.new ≡ self.old) }
    {
        self.files.insert(name, bytes)?;
        Ok(())
    }
}

impl Store for SoundStore {
    ghost use Rattle.std.specs.Prelude.{Some};

    ghost holds = { λ s. Some s.files };

    ghost faults = { λ s. 0 };

    ghost absences = { λ s. s.absences };

    ghost asked = { λ s. s.asked };

    fn load(&mut self, alloc: Global, name: &Text, limit: usize) -> Result<Loaded, LoadFault>
        requires { limit < 2 ^ 31 }
        ensures keeps { self.new.files ≡ self.old.files }
        ensures faults { HasCause 0 0 (Failed result) }
        ensures absences { HasCause self.old.absences self.new.absences (Absent result) }
        ensures failures { Counts 0 0 (Failed result) }
        ensures absent { Counts self.old.absences self.new.absences (Absent result) }
        ensures asked { Asks self.old.asked self.new.asked name.now result }
        ensures told { Loads self.old.files name.now limit result }
        ensures sound { ¬ Failed result }
        ensures exact { LoadsSound self.old self.new name.now limit result }
    {
        match self.ask(alloc, name) {
            Ok(()) => self.look(alloc, name, limit),
            Err(_) => Err(LoadFault::NoMemory),
        }
    }
}

fn first_bytes(alloc: Global, bytes: &Vec<u8>, count: usize) -> Result<Vec<u8>, AllocError>
    ensures { IfOk result (λ v. v.items ≡ take count bytes.now.items) }
{
    let count = count.min(bytes.len());
    Vec::from_slice(alloc, &bytes.as_slice()[..count])
}
