//! Live names, numbered.

ghost use Rattle.std.specs.Prelude.{◌≡◌, ◌↔◌, ◌^◌, ◌<◌, IfOk, IsTrue, IfSome, length, bytes_eq, option_map};
ghost use Rattle.std.specs.List.{list_any};
ghost use Rattle.content_models.specs.Model.{Chars, among};
ghost use Rattle.indexmap.specs.IndexSet.{contains};
ghost use Rattle.model_inclusion.specs.Rows.{number_of};

use indexmap::IndexSet;
use jats_chars::{Name, NameList, NoMemory};
use std::alloc::Global;
use std::marker::Model;

/// Names, each once, with a look-up by hash. Seen as the list of these names.
#[derive(Drop)]
pub struct LiveNames {
    names: IndexSet<Name>,
}

impl Model for LiveNames {
    ghost use Rattle.std.specs.Prelude.{List, ℕ, length, ◌<◌, ◌^◌};

    ghost Value = { List (List ℕ) };

    ghost view = { λ live. live.names.keys };

    ghost invariant = { λ live. length live.names.keys < 2 ^ 32 };
}

fn distinct(alloc: Global, names: &[Name]) -> Result<IndexSet<Name>, NoMemory>
    ensures { IfOk result (λ s. (name : Chars) → contains bytes_eq s name ≡ list_any (bytes_eq name) names.now) }
{
    let mut found = IndexSet::new(alloc);
    for name in names {
        found.insert(name.copy(alloc)?)?;
    }
    Ok(found)
}

impl LiveNames {
    /// The distinct names of the list. Where their numbers do not fit, memory is said to run out: no machine holds so many
    /// names.
    pub fn new(alloc: Global, names: &NameList) -> Result<LiveNames, NoMemory>
        ensures { IfOk result (λ live. (name : Chars) → among live name ≡ among names.now name) }
    {
        let names = distinct(alloc, names.as_slice())?;
        if names.len() > u32::MAX as usize {
            return Err(NoMemory);
        }
        Ok(LiveNames { names })
    }

    /// How many names there are.
    pub fn len(&self) -> usize
        ensures value { result ≡ length self.now }
        ensures small { result < 2 ^ 32 }
    {
        self.names.len()
    }

    /// The names, lent.
    pub fn as_slice(&self) -> &[Name]
        ensures { result.now ≡ self.now }
    {
        self.names.as_slice()
    }

    /// The number of a name: its place among these, or None exactly where it is none of them.
    pub fn number_of(&self, name: &Name) -> Option<u32>
        ensures { result ≡ number_of self.now name.now }
    {
        match self.names.get_index_of(name) {
            Some(number) => Some(number as u32),
            None => None,
        }
    }
}
