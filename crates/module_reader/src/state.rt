//! What a reading keeps.

use decl_set::DeclSet;
use indexmap::IndexMap;
use jats_chars::Text;
use pe_expansion::Bindings;
use std::alloc::Global;
use std::marker::Model;

/// The modules that are loaded, seen as the list of their names with their texts, in the order of loading.
#[derive(Drop)]
pub struct Modules {
    pub(crate) texts: IndexMap<Text, Text>,
}

impl Model for Modules {
    ghost use Rattle.std.specs.Prelude.{ℕ, List};
    ghost use Rattle.module_reader.specs.LoadedBy.{loaded_by};

    ghost Value = { List (List ℕ × List ℕ) };

    ghost view = { loaded_by };
}

impl Modules {
    ghost use Rattle.std.specs.Prelude.{◌≡◌, []};

    /// No module is loaded.
    pub fn new(alloc: Global) -> Modules
        ensures { result ≡ [] }
    {
        Modules {
            texts: IndexMap::new(alloc),
        }
    }
}

/// What a reading keeps: the parameter entities that are bound, the set, how many characters were included, the modules that
/// are loaded, and how many bytes they have together.
#[derive(Drop)]
pub struct State {
    pub bound: Bindings,
    pub set: DeclSet,
    pub spent: u64,
    pub modules: Modules,
    pub bytes: u64,
}
