//! What stops an expansion.

use jats_chars::{Name, NoMemory};
use std::alloc::AllocFailed;

/// The first thing that stops an expansion. The name is that of the parameter entity.
#[derive(Debug, Drop, PartialEq, Eq)]
pub enum PeFault {
    /// It is not bound.
    UndeclaredPe(Name),
    /// It is open already (XML 1.0, 4.1, No Recursion).
    RecursivePe(Name),
    /// 32 names are open.
    EntityTooDeep(Name),
    /// It is outer, and its text is not loaded.
    NotLoaded(Name),
    /// With its text, more than 67,108,864 characters would be included.
    ExpansionOver(Name),
    /// In a body, its expanded text leaves a quote open, or holds `<` or `>` outside quotes (XML 1.0, 2.8, Proper
    /// Declaration/PE Nesting).
    PeNesting(Name),
    /// A `%` or `&` begins no reference, or a character reference names no Char.
    Malformed,
    NoMemory,
}

impl From<NoMemory> for PeFault {
    ghost use Rattle.std.specs.Prelude.{◌≡◌};
    ghost use Rattle.pe_expansion.specs.declared.faults.PeFault.TheVariants.{NoMemory as memory};

    ghost from_gives = { λ _ e. e ≡ memory };

    fn from(_e: NoMemory) -> PeFault {
        PeFault::NoMemory
    }
}

impl<T: Drop> From<AllocFailed<T>> for PeFault {
    ghost use Rattle.std.specs.Prelude.{◌≡◌};
    ghost use Rattle.pe_expansion.specs.declared.faults.PeFault.TheVariants.{NoMemory as memory};

    ghost from_gives = { λ _ e. e ≡ memory };

    fn from(_e: AllocFailed<T>) -> PeFault {
        PeFault::NoMemory
    }
}
