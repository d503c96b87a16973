//! Why no tables are given.

use jats_chars::{Name, NoMemory};
use std::alloc::{AllocError, AllocFailed};
use thiserror::Error;

/// Why no tables are given.
#[derive(Debug, Drop, Error)]
pub enum TablesFault {
    /// In order of declaration the sum of the listed pairs passes 2,000,000 at this element.
    #[error("too many pairs")]
    PairsOver(Name),
    /// Memory ran out.
    #[error("out of memory")]
    NoMemory,
}

impl From<NoMemory> for TablesFault {
    ghost use Rattle.std.specs.Prelude.{◌≡◌};
    ghost use Rattle.comparison_tables.specs.declared.fault.TablesFault.TheVariants.{NoMemory as out_of_memory};

    ghost from_gives = { λ _ e. e ≡ out_of_memory };

    fn from(_error: NoMemory) -> TablesFault {
        TablesFault::NoMemory
    }
}

impl<T: Drop> From<AllocFailed<T>> for TablesFault {
    ghost use Rattle.std.specs.Prelude.{◌≡◌};
    ghost use Rattle.comparison_tables.specs.declared.fault.TablesFault.TheVariants.{NoMemory as out_of_memory};

    ghost from_gives = { λ _ e. e ≡ out_of_memory };

    fn from(_failed: AllocFailed<T>) -> TablesFault {
        TablesFault::NoMemory
    }
}

impl From<AllocError> for TablesFault {
    ghost use Rattle.std.specs.Prelude.{◌≡◌};
    ghost use Rattle.comparison_tables.specs.declared.fault.TablesFault.TheVariants.{NoMemory as out_of_memory};

    ghost from_gives = { λ _ e. e ≡ out_of_memory };

    fn from(_error: AllocError) -> TablesFault {
        TablesFault::NoMemory
    }
}
