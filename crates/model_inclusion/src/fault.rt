//! Why no pairs are given.

use jats_chars::NoMemory;
use std::alloc::{AllocError, AllocFailed};
use thiserror::Error;

/// Why no pairs are given.
#[derive(Clone, Copy, Debug, PartialEq, Eq, Error)]
pub enum PairFault {
    /// There are more pairs than were allowed.
    #[error("too many pairs")]
    PairsOver,
    /// Memory ran out.
    #[error("out of memory")]
    NoMemory,
}

impl From<NoMemory> for PairFault {
    ghost use Rattle.std.specs.Prelude.{◌≡◌};
    ghost use Rattle.model_inclusion.specs.declared.fault.PairFault.TheVariants.{NoMemory as out_of_memory};

    ghost from_gives = { λ _ e. e ≡ out_of_memory };

    fn from(_error: NoMemory) -> PairFault {
        PairFault::NoMemory
    }
}

impl<T: Drop> From<AllocFailed<T>> for PairFault {
    ghost use Rattle.std.specs.Prelude.{◌≡◌};
    ghost use Rattle.model_inclusion.specs.declared.fault.PairFault.TheVariants.{NoMemory as out_of_memory};

    ghost from_gives = { λ _ e. e ≡ out_of_memory };

    fn from(_failed: AllocFailed<T>) -> PairFault {
        PairFault::NoMemory
    }
}

impl From<AllocError> for PairFault {
    ghost use Rattle.std.specs.Prelude.{◌≡◌};
    ghost use Rattle.model_inclusion.specs.declared.fault.PairFault.TheVariants.{NoMemory as out_of_memory};

    ghost from_gives = { λ _ e. e ≡ out_of_memory };

    fn from(_error: AllocError) -> PairFault {
        PairFault::NoMemory
    }
}
