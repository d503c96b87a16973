//! Why a set or a catalog is not read.

use jats_chars::NoMemory;
use jats_fault::Fault;
use std::alloc::AllocFailed;

/// Why a set or a catalog is not read.
#[derive(Drop)]
pub enum ReadFault {
    /// The input is refused.
    Refused(Fault),
    /// A load failed, and the store counted it.
    LoadFailed,
    /// Memory ran out.
    NoMemory,
}

impl From<NoMemory> for ReadFault {
    ghost use Rattle.std.specs.Prelude.{◌≡◌};
    ghost use Rattle.module_reader.specs.declared.faults.ReadFault.TheVariants.{NoMemory as memory};

    ghost from_gives = { λ _ e. e ≡ memory };

    fn from(_error: NoMemory) -> ReadFault {
        ReadFault::NoMemory
    }
}

impl<T: Drop> From<AllocFailed<T>> for ReadFault {
    ghost use Rattle.std.specs.Prelude.{◌≡◌};
    ghost use Rattle.module_reader.specs.declared.faults.ReadFault.TheVariants.{NoMemory as memory};

    ghost from_gives = { λ _ e. e ≡ memory };

    fn from(_error: AllocFailed<T>) -> ReadFault {
        ReadFault::NoMemory
    }
}
