//! What stops a catalog or a resolution.

use jats_chars::NoMemory;
use std::alloc::AllocFailed;

/// Why a text is no catalog.
#[derive(Clone, Copy, Debug, PartialEq, Eq)]
pub enum CatalogFault {
    /// The line with this number, counted from 1, has no form.
    Malformed(u64),
    /// The name in the line with this number, counted from 1, leaves the folder.
    PathEscapes(u64),
    /// Memory ran out.
    NoMemory,
}

/// Why an identifier names no file.
#[derive(Clone, Copy, Debug, PartialEq, Eq)]
pub enum ResolveFault {
    /// The identifier, joined to its base, leaves the folder.
    PathEscapes,
    /// Memory ran out.
    NoMemory,
}

impl From<NoMemory> for CatalogFault {
    ghost use Rattle.std.specs.Prelude.{◌≡◌};
    ghost use Rattle.entity_catalog.specs.declared.faults.CatalogFault.TheVariants.{NoMemory as memory};

    ghost from_gives = { λ _ e. e ≡ memory };

    fn from(_error: NoMemory) -> CatalogFault {
        CatalogFault::NoMemory
    }
}

impl<T: Drop> From<AllocFailed<T>> for CatalogFault {
    ghost use Rattle.std.specs.Prelude.{◌≡◌};
    ghost use Rattle.entity_catalog.specs.declared.faults.CatalogFault.TheVariants.{NoMemory as memory};

    ghost from_gives = { λ _ e. e ≡ memory };

    fn from(_error: AllocFailed<T>) -> CatalogFault {
        CatalogFault::NoMemory
    }
}

impl From<NoMemory> for ResolveFault {
    ghost use Rattle.std.specs.Prelude.{◌≡◌};
    ghost use Rattle.entity_catalog.specs.declared.faults.ResolveFault.TheVariants.{NoMemory as memory};

    ghost from_gives = { λ _ e. e ≡ memory };

    fn from(_error: NoMemory) -> ResolveFault {
        ResolveFault::NoMemory
    }
}
