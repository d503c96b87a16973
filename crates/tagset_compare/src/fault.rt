//! Why nothing is compared.

use jats_chars::{Name, NoMemory};
use thiserror::Error;

/// Why nothing is compared.
#[derive(Debug, Drop, Error)]
pub enum CompareFault {
    /// The first set does not declare the root.
    #[error("the root is not declared")]
    RootUndeclared,
    /// In order of declaration the sum of the listed pairs passes 2,000,000 at this element.
    #[error("too many pairs")]
    PairsOver(Name),
    /// The text of the separating article has more bytes than the limit.
    #[error("the text of the article has too many bytes")]
    TextOver,
    /// Memory ran out.
    #[error("out of memory")]
    NoMemory,
}

impl From<NoMemory> for CompareFault {
    ghost use Rattle.std.specs.Prelude.{◌≡◌};
    ghost use Rattle.tagset_compare.specs.declared.fault.CompareFault.TheVariants.{NoMemory as out_of_memory};

    ghost from_gives = { λ _ e. e ≡ out_of_memory };

    fn from(_error: NoMemory) -> CompareFault {
        CompareFault::NoMemory
    }
}
