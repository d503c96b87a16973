//! Why no article is built.

use jats_chars::NoMemory;
use std::alloc::AllocFailed;
use thiserror::Error;

/// Why no article is built.
#[derive(Debug, Drop, Error)]
pub enum BuildOver {
    /// The text of the article has more bytes than the limit.
    #[error("the text of the article has too many bytes")]
    TextOver,
    /// Memory ran out.
    #[error("out of memory")]
    NoMemory,
}

impl From<NoMemory> for BuildOver {
    ghost use Rattle.std.specs.Prelude.{◌≡◌};
    ghost use Rattle.separating_article.specs.declared.fault.BuildOver.TheVariants.{NoMemory as out_of_memory};

    ghost from_gives = { λ _ e. e ≡ out_of_memory };

    fn from(_error: NoMemory) -> BuildOver {
        BuildOver::NoMemory
    }
}

impl<T: Drop> From<AllocFailed<T>> for BuildOver {
    ghost use Rattle.std.specs.Prelude.{◌≡◌};
    ghost use Rattle.separating_article.specs.declared.fault.BuildOver.TheVariants.{NoMemory as out_of_memory};

    ghost from_gives = { λ _ e. e ≡ out_of_memory };

    fn from(_failed: AllocFailed<T>) -> BuildOver {
        BuildOver::NoMemory
    }
}
