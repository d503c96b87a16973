//! External identifiers.

ghost use Rattle.std.specs.Prelude.{◌≡◌, IfOk};

use jats_chars::{NoMemory, Text};
use std::alloc::Global;

/// An external identifier (XML 1.0, 4.2.2), or the public identifier of a notation alone (XML 1.0, 4.7). Public
/// identifiers stand collapsed.
#[derive(Debug, Drop, PartialEq, Eq)]
pub enum Ids {
    /// A system identifier.
    System(Text),
    /// A public and a system identifier.
    Public(Text, Text),
    /// A public identifier, and no system identifier.
    PublicOnly(Text),
}

impl Ids {
    /// The same identifiers.
    pub fn copy(&self, alloc: Global) -> Result<Ids, NoMemory>
        ensures { IfOk result (λ ids. ids ≡ self.now) }
    {
        match self {
            Ids::System(system) => Ok(Ids::System(system.copy(alloc)?)),
            Ids::Public(public, system) => {
                let public = public.copy(alloc)?;
                let system = system.copy(alloc)?;
                Ok(Ids::Public(public, system))
            }
            Ids::PublicOnly(public) => Ok(Ids::PublicOnly(public.copy(alloc)?)),
        }
    }
}
