//! Where files come from.

ghost use Rattle.std.specs.Prelude.{◌≡◌, ℕ, ◌<◌, ◌≤◌, ◌^◌, List, Option, IfSome};
ghost use Rattle.jats_io.specs.Causes.{Counts, HasCause};
ghost use Rattle.jats_io.specs.Loads.{Failed, Absent, Asks, Loads};

use jats_chars::Text;
use std::alloc::Global;
use thiserror::Error;

/// What a load gave.
#[derive(Debug, Drop)]
pub enum Loaded {
    /// The first bytes of the file, one more than the limit at most.
    Bytes(Vec<u8>),
    /// There is no file of this name.
    Absent,
}

/// Why a load gave nothing.
#[derive(Clone, Copy, Debug, PartialEq, Eq, Error)]
pub enum LoadFault {
    /// The store failed, and counted it.
    #[error("the load failed")]
    Failed,
    /// Memory ran out.
    #[error("out of memory")]
    NoMemory,
}

/// A store of files by name.
pub trait Store {
    // the files by name, where the store tells them
    ghost holds: { Self → Option (List (List ℕ × List ℕ)) };

    // how often a load has failed
    ghost faults: { Self → ℕ };

    // how often a file was absent
    ghost absences: { Self → ℕ };

    // the names that were asked for, in order
    ghost asked: { Self → List (List ℕ) };

    /// The first limit + 1 bytes of the file of this name, or all where there are fewer, for a limit below 2^31. The name
    /// goes last in the names that were asked for. The absences rise exactly where `Absent` is answered, and the faults
    /// exactly where `Failed` is. Where the store tells, `Absent` comes only where the name is not held. `NoMemory` is want of
    /// memory, where the name may not be listed.
    fn load(&mut self, alloc: Global, name: &Text, limit: usize) -> Result<Loaded, LoadFault>
        requires { limit < 2 ^ 31 }
        ensures keeps { holds self.new ≡ holds self.old }
        ensures faults { HasCause (faults self.old) (faults self.new) (Failed result) }
        ensures absences { HasCause (absences self.old) (absences self.new) (Absent result) }
        ensures failures { Counts (faults self.old) (faults self.new) (Failed result) }
        ensures absent { Counts (absences self.old) (absences self.new) (Absent result) }
        ensures asked { Asks (asked self.old) (asked self.new) name.now result }
        ensures told { IfSome (holds self.old) (λ files. Loads files name.now limit result) };
}
