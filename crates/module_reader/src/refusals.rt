//! Why a reading stops: refusals by numbers of the table, failed loads and want of memory.

ghost use Rattle.std.specs.Prelude.{◌≡◌, IsTrue};
ghost use Rattle.jats_fault.specs.Table.{has_number, table};
ghost use Rattle.module_reader.specs.Endings.{as_read};
ghost use Rattle.module_reader.specs.Outcomes.{StandsInTable};

use crate::ReadFault;
use jats_chars::NoMemory;
use jats_fault::Fault;
use std::alloc::AllocFailed;
use std::marker::Model;

/// What is refused, by a number of the table.
pub struct Refusal {
    pub(crate) fault: Fault,
}

impl Drop for Refusal {
    fn drop(self) {
        let Refusal { fault: _ } = self;
    }
}

impl Model for Refusal {
    ghost use Rattle.jats_fault.specs.declared.fault.Fault.{Fault};
    ghost use Rattle.module_reader.specs.Refused.{refused_by, IsInTable};

    ghost Value = { Fault };

    ghost view = { refused_by };

    ghost invariant = { IsInTable };
}

impl Refusal {
    /// A refusal whose number stands in the table.
    pub fn new(fault: Fault) -> Refusal
        requires { IsTrue (has_number table fault.number) }
        ensures { result ≡ fault }
    {
        Refusal { fault }
    }

    /// What is refused.
    pub fn into_fault(self) -> Fault
        ensures value { result ≡ self }
        ensures numbered { IsTrue (has_number table self.number) }
    {
        let Refusal { fault } = self;
        fault
    }
}

/// Why a reading stops.
#[derive(Drop)]
pub enum Stop {
    /// The input is refused.
    Refused(Refusal),
    /// A load failed, and the store counted it.
    LoadFailed,
    /// Memory ran out.
    NoMemory,
}

impl From<NoMemory> for Stop {
    ghost use Rattle.std.specs.Prelude.{◌≡◌};
    ghost use Rattle.module_reader.specs.declared.refusals.Stop.TheVariants.{NoMemory as memory};

    ghost from_gives = { λ _ e. e ≡ memory };

    fn from(_error: NoMemory) -> Stop {
        Stop::NoMemory
    }
}

impl<T: Drop> From<AllocFailed<T>> for Stop {
    ghost use Rattle.std.specs.Prelude.{◌≡◌};
    ghost use Rattle.module_reader.specs.declared.refusals.Stop.TheVariants.{NoMemory as memory};

    ghost from_gives = { λ _ e. e ≡ memory };

    fn from(_error: AllocFailed<T>) -> Stop {
        Stop::NoMemory
    }
}

/// The stop as it is handed out.
pub fn handed_out(stop: Stop) -> ReadFault
    ensures same { result ≡ as_read stop }
    ensures numbered { StandsInTable result }
{
    match stop {
        Stop::Refused(refusal) => ReadFault::Refused(refusal.into_fault()),
        Stop::LoadFailed => ReadFault::LoadFailed,
        Stop::NoMemory => ReadFault::NoMemory,
    }
}
