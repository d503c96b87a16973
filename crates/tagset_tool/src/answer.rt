//! Answers: statuses with whole outputs.

ghost use Rattle.std.specs.Prelude.{◌<◌, ◌≤◌, ◌^◌, Err, IfOk, IsTrue};
ghost use Rattle.decl_set.specs.Declarations.{Declarations};
ghost use Rattle.jats_fault.specs.Table.{table, has_number};
ghost use Rattle.module_reader.specs.Outcomes.{IsAbsence, StandsInTable};
ghost use Rattle.tagset_tool.specs.Outcomes as outcome;
ghost use Rattle.tagset_tool.specs.Outcomes.{refusing};
ghost use Rattle.tagset_tool.specs.Runs.{AnswersAbsence, Says, StopsAs};

use crate::refusals::output_over;
use jats_chars::NoMemory;
use jats_chars::limits::OUTPUT_BYTES;
use jats_fault::{Fault, line};
use module_reader::ReadFault;
use std::alloc::Global;

/// A status, and the whole output.
#[derive(Drop)]
pub struct Answer {
    pub status: u8,
    pub bytes: Vec<u8>,
}

/// Why there is no answer.
#[derive(Clone, Copy, Debug, PartialEq, Eq)]
pub enum Stop {
    LoadFailed,
    NoMemory,
}

/// The line of a refusal of the table.
pub fn refused(alloc: Global, refusal: &Fault) -> Result<Answer, NoMemory>
    requires { IsTrue (has_number table refusal.now.number) }
    ensures value { IfOk result (λ a. refusing refusal.now a.status a.bytes.items) }
    ensures says { IfOk result (λ a. Says a.status a.bytes.items) }
    ensures small { refusal.now.number < 2 ^ 16 }
{
    let _number = refusal.number;
    let bytes = line(alloc, refusal)?;
    Ok(Answer { status: 2, bytes })
}

/// These bytes with this status, unless they are too long.
pub fn fitting(alloc: Global, status: u8, bytes: Vec<u8>) -> Result<Answer, NoMemory>
    requires { status ≤ 1 }
    ensures fits { IfOk result (λ a. outcome.fitting status bytes.items a.status a.bytes.items) }
    ensures says { IfOk result (λ a. Says a.status a.bytes.items) }
{
    if bytes.len() as u64 > OUTPUT_BYTES {
        let refusal = output_over(alloc)?;
        refused(alloc, &refusal)
    } else {
        Ok(Answer { status, bytes })
    }
}

/// The answer where something is not read.
pub fn stop_of(alloc: Global, fault: &ReadFault) -> Result<Answer, Stop>
    requires { StandsInTable fault.now }
    ensures stops { StopsAs fault.now result }
    ensures says { IfOk result (λ a. Says a.status a.bytes.items) }
    ensures status { IfOk result (λ a. a.status ≤ 2) }
    ensures absence { AnswersAbsence result → IsAbsence {T = Declarations} (Err fault.now) }
{
    match fault {
        ReadFault::LoadFailed => Err(Stop::LoadFailed),
        ReadFault::NoMemory => Err(Stop::NoMemory),
        ReadFault::Refused(refusal) => match refused(alloc, refusal) {
            Ok(answer) => Ok(answer),
            Err(_) => Err(Stop::NoMemory),
        },
    }
}
