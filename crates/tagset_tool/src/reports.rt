//! Reports of two sets from the word of a root.

ghost use Rattle.std.specs.Prelude.{IfOk};
ghost use Rattle.tagset_report.specs.Reported.{Reports};
ghost use Rattle.tagset_tool.specs.Runs.{Says};
ghost use Rattle.tagset_tool.specs.commands.Report as spec;

use crate::answer::{Answer, refused};
use crate::refusals::{pairs_over, root_undeclared};
use decl_set::DeclSet;
use jats_chars::{Name, NoMemory, Text};
use std::alloc::Global;
use tagset_report::{Report, ReportFault, report};

/// The report of two sets; what is no Name is not declared.
pub fn report_from(
    alloc: Global,
    first: &DeclSet,
    second: &DeclSet,
    root: &Text,
) -> Result<Report, ReportFault>
    ensures { Reports first.now second.now root.now result }
{
    let _ = first.count();
    match Name::from_text(alloc, root)? {
        None => Err(ReportFault::RootUndeclared),
        Some(name) => report(alloc, first, second, &name),
    }
}

/// The refusal where there is no report.
pub fn unreported(alloc: Global, root: &Text, fault: &ReportFault) -> Result<Answer, NoMemory>
    ensures refuses { IfOk result (λ a. spec.unreported root.now fault.now a.status a.bytes.items) }
    ensures says { IfOk result (λ a. Says a.status a.bytes.items) }
{
    match fault {
        ReportFault::RootUndeclared => {
            let refusal = root_undeclared(alloc, root)?;
            refused(alloc, &refusal)
        }
        ReportFault::PairsOver(name) => {
            let refusal = pairs_over(alloc, name)?;
            refused(alloc, &refusal)
        }
        ReportFault::NoMemory => Err(NoMemory),
    }
}
