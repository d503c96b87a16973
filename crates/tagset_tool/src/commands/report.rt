//! `report`: the useful elements of the first set that break in the second.

ghost use Rattle.std.specs.Prelude.{◌≡◌, ◌≤◌, ◌++◌, IfOk, IfSome, IsTrue, OnOk};
ghost use Rattle.std.specs.List.{flat_map};
ghost use Rattle.jats_io.specs.Causes.{HasCause};
ghost use Rattle.tagset_tool.specs.Outcomes.{fitting as fits};
ghost use Rattle.tagset_tool.specs.Runs.{IsLoadFailed, AnswersAbsence, Says};
ghost use Rattle.tagset_tool.specs.Words as asked;
ghost use Rattle.tagset_tool.specs.commands.Report as spec;

use crate::answer::{Answer, Stop, fitting, stop_of};
use crate::commands::compare::cause_name;
use crate::reports::{report_from, unreported};
use crate::shown::shown;
use crate::words::read_both;
use decl_set::{BrokenDecl, DeclSet};
use jats_chars::{NoMemory, Text};
use jats_io::Store;
use std::alloc::Global;
use tagset_report::Report;

fn put_difference(alloc: Global, out: &mut Vec<u8>, broken: &BrokenDecl) -> Result<(), NoMemory>
    ensures { OnOk result (out.new.items ≡ out.old.items ++ spec.differs_line broken.now) }
{
    let element = shown(alloc, broken.element.text())?;
    let cause = cause_name(alloc, &broken.cause)?;
    let line = format!(in alloc; "differs {element} {cause}\n")?;
    out.extend_from_slice(line.as_bytes())?;
    Ok(())
}

fn put_differences(alloc: Global, out: &mut Vec<u8>, differs: &[BrokenDecl]) -> Result<(), NoMemory>
    ensures { OnOk result (out.new.items ≡ out.old.items ++ flat_map spec.differs_line differs.now) }
{
    for broken in differs {
        put_difference(alloc, out, broken)?;
    }
    Ok(())
}

/// The lines of a report.
fn report_lines(alloc: Global, report: &Report) -> Result<Vec<u8>, NoMemory>
    ensures { IfOk result (λ v. v.items ≡ spec.report_lines report.now) }
{
    let mut lines = Vec::new(alloc);
    put_differences(alloc, &mut lines, report.differs.as_slice())?;
    let useful = report.useful;
    let differs = report.differs.len();
    let count = format!(in alloc; "useful {useful} differs {differs}\n")?;
    lines.extend_from_slice(count.as_bytes())?;
    Ok(lines)
}

fn report_answer(alloc: Global, report: &Report) -> Result<Answer, NoMemory>
    ensures fits { IfOk result (λ a. fits (spec.report_status report.now) (spec.report_lines report.now) a.status a.bytes.items) }
    ensures says { IfOk result (λ a. Says a.status a.bytes.items) }
{
    let lines = report_lines(alloc, report)?;
    if report.differs.len() == 0 {
        fitting(alloc, 0, lines)
    } else {
        fitting(alloc, 1, lines)
    }
}

/// The answer over two sets.
fn reported(
    alloc: Global,
    first: &DeclSet,
    second: &DeclSet,
    root: &Text,
) -> Result<Answer, NoMemory>
    ensures answer { IfOk result (λ a. spec.reported first.now second.now root.now a.status a.bytes.items) }
    ensures says { IfOk result (λ a. Says a.status a.bytes.items) }
{
    match report_from(alloc, first, second, root) {
        Ok(report) => report_answer(alloc, &report),
        Err(fault) => unreported(alloc, root, &fault),
    }
}

/// The answer to `report`.
pub fn report_words<S: Store>(alloc: Global, words: &[Text], store: &mut S) -> Result<Answer, Stop>
    requires { IsTrue (asked.is_report words.now) }
    ensures keeps { S.holds store.new ≡ S.holds store.old }
    ensures faults { HasCause (S.faults store.old) (S.faults store.new) (IsLoadFailed result) }
    ensures absences { HasCause (S.absences store.old) (S.absences store.new) (AnswersAbsence result) }
    ensures says { IfOk result (λ a. Says a.status a.bytes.items) }
    ensures status { IfOk result (λ a. a.status ≤ 2) }
    ensures told { IfSome (S.holds store.old) (λ files. IfOk result (λ a. spec.reports files (asked.set_words words.now 1) (asked.set_words words.now 3) (asked.word words.now 5) a.status a.bytes.items)) }
{
    let sets = match read_both(alloc, store, words, 1, 3) {
        Ok(sets) => sets,
        Err(fault) => return stop_of(alloc, &fault),
    };
    match reported(alloc, &sets.0, &sets.1, &words[5]) {
        Ok(answer) => Ok(answer),
        Err(_) => Err(Stop::NoMemory),
    }
}
