//! What is reported of two sets.

ghost use Rattle.std.specs.Prelude.{◌≡◌, ◌++◌, Some, true, IfOk, IsTrue, OnOk, is_some, map, option_map, slice_get};
ghost use Rattle.decl_set.specs.Declarations.{Element, content_in};
ghost use Rattle.model_inclusion.specs.Included.{TellEnds};
ghost use Rattle.tree_costs.specs.Leasts.{IsExact};
ghost use Rattle.tagset_report.specs.Finite.{is_finite};
ghost use Rattle.tagset_report.specs.Gathered.{Finds, FindsAt, sums_of, broken_at, one_if};
ghost use Rattle.tagset_report.specs.Live.{AreLive};
ghost use Rattle.tagset_report.specs.Reported.{Reports};
ghost use Rattle.tagset_report.specs.Useful.{TellUseful};

use crate::causes::{Judged, judge};
use crate::live::{finite_flags, live_names};
use crate::useful::useful_flags;
use crate::{BrokenList, Report, ReportFault};
use decl_set::{BrokenDecl, Cause, DeclSet};
use jats_chars::limits::PAIRS;
use jats_chars::{ListOf, Name, NoMemory};
use least_trees::least;
use model_inclusion::{LiveNames, PairFault};
use position_automata::Automaton;
use std::alloc::Global;
use tree_costs::Least;

/// The name and the automaton of the element at a place.
fn named_at(set: &DeclSet, e: usize) -> Option<(&Name, &Automaton)>
    ensures { option_map {U = Element} (λ p. (p.0.now, p.1.now)) result ≡ slice_get set.now.elements e }
{
    let _ = set.count();
    match set.name_at(e) {
        None => None,
        Some(name) => match set.automaton_of(name) {
            None => None,
            Some(automaton) => Some((name, automaton)),
        },
    }
}

/// From which states of the element at a place live names lead to acceptance.
fn ends_at(alloc: Global, least: &Least, e: usize) -> Result<Vec<bool>, NoMemory>
    ensures { IfOk result (λ flags. flags.items ≡ map is_finite (sums_of (slice_get least.now.rows e))) }
{
    match least.rows.get(e) {
        None => Ok(Vec::new(alloc)),
        Some(row) => finite_flags(alloc, &row.p),
    }
}

/// What is found of an element. `PairsOver` names it where more than `left` pairs are listed.
fn judge_named(
    alloc: Global,
    first: &DeclSet,
    second: &DeclSet,
    name: &Name,
    automaton: &Automaton,
    live: &LiveNames,
    ends: &[bool],
    left: u64,
) -> Result<Judged, ReportFault>
    requires declared { content_in first.now name.now ≡ Some automaton.now }
    requires live { AreLive first.now live.now }
    requires ends { TellEnds live.now automaton.now ends.now }
    ensures { Finds first.now second.now left result (name.now, automaton.now) }
{
    match judge(alloc, first, second, name, automaton, live, ends, left) {
        Ok(judged) => Ok(judged),
        Err(PairFault::NoMemory) => Err(ReportFault::NoMemory),
        Err(PairFault::PairsOver) => Err(ReportFault::PairsOver(name.copy(alloc)?)),
    }
}

/// What is found of the element at a place.
fn judge_at(
    alloc: Global,
    first: &DeclSet,
    second: &DeclSet,
    least: &Least,
    live: &LiveNames,
    e: usize,
    left: u64,
) -> Result<Judged, ReportFault>
    requires exact { IsExact first.now least.now }
    requires live { AreLive first.now live.now }
    ensures { FindsAt first.now second.now (slice_get first.now.elements e) left result }
{
    let _ = first.count();
    match named_at(first, e) {
        None => Ok(Judged {
            pairs: 0,
            cause: None,
        }),
        Some((name, automaton)) => {
            let ends = ends_at(alloc, least, e)?;
            judge_named(
                alloc,
                first,
                second,
                name,
                automaton,
                live,
                ends.as_slice(),
                left,
            )
        }
    }
}

/// Lists the element at a place with its cause.
fn push_broken(
    alloc: Global,
    set: &DeclSet,
    e: usize,
    cause: Cause,
    differs: &mut BrokenList,
) -> Result<(), NoMemory>
    ensures { OnOk result (differs.new ≡ differs.old ++ broken_at (slice_get set.now.elements e) (Some cause) true) }
{
    match set.name_at(e) {
        None => Ok(()),
        Some(name) => differs.push(BrokenDecl {
            element: name.copy(alloc)?,
            cause,
        }),
    }
}

/// Lists the element at a place where it is useful and a cause breaks it.
fn push_useful(
    alloc: Global,
    set: &DeclSet,
    e: usize,
    cause: Option<Cause>,
    is_useful: bool,
    differs: &mut BrokenList,
) -> Result<(), NoMemory>
    ensures { OnOk result (differs.new ≡ differs.old ++ broken_at (slice_get set.now.elements e) cause is_useful) }
{
    match cause {
        None => Ok(()),
        Some(cause) => {
            if is_useful {
                push_broken(alloc, set, e, cause, differs)
            } else {
                Ok(())
            }
        }
    }
}

/// 1 where the flag is set.
fn counted(flag: bool) -> u64
    ensures { result ≡ one_if flag }
{
    if flag { 1 } else { 0 }
}

/// The report of two sets of which the first declares the root. The flags tell which elements are useful.
fn gather(
    alloc: Global,
    first: &DeclSet,
    second: &DeclSet,
    root: &Name,
    least: &Least,
    live: &LiveNames,
    flags: &[bool],
) -> Result<Report, ReportFault>
    requires declared { IsTrue (is_some (content_in first.now root.now)) }
    requires exact { IsExact first.now least.now }
    requires live { AreLive first.now live.now }
    requires flags { TellUseful first.now root.now flags.now }
    ensures { Reports first.now second.now root.now result }
{
    let mut left = PAIRS;
    let mut useful: u64 = 0;
    let mut differs = ListOf::new(alloc);
    for e in 0..first.count() {
        match judge_at(alloc, first, second, least, live, e, left) {
            Err(fault) => return Err(fault),
            Ok(judged) => {
                left -= judged.pairs;
                useful += counted(flags[e]);
                push_useful(alloc, first, e, judged.cause, flags[e], &mut differs)?;
            }
        }
    }
    Ok(Report { useful, differs })
}

/// What two sets say of a root of the first: how many elements of the first are useful, and those of them that break in the
/// second, in order of declaration, each with its first cause. `RootUndeclared` exactly where the first does not declare the
/// root; `PairsOver` exactly where, in order of declaration, the sum of listed pairs passes 2,000,000 at the element that it
/// names; `NoMemory` where memory runs out.
pub fn report(
    alloc: Global,
    first: &DeclSet,
    second: &DeclSet,
    root: &Name,
) -> Result<Report, ReportFault>
    ensures { Reports first.now second.now root.now result }
{
    if first.content_of(root).is_none() {
        return Err(ReportFault::RootUndeclared);
    }
    let least = least(alloc, first, 0)?;
    let live = live_names(alloc, first, &least)?;
    let flags = useful_flags(alloc, first, &least, root)?;
    gather(alloc, first, second, root, &least, &live, flags.as_slice())
}
