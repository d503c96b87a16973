//! Which names have documents, and from which states they lead to acceptance.

ghost use Rattle.std.specs.Prelude.{◌≡◌, ◌++◌, map, option_map, slice_get, IfOk, OnOk};
ghost use Rattle.decl_set.specs.Declarations.{name_of};
ghost use Rattle.tree_costs.specs.Leasts.{FitRows, IsExact};
ghost use Rattle.tagset_report.specs.Finite as spec;
ghost use Rattle.tagset_report.specs.Live.{AreLive};

use decl_set::DeclSet;
use jats_chars::{NameList, NoMemory};
use model_inclusion::LiveNames;
use std::alloc::Global;
use tree_costs::{Cost, CostList, Least, LeastRow};

/// Whether a cost is a number.
pub(crate) fn is_finite(cost: Cost) -> bool
    ensures { result ≡ spec.is_finite cost }
{
    match cost {
        Cost::Fin(_) => true,
        Cost::Inf => false,
    }
}

/// From which states live names lead to acceptance: where the least sum is a number.
pub fn finite_flags(alloc: Global, costs: &CostList) -> Result<Vec<bool>, NoMemory>
    ensures { IfOk result (λ flags. flags.items ≡ map spec.is_finite costs.now) }
{
    let mut flags = Vec::with_capacity(alloc, costs.len())?;
    for cost in costs.as_slice() {
        flags.push(is_finite(*cost))?;
    }
    Ok(flags)
}

/// Appends the name of the element at a place, where there is one.
fn push_name(alloc: Global, set: &DeclSet, k: usize, names: &mut NameList) -> Result<(), NoMemory>
    ensures { OnOk result (names.new ≡ names.old ++ spec.as_list (option_map name_of (slice_get set.now.elements k))) }
{
    match set.name_at(k) {
        Some(name) => names.push(name.copy(alloc)?),
        None => Ok(()),
    }
}

fn finite_names(alloc: Global, set: &DeclSet, rows: &[LeastRow]) -> Result<NameList, NoMemory>
    requires { FitRows set.now.elements rows.now }
    ensures { IfOk result (λ names. names ≡ spec.live_of set.now.elements rows.now) }
{
    let mut names = NameList::new(alloc);
    for (k, row) in rows.iter().enumerate() {
        if is_finite(row.m) {
            push_name(alloc, set, k, &mut names)?;
        }
    }
    Ok(names)
}

/// The names that have documents in a set: those whose least size is a number.
pub fn live_names(alloc: Global, set: &DeclSet, least: &Least) -> Result<LiveNames, NoMemory>
    requires { IsExact set.now least.now }
    ensures { IfOk result (AreLive set.now) }
{
    let _ = set.count();
    let names = finite_names(alloc, set, least.rows.as_slice())?;
    LiveNames::new(alloc, &names)
}
