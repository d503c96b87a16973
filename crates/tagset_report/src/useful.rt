//! Which elements are useful.
//!
//! A search goes along the steps that live names take: from the start of the root, where the root has documents, a step on
//! an element with documents leads to the state after it, where live names lead on from there to acceptance, and to the
//! start of that element. An element is useful exactly where its start is reached.

ghost use Rattle.std.specs.Prelude.{◌≡◌, ◌<◌, ◌^◌, ℕ, [], ◌∷◌, length, IfOk, OnOk};
ghost use Rattle.model_inclusion.specs.Reaching.{Member, Reaches, visit};
ghost use Rattle.tree_costs.specs.Leasts.{IsExact, place_of};
ghost use Rattle.tagset_report.specs.Finite as spec;
ghost use Rattle.tagset_report.specs.Useful.{TellUseful, size_at, sum_at, number_at, step_numbers, steps_numbers, children_at, root_numbers, next_numbers, count_numbers};

use crate::live::is_finite;
use decl_set::DeclSet;
use jats_chars::{Name, NoMemory};
use std::alloc::Global;
use tree_costs::{Least, LeastRow};

/// Numbers of states are kept for each element: a content has at most 1,024 names, and so many states and the start.
const WIDTH: usize = 1025;

/// Whether the element at a place has documents.
fn has_documents(rows: &[LeastRow], e: usize) -> bool
    ensures { result ≡ spec.is_finite (size_at rows.now e) }
{
    match rows.get(e) {
        None => false,
        Some(row) => is_finite(row.m),
    }
}

/// Whether live names lead to acceptance from a state of the element at a place.
fn leads_on(rows: &[LeastRow], e: usize, state: u32) -> bool
    ensures { result ≡ spec.is_finite (sum_at rows.now e state) }
{
    match rows.get(e) {
        None => false,
        Some(row) => match row.p.get(state as usize) {
            None => false,
            Some(cost) => is_finite(*cost),
        },
    }
}

/// The number of a state of the element at a place.
fn number_of_state(e: usize, state: u32) -> usize
    requires { number_at e state < 2 ^ 64 }
    ensures { result ≡ number_at e state }
{
    1 + (e * WIDTH + state as usize)
}

/// Marks a number that was not seen, and puts it on the stack.
fn mark(number: usize, seen: &mut Vec<bool>, stack: &mut Vec<usize>) -> Result<(), NoMemory>
    requires { number < length seen.old.items }
    ensures visits { OnOk result ((seen.new.items, stack.new.items) ≡ visit (number ∷ []) (seen.old.items, stack.old.items)) }
    ensures length_same { length seen.new.items ≡ length seen.old.items }
{
    if !seen[number] {
        seen[number] = true;
        stack.push(number)?;
    }
    Ok(())
}

/// Marks two numbers.
fn mark_both(
    one: usize,
    other: usize,
    seen: &mut Vec<bool>,
    stack: &mut Vec<usize>,
) -> Result<(), NoMemory>
    requires one { one < length seen.old.items }
    requires other { other < length seen.old.items }
    ensures visits { OnOk result ((seen.new.items, stack.new.items) ≡ visit (one ∷ other ∷ []) (seen.old.items, stack.old.items)) }
    ensures length_same { length seen.new.items ≡ length seen.old.items }
{
    mark(one, seen, stack)?;
    mark(other, seen, stack)
}

/// Marks what a step of an element leads to.
fn mark_step(
    rows: &[LeastRow],
    e: usize,
    step: (Option<usize>, u32),
    seen: &mut Vec<bool>,
    stack: &mut Vec<usize>,
) -> Result<(), NoMemory>
    requires { (y : ℕ) → Member y (step_numbers rows.now e step) → y < length seen.old.items }
    ensures visits { OnOk result ((seen.new.items, stack.new.items) ≡ visit (step_numbers rows.now e step) (seen.old.items, stack.old.items)) }
    ensures length_same { length seen.new.items ≡ length seen.old.items }
{
    let (child, next) = step;
    match child {
        None => Ok(()),
        Some(x) => {
            if has_documents(rows, x) && leads_on(rows, e, next) {
                let after = number_of_state(e, next);
                let start = number_of_state(x, 0);
                mark_both(after, start, seen, stack)
            } else {
                Ok(())
            }
        }
    }
}

/// Marks what the steps of a state of an element lead to.
fn mark_steps(
    set: &DeclSet,
    rows: &[LeastRow],
    e: usize,
    state: u32,
    seen: &mut Vec<bool>,
    stack: &mut Vec<usize>,
) -> Result<(), NoMemory>
    requires { (y : ℕ) → Member y (steps_numbers rows.now e (children_at set.now e state)) → y < length seen.old.items }
    ensures { OnOk result ((seen.new.items, stack.new.items) ≡ visit (steps_numbers rows.now e (children_at set.now e state)) (seen.old.items, stack.old.items)) }
{
    let mut k: usize = 0;
    while let Some(step) = set.child_at(e, state, k) {
        mark_step(rows, e, step, seen, stack)?;
        k += 1;
    }
    Ok(())
}

/// Marks the start of the root, where the root has documents.
fn mark_root(
    rows: &[LeastRow],
    root: Option<usize>,
    seen: &mut Vec<bool>,
    stack: &mut Vec<usize>,
) -> Result<(), NoMemory>
    requires { (y : ℕ) → Member y (root_numbers rows.now root) → y < length seen.old.items }
    ensures { OnOk result ((seen.new.items, stack.new.items) ≡ visit (root_numbers rows.now root) (seen.old.items, stack.old.items)) }
{
    match root {
        None => Ok(()),
        Some(x) => {
            if has_documents(rows, x) {
                mark(number_of_state(x, 0), seen, stack)
            } else {
                Ok(())
            }
        }
    }
}

/// Marks what a number leads to.
fn mark_next(
    set: &DeclSet,
    rows: &[LeastRow],
    root: Option<usize>,
    number: usize,
    seen: &mut Vec<bool>,
    stack: &mut Vec<usize>,
) -> Result<(), NoMemory>
    requires { (y : ℕ) → Member y (next_numbers set.now rows.now root number) → y < length seen.old.items }
    ensures { OnOk result ((seen.new.items, stack.new.items) ≡ visit (next_numbers set.now rows.now root number) (seen.old.items, stack.old.items)) }
{
    if number == 0 {
        return mark_root(rows, root, seen, stack);
    }
    let e = (number - 1) / WIDTH;
    let state = ((number - 1) % WIDTH) as u32;
    mark_steps(set, rows, e, state, seen, stack)
}

/// Which numbers are reached.
fn reached(
    alloc: Global,
    set: &DeclSet,
    rows: &[LeastRow],
    root: &Name,
) -> Result<Vec<bool>, NoMemory>
    ensures { IfOk result (λ seen. Reaches (next_numbers set.now rows.now (place_of set.now root.now)) (count_numbers set.now) seen.items) }
{
    let place = set.index_of(root);
    let mut seen = vec![in alloc; false; 1 + set.count() * WIDTH]?;
    seen[0] = true;
    let mut stack = Vec::new(alloc);
    stack.push(0)?;
    while let Some(number) = stack.pop() {
        mark_next(set, rows, place, number, &mut seen, &mut stack)?;
    }
    Ok(seen)
}

/// Which elements are useful from a root, by their places: those that stand in some document of the set from it.
pub fn useful_flags(
    alloc: Global,
    set: &DeclSet,
    least: &Least,
    root: &Name,
) -> Result<Vec<bool>, NoMemory>
    requires { IsExact set.now least.now }
    ensures { IfOk result (λ flags. TellUseful set.now root.now flags.items) }
{
    let seen = reached(alloc, set, least.rows.as_slice(), root)?;
    let mut flags = Vec::new(alloc);
    for e in 0..set.count() {
        flags.push(seen[number_of_state(e, 0)])?;
    }
    Ok(flags)
}
