//! Which pairs common steps reach.

ghost use Rattle.std.specs.Prelude.{◌≡◌, ◌<◌, ◌+◌, ◌*◌, ◌^◌, ◌≤◌, ℕ, [], ◌∷◌, length, slice_set, slice_index_or, replicate, Some, None, Contains, IfOk, OnOk};
ghost use Rattle.model_inclusion.specs.Reaching.{common, forgotten, next, noted, visit, AreWithin, Reaches};

use crate::rows::Step;
use jats_chars::{ListOf, NoMemory};
use std::alloc::Global;

fn put(steps: &mut Vec<Option<u32>>, at: usize, step: Option<u32>)
    ensures { steps.new.items ≡ slice_set steps.old.items at step }
{
    if at < steps.len() {
        steps[at] = step;
    }
}

/// Notes each step of a row at the number of its name.
pub fn note(row: &[Step], steps: &mut Vec<Option<u32>>)
    ensures { steps.new.items ≡ noted row.now steps.old.items }
{
    for (number, next) in row {
        put(steps, *number as usize, Some(*next));
    }
}

/// Takes the steps of a row away again.
pub fn forget(row: &[Step], steps: &mut Vec<Option<u32>>)
    ensures { steps.new.items ≡ forgotten row.now steps.old.items }
{
    for (number, _next) in row {
        put(steps, *number as usize, None);
    }
}

/// The step that is noted at a number.
pub fn noted_at(steps: &[Option<u32>], at: usize) -> Option<u32>
    ensures { result ≡ slice_index_or steps.now at None }
{
    match steps.get(at) {
        Some(step) => *step,
        None => None,
    }
}

/// Marks a pair that was not seen, and puts it on the stack.
fn mark(pair: usize, seen: &mut Vec<bool>, stack: &mut Vec<usize>) -> Result<(), NoMemory>
    requires { pair < length seen.old.items }
    ensures { OnOk result ((seen.new.items, stack.new.items) ≡ visit (pair ∷ []) (seen.old.items, stack.old.items)) }
{
    if !seen[pair] {
        seen[pair] = true;
        stack.push(pair)?;
    }
    Ok(())
}

/// Marks the pairs to which the steps of a row lead together with the noted ones.
fn visit_row(
    row: &[Step],
    steps: &[Option<u32>],
    width: usize,
    seen: &mut Vec<bool>,
    stack: &mut Vec<usize>,
) -> Result<(), NoMemory>
    requires { (s : ℕ × ℕ) (j : ℕ) → Contains row.now s → slice_index_or steps.now s.0 None ≡ Some j → s.1 * width + j < length seen.old.items }
    ensures { OnOk result ((seen.new.items, stack.new.items) ≡ visit (common row.now steps.now width) (seen.old.items, stack.old.items)) }
{
    for (number, next) in row {
        if let Some(other) = noted_at(steps, *number as usize) {
            mark(*next as usize * width + other as usize, seen, stack)?;
        }
    }
    Ok(())
}

/// Marks the pairs to which the steps of two rows lead together. The table of noted steps is as before.
fn visit_rows(
    first: &[Step],
    second: &[Step],
    width: usize,
    steps: &mut Vec<Option<u32>>,
    seen: &mut Vec<bool>,
    stack: &mut Vec<usize>,
) -> Result<(), NoMemory>
    requires none { steps.old.items ≡ replicate (length steps.old.items) None }
    requires within { (s : ℕ × ℕ) (j : ℕ) → Contains first.now s → slice_index_or (noted second.now steps.old.items) s.0 None ≡ Some j → s.1 * width + j < length seen.old.items }
    ensures visits { OnOk result ((seen.new.items, stack.new.items) ≡ visit (common first.now (noted second.now steps.old.items) width) (seen.old.items, stack.old.items)) }
    ensures keeps { steps.new.items ≡ steps.old.items }
{
    note(second, steps);
    let visited = visit_row(first, steps.as_slice(), width, seen, stack);
    forget(second, steps);
    visited
}

/// Which pairs common steps reach from pair 0, by their numbers.
pub fn reached(
    alloc: Global,
    firsts: &[ListOf<Step>],
    seconds: &[ListOf<Step>],
    names: usize,
) -> Result<Vec<bool>, NoMemory>
    requires first { 0 < length firsts.now }
    requires first_small { length firsts.now < 2 ^ 32 }
    requires second { 0 < length seconds.now }
    requires second_small { length seconds.now < 2 ^ 32 }
    requires within { AreWithin firsts.now seconds.now names }
    ensures { IfOk result (λ seen. Reaches (next firsts.now seconds.now names) (length firsts.now * length seconds.now) seen.items) }
{
    let width = seconds.len();
    let mut seen = vec![in alloc; false; firsts.len() * width]?;
    seen[0] = true;
    let mut steps = vec![in alloc; None; names]?;
    let mut stack = Vec::new(alloc);
    stack.push(0)?;
    while let Some(pair) = stack.pop() {
        visit_rows(
            firsts[pair / width].as_slice(),
            seconds[pair % width].as_slice(),
            width,
            &mut steps,
            &mut seen,
            &mut stack,
        )?;
    }
    Ok(seen)
}
