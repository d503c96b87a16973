//! Where two contents part.

ghost use Rattle.std.specs.Prelude.{◌≡◌, ◌<◌, ◌&&◌, ℕ, false, length, not, slice_index_or, replicate, None, Contains, IfOk};
ghost use Rattle.std.specs.List.{list_any};
ghost use Rattle.position_automata.specs.Automata.{states};
ghost use Rattle.position_automata.specs.Stepping.{does_accept};
ghost use Rattle.model_inclusion.specs.Included.{do_part, lacking};
ghost use Rattle.model_inclusion.specs.Reaching.{noted};

use crate::reach::{forget, note, noted_at};
use crate::rows::Step;
use jats_chars::{ListOf, NoMemory};
use position_automata::Automaton;
use std::alloc::Global;

fn flag_at(flags: &[bool], at: usize) -> bool
    ensures { result ≡ slice_index_or flags.now at false }
{
    match flags.get(at) {
        Some(flag) => *flag,
        None => false,
    }
}

fn is_lacking(step: &Step, steps: &[Option<u32>], ends: &[bool]) -> bool
    ensures { result ≡ lacking steps.now ends.now step.now }
{
    match noted_at(steps, step.0 as usize) {
        Some(_) => false,
        None => flag_at(ends, step.1 as usize),
    }
}

/// Whether a step of the row is not noted, and acceptance can be reached from where it leads.
fn has_lacking(row: &[Step], steps: &[Option<u32>], ends: &[bool]) -> bool
    ensures { result ≡ list_any (lacking steps.now ends.now) row.now }
{
    for step in row {
        if is_lacking(step, steps, ends) {
            return true;
        }
    }
    false
}

/// Whether the first row has such a step that the second does not have. The table of noted steps is as before.
fn rows_part(first: &[Step], second: &[Step], steps: &mut Vec<Option<u32>>, ends: &[bool]) -> bool
    requires { steps.old.items ≡ replicate (length steps.old.items) None }
    ensures value { result ≡ list_any (lacking (noted second.now steps.old.items) ends.now) first.now }
    ensures keeps { steps.new.items ≡ steps.old.items }
{
    note(second, steps);
    let parts = has_lacking(first, steps.as_slice(), ends);
    forget(second, steps);
    parts
}

fn accepts_alone(first: &Automaton, second: &Automaton, i: u32, j: u32) -> bool
    requires first { i < states first.now }
    requires second { j < states second.now }
    ensures { result ≡ (does_accept first.now i && not (does_accept second.now j)) }
{
    first.accepts_at(i) && !second.accepts_at(j)
}

/// Whether the automata part at a pair, by the rows of its states. The table of noted steps is as before.
fn parts_at(
    first: &Automaton,
    second: &Automaton,
    firsts: &[ListOf<Step>],
    seconds: &[ListOf<Step>],
    steps: &mut Vec<Option<u32>>,
    ends: &[bool],
    i: u32,
    j: u32,
) -> bool
    requires first { length firsts.now ≡ states first.now }
    requires second { length seconds.now ≡ states second.now }
    requires i_in { i < length firsts.now }
    requires j_in { j < length seconds.now }
    requires none { steps.old.items ≡ replicate (length steps.old.items) None }
    ensures value { result ≡ do_part first.now second.now firsts.now seconds.now (length steps.old.items) ends.now (i, j) }
    ensures keeps { steps.new.items ≡ steps.old.items }
{
    if accepts_alone(first, second, i, j) {
        return true;
    }
    rows_part(
        firsts[i as usize].as_slice(),
        seconds[j as usize].as_slice(),
        steps,
        ends,
    )
}

/// Whether the automata part at one of the pairs, by the rows of their states.
pub fn any_part(
    alloc: Global,
    first: &Automaton,
    second: &Automaton,
    firsts: &[ListOf<Step>],
    seconds: &[ListOf<Step>],
    names: usize,
    ends: &[bool],
    pairs: &[(u32, u32)],
) -> Result<bool, NoMemory>
    requires first { length firsts.now ≡ states first.now }
    requires second { length seconds.now ≡ states second.now }
    requires within { (i j : ℕ) → Contains pairs.now (i, j) → (i < length firsts.now) × (j < length seconds.now) }
    ensures { IfOk result (λ r. r ≡ list_any (do_part first.now second.now firsts.now seconds.now names ends.now) pairs.now) }
{
    let mut steps = vec![in alloc; None; names]?;
    for (i, j) in pairs {
        if parts_at(first, second, firsts, seconds, &mut steps, ends, *i, *j) {
            return Ok(true);
        }
    }
    Ok(false)
}
