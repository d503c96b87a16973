//! The steps of an automaton as rows of numbered names.

ghost use Rattle.std.specs.Prelude.{◌≡◌, ◌≤◌, ◌<◌, ◌^◌, ◌++◌, ◌∷◌, [], length, map, IfOk, OnOk};
ghost use Rattle.position_automata.specs.Automata.{states, IsFollows};
ghost use Rattle.position_automata.specs.Stepping.{steps_of};
ghost use Rattle.position_automata.specs.Tables.{step_names};
ghost use Rattle.model_inclusion.specs.Rows.{number_of, numbered, placed_step, asked, IsRow, AreRows};

use crate::LiveNames;
use crate::reach::noted_at;
use jats_chars::{ListOf, Name, NoMemory};
use position_automata::Automaton;
use std::alloc::Global;

/// A step: the number of its name, and the state that follows.
pub type Step = (u32, u32);

/// The numbers of the names that occur in a content, in their order: each name is looked up once.
fn numbers(
    alloc: Global,
    automaton: &Automaton,
    live: &LiveNames,
) -> Result<Vec<Option<u32>>, NoMemory>
    ensures { IfOk result (λ numbers. numbers.items ≡ map (number_of live.now) (step_names automaton.now)) }
{
    let names = automaton.names();
    let mut numbers = Vec::with_capacity(alloc, names.len())?;
    for name in names {
        numbers.push(live.number_of(name))?;
    }
    Ok(numbers)
}

/// Appends a step, where the name at this place has a number.
fn push_step(
    numbers: &[Option<u32>],
    row: &mut ListOf<Step>,
    at: usize,
    next: u32,
) -> Result<(), NoMemory>
    ensures { OnOk result (row.new ≡ row.old ++ placed_step numbers.now at next) }
{
    match noted_at(numbers, at) {
        Some(number) => row.push((number, next)),
        None => Ok(()),
    }
}

/// The told steps of a state, of which there are at most so many.
fn told_row(
    alloc: Global,
    automaton: &Automaton,
    live: &LiveNames,
    numbers: &[Option<u32>],
    state: u32,
    most: u64,
) -> Result<ListOf<Step>, NoMemory>
    requires numbers { numbers.now ≡ map (number_of live.now) (step_names automaton.now) }
    requires state { state < states automaton.now }
    requires most { length (steps_of automaton.now state) ≤ most }
    ensures { IfOk result (λ row. row ≡ numbered live.now (steps_of automaton.now state)) }
{
    let mut row = ListOf::new(alloc);
    for k in 0..most {
        match automaton.place_of(state, k as usize) {
            Some((at, next)) => push_step(numbers, &mut row, at, next)?,
            None => return Ok(row),
        }
    }
    Ok(row)
}

/// Appends the step on a live name.
fn push_asked(
    automaton: &Automaton,
    live: &LiveNames,
    row: &mut ListOf<Step>,
    state: u32,
    name: &Name,
) -> Result<(), NoMemory>
    requires { state < states automaton.now }
    ensures { OnOk result (row.new ≡ row.old ++ asked live.now automaton.now state (name.now ∷ [])) }
{
    match live.number_of(name) {
        None => Ok(()),
        Some(number) => match automaton.step(state, name) {
            None => Ok(()),
            Some(next) => row.push((number, next)),
        },
    }
}

/// The steps of a state on the live names, asked one by one: so those from ANY, which tells none.
fn asked_row(
    alloc: Global,
    automaton: &Automaton,
    live: &LiveNames,
    state: u32,
) -> Result<ListOf<Step>, NoMemory>
    requires { state < states automaton.now }
    ensures { IfOk result (λ row. row ≡ asked live.now automaton.now state live.now) }
{
    let mut row = ListOf::new(alloc);
    for name in live.as_slice() {
        push_asked(automaton, live, &mut row, state, name)?;
    }
    Ok(row)
}

fn row(
    alloc: Global,
    automaton: &Automaton,
    live: &LiveNames,
    numbers: &[Option<u32>],
    state: u32,
    most: u64,
) -> Result<ListOf<Step>, NoMemory>
    requires numbers { numbers.now ≡ map (number_of live.now) (step_names automaton.now) }
    requires state { state < states automaton.now }
    requires most { IsFollows automaton.now most }
    ensures { IfOk result (IsRow live.now automaton.now state) }
{
    let _ = automaton.states();
    if most == 0 {
        asked_row(alloc, automaton, live, state)
    } else {
        told_row(alloc, automaton, live, numbers, state, most)
    }
}

/// The steps of each state on live names.
pub fn rows(
    alloc: Global,
    automaton: &Automaton,
    live: &LiveNames,
) -> Result<ListOf<ListOf<Step>>, NoMemory>
    ensures rows { IfOk result (AreRows live.now automaton.now) }
    ensures small { IfOk result (λ rows. length rows < 2 ^ 32) }
{
    let most = automaton.follows();
    let numbers = numbers(alloc, automaton, live)?;
    let mut rows = ListOf::new(alloc);
    for state in 0..automaton.states() {
        let row = row(alloc, automaton, live, numbers.as_slice(), state, most)?;
        rows.push(row)?;
    }
    Ok(rows)
}
