//! Look-ups that begin where their answer stands in contents that are alike.
//!
//! Where two contents are alike, their steps stand in one order and the states of a listed pair are mostly the same. So a step
//! of the second is first sought at the place of the first's, and a pair at the place of its first state. The answers depend on
//! neither.

ghost use Rattle.std.specs.Prelude.{◌≡◌, ◌<◌, IfSome, Some};
ghost use Rattle.position_automata.specs.Automata.{states as states_in};
ghost use Rattle.position_automata.specs.Stepping.{step_on};
ghost use Rattle.comparison_tables.specs.Sides.{pair_place as place_in};
ghost use Rattle.model_inclusion.specs.Listed.{IsAscending};

use crate::places::pair_place;
use jats_chars::Name;
use position_automata::Automaton;

/// The state to which the k-th step leads, where it is a step on the name.
fn next_if(automaton: &Automaton, state: u32, name: &Name, k: usize) -> Option<u32>
    requires { state < states_in automaton.now }
    ensures { IfSome result (λ next. step_on automaton.now state name.now ≡ Some next) }
{
    let _ = automaton.states();
    match automaton.step_of(state, k) {
        None => None,
        Some((on, next)) => { if on == name { Some(next) } else { None } }
    }
}

/// The state that follows on a name, or None exactly where none does. The k-th step is looked at first.
fn step_near(automaton: &Automaton, state: u32, name: &Name, k: usize) -> Option<u32>
    requires { state < states_in automaton.now }
    ensures { result ≡ step_on automaton.now state name.now }
{
    match next_if(automaton, state, name, k) {
        Some(next) => Some(next),
        None => automaton.step(state, name),
    }
}

/// The same, where there is such a state.
pub(crate) fn follows_near(automaton: &Automaton, state: u32, name: &Name, k: usize) -> Option<u32>
    ensures { result ≡ step_on automaton.now state name.now }
{
    if state < automaton.states() {
        step_near(automaton, state, name, k)
    } else {
        None
    }
}

/// The place, where the pair (i, j) stands there.
fn place_if(pairs: &[(u32, u32)], i: u32, j: u32, at: usize) -> Option<usize>
    requires { IsAscending pairs.now }
    ensures { IfSome result (λ found. place_in pairs.now i j ≡ Some found) }
{
    match pairs.get(at) {
        None => None,
        Some(pair) => {
            if pair.0 == i && pair.1 == j {
                Some(at)
            } else {
                None
            }
        }
    }
}

/// The place of the pair (i, j), where it is listed. The pair at place i is looked at first.
pub(crate) fn place_near(pairs: &[(u32, u32)], i: u32, j: u32) -> Option<usize>
    requires { IsAscending pairs.now }
    ensures { result ≡ place_in pairs.now i j }
{
    match place_if(pairs, i, j, i as usize) {
        Some(found) => Some(found),
        None => pair_place(pairs, i, j),
    }
}
