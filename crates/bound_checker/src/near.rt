//! Look-ups that begin where the last one ended.
//!
//! What is looked up for one step after another stands mostly side by side. So a look-up takes a place at which it looks first,
//! and tells the place at which the next one had best begin. Its answer depends on no place.

ghost use Rattle.std.specs.Prelude.{◌≡◌, ◌<◌, IfSome, Some, find, option_map};
ghost use Rattle.position_automata.specs.Automata.{states as states_in};
ghost use Rattle.position_automata.specs.Stepping.{step_on};
ghost use Rattle.bound_checker.specs.Tabled.{AreAscending, is_pair};

use crate::PairRow;
use jats_chars::Name;
use position_automata::Automaton;
use tree_costs::Cost;

/// The state to which the step at a place leads, where it is a step on the name.
fn next_if(automaton: &Automaton, state: u32, on: &Name, at: usize) -> Option<u32>
    requires { state < states_in automaton.now }
    ensures { IfSome result (λ next. step_on automaton.now state on.now ≡ Some next) }
{
    let _ = automaton.states();
    match automaton.step_of(state, at) {
        None => None,
        Some((name, next)) => { if name == on { Some(next) } else { None } }
    }
}

/// The first place, from this one on, of a step that leads to a state behind this one, or the one behind all steps.
fn place_behind(automaton: &Automaton, state: u32, next: u32, at: usize) -> usize
    requires { state < states_in automaton.now }
{
    for place in at..1024 {
        match automaton.step_of(state, place) {
            None => return place,
            Some((_, to)) => {
                if to > next {
                    return place;
                }
            }
        }
    }
    at
}

/// The state that follows on a name, found by hash.
fn next_by_hash(automaton: &Automaton, state: u32, on: &Name, at: usize) -> (Option<u32>, usize)
    requires { state < states_in automaton.now }
    ensures { result.0 ≡ step_on automaton.now state on.now }
{
    match automaton.step(state, on) {
        None => (None, at),
        Some(next) => (Some(next), place_behind(automaton, state, next, at)),
    }
}

/// The state that follows on a name, or None exactly where none does. The step at the place is looked at first.
pub(crate) fn next_near(
    automaton: &Automaton,
    state: u32,
    on: &Name,
    at: usize,
) -> (Option<u32>, usize)
    requires { state < states_in automaton.now }
    ensures { result.0 ≡ step_on automaton.now state on.now }
{
    match next_if(automaton, state, on, at) {
        Some(next) => (Some(next), at.saturating_add(1)),
        None => next_by_hash(automaton, state, on, at),
    }
}

/// The cost of the pair at a place, where it is the pair (i, j).
fn cost_if(pairs: &[PairRow], i: u32, j: u32, at: usize) -> Option<Cost>
    requires { AreAscending pairs.now }
    ensures { IfSome result (λ g. Some g ≡ option_map (λ s. s.g) (find (is_pair i j) pairs.now)) }
{
    match pairs.get(at) {
        None => None,
        Some(pair) => {
            if pair.i == i && pair.j == j {
                Some(pair.g)
            } else {
                None
            }
        }
    }
}

/// The cost G of the pair (i, j) among pairs that ascend, found by halves.
fn cost_by_halves(pairs: &[PairRow], i: u32, j: u32) -> (Option<Cost>, usize)
    requires { AreAscending pairs.now }
    ensures { result.0 ≡ option_map (λ s. s.g) (find (is_pair i j) pairs.now) }
{
    match pairs.binary_search_by_key(&(i, j), |pair| (pair.i, pair.j)) {
        Err(at) => (None, at),
        Ok(at) => (Some(pairs[at].g), at.saturating_add(1)),
    }
}

/// The cost G of the pair (i, j) among pairs that ascend, or None exactly where it is not listed. The pair at the place is
/// looked at first.
pub(crate) fn cost_near(pairs: &[PairRow], i: u32, j: u32, at: usize) -> (Option<Cost>, usize)
    requires { AreAscending pairs.now }
    ensures { result.0 ≡ option_map (λ s. s.g) (find (is_pair i j) pairs.now) }
{
    match cost_if(pairs, i, j, at) {
        Some(g) => (Some(g), at.saturating_add(1)),
        None => cost_by_halves(pairs, i, j),
    }
}

/// The cost G of the pair (i, j) among pairs that ascend, or None exactly where it is not listed. It is sought by halves.
pub fn listed_cost(pairs: &[PairRow], i: u32, j: u32) -> Option<Cost>
    requires { AreAscending pairs.now }
    ensures { result ≡ option_map (λ s. s.g) (find (is_pair i j) pairs.now) }
{
    let (cost, _) = cost_by_halves(pairs, i, j);
    cost
}
