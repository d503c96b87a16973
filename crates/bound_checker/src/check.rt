//! The inequalities of tables.

ghost use Rattle.std.specs.Prelude.{◌≡◌, ◌<◌, ◌++◌, Some, [], ◌∷◌, slice_get, option_and_then};
ghost use Rattle.std.specs.List.{flat_map, range_with_len};
ghost use Rattle.content_models.specs.Model.{Chars};
ghost use Rattle.position_automata.specs.Automata.{states as states_in};
ghost use Rattle.position_automata.specs.Stepping.{step_on};
ghost use Rattle.decl_set.specs.Children.{place_in};
ghost use Rattle.decl_set.specs.Declarations.{content_in};
ghost use Rattle.decl_set.specs.Steps.{steps_in};
ghost use Rattle.bound_checker.specs.Tabled.{Fits, IsPair, costs_of};
ghost use Rattle.bound_checker.specs.Tests as spec;
ghost use Rattle.bound_checker.specs.Tests.{failing, each_at};
ghost use Rattle.bound_checker.specs.Holding.{IsHeld, costs_in};

use crate::held::{Held, m_in, row_at, v_in};
use crate::near::next_near;
use crate::{PairRow, Tables};
use decl_set::{DeclSet, is_odd};
use jats_chars::Name;
use position_automata::Automaton;
use tree_costs::{Cost, at_most, sum};

/// An inequality of tables, with both its sides: its kind from 1 to 11, the place of its element counted from 0, and the
/// states and the step counted from 0, where it has them, else 0.
#[derive(Clone, Copy, Debug, PartialEq, Eq)]
pub struct Broken {
    pub kind: u8,
    pub element: usize,
    pub i: u32,
    pub j: u32,
    pub step: usize,
    pub left: Cost,
    pub right: Cost,
}

/// The inequality, where it fails.
fn tested(test: Broken) -> Option<Broken>
    ensures { result ≡ failing (test ∷ []) }
{
    if at_most(test.left, test.right) {
        None
    } else {
        Some(test)
    }
}

/// The inequality, where it is wanted and fails.
fn tested_where(wanted: bool, test: Broken) -> Option<Broken>
    ensures { result ≡ failing (spec.where_so wanted test) }
{
    if wanted { tested(test) } else { None }
}

/// Kinds 2 to 4 at a step, by the place of its element.
fn on_step(held: &Held, state: u32, step: usize, child: Option<usize>, to: u32) -> Option<Broken>
    requires { IsHeld held.now }
    ensures { (name : Chars) → place_in held.now.first.now.elements name ≡ child → result ≡ failing (spec.on_step held.now.first.now held.now.second.now held.now.tables.now.cap (costs_in held.now) held.now.place held.now.name.now state step (name, to)) }
{
    let row = row_at(held.tables, child);
    let m = m_in(row);
    let p = held.p(to);
    let second_kind = Broken {
        kind: 2,
        element: held.place,
        i: state,
        j: 0,
        step,
        left: held.p(state),
        right: sum(m, p, held.tables.cap),
    };
    let third_kind = Broken {
        kind: 3,
        left: held.f(state),
        right: sum(v_in(row), p, held.tables.cap),
        ..second_kind
    };
    let fourth_kind = Broken {
        kind: 4,
        right: sum(m, held.f(to), held.tables.cap),
        ..third_kind
    };
    if let Some(broken) = tested(second_kind) {
        return Some(broken);
    }
    if let Some(broken) = tested(third_kind) {
        return Some(broken);
    }
    tested(fourth_kind)
}

/// Kinds 2 to 4 at the steps of a state.
fn on_steps(held: &Held, state: u32) -> Option<Broken>
    requires { IsHeld held.now }
    ensures { result ≡ failing (each_at (spec.on_step held.now.first.now held.now.second.now held.now.tables.now.cap (costs_in held.now) held.now.place held.now.name.now state) 0 (steps_in held.now.first.now held.now.automaton.now state)) }
{
    for step in 0..1024 {
        match held.first.child_at(held.place, state, step) {
            None => return None,
            Some((child, to)) => match on_step(held, state, step, child, to) {
                Some(broken) => return Some(broken),
                None => {}
            },
        }
    }
    None
}

/// A state: kind 1, and then its steps.
fn on_state(held: &Held, state: u32) -> Option<Broken>
    requires held { IsHeld held.now }
    requires state { state < states_in held.now.automaton.now }
    ensures { result ≡ failing (spec.on_state held.now.first.now held.now.second.now held.now.tables.now.cap (costs_in held.now) held.now.place held.now.name.now held.now.automaton.now state) }
{
    let ends = tested_where(
        held.automaton.accepts_at(state),
        Broken {
            kind: 1,
            element: held.place,
            i: state,
            j: 0,
            step: 0,
            left: held.p(state),
            right: Cost::Fin(0),
        },
    );
    match ends {
        Some(broken) => Some(broken),
        None => on_steps(held, state),
    }
}

/// Each state of an element.
fn on_states(held: &Held) -> Option<Broken>
    requires { IsHeld held.now }
    ensures { result ≡ failing (flat_map (spec.on_state held.now.first.now held.now.second.now held.now.tables.now.cap (costs_in held.now) held.now.place held.now.name.now held.now.automaton.now) (range_with_len 0 (states_in held.now.automaton.now))) }
{
    for state in 0..held.automaton.states() {
        match on_state(held, state) {
            Some(broken) => return Some(broken),
            None => {}
        }
    }
    None
}

/// Kind 6 or 7 at a step, by the place of its element. The pair that follows is first sought at the place among those of the
/// row, which becomes the one behind it.
fn on_both(
    held: &Held,
    pair: &PairRow,
    step: usize,
    child: Option<usize>,
    to: u32,
    other: Option<u32>,
    at: &mut usize,
) -> Option<Broken>
    requires held { IsHeld held.now }
    requires left { (costs_in held.now).g held.now.name.now pair.now.i pair.now.j ≡ pair.now.g }
    ensures { (name : Chars) → place_in held.now.first.now.elements name ≡ child → result ≡ failing (spec.on_both held.now.first.now held.now.second.now held.now.tables.now.cap (costs_in held.now) held.now.place held.now.name.now pair.now.i pair.now.j step (name, to) other ∷ []) }
{
    let m = m_in(row_at(held.tables, child));
    match other {
        Some(other) => {
            let (g, next) = held.g_near(to, other, *at);
            *at = next;
            tested(Broken {
                kind: 6,
                element: held.place,
                i: pair.i,
                j: pair.j,
                step,
                left: pair.g,
                right: sum(m, g, held.tables.cap),
            })
        }
        None => tested(Broken {
            kind: 7,
            element: held.place,
            i: pair.i,
            j: pair.j,
            step,
            left: pair.g,
            right: sum(m, held.p(to), held.tables.cap),
        }),
    }
}

/// Where the last step of a pair ended: the places behind it among the steps of the second, and behind the pair that follows.
#[derive(Clone, Copy)]
struct Near {
    step: usize,
    pair: usize,
}

/// The same, with the state of the second that follows on the name.
fn at_pair_step(
    held: &Held,
    other: &Automaton,
    pair: &PairRow,
    step: usize,
    on: &Name,
    child: Option<usize>,
    to: u32,
    near: &mut Near,
) -> Option<Broken>
    requires held { IsHeld held.now }
    requires other { pair.now.j < states_in other.now }
    requires left { (costs_in held.now).g held.now.name.now pair.now.i pair.now.j ≡ pair.now.g }
    requires child { child ≡ place_in held.now.first.now.elements on.now }
    ensures { result ≡ failing (spec.on_both held.now.first.now held.now.second.now held.now.tables.now.cap (costs_in held.now) held.now.place held.now.name.now pair.now.i pair.now.j step (on.now, to) (step_on other.now pair.now.j on.now) ∷ []) }
{
    let (next, behind) = next_near(other, pair.j, on, near.step);
    near.step = behind;
    on_both(held, pair, step, child, to, next, &mut near.pair)
}

/// Kinds 6 and 7 at the steps of a pair.
fn on_pair_steps(held: &Held, other: &Automaton, pair: &PairRow) -> Option<Broken>
    requires held { IsHeld held.now }
    requires other { pair.now.j < states_in other.now }
    requires left { (costs_in held.now).g held.now.name.now pair.now.i pair.now.j ≡ pair.now.g }
    ensures { result ≡ failing (each_at (λ k s. spec.on_both held.now.first.now held.now.second.now held.now.tables.now.cap (costs_in held.now) held.now.place held.now.name.now pair.now.i pair.now.j k s (step_on other.now pair.now.j s.0) ∷ []) 0 (steps_in held.now.first.now held.now.automaton.now pair.now.i)) }
{
    let mut near = Near { step: 0, pair: 0 };
    for step in 0..1024 {
        match held.step(pair.i, step) {
            None => return None,
            Some((on, child, to)) => {
                match at_pair_step(held, other, pair, step, on, child, to, &mut near) {
                    Some(broken) => return Some(broken),
                    None => {}
                }
            }
        }
    }
    None
}

/// A pair: kind 5, and then its steps.
fn on_pair(held: &Held, other: &Automaton, pair: &PairRow) -> Option<Broken>
    requires held { IsHeld held.now }
    requires pair { IsPair held.now.tables.now.cap held.now.automaton.now (Some other.now) pair.now }
    requires left { (costs_in held.now).g held.now.name.now pair.now.i pair.now.j ≡ pair.now.g }
    ensures { result ≡ failing (spec.on_pair held.now.first.now held.now.second.now held.now.tables.now.cap (costs_in held.now) held.now.place held.now.name.now held.now.automaton.now other.now pair.now) }
{
    let wanted = held.automaton.accepts_at(pair.i) && !other.accepts_at(pair.j);
    let ends = tested_where(
        wanted,
        Broken {
            kind: 5,
            element: held.place,
            i: pair.i,
            j: pair.j,
            step: 0,
            left: pair.g,
            right: Cost::Fin(0),
        },
    );
    match ends {
        Some(broken) => Some(broken),
        None => on_pair_steps(held, other, pair),
    }
}

/// The pair of a place, where there is one.
fn at_pair(held: &Held, other: &Automaton, at: usize) -> Option<Broken>
    requires held { IsHeld held.now }
    requires other { content_in held.now.second.now held.now.name.now ≡ Some other.now }
    ensures { result ≡ option_and_then (λ x. failing (spec.on_pair held.now.first.now held.now.second.now held.now.tables.now.cap (costs_in held.now) held.now.place held.now.name.now held.now.automaton.now other.now x)) (slice_get held.now.row.now.pairs at) }
{
    match held.row.pairs.get(at) {
        None => None,
        Some(pair) => on_pair(held, other, pair),
    }
}

/// Each listed pair of a row.
fn on_pairs(held: &Held, other: &Automaton) -> Option<Broken>
    requires held { IsHeld held.now }
    requires other { content_in held.now.second.now held.now.name.now ≡ Some other.now }
    ensures { result ≡ failing (flat_map (spec.on_pair held.now.first.now held.now.second.now held.now.tables.now.cap (costs_in held.now) held.now.place held.now.name.now held.now.automaton.now other.now) held.now.row.now.pairs) }
{
    for at in 0..held.row.pairs.len() {
        match at_pair(held, other, at) {
            Some(broken) => return Some(broken),
            None => {}
        }
    }
    None
}

/// The listed pairs of an element that both sets declare.
fn on_listed(held: &Held) -> Option<Broken>
    requires { IsHeld held.now }
    ensures { result ≡ failing (spec.on_pairs held.now.first.now held.now.second.now held.now.tables.now.cap (costs_in held.now) held.now.place held.now.name.now held.now.automaton.now (content_in held.now.second.now held.now.name.now) held.now.row.now.pairs) }
{
    match held.second.automaton_of(held.name) {
        None => None,
        Some(other) => on_pairs(held, other),
    }
}

/// Kinds 10 and 11.
fn on_last(held: &Held) -> Option<Broken>
    requires { IsHeld held.now }
    ensures { result ≡ failing (spec.on_last held.now.first.now held.now.second.now held.now.tables.now.cap (costs_in held.now) held.now.place held.now.name.now) }
{
    let ten = tested_where(
        held.second.content_of(held.name).is_some(),
        Broken {
            kind: 10,
            element: held.place,
            i: 0,
            j: 0,
            step: 0,
            left: held.v(),
            right: sum(Cost::Fin(1), held.g(0, 0), held.tables.cap),
        },
    );
    match ten {
        Some(broken) => Some(broken),
        None => tested_where(
            is_odd(held.first, held.second, held.name),
            Broken {
                kind: 11,
                element: held.place,
                i: 0,
                j: 0,
                step: 0,
                left: held.v(),
                right: held.m(),
            },
        ),
    }
}

/// The last four.
fn on_top(held: &Held) -> Option<Broken>
    requires { IsHeld held.now }
    ensures { result ≡ failing (spec.on_top held.now.first.now held.now.second.now held.now.tables.now.cap (costs_in held.now) held.now.place held.now.name.now) }
{
    let eight = tested(Broken {
        kind: 8,
        element: held.place,
        i: 0,
        j: 0,
        step: 0,
        left: held.m(),
        right: sum(Cost::Fin(1), held.p(0), held.tables.cap),
    });
    if let Some(broken) = eight {
        return Some(broken);
    }
    let nine = tested(Broken {
        kind: 9,
        element: held.place,
        i: 0,
        j: 0,
        step: 0,
        left: held.v(),
        right: sum(Cost::Fin(1), held.f(0), held.tables.cap),
    });
    match nine {
        Some(broken) => Some(broken),
        None => on_last(held),
    }
}

/// Pairs, and then the last four.
fn after_states(held: &Held) -> Option<Broken>
    requires { IsHeld held.now }
    ensures { result ≡ failing (spec.on_pairs held.now.first.now held.now.second.now held.now.tables.now.cap (costs_in held.now) held.now.place held.now.name.now held.now.automaton.now (content_in held.now.second.now held.now.name.now) held.now.row.now.pairs ++ spec.on_top held.now.first.now held.now.second.now held.now.tables.now.cap (costs_in held.now) held.now.place held.now.name.now) }
{
    match on_listed(held) {
        Some(broken) => Some(broken),
        None => on_top(held),
    }
}

/// An element: each state, then each listed pair, then the last four.
fn on_element(held: &Held) -> Option<Broken>
    requires { IsHeld held.now }
    ensures { result ≡ failing (spec.on_element held.now.first.now held.now.second.now held.now.tables.now.cap (costs_in held.now) (spec.pairs_of held.now.first.now held.now.tables.now) held.now.place (held.now.name.now, held.now.automaton.now)) }
{
    match on_states(held) {
        Some(broken) => Some(broken),
        None => after_states(held),
    }
}

/// The element of a place, where there is one.
fn at_element(first: &DeclSet, second: &DeclSet, tables: &Tables, place: usize) -> Option<Broken>
    requires { Fits first.now second.now tables.now }
    ensures { result ≡ option_and_then (λ x. failing (spec.on_element first.now second.now tables.now.cap (costs_of first.now tables.now) (spec.pairs_of first.now tables.now) place x)) (slice_get first.now.elements place) }
{
    let _ = first.count();
    let _ = second.count();
    match first.name_at(place) {
        None => None,
        Some(name) => match first.automaton_of(name) {
            None => None,
            Some(automaton) => match tables.rows.get(place) {
                None => None,
                Some(row) => on_element(&Held {
                    first,
                    second,
                    tables,
                    place,
                    name,
                    automaton,
                    row,
                }),
            },
        },
    }
}

fn first_broken(first: &DeclSet, second: &DeclSet, tables: &Tables) -> Option<Broken>
    requires { Fits first.now second.now tables.now }
    ensures { result ≡ spec.first_broken first.now second.now tables.now }
{
    for place in 0..first.count() {
        match at_element(first, second, tables, place) {
            Some(broken) => return Some(broken),
            None => {}
        }
    }
    None
}

/// Ok exactly where the tables are feasible, and else the first inequality that fails: elements in order of declaration;
/// for each its states, then its listed pairs, and for each of these first kind 1 or 5, then its steps in order, at each
/// step its kinds by number; then kinds 8 to 11. Looks once at each step, and takes no memory.
pub fn check_tables(first: &DeclSet, second: &DeclSet, tables: &Tables) -> Result<(), Broken>
    requires { Fits first.now second.now tables.now }
    ensures { spec.Checks first.now second.now tables.now result }
{
    let _ = first.count();
    let _ = second.count();
    match first_broken(first, second, tables) {
        None => Ok(()),
        Some(broken) => Err(broken),
    }
}
