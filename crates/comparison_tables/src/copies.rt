//! The elements of the first set and their copies, by place.

ghost use Rattle.std.specs.Prelude.{◌≡◌, IfSome, option_map, slice_get};
ghost use Rattle.comparison_tables.specs.Entries.{AreEntries};
ghost use Rattle.comparison_tables.specs.Holding.{IsHeld, known_in};
ghost use Rattle.comparison_tables.specs.Plans.{own_states, own_accepts, own_steps, states_of_copy, copy_accepts_at, steps_of_copy};
ghost use Rattle.comparison_tables.specs.Shapes.{AreFine};
ghost use Rattle.comparison_tables.specs.Sides.{known_at};

use crate::accepting::accepts;
use crate::entries::Entry;
use crate::held::{Held, element_at};
use crate::sides::Sides;
use crate::steps::Step;
use decl_set::DeclSet;

/// How many states the content of an element has.
pub(crate) fn own_states_at(first: &DeclSet, place: usize) -> u32
    ensures { result ≡ own_states (slice_get first.now.elements place) }
{
    match element_at(first, place) {
        None => 0,
        Some((_, automaton)) => automaton.states(),
    }
}

/// Whether a state of its content accepts.
pub(crate) fn own_accepts_at(first: &DeclSet, place: usize, state: u32) -> bool
    ensures { result ≡ own_accepts (slice_get first.now.elements place) state }
{
    match element_at(first, place) {
        None => false,
        Some((_, automaton)) => accepts(automaton, state),
    }
}

/// The k-th step of a state of its content.
pub(crate) fn own_step_at(first: &DeclSet, place: usize, state: u32, k: usize) -> Option<Step>
    ensures { result ≡ slice_get (own_steps first.now (slice_get first.now.elements place) state) k }
{
    first.child_at(place, state, k)
}

/// The element at a place with what is held of it, or None exactly where there are no more elements.
fn held_at<'a>(
    first: &'a DeclSet,
    second: &'a DeclSet,
    sides: &'a Sides,
    entries: &'a [Entry<'a>],
    place: usize,
) -> Option<Held<'a>>
    requires fine { AreFine first.now.elements sides.now }
    requires entries { AreEntries first.now second.now sides.now entries.now }
    ensures known { option_map known_in result ≡ known_at first.now second.now sides.now place }
    ensures held { IfSome result IsHeld }
    ensures first { IfSome result (λ h. h.first.now ≡ first.now) }
{
    let _ = first.count();
    match entries.get(place) {
        None => None,
        Some(entry) => Some(Held {
            first,
            place,
            name: entry.name,
            automaton: entry.automaton,
            other: entry.other,
            side: entry.side,
        }),
    }
}

/// How many states its copy has.
pub(crate) fn copy_states_at(
    first: &DeclSet,
    second: &DeclSet,
    sides: &Sides,
    entries: &[Entry<'_>],
    place: usize,
) -> u32
    requires fine { AreFine first.now.elements sides.now }
    requires entries { AreEntries first.now second.now sides.now entries.now }
    ensures { result ≡ states_of_copy (known_at first.now second.now sides.now place) }
{
    match held_at(first, second, sides, entries, place) {
        None => 0,
        Some(held) => held.states(),
    }
}

/// Whether a state of its copy accepts.
pub(crate) fn copy_accepts_of(
    first: &DeclSet,
    second: &DeclSet,
    sides: &Sides,
    entries: &[Entry<'_>],
    place: usize,
    state: u32,
) -> bool
    requires fine { AreFine first.now.elements sides.now }
    requires entries { AreEntries first.now second.now sides.now entries.now }
    ensures { result ≡ copy_accepts_at (known_at first.now second.now sides.now place) state }
{
    match held_at(first, second, sides, entries, place) {
        None => false,
        Some(held) => held.accepts(state),
    }
}

/// The k-th step of a state of its copy.
pub(crate) fn copy_step_at(
    first: &DeclSet,
    second: &DeclSet,
    sides: &Sides,
    entries: &[Entry<'_>],
    place: usize,
    state: u32,
    k: usize,
) -> Option<Step>
    requires fine { AreFine first.now.elements sides.now }
    requires entries { AreEntries first.now second.now sides.now entries.now }
    ensures { result ≡ slice_get (steps_of_copy first.now (known_at first.now second.now sides.now place) state) k }
{
    match held_at(first, second, sides, entries, place) {
        None => None,
        Some(held) => held.step(state, k),
    }
}
