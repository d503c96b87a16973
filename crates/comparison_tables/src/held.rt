//! An element of the first set, with what is held of it.

ghost use Rattle.std.specs.Prelude.{◌≡◌, ℕ, List, option_map, slice_get};
ghost use Rattle.content_models.specs.declared.content.Content.{Content};

use crate::sides::Side;
use decl_set::DeclSet;
use jats_chars::Name;
use position_automata::Automaton;

/// An element of the first set at its place, with its automaton, that of the second where it declares the element, and its
/// side.
#[derive(Clone, Copy)]
pub(crate) struct Held<'a> {
    pub first: &'a DeclSet,
    pub place: usize,
    pub name: &'a Name,
    pub automaton: &'a Automaton,
    pub other: Option<&'a Automaton>,
    pub side: &'a Side,
}

/// The name and the automaton of the element at a place, or None exactly where there are no more elements.
pub(crate) fn element_at(set: &DeclSet, place: usize) -> Option<(&Name, &Automaton)>
    ensures { option_map {U = List ℕ × Content} (λ p. (p.0.now, p.1.now)) result ≡ slice_get set.now.elements place }
{
    let _ = set.count();
    match set.name_at(place) {
        None => None,
        Some(name) => match set.automaton_of(name) {
            None => None,
            Some(automaton) => Some((name, automaton)),
        },
    }
}
