//! The elements that contents name, by their places in the set.
//!
//! A step leads to an element by its name. Who goes over many steps wants the element's place without a look-up for each of
//! them, so a set that is whole may keep, for each content, the places of the elements that it names.

ghost use Rattle.std.specs.Prelude.{◌≡◌, ◌++◌, ◌<◌, ℕ, List, Some, IfOk, IfSome, OnOk, length, option_to_list, map, nat_lt, slice_get, option_and_then};
ghost use Rattle.std.specs.Option.{option_map};
ghost use Rattle.decl_set.specs.Asked.{IsKept};
ghost use Rattle.decl_set.specs.Children.{place_in, child_step, children_of};
ghost use Rattle.decl_set.specs.Steps.{TellsWithin, any_step, steps_at};
ghost use Rattle.position_automata.specs.Automata.{states};
ghost use Rattle.position_automata.specs.Stepping.{named};
ghost use Rattle.position_automata.specs.Tables.{step_names};

use crate::DeclSet;
use content_models::Content;
use jats_chars::{ListOf, NoMemory};
use position_automata::Automaton;
use std::alloc::Global;
use std::marker::Model;

/// The places of the elements that one content names, in the order of the names, seen as the list of these places. None
/// stands for an element that is not declared.
#[derive(Drop)]
pub struct Children {
    places: Vec<Option<usize>>,
}

impl Model for Children {
    ghost use Rattle.std.specs.Prelude.{List, Option, ℕ};

    ghost Value = { List (Option ℕ) };

    ghost view = { λ c. c.places.items };
}

impl Children {
    fn at(&self, at: usize) -> Option<usize>
        ensures { result ≡ option_and_then (λ place. place) (slice_get self.now at) }
    {
        match self.places.get(at) {
            None => None,
            Some(place) => *place,
        }
    }
}

/// The k-th step of a state of an automaton with the place of its name, or None exactly where there is no such state or
/// step.
fn place_within(automaton: &Automaton, state: u32, k: usize) -> Option<(usize, u32)>
    ensures told { TellsWithin (nat_lt state (states automaton.now)) automaton.now state k (named (step_names automaton.now) result) }
    ensures within { IfSome result (λ s. s.0 < length (step_names automaton.now)) }
{
    if state < automaton.states() {
        automaton.place_of(state, k)
    } else {
        None
    }
}

fn push_some(all: &mut ListOf<Children>, children: Option<Children>) -> Result<(), NoMemory>
    ensures { OnOk result (all.new ≡ all.old ++ option_to_list children) }
{
    match children {
        None => Ok(()),
        Some(children) => all.push(children),
    }
}

impl DeclSet {
    /// The places of the elements that an automaton's content names.
    fn children_of(&self, alloc: Global, automaton: &Automaton) -> Result<Children, NoMemory>
        ensures { IfOk result (λ c. c ≡ children_of self.now.elements automaton.now) }
    {
        let names = automaton.names();
        let mut places = Vec::with_capacity(alloc, names.len())?;
        for name in names {
            places.push(self.index_of(name))?;
        }
        Ok(Children { places })
    }

    /// Those of the element at a place, where there is one.
    fn children_at(&self, e: usize) -> Result<Option<Children>, NoMemory>
        ensures { IfOk result (λ o. o ≡ option_map (λ d. children_of self.now.elements d.1) (slice_get self.now.elements e)) }
    {
        match self.elements.get_index(e) {
            None => Ok(None),
            Some((_, declared)) => Ok(Some(self.children_of(self.alloc, &declared.automaton)?)),
        }
    }

    /// Those of all elements, in order of declaration.
    #[tactic(auto, using(crate::proofs::ChildPlaces::mapped_more))]
    fn all_children(&self) -> Result<ListOf<Children>, NoMemory>
        ensures { IfOk result (λ all. all ≡ map (λ d. children_of self.now.elements d.1) self.now.elements) }
    {
        let mut all = ListOf::new(self.alloc);
        for e in 0..self.count() {
            push_some(&mut all, self.children_at(e)?)?;
        }
        Ok(all)
    }

    /// Looks the elements up that the contents name, so that `child_at` has no name to look up. Nothing that a call answers
    /// changes by it, and after `NoMemory` the set is as it was before. The next declaration of an element forgets what was
    /// found.
    pub fn number_children(&mut self) -> Result<(), NoMemory>
        ensures { self.new ≡ self.old }
    {
        let all = self.all_children()?;
        self.children = all;
        Ok(())
    }

    /// The place of the element that stands at a place of a content's names.
    fn child_place(&self, e: usize, automaton: &Automaton, at: usize) -> Option<usize>
        requires { option_map (λ d. d.1) (slice_get self.now.elements e) ≡ Some automaton.now }
        ensures { result ≡ option_and_then (place_in self.now.elements) (slice_get (step_names automaton.now) at) }
    {
        match self.children.get(e) {
            Some(children) => children.at(at),
            None => match automaton.names().get(at) {
                None => None,
                Some(name) => self.index_of(name),
            },
        }
    }

    /// A step with the place of its name, as a step with the place of its element.
    fn child_of(
        &self,
        e: usize,
        automaton: &Automaton,
        step: Option<(usize, u32)>,
    ) -> Option<(Option<usize>, u32)>
        requires element { option_map (λ d. d.1) (slice_get self.now.elements e) ≡ Some automaton.now }
        requires within { IfSome step (λ s. s.0 < length (step_names automaton.now)) }
        ensures { result ≡ option_map (child_step self.now) (named (step_names automaton.now) step) }
    {
        match step {
            None => None,
            Some((at, next)) => Some((self.child_place(e, automaton, at), next)),
        }
    }

    /// The k-th step at ANY: from state 0 one on each element.
    fn element_child(&self, state: u32, k: usize) -> Option<(Option<usize>, u32)>
        ensures { result ≡ option_map (child_step self.now) (any_step self.now state k) }
    {
        if state == 0 && k < self.elements.len() {
            Some((Some(k), 0))
        } else {
            None
        }
    }

    /// The k-th step, counted from 0, of a state of the element at a place, as `step_at` tells it, with the place of the
    /// step's element in its name's stead: the inner None stands for an element that is not declared. None exactly where
    /// `step_at` answers None.
    pub fn child_at(&self, e: usize, state: u32, k: usize) -> Option<(Option<usize>, u32)>
        ensures value { result ≡ option_map (child_step self.now) (slice_get (steps_at self.now (slice_get self.now.elements e) state) k) }
        ensures kept { IsKept self.now }
    {
        match self.elements.get_index(e) {
            None => None,
            Some((_, declared)) => match &declared.content {
                Content::Any => self.element_child(state, k),
                _ => self.child_of(
                    e,
                    &declared.automaton,
                    place_within(&declared.automaton, state, k),
                ),
            },
        }
    }
}
