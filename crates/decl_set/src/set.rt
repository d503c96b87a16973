//! The set of declarations, and what is read of it.

ghost use Rattle.std.specs.Prelude.{◌≡◌, ◌≤◌, ℕ, List, bytes_eq, length, position, slice_get, option_map, nat_lt};
ghost use Rattle.std.specs.Option.{option_copied};
ghost use Rattle.position_automata.specs.Automata.{states};
ghost use Rattle.decl_set.specs.Asked.{IsKept};
ghost use Rattle.decl_set.specs.Declarations.{none_declared, content_in, list_in, entity_in, name_of};
ghost use Rattle.decl_set.specs.Steps.{TellsStepAt, TellsWithin, any_step, steps_at};

use crate::EntityDef;
use crate::children::Children;
use attlist_merge::AttList;
use content_models::Content;
use entity_catalog::Ids;
use indexmap::IndexMap;
use jats_chars::{ListOf, Name};
use position_automata::Automaton;
use std::alloc::Global;
use std::marker::Model;

/// What is kept of an element.
#[derive(Drop)]
pub struct Declared {
    pub content: Content,
    pub automaton: Automaton,
}

/// What is declared: elements with their contents, lists of attributes by element, general entities and notations, each in
/// order of declaration.
#[derive(Drop)]
pub struct DeclSet {
    pub(crate) alloc: Global,
    pub(crate) elements: IndexMap<Name, Declared>,
    pub(crate) lists: IndexMap<Name, AttList>,
    pub(crate) entities: IndexMap<Name, EntityDef>,
    pub(crate) notations: IndexMap<Name, Ids>,
    pub(crate) follows: u64,
    pub(crate) children: ListOf<Children>,
}

impl Model for DeclSet {
    ghost use Rattle.decl_set.specs.Declarations.{Declarations};
    ghost use Rattle.decl_set.specs.DeclaredBy.{declared_by};
    ghost use Rattle.decl_set.specs.Inside.{IsInside};
    ghost use Rattle.std.specs.Coded.{codes};
    ghost use Rattle.content_models.specs.contracts.content.Particle as particle;

    ghost Value = { Declarations };

    ghost coded = { Prim.hlevel (codes, particle.the_row.coded) };

    ghost view = { declared_by };

    ghost invariant = { IsInside };
}

/// The k-th step of a state of an automaton, or None exactly where there is no such state or step.
fn step_within(automaton: &Automaton, state: u32, k: usize) -> Option<(&Name, u32)>
    ensures { TellsWithin (nat_lt state (states automaton.now)) automaton.now state k (option_map {U = List ℕ × ℕ} (λ s. (s.0.now, s.1)) result) }
{
    if state < automaton.states() {
        automaton.step_of(state, k)
    } else {
        None
    }
}

impl DeclSet {
    /// The set that declares nothing.
    pub fn new(alloc: Global) -> DeclSet
        ensures { result ≡ none_declared }
    {
        DeclSet {
            alloc,
            elements: IndexMap::new(alloc),
            lists: IndexMap::new(alloc),
            entities: IndexMap::new(alloc),
            notations: IndexMap::new(alloc),
            follows: 0,
            children: ListOf::new(alloc),
        }
    }

    /// How many elements are declared: at most 1,024. That a set keeps its constraints is known by this call.
    pub fn count(&self) -> usize
        ensures value { result ≡ length self.now.elements }
        ensures small { result ≤ 1024 }
        ensures kept { IsKept self.now }
    {
        self.elements.len()
    }

    /// The name of the element at a place counted from 0 in order of declaration, or None exactly where there are no
    /// more.
    pub fn name_at(&self, e: usize) -> Option<&Name>
        ensures { option_copied result ≡ option_map name_of (slice_get self.now.elements e) }
    {
        match self.elements.get_index(e) {
            None => None,
            Some((name, _)) => Some(name),
        }
    }

    /// The place of an element, counted from 0 in order of declaration, or None exactly where it is not declared.
    pub fn index_of(&self, name: &Name) -> Option<usize>
        ensures { result ≡ position (λ e. bytes_eq name.now e.0) self.now.elements }
    {
        self.elements.get_index_of(name)
    }

    /// The content of an element, or None exactly where it is not declared.
    pub fn content_of(&self, name: &Name) -> Option<&Content>
        ensures { option_copied result ≡ content_in self.now name.now }
    {
        match self.elements.get(name) {
            None => None,
            Some(declared) => Some(&declared.content),
        }
    }

    /// The automaton of an element's content, seen as the content, or None exactly where the element is not declared.
    pub fn automaton_of(&self, name: &Name) -> Option<&Automaton>
        ensures { option_copied result ≡ content_in self.now name.now }
    {
        match self.elements.get(name) {
            None => None,
            Some(declared) => Some(&declared.automaton),
        }
    }

    /// The content of an element with its automaton, seen as the content, or None exactly where the element is not declared.
    pub fn declared_of(&self, name: &Name) -> Option<(&Content, &Automaton)>
        ensures content { option_map (λ d. d.0.now) result ≡ content_in self.now name.now }
        ensures automaton { option_map (λ d. d.1.now) result ≡ content_in self.now name.now }
    {
        match self.elements.get(name) {
            None => None,
            Some(declared) => Some((&declared.content, &declared.automaton)),
        }
    }

    /// The attributes that are declared for an element, which itself may be declared or not, or None exactly where there
    /// are none.
    pub fn atts_of(&self, name: &Name) -> Option<&AttList>
        ensures { option_copied result ≡ list_in self.now name.now }
    {
        self.lists.get(name)
    }

    /// What a general entity stands for, or None exactly where it is not declared.
    pub fn entity_of(&self, name: &Name) -> Option<&EntityDef>
        ensures { option_copied result ≡ entity_in self.now name.now }
    {
        self.entities.get(name)
    }

    /// The k-th step at ANY: from state 0 one on each element.
    fn element_step(&self, state: u32, k: usize) -> Option<(&Name, u32)>
        ensures { option_map {U = List ℕ × ℕ} (λ s. (s.0.now, s.1)) result ≡ any_step self.now state k }
    {
        if state != 0 {
            return None;
        }
        match self.elements.get_index(k) {
            None => None,
            Some((name, _)) => Some((name, 0)),
        }
    }

    /// The k-th step, counted from 0, of a state of the element at a place: those of its automaton; at ANY one on each
    /// element of the set, in order, to state 0. None exactly where there is no such element, state or step.
    pub fn step_at(&self, e: usize, state: u32, k: usize) -> Option<(&Name, u32)>
        ensures told { TellsStepAt self.now (slice_get self.now.elements e) state k (option_map {U = List ℕ × ℕ} (λ s. (s.0.now, s.1)) result) }
        ensures value { option_map {U = List ℕ × ℕ} (λ s. (s.0.now, s.1)) result ≡ slice_get (steps_at self.now (slice_get self.now.elements e) state) k }
        ensures kept { IsKept self.now }
    {
        match self.elements.get_index(e) {
            None => None,
            Some((_, declared)) => match &declared.content {
                Content::Any => self.element_step(state, k),
                _ => step_within(&declared.automaton, state, k),
            },
        }
    }

    /// How many lists of attributes are declared. That a set keeps its constraints is known by this call, as by `count`.
    pub fn list_count(&self) -> usize
        ensures value { result ≡ length self.now.lists }
        ensures kept { IsKept self.now }
    {
        self.lists.len()
    }

    /// How many general entities are declared.
    pub fn entity_count(&self) -> usize
        ensures value { result ≡ length self.now.entities }
        ensures kept { IsKept self.now }
    {
        self.entities.len()
    }

    /// How many notations are declared.
    pub fn notation_count(&self) -> usize
        ensures value { result ≡ length self.now.notations }
        ensures kept { IsKept self.now }
    {
        self.notations.len()
    }

    /// The element and the attributes of the k-th list, counted from 0 in order of declaration, or None exactly where
    /// there is no such list.
    pub fn list_at(&self, k: usize) -> Option<(&Name, &AttList)>
        ensures { option_map (λ p. (p.0.now, p.1.now)) result ≡ slice_get self.now.lists k }
    {
        self.lists.get_index(k)
    }

    /// The name and the meaning of the k-th general entity, counted from 0 in order of declaration, or None exactly where
    /// there is no such entity.
    pub fn entity_at(&self, k: usize) -> Option<(&Name, &EntityDef)>
        ensures { option_map (λ p. (p.0.now, p.1.now)) result ≡ slice_get self.now.entities k }
    {
        self.entities.get_index(k)
    }

    /// The name and the identifiers of the k-th notation, counted from 0 in order of declaration, or None exactly where
    /// there is no such notation.
    pub fn notation_at(&self, k: usize) -> Option<(&Name, &Ids)>
        ensures { option_map (λ p. (p.0.now, p.1.now)) result ≡ slice_get self.now.notations k }
    {
        self.notations.get_index(k)
    }
}
