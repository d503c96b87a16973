//! An element in turn, with its row held.

ghost use Rattle.std.specs.Prelude.{◌≡◌, option_and_then, slice_get};
ghost use Rattle.std.specs.Option.{option_copied, option_map_or};
ghost use Rattle.tree_costs.specs.declared.cost.Cost.TheVariants.{Inf};

use crate::near::{cost_near, listed_cost};
use crate::{Row, Tables};
use decl_set::DeclSet;
use jats_chars::Name;
use position_automata::Automaton;
use tree_costs::Cost;

/// An element of the first set at its place, with its automaton and its row.
#[derive(Clone, Copy)]
pub struct Held<'a> {
    pub first: &'a DeclSet,
    pub second: &'a DeclSet,
    pub tables: &'a Tables,
    pub place: usize,
    pub name: &'a Name,
    pub automaton: &'a Automaton,
    pub row: &'a Row,
}

/// What m says of a name: none where it has no row.
pub(crate) fn m_in(row: Option<&Row>) -> Cost
    ensures { result ≡ option_map_or (λ row. row.m) (option_copied row.entry) Inf }
{
    match row {
        None => Cost::Inf,
        Some(row) => row.m,
    }
}

/// What v says of a name: none where it has no row.
pub(crate) fn v_in(row: Option<&Row>) -> Cost
    ensures { result ≡ option_map_or (λ row. row.v) (option_copied row.entry) Inf }
{
    match row {
        None => Cost::Inf,
        Some(row) => row.v,
    }
}

/// The row of the element at a place, where there is one.
pub(crate) fn row_at(tables: &Tables, child: Option<usize>) -> Option<&Row>
    ensures { option_copied result ≡ option_and_then (slice_get tables.now.rows) child }
{
    match child {
        None => None,
        Some(at) => tables.rows.get(at),
    }
}

impl<'a> Held<'a> {
    ghost use Rattle.std.specs.Prelude.{ℕ, IfSome, option_map};
    ghost use Rattle.content_models.specs.Model.{Chars};
    ghost use Rattle.decl_set.specs.Children.{place_in};
    ghost use Rattle.decl_set.specs.Steps.{steps_in};
    ghost use Rattle.bound_checker.specs.Holding.{IsHeld, costs_in};

    /// What P says of a state.
    pub(crate) fn p(&self, state: u32) -> Cost
        requires { IsHeld self.now }
        ensures { result ≡ (costs_in self.now).p self.now.name.now state }
    {
        match self.row.states.get(state as usize) {
            None => Cost::Inf,
            Some(costs) => costs.p,
        }
    }

    /// What F says of a state.
    pub(crate) fn f(&self, state: u32) -> Cost
        requires { IsHeld self.now }
        ensures { result ≡ (costs_in self.now).f self.now.name.now state }
    {
        match self.row.states.get(state as usize) {
            None => Cost::Inf,
            Some(costs) => costs.f,
        }
    }

    /// What G says of a pair: 0 where it is not listed.
    pub(crate) fn g(&self, i: u32, j: u32) -> Cost
        requires { IsHeld self.now }
        ensures { result ≡ (costs_in self.now).g self.now.name.now i j }
    {
        match listed_cost(self.row.pairs.as_slice(), i, j) {
            None => Cost::Fin(0),
            Some(g) => g,
        }
    }

    /// The same, where the pair is first sought at a place. The second is the place at which to seek the next one.
    pub(crate) fn g_near(&self, i: u32, j: u32, at: usize) -> (Cost, usize)
        requires { IsHeld self.now }
        ensures { result.0 ≡ (costs_in self.now).g self.now.name.now i j }
    {
        match cost_near(self.row.pairs.as_slice(), i, j, at) {
            (None, next) => (Cost::Fin(0), next),
            (Some(g), next) => (g, next),
        }
    }

    /// A step of a state: its name, the place of its element, or None where that is not declared, and the state that it leads
    /// to. None exactly where there is no such step.
    pub(crate) fn step(&self, state: u32, k: usize) -> Option<(&'a Name, Option<usize>, u32)>
        requires { IsHeld self.now }
        ensures step { option_map {U = Chars × ℕ} (λ s. (s.0.now, s.2)) result ≡ slice_get (steps_in self.now.first.now self.now.automaton.now state) k }
        ensures child { IfSome result (λ s. s.1 ≡ place_in self.now.first.now.elements s.0.now) }
    {
        match self.first.child_at(self.place, state, k) {
            None => None,
            Some((Some(child), to)) => match self.first.name_at(child) {
                None => None,
                Some(name) => Some((name, Some(child), to)),
            },
            Some((None, _)) => match self.first.step_at(self.place, state, k) {
                None => None,
                Some((name, to)) => Some((name, None, to)),
            },
        }
    }

    /// What m says of the element.
    pub(crate) fn m(&self) -> Cost
        requires { IsHeld self.now }
        ensures { result ≡ (costs_in self.now).m self.now.name.now }
    {
        self.row.m
    }

    /// What v says of the element.
    pub(crate) fn v(&self) -> Cost
        requires { IsHeld self.now }
        ensures { result ≡ (costs_in self.now).v self.now.name.now }
    {
        self.row.v
    }
}
