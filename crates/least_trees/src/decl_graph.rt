//! A set of declarations as a graph of steps.

ghost use Rattle.std.specs.Prelude.{◌≡◌, ◌≤◌, ◌<◌, ◌+◌, ℕ, List, map, option_map, slice_get, Option, IsTrue, ◌↔◌};
ghost use Rattle.std.specs.Option.{option_copied};
ghost use Rattle.decl_set.specs.Declarations.{Declarations};
ghost use Rattle.decl_set.specs.Steps.{steps_at};
ghost use Rattle.tree_costs.specs.Costs.{sum as cost_sum};
ghost use Rattle.tree_costs.specs.Leasts.{place_of};
ghost use Rattle.least_trees.specs.SetPlanned.{is_plan};
ghost use Rattle.least_trees.specs.Rules.{IsLess};
ghost use Rattle.least_trees.specs.SetPlans.{plan_of};

use crate::graph::{StepGraph, Worth};
use decl_set::DeclSet;
use position_automata::Automaton;
use tree_costs::{Cost, at_most, sum};

impl Worth for Cost {
    ghost cost = { λ c. c };
}

/// The graph of a set: its elements in order of declaration, each of weight 1, with the states and steps of their contents.
#[derive(Drop)]
pub struct DeclGraph<'a> {
    set: &'a DeclSet,
    cap: u32,
    looks: u64,
    sums: u64,
    ghost small: { cap ≤ 100000 },
}

/// The automaton of the element at a place.
fn automaton_at(set: &DeclSet, e: usize) -> Option<&Automaton>
    ensures { option_copied result ≡ option_map (λ x. x.1) (slice_get set.now.elements e) }
{
    let _ = set.count();
    match set.name_at(e) {
        None => None,
        Some(name) => set.automaton_of(name),
    }
}

/// The k-th step of a state of the element at a place, with the place of the step's element.
fn child_step(set: &DeclSet, e: usize, state: u32, k: usize) -> Option<(Option<usize>, u32)>
    ensures { result ≡ slice_get (map (λ s. (place_of set.now s.0, s.1)) (steps_at set.now (slice_get set.now.elements e) state)) k }
{
    set.child_at(e, state, k)
}

impl<'a> DeclGraph<'a> {
    /// The graph of a set. It takes no memory; nothing was looked at or added yet.
    pub fn new(set: &'a DeclSet, cap: u32) -> DeclGraph<'a>
        requires { cap ≤ 100000 }
        ensures plan { ⟦<DeclGraph<'a> as StepGraph>⟧.plan result ≡ plan_of set.now cap }
        ensures looks { ⟦<DeclGraph<'a> as StepGraph>⟧.looks result ≡ 0 }
        ensures sums { ⟦<DeclGraph<'a> as StepGraph>⟧.sums result ≡ 0 }
    {
        DeclGraph {
            set,
            cap,
            looks: 0,
            sums: 0,
        }
    }
}

impl<'a> StepGraph for DeclGraph<'a> {
    type Value = Cost;

    ghost plan = { λ g. plan_of g.set.now g.cap };

    ghost looks = { λ g. g.looks };

    ghost sums = { λ g. g.sums };

    ghost formed = { λ g. is_plan g.set.now g.cap g.small };

    fn count(&self) -> usize {
        self.set.count()
    }

    fn states(&self, e: usize) -> u32 {
        match automaton_at(self.set, e) {
            None => 0,
            Some(automaton) => automaton.states(),
        }
    }

    fn accepts(&self, e: usize, state: u32) -> bool {
        match automaton_at(self.set, e) {
            None => false,
            Some(automaton) => state < automaton.states() && automaton.accepts_at(state),
        }
    }

    fn look(&mut self, e: usize, state: u32, k: usize) -> Option<(Option<usize>, u32)> {
        self.looks += 1;
        child_step(self.set, e, state, k)
    }

    fn weight(&self, _e: usize) -> Cost {
        Cost::Fin(1)
    }

    fn zero(&self) -> Cost {
        Cost::Fin(0)
    }

    fn inf(&self) -> Cost {
        Cost::Inf
    }

    fn sum(&mut self, left: Cost, right: Cost) -> Cost {
        self.sums += 1;
        sum(left, right, self.cap)
    }

    fn less(&self, left: Cost, right: Cost) -> bool {
        !at_most(right, left)
    }
}
