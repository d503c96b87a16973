//! The graph of a comparison.

ghost use Rattle.std.specs.Prelude.{◌≡◌, IfOk, ◌≤◌, ◌<◌, ◌+◌, ℕ, IsTrue, ◌↔◌};
ghost use Rattle.tree_costs.specs.Costs.{sum as cost_sum};
ghost use Rattle.least_trees.specs.Plans.{IsPlan};
ghost use Rattle.least_trees.specs.Rules.{IsLess};
ghost use Rattle.comparison_tables.specs.Entries.{AreEntries, are_entries_prop};
ghost use Rattle.comparison_tables.specs.Plans.{plan_of};
ghost use Rattle.comparison_tables.specs.Shapes.{AreFine, are_fine_prop, is_plan_prop};
ghost use Rattle.comparison_tables.specs.Sides.{AreSides};

use crate::copies::{
    copy_accepts_of, copy_states_at, copy_step_at, own_accepts_at, own_states_at, own_step_at,
};
use crate::entries::{Entry, entries_of};
use crate::sides::Sides;
use crate::steps::Step;
use decl_set::DeclSet;
use jats_chars::NoMemory;
use least_trees::StepGraph;
use std::alloc::Global;
use tree_costs::{Cost, at_most, sum};

/// The graph of a comparison: the elements of the first set in order of declaration, with the states and steps of their
/// contents, then their copies, whose trees separate. Each weighs 1.
#[derive(Drop)]
pub(crate) struct ComparisonGraph<'a> {
    first: &'a DeclSet,
    second: &'a DeclSet,
    sides: &'a Sides,
    entries: Vec<Entry<'a>>,
    cap: u32,
    looks: u64,
    sums: u64,
    ghost small: { cap ≤ 100000 },
    ghost fine: { AreFine first.now.elements sides.now } by { are_fine_prop first.now.elements sides.now },
    ghost entered: { AreEntries first.now second.now sides.now entries.items } by { are_entries_prop first.now second.now sides.now entries.items },
    ghost planned: { IsPlan (plan_of first.now second.now sides.now cap) } by { is_plan_prop (plan_of first.now second.now sides.now cap) },
}

impl<'a> ComparisonGraph<'a> {
    /// The graph of a comparison. Nothing was looked at or added yet.
    pub(crate) fn new(
        alloc: Global,
        first: &'a DeclSet,
        second: &'a DeclSet,
        sides: &'a Sides,
        cap: u32,
    ) -> Result<ComparisonGraph<'a>, NoMemory>
        requires small { cap ≤ 100000 }
        requires sides { AreSides first.now second.now sides.now }
        ensures plan { IfOk result (λ g. ⟦<ComparisonGraph<'a> as StepGraph>⟧.plan g ≡ plan_of first.now second.now sides.now cap) }
        ensures looks { IfOk result (λ g. ⟦<ComparisonGraph<'a> as StepGraph>⟧.looks g ≡ 0) }
        ensures sums { IfOk result (λ g. ⟦<ComparisonGraph<'a> as StepGraph>⟧.sums g ≡ 0) }
    {
        let entries = entries_of(alloc, first, second, sides)?;
        Ok(ComparisonGraph {
            first,
            second,
            sides,
            entries,
            cap,
            looks: 0,
            sums: 0,
        })
    }
}

impl<'a> StepGraph for ComparisonGraph<'a> {
    type Value = Cost;

    ghost plan = { λ g. plan_of g.first.now g.second.now g.sides.now g.cap };

    ghost looks = { λ g. g.looks };

    ghost sums = { λ g. g.sums };

    ghost formed = { λ g. g.planned };

    fn count(&self) -> usize {
        2 * self.first.count()
    }

    fn states(&self, e: usize) -> u32 {
        let own = self.first.count();
        if e < own {
            own_states_at(self.first, e)
        } else {
            copy_states_at(
                self.first,
                self.second,
                self.sides,
                self.entries.as_slice(),
                e - own,
            )
        }
    }

    fn accepts(&self, e: usize, state: u32) -> bool {
        let own = self.first.count();
        if e < own {
            own_accepts_at(self.first, e, state)
        } else {
            copy_accepts_of(
                self.first,
                self.second,
                self.sides,
                self.entries.as_slice(),
                e - own,
                state,
            )
        }
    }

    fn look(&mut self, e: usize, state: u32, k: usize) -> Option<Step> {
        self.looks += 1;
        let own = self.first.count();
        if e < own {
            own_step_at(self.first, e, state, k)
        } else {
            copy_step_at(
                self.first,
                self.second,
                self.sides,
                self.entries.as_slice(),
                e - own,
                state,
                k,
            )
        }
    }

    fn weight(&self, _e: usize) -> Cost {
        Cost::Fin(1)
    }

    fn zero(&self) -> Cost {
        Cost::Fin(0)
    }

    fn inf(&self) -> Cost {
        Cost::Inf
    }

    fn sum(&mut self, left: Cost, right: Cost) -> Cost {
        self.sums += 1;
        sum(left, right, self.cap)
    }

    fn less(&self, left: Cost, right: Cost) -> bool {
        !at_most(right, left)
    }
}
