//! The least costs of a literal graph, with the numbers of looks and sums that they take.

ghost use Rattle.std.specs.Prelude.{◌≡◌, ◌↔◌, ◌+◌, ◌^◌, ◌<◌, ℕ, slice_get, IsTrue};
ghost use Rattle.tree_costs.specs.Costs.{sum as cost_sum};
ghost use Rattle.least_trees.specs.Plans.{IsPlan};
ghost use Rattle.least_trees.specs.Rules.{IsLess};
ghost use Rattle.layer_tests.specs.LiteralPlan.{literal_plan};
ghost use Rattle.layer_tests.specs.LiteralPlanned.{is_plan};

use jats_chars::NoMemory;
use least_trees::{StepGraph, least_counted};
use tree_costs::{Cost, at_most, sum};

/// Two elements of weights 2 and 3. The first has states 0 and 1, the second has state 0.
#[derive(Drop)]
struct LiteralGraph {
    looks: u64,
    sums: u64,
}

impl StepGraph for LiteralGraph {
    type Value = Cost;

    ghost plan = { λ g. literal_plan };

    ghost looks = { λ g. g.looks };

    ghost sums = { λ g. g.sums };

    ghost formed = { λ g. is_plan };

    fn count(&self) -> usize {
        2
    }

    fn states(&self, e: usize) -> u32 {
        match e {
            0 => 2,
            _ => 1,
        }
    }

    fn accepts(&self, e: usize, state: u32) -> bool {
        match (e, state) {
            (0, 0) => false,
            _ => true,
        }
    }

    fn look(&mut self, e: usize, state: u32, k: usize) -> Option<(Option<usize>, u32)> {
        self.looks += 1;
        match (e, state, k) {
            (0, 0, 0) => Some((None, 1)),
            (0, 0, 1) => Some((Some(0), 1)),
            (0, 0, 2) => Some((Some(1), 1)),
            (1, 0, 0) => Some((Some(0), 0)),
            _ => None,
        }
    }

    fn weight(&self, e: usize) -> Cost {
        match e {
            0 => Cost::Fin(2),
            _ => Cost::Fin(3),
        }
    }

    fn zero(&self) -> Cost {
        Cost::Fin(0)
    }

    fn inf(&self) -> Cost {
        Cost::Inf
    }

    fn sum(&mut self, left: Cost, right: Cost) -> Cost {
        self.sums += 1;
        sum(left, right, 100)
    }

    fn less(&self, left: Cost, right: Cost) -> bool {
        !at_most(right, left)
    }
}

// The looks are those at the three steps of the first state, and one past them: states that accept are not looked at. The sums
// are those of the second element, of the step on it, and of the first element: the step on the first comes too late for one.
#[test]
#[tactic(auto, unfolding(least_trees::specs::Plans::steps_in, least_trees::specs::Plans::states_in))]
fn least_costs_by_so_many_looks_and_sums(rt: HostRuntime) -> Result<(), NoMemory> {
    let mut graph = LiteralGraph { looks: 0, sums: 0 };
    let settled = least_counted(rt.alloc(), &mut graph)?;
    assert_eq!(rt; graph.looks, 4);
    assert_eq!(rt; graph.sums, 3);
    let rows = settled.rows.as_slice();
    assert_eq!(rt; rows.len(), 2);
    if let [first, second] = rows {
        assert_eq!(rt; first.m, Cost::Fin(5));
        assert!(rt; first.p.as_slice() == [Cost::Fin(3), Cost::Fin(0)].as_slice());
        assert_eq!(rt; second.m, Cost::Fin(3));
        assert!(rt; second.p.as_slice() == [Cost::Fin(0)].as_slice());
    }
    Ok(())
}
