//! Least costs of a graph.

ghost use Rattle.std.specs.Prelude.{◌≡◌, ◌+◌, ◌^◌, ◌<◌, ◌≤◌, length, map, IfOk};
ghost use Rattle.least_trees.specs.Plans.{states_in, steps_in};
ghost use Rattle.least_trees.specs.Rows.{AreExact, IsSettled};

use crate::board::board;
use crate::gather::gather;
use crate::graph::{StepGraph, Worth};
use crate::rules::Part;
use crate::solver::settle;
use crate::spots::{Spots, lay_out};
use crate::uses::list_uses;
use jats_chars::{ListOf, NoMemory};
use std::alloc::Global;

/// The values of an element: its own, and one for each of its states.
#[derive(Drop)]
pub struct SettledRow<V> {
    pub m: V,
    pub p: ListOf<V>,
}

/// A row for each element, in order.
#[derive(Drop)]
pub struct Settled<V> {
    pub rows: ListOf<SettledRow<V>>,
}

/// The least costs of the spots of a graph.
pub(crate) fn solve<G: StepGraph>(alloc: Global, graph: &mut G) -> Result<Spots<G::Value>, NoMemory>
    requires looks { G.looks graph.old + steps_in (G.plan graph.old) + states_in (G.plan graph.old) < 2 ^ 63 }
    requires sums { G.sums graph.old + steps_in (G.plan graph.old) + (G.plan graph.old).count < 2 ^ 63 }
    ensures exact { IfOk result (λ s. AreExact (G.plan graph.old) (map G.Value.cost s.values.items) s.firsts.items) }
    ensures same { G.plan graph.new ≡ G.plan graph.old }
    ensures looks { G.looks graph.new ≤ G.looks graph.old + steps_in (G.plan graph.old) + states_in (G.plan graph.old) }
    ensures sums { G.sums graph.new ≤ G.sums graph.old + steps_in (G.plan graph.old) + (G.plan graph.old).count }
{
    let mut spots = lay_out(alloc, graph)?;
    let count = spots.values.len();
    let rules = gather(alloc, graph, spots.firsts.as_slice(), count)?;
    let left = list_uses(alloc, count, rules.as_slice(), Part::Left)?;
    let right = list_uses(alloc, count, rules.as_slice(), Part::Right)?;
    let mut done = vec![in alloc; false; count]?;
    let mut winners = board(alloc, graph, done.as_slice(), spots.values.as_slice())?;
    settle(
        graph,
        rules.as_slice(),
        &left,
        &right,
        done.as_mut_slice(),
        spots.values.as_mut_slice(),
        winners.as_mut_slice(),
    );
    Ok(spots)
}
