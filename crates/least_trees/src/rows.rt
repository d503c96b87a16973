//! Rows of settled values.

ghost use Rattle.std.specs.Prelude.{◌≡◌, ◌+◌, ◌≤◌, ◌<◌, ◌^◌, length, map, IfOk};
ghost use Rattle.least_trees.specs.Plans.{states_in, steps_in};
ghost use Rattle.least_trees.specs.Rows.{AreExact, IsSettled, IsCut};

use crate::gather::first_at;
use crate::graph::{StepGraph, Worth};
use crate::settled::{Settled, SettledRow, solve};
use crate::spots::Spots;
use jats_chars::{ListOf, NoMemory};
use std::alloc::Global;

/// The value at a place, and those of a range.
pub(crate) fn cut_out<V: Worth>(
    alloc: Global,
    values: &[V],
    at: usize,
    first: usize,
    count: usize,
) -> Result<SettledRow<V>, NoMemory>
    requires at { at < length values.now }
    requires range { first + count ≤ length values.now }
    ensures { IfOk result (λ row. IsCut values.now at first count row.m row.p) }
{
    let m = values[at];
    let p = Vec::from_slice(alloc, &values[first..first + count])?;
    Ok(SettledRow {
        m,
        p: ListOf::from_vec(p),
    })
}

/// The rows of a graph that is solved.
pub(crate) fn rows_of<G: StepGraph>(
    alloc: Global,
    graph: &G,
    spots: &Spots<G::Value>,
) -> Result<ListOf<SettledRow<G::Value>>, NoMemory>
    requires { AreExact (G.plan graph.now) (map G.Value.cost spots.now.values.items) spots.now.firsts.items }
    ensures { IfOk result (λ rows. IsSettled (G.plan graph.now) G.Value.cost rows) }
{
    let values = spots.values.as_slice();
    let firsts = spots.firsts.as_slice();
    let count = graph.count();
    let mut rows = ListOf::new(alloc);
    for e in 0..count {
        let states = graph.states(e) as usize;
        let first = first_at(firsts, e);
        let row = cut_out(alloc, values, count + e, first, states)?;
        rows.push(row)?;
    }
    Ok(rows)
}

/// The least costs of a graph: values that stand for the least weight of a tree of each element, and for the least sum of
/// these along the steps from each state to one that accepts, cut at one above the cap. Each state is settled once, the one
/// with the smallest cost first; each step is looked at once at most, and its sum taken once at most, whatever is answered.
pub fn least_counted<G: StepGraph>(
    alloc: Global,
    graph: &mut G,
) -> Result<Settled<G::Value>, NoMemory>
    requires looks { G.looks graph.old + steps_in (G.plan graph.old) + states_in (G.plan graph.old) < 2 ^ 63 }
    requires sums { G.sums graph.old + steps_in (G.plan graph.old) + (G.plan graph.old).count < 2 ^ 63 }
    ensures exact { IfOk result (λ it. IsSettled (G.plan graph.old) G.Value.cost it.rows) }
    ensures same { G.plan graph.new ≡ G.plan graph.old }
    ensures looks { G.looks graph.new ≤ G.looks graph.old + steps_in (G.plan graph.old) + states_in (G.plan graph.old) }
    ensures sums { G.sums graph.new ≤ G.sums graph.old + steps_in (G.plan graph.old) + (G.plan graph.old).count }
{
    let spots = solve(alloc, graph)?;
    let rows = rows_of(alloc, graph, &spots)?;
    Ok(Settled { rows })
}
