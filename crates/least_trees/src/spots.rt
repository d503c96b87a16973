//! The spots of a graph, with the costs that they begin with.

ghost use Rattle.std.specs.Prelude.{◌≡◌, ◌+◌, ◌++◌, ◌∷◌, [], ◌<◌, ◌^◌, length, map, IfOk, OnOk};
ghost use Rattle.tree_costs.specs.declared.cost.Cost.TheVariants.{Inf};
ghost use Rattle.least_trees.specs.Spots.{weight_starts, top_starts, state_starts, element_starts, start_of, first_spots, IsSpots};

use crate::graph::{StepGraph, Worth};
use jats_chars::NoMemory;
use std::alloc::Global;

/// The values of the spots, and the spot of state 0 of each element.
#[derive(Drop)]
pub(crate) struct Spots<V: Worth> {
    pub values: Vec<V>,
    pub firsts: Vec<usize>,
}

fn push_weights<G: StepGraph>(graph: &G, values: &mut Vec<G::Value>) -> Result<(), NoMemory>
    ensures { OnOk result (map G.Value.cost values.new.items ≡ map G.Value.cost values.old.items ++ weight_starts (G.plan graph.now) (G.plan graph.now).count) }
{
    let count = graph.count();
    for e in 0..count {
        values.push(graph.weight(e))?;
    }
    Ok(())
}

fn push_tops<G: StepGraph>(graph: &G, values: &mut Vec<G::Value>) -> Result<(), NoMemory>
    ensures { OnOk result (map G.Value.cost values.new.items ≡ map G.Value.cost values.old.items ++ top_starts (G.plan graph.now).count) }
{
    let count = graph.count();
    for e in 0..count {
        let _ = e;
        values.push(graph.inf())?;
    }
    Ok(())
}

fn start_value<G: StepGraph>(graph: &G, e: usize, state: u32) -> G::Value
    requires element { e < (G.plan graph.now).count }
    requires state { state < (G.plan graph.now).states e }
    ensures { G.Value.cost result ≡ start_of (G.plan graph.now) e state }
{
    if graph.accepts(e, state) {
        graph.zero()
    } else {
        graph.inf()
    }
}

fn push_states<G: StepGraph>(
    graph: &G,
    e: usize,
    values: &mut Vec<G::Value>,
) -> Result<(), NoMemory>
    requires { e < (G.plan graph.now).count }
    ensures { OnOk result (map G.Value.cost values.new.items ≡ map G.Value.cost values.old.items ++ state_starts (G.plan graph.now) e ((G.plan graph.now).states e)) }
{
    let states = graph.states(e);
    for state in 0..states {
        values.push(start_value(graph, e, state))?;
    }
    Ok(())
}

fn push_elements<G: StepGraph>(
    graph: &G,
    values: &mut Vec<G::Value>,
    bases: &mut Vec<usize>,
) -> Result<(), NoMemory>
    requires { length values.old.items ≡ (G.plan graph.now).count + (G.plan graph.now).count }
    ensures values { OnOk result (map G.Value.cost values.new.items ≡ map G.Value.cost values.old.items ++ element_starts (G.plan graph.now) (G.plan graph.now).count) }
    ensures bases { OnOk result (bases.new.items ≡ bases.old.items ++ first_spots (G.plan graph.now) (G.plan graph.now).count) }
{
    let count = graph.count();
    for e in 0..count {
        let first = values.len();
        bases.push(first)?;
        push_states(graph, e, values)?;
    }
    Ok(())
}

/// The spots of a graph. Where their numbers do not fit 32 bits, memory is said to run out.
pub(crate) fn lay_out<G: StepGraph>(alloc: Global, graph: &G) -> Result<Spots<G::Value>, NoMemory>
    ensures few { IfOk result (λ s. length s.values.items < 2 ^ 32) }
    ensures spots { IfOk result (λ s. IsSpots (G.plan graph.now) (map G.Value.cost s.values.items) s.firsts.items) }
{
    let mut values = Vec::new(alloc);
    push_weights(graph, &mut values)?;
    push_tops(graph, &mut values)?;
    let mut firsts = Vec::new(alloc);
    push_elements(graph, &mut values, &mut firsts)?;
    if values.len() > u32::MAX as usize {
        return Err(NoMemory);
    }
    Ok(Spots { values, firsts })
}
