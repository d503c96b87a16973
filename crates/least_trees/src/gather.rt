//! The rules of a graph. Each step is looked at once.

ghost use Rattle.std.specs.Prelude.{◌≡◌, ◌+◌, ◌++◌, ◌∷◌, [], ◌^◌, ◌<◌, ◌≤◌, length, IfOk, OnOk, IfSome, slice_index};
ghost use Rattle.least_trees.specs.Plans.{states_in, steps_in, steps_within};
ghost use Rattle.least_trees.specs.Spots.{base, first_spots, step_rules, rules_of_steps, state_rules, rules_within, top_rule, all_rules};

use crate::graph::StepGraph;
use crate::rules::Rule;
use jats_chars::NoMemory;
use std::alloc::Global;

fn push_step(
    rules: &mut Vec<Rule>,
    count: usize,
    first: usize,
    state: u32,
    inner: Option<usize>,
    next: u32,
) -> Result<(), NoMemory>
    requires state { first + state < 2 ^ 32 }
    requires next { first + next < 2 ^ 32 }
    requires inner { IfSome inner (λ x. count + x < 2 ^ 32) }
    ensures { OnOk result (rules.new.items ≡ rules.old.items ++ step_rules count first state (inner, next)) }
{
    if let Some(x) = inner {
        rules.push(Rule {
            target: (first + state as usize) as u32,
            left: (count + x) as u32,
            right: (first + next as usize) as u32,
        })?;
    }
    Ok(())
}

/// Appends the rules of a state's steps, and looks once at each step and once past the last.
fn gather_steps<G: StepGraph>(
    graph: &mut G,
    e: usize,
    state: u32,
    count: usize,
    first: usize,
    rules: &mut Vec<Rule>,
) -> Result<(), NoMemory>
    requires element { e < (G.plan graph.old).count }
    requires state { state < (G.plan graph.old).states e }
    requires first { first + (G.plan graph.old).states e < 2 ^ 32 }
    requires count { count + (G.plan graph.old).count < 2 ^ 32 }
    requires room { G.looks graph.old + length ((G.plan graph.old).numbers.steps e state) + 1 < 2 ^ 63 }
    ensures rules { OnOk result (rules.new.items ≡ rules.old.items ++ rules_of_steps count first state ((G.plan graph.old).numbers.steps e state)) }
    ensures same { G.plan graph.new ≡ G.plan graph.old }
    ensures looks { G.looks graph.new ≤ G.looks graph.old + length ((G.plan graph.old).numbers.steps e state) + 1 }
    ensures sums { G.sums graph.new ≡ G.sums graph.old }
{
    let mut k: usize = 0;
    while let Some((inner, next)) = graph.look(e, state, k) {
        push_step(rules, count, first, state, inner, next)?;
        k += 1;
    }
    Ok(())
}

/// Appends the rules of a state: none where it accepts, since it costs 0 then.
fn gather_state<G: StepGraph>(
    graph: &mut G,
    e: usize,
    state: u32,
    count: usize,
    first: usize,
    rules: &mut Vec<Rule>,
) -> Result<(), NoMemory>
    requires element { e < (G.plan graph.old).count }
    requires state { state < (G.plan graph.old).states e }
    requires first { first ≡ base (G.plan graph.old) e }
    requires small { first + (G.plan graph.old).states e < 2 ^ 32 }
    requires count { count ≡ (G.plan graph.old).count }
    requires few { count + count < 2 ^ 32 }
    requires room { G.looks graph.old + length ((G.plan graph.old).numbers.steps e state) + 1 < 2 ^ 63 }
    ensures rules { OnOk result (rules.new.items ≡ rules.old.items ++ state_rules (G.plan graph.old) e state) }
    ensures same { G.plan graph.new ≡ G.plan graph.old }
    ensures looks { G.looks graph.new ≤ G.looks graph.old + length ((G.plan graph.old).numbers.steps e state) + 1 }
    ensures sums { G.sums graph.new ≡ G.sums graph.old }
{
    if graph.accepts(e, state) {
        return Ok(());
    }
    gather_steps(graph, e, state, count, first, rules)
}

/// Appends the rules of an element's states.
fn gather_states<G: StepGraph>(
    graph: &mut G,
    e: usize,
    count: usize,
    first: usize,
    rules: &mut Vec<Rule>,
) -> Result<(), NoMemory>
    requires element { e < (G.plan graph.old).count }
    requires first { first ≡ base (G.plan graph.old) e }
    requires small { first + (G.plan graph.old).states e < 2 ^ 32 }
    requires count { count ≡ (G.plan graph.old).count }
    requires few { count + count < 2 ^ 32 }
    requires room { G.looks graph.old + steps_within (G.plan graph.old) e ((G.plan graph.old).states e) + (G.plan graph.old).states e < 2 ^ 63 }
    ensures rules { OnOk result (rules.new.items ≡ rules.old.items ++ rules_within (G.plan graph.old) e ((G.plan graph.old).states e)) }
    ensures same { G.plan graph.new ≡ G.plan graph.old }
    ensures looks { G.looks graph.new ≤ G.looks graph.old + steps_within (G.plan graph.old) e ((G.plan graph.old).states e) + (G.plan graph.old).states e }
    ensures sums { G.sums graph.new ≡ G.sums graph.old }
{
    let states = graph.states(e);
    for state in 0..states {
        gather_state(graph, e, state, count, first, rules)?;
    }
    Ok(())
}

pub(crate) fn first_at(firsts: &[usize], e: usize) -> usize
    requires { e < length firsts.now }
    ensures { result ≡ slice_index firsts.now e }
{
    firsts[e]
}

/// The rules of a graph.
pub(crate) fn gather<G: StepGraph>(
    alloc: Global,
    graph: &mut G,
    firsts: &[usize],
    spots: usize,
) -> Result<Vec<Rule>, NoMemory>
    requires firsts { firsts.now ≡ first_spots (G.plan graph.old) (G.plan graph.old).count }
    requires spots { spots ≡ base (G.plan graph.old) (G.plan graph.old).count }
    requires few { spots < 2 ^ 32 }
    requires room { G.looks graph.old + steps_in (G.plan graph.old) + states_in (G.plan graph.old) < 2 ^ 63 }
    ensures rules { IfOk result (λ v. v.items ≡ all_rules (G.plan graph.old)) }
    ensures same { G.plan graph.new ≡ G.plan graph.old }
    ensures looks { G.looks graph.new ≤ G.looks graph.old + steps_in (G.plan graph.old) + states_in (G.plan graph.old) }
    ensures sums { G.sums graph.new ≡ G.sums graph.old }
{
    let count = graph.count();
    let mut rules = Vec::new(alloc);
    for e in 0..count {
        let first = first_at(firsts, e);
        rules.push(Rule {
            target: (count + e) as u32,
            left: e as u32,
            right: first as u32,
        })?;
        gather_states(graph, e, count, first, &mut rules)?;
    }
    Ok(rules)
}
