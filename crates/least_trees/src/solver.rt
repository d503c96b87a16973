//! The solver: each spot is settled once, the one with the smallest cost first.

ghost use Rattle.std.specs.Prelude.{◌≡◌, ◌+◌, ◌^◌, ◌<◌, ◌≤◌, length, map, slice_set, Some, true};
ghost use Rattle.least_trees.specs.Board.{IsWhole, IsNext};
ghost use Rattle.least_trees.specs.Uses.{AreUses, all_visited};
ghost use Rattle.least_trees.specs.Rules.{AllIn, applied, lower_all};
ghost use Rattle.least_trees.specs.Solving.{IsLowest, AllSmall, NoneDone};
ghost use Rattle.least_trees.specs.declared.rules.Part.TheVariants.{Left, Right};

use crate::board::{next, replay};
use crate::graph::{StepGraph, Worth};
use crate::lowering::lower;
use crate::rules::Rule;
use crate::uses::Uses;

/// Settles a spot and lowers what it lowers.
fn settle_one<G: StepGraph>(
    graph: &mut G,
    rules: &[Rule],
    left: &Uses,
    right: &Uses,
    x: usize,
    done: &mut [bool],
    values: &mut [G::Value],
    winners: &mut [usize],
)
    requires range { AllIn (length values.old) rules.now }
    requires left { AreUses (length values.old) Left rules.now left.now }
    requires right { AreUses (length values.old) Right rules.now right.now }
    requires lengths { length done.old ≡ length values.old }
    requires spot { x < length done.old }
    requires board { IsWhole done.old (map G.Value.cost values.old) winners.old }
    requires room { G.sums graph.old + applied (slice_set done.old x true) x (all_visited rules.now x) < 2 ^ 63 }
    ensures done { done.new ≡ slice_set done.old x true }
    ensures value { map G.Value.cost values.new ≡ lower_all (G.plan graph.old).numbers.cap (slice_set done.old x true) x (all_visited rules.now x) (map G.Value.cost values.old) }
    ensures board { IsWhole (slice_set done.old x true) (map G.Value.cost values.new) winners.new }
    ensures same { G.plan graph.new ≡ G.plan graph.old }
    ensures looks { G.looks graph.new ≡ G.looks graph.old }
    ensures sums { G.sums graph.new ≡ G.sums graph.old + applied (slice_set done.old x true) x (all_visited rules.now x) }
{
    done[x] = true;
    replay(graph, done, values, winners, x);
    lower(graph, rules, left, right, done, x, values, winners);
}

/// Settles each spot once, the one with the smallest cost first.
pub(crate) fn settle<G: StepGraph>(
    graph: &mut G,
    rules: &[Rule],
    left: &Uses,
    right: &Uses,
    done: &mut [bool],
    values: &mut [G::Value],
    winners: &mut [usize],
)
    requires range { AllIn (length values.old) rules.now }
    requires left { AreUses (length values.old) Left rules.now left.now }
    requires right { AreUses (length values.old) Right rules.now right.now }
    requires lengths { length done.old ≡ length values.old }
    requires none { NoneDone done.old }
    requires small { AllSmall (G.plan graph.old).numbers.cap (map G.Value.cost values.old) }
    requires board { IsWhole done.old (map G.Value.cost values.old) winners.old }
    requires room { G.sums graph.old + length rules.now < 2 ^ 63 }
    ensures lowest { IsLowest (G.plan graph.old).numbers.cap rules.now (map G.Value.cost values.old) (map G.Value.cost values.new) }
    ensures same { G.plan graph.new ≡ G.plan graph.old }
    ensures looks { G.looks graph.new ≡ G.looks graph.old }
    ensures sums { G.sums graph.new ≤ G.sums graph.old + length rules.now }
{
    while let Some(x) = next(graph, done, values, winners) {
        settle_one(graph, rules, left, right, x, done, values, winners);
    }
}
