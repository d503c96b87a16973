//! What a settled spot lowers.

ghost use Rattle.std.specs.Prelude.{◌≡◌, ◌+◌, ◌-◌, ◌^◌, ◌<◌, ◌≤◌, [], ◌∷◌, length, map};
ghost use Rattle.least_trees.specs.Board.{IsWhole};
ghost use Rattle.least_trees.specs.Uses.{AreUses, visited, all_visited};
ghost use Rattle.least_trees.specs.Rules.{InRange, AllIn, relaxed, applied, lower_all};
ghost use Rattle.least_trees.specs.declared.rules.Part.TheVariants.{Left, Right};

use crate::board::replay;
use crate::graph::{StepGraph, Worth};
use crate::rules::{Part, Rule, rule_applies};
use crate::uses::Uses;

/// Lowers the cost of the rule's target to the sum of its parts.
fn relax<G: StepGraph>(
    graph: &mut G,
    rule: Rule,
    done: &[bool],
    values: &mut [G::Value],
    winners: &mut [usize],
)
    requires range { InRange (length values.old) rule }
    requires lengths { length done.now ≡ length values.old }
    requires board { IsWhole done.now (map G.Value.cost values.old) winners.old }
    requires room { G.sums graph.old < 2 ^ 63 }
    ensures value { map G.Value.cost values.new ≡ relaxed (G.plan graph.old).numbers.cap rule (map G.Value.cost values.old) }
    ensures board { IsWhole done.now (map G.Value.cost values.new) winners.new }
    ensures same { G.plan graph.new ≡ G.plan graph.old }
    ensures looks { G.looks graph.new ≡ G.looks graph.old }
    ensures sums { G.sums graph.new ≡ G.sums graph.old + 1 }
{
    let target = rule.target as usize;
    let sum = graph.sum(values[rule.left as usize], values[rule.right as usize]);
    if graph.less(sum, values[target]) {
        values[target] = sum;
        replay(graph, done, values, winners, target);
    }
}

/// Lowers what one rule lowers, where it applies.
fn visit<G: StepGraph>(
    graph: &mut G,
    rule: Rule,
    done: &[bool],
    x: usize,
    values: &mut [G::Value],
    winners: &mut [usize],
)
    requires range { InRange (length values.old) rule }
    requires lengths { length done.now ≡ length values.old }
    requires board { IsWhole done.now (map G.Value.cost values.old) winners.old }
    requires room { G.sums graph.old + applied done.now x (rule ∷ []) < 2 ^ 63 }
    ensures value { map G.Value.cost values.new ≡ lower_all (G.plan graph.old).numbers.cap done.now x (rule ∷ []) (map G.Value.cost values.old) }
    ensures board { IsWhole done.now (map G.Value.cost values.new) winners.new }
    ensures same { G.plan graph.new ≡ G.plan graph.old }
    ensures looks { G.looks graph.new ≡ G.looks graph.old }
    ensures sums { G.sums graph.new ≡ G.sums graph.old + applied done.now x (rule ∷ []) }
{
    if rule_applies(rule, done, x) {
        relax(graph, rule, done, values, winners);
    }
}

/// Lowers what the sums with x as this part lower.
fn lower_along<G: StepGraph>(
    graph: &mut G,
    rules: &[Rule],
    uses: &Uses,
    part: Part,
    done: &[bool],
    x: usize,
    values: &mut [G::Value],
    winners: &mut [usize],
)
    requires range { AllIn (length values.old) rules.now }
    requires listed { AreUses (length values.old) part rules.now uses.now }
    requires spot { x < length values.old }
    requires lengths { length done.now ≡ length values.old }
    requires board { IsWhole done.now (map G.Value.cost values.old) winners.old }
    requires room { G.sums graph.old + applied done.now x (visited part rules.now x (length rules.now)) < 2 ^ 63 }
    ensures value { map G.Value.cost values.new ≡ lower_all (G.plan graph.old).numbers.cap done.now x (visited part rules.now x (length rules.now)) (map G.Value.cost values.old) }
    ensures board { IsWhole done.now (map G.Value.cost values.new) winners.new }
    ensures same { G.plan graph.new ≡ G.plan graph.old }
    ensures looks { G.looks graph.new ≡ G.looks graph.old }
    ensures sums { G.sums graph.new ≡ G.sums graph.old + applied done.now x (visited part rules.now x (length rules.now)) }
{
    let _ = rules;
    let mut at = uses.start(x);
    let end = uses.start(x + 1);
    while at < end {
        visit(graph, uses.rule(part, x, at), done, x, values, winners);
        at += 1;
    }
}

/// Lowers what the sums with x as a part lower.
pub(crate) fn lower<G: StepGraph>(
    graph: &mut G,
    rules: &[Rule],
    left: &Uses,
    right: &Uses,
    done: &[bool],
    x: usize,
    values: &mut [G::Value],
    winners: &mut [usize],
)
    requires range { AllIn (length values.old) rules.now }
    requires left { AreUses (length values.old) Left rules.now left.now }
    requires right { AreUses (length values.old) Right rules.now right.now }
    requires spot { x < length values.old }
    requires lengths { length done.now ≡ length values.old }
    requires board { IsWhole done.now (map G.Value.cost values.old) winners.old }
    requires room { G.sums graph.old + applied done.now x (all_visited rules.now x) < 2 ^ 63 }
    ensures value { map G.Value.cost values.new ≡ lower_all (G.plan graph.old).numbers.cap done.now x (all_visited rules.now x) (map G.Value.cost values.old) }
    ensures board { IsWhole done.now (map G.Value.cost values.new) winners.new }
    ensures same { G.plan graph.new ≡ G.plan graph.old }
    ensures looks { G.looks graph.new ≡ G.looks graph.old }
    ensures sums { G.sums graph.new ≡ G.sums graph.old + applied done.now x (all_visited rules.now x) }
{
    lower_along(graph, rules, left, Part::Left, done, x, values, winners);
    lower_along(graph, rules, right, Part::Right, done, x, values, winners);
}
