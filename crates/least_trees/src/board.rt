//! The board: which spot is settled next.

ghost use Rattle.std.specs.Prelude.{◌≡◌, ◌≤◌, ◌<◌, ◌+◌, ◌*◌, length, map, IfOk, slice_index};
ghost use Rattle.least_trees.specs.Board.{Wins, Plays, IsBlank, IsWhole, IsWholeFrom, IsWholeBut, IsNext};

use crate::graph::{StepGraph, Worth};
use jats_chars::NoMemory;
use std::alloc::Global;

/// Which of two spots is settled first: one that is not settled before one that is, and the cheaper of two that are not.
fn winner<G: StepGraph>(graph: &G, done: &[bool], values: &[G::Value], a: usize, b: usize) -> usize
    requires lengths { length done.now ≡ length values.now }
    requires left { a < length done.now }
    requires right { b < length done.now }
    ensures { Wins done.now (map G.Value.cost values.now) a b result }
{
    if done[a] {
        return b;
    }
    if done[b] {
        return a;
    }
    if graph.less(values[b], values[a]) {
        b
    } else {
        a
    }
}

/// Fills one place of the board from the two below it.
fn play<G: StepGraph>(
    graph: &G,
    done: &[bool],
    values: &[G::Value],
    winners: &mut [usize],
    at: usize,
)
    requires lengths { length done.now ≡ length values.now }
    requires size { length winners.old ≡ length done.now + length done.now }
    requires above { at < length done.now }
    requires left { slice_index winners.old (2 * at) < length done.now }
    requires right { slice_index winners.old (2 * at + 1) < length done.now }
    ensures { Plays done.now (map G.Value.cost values.now) winners.old at winners.new }
{
    let won = winner(graph, done, values, winners[2 * at], winners[2 * at + 1]);
    winners[at] = won;
}

/// Fills the places above a spot anew, after its cost was lowered or it was settled.
pub(crate) fn replay<G: StepGraph>(
    graph: &G,
    done: &[bool],
    values: &[G::Value],
    winners: &mut [usize],
    y: usize,
)
    requires lengths { length done.now ≡ length values.now }
    requires spot { y < length done.now }
    requires board { IsWholeBut (length done.now + y) (length done.now + y) done.now (map G.Value.cost values.now) winners.old }
    ensures { IsWhole done.now (map G.Value.cost values.now) winners.new }
{
    let mut at = done.len() + y;
    while at > 1 {
        at /= 2;
        play(graph, done, values, winners, at);
    }
}

/// The board of spots that are set up.
fn set_up<G: StepGraph>(graph: &G, done: &[bool], values: &[G::Value], winners: &mut [usize])
    requires lengths { length done.now ≡ length values.now }
    requires board { IsWholeFrom (length done.now) done.now (map G.Value.cost values.now) winners.old }
    ensures { IsWhole done.now (map G.Value.cost values.now) winners.new }
{
    let mut at = done.len();
    while at > 1 {
        at -= 1;
        play(graph, done, values, winners, at);
    }
}

/// A board without winners: the spots stand in its second half.
fn empty_board(alloc: Global, count: usize) -> Result<Vec<usize>, NoMemory>
    ensures { IfOk result (λ v. IsBlank count v.items) }
{
    let mut winners = Vec::new(alloc);
    for k in 0..count {
        winners.push(k)?;
    }
    for y in 0..count {
        winners.push(y)?;
    }
    Ok(winners)
}

/// The board of these spots.
pub(crate) fn board<G: StepGraph>(
    alloc: Global,
    graph: &G,
    done: &[bool],
    values: &[G::Value],
) -> Result<Vec<usize>, NoMemory>
    requires lengths { length done.now ≡ length values.now }
    ensures { IfOk result (λ v. IsWhole done.now (map G.Value.cost values.now) v.items) }
{
    let mut winners = empty_board(alloc, done.len())?;
    set_up(graph, done, values, winners.as_mut_slice());
    Ok(winners)
}

/// The spot that is settled next, or None exactly where no spot that is not settled has a finite cost.
pub(crate) fn next<G: StepGraph>(
    graph: &G,
    done: &[bool],
    values: &[G::Value],
    winners: &[usize],
) -> Option<usize>
    requires lengths { length done.now ≡ length values.now }
    requires board { IsWhole done.now (map G.Value.cost values.now) winners.now }
    ensures { IsNext done.now (map G.Value.cost values.now) result }
{
    if done.is_empty() {
        return None;
    }
    let first = winners[1];
    if done[first] {
        return None;
    }
    if graph.less(values[first], graph.inf()) {
        Some(first)
    } else {
        None
    }
}
