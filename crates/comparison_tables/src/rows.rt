//! Rows of tables, read off settled costs.

ghost use Rattle.std.specs.Prelude.{◌≡◌, ◌≤◌, ◌+◌, IfOk, length, slice_get};
ghost use Rattle.comparison_tables.specs.Plans.{own_states};
ghost use Rattle.comparison_tables.specs.Rows as spec;
ghost use Rattle.comparison_tables.specs.Sides.{AreSides};

use crate::held::element_at;
use crate::sides::{Pairs, Sides};
use bound_checker::{PairRow, PairRows, Row, Rows, StateRow, StateRows};
use decl_set::DeclSet;
use jats_chars::NoMemory;
use least_trees::SettledRow;
use std::alloc::Global;
use tree_costs::{Cost, CostList};

/// The cost at a place, and none past the last.
fn cost_at(costs: &CostList, i: usize) -> Cost
    ensures { result ≡ spec.cost_at costs.now i }
{
    match costs.get(i) {
        None => Cost::Inf,
        Some(cost) => *cost,
    }
}

/// P and F of each state.
fn state_rows(
    alloc: Global,
    states: u32,
    own: &CostList,
    copy: &CostList,
) -> Result<StateRows, NoMemory>
    requires { states ≤ 1025 }
    ensures { IfOk result (λ rows. rows ≡ spec.state_rows states own.now copy.now states) }
{
    let mut rows = StateRows::new(alloc);
    for i in 0..states {
        let p = cost_at(own, i as usize);
        let f = cost_at(copy, (1 + states + i) as usize);
        rows.push(StateRow { p, f })?;
    }
    Ok(rows)
}

/// G of each pair.
fn pair_rows(
    alloc: Global,
    states: u32,
    pairs: &Pairs,
    copy: &CostList,
) -> Result<PairRows, NoMemory>
    requires states { states ≤ 1025 }
    requires pairs { length pairs.now ≤ 2000000 }
    ensures { IfOk result (λ rows. rows ≡ spec.pair_rows states copy.now 0 pairs.now) }
{
    let mut rows = PairRows::new(alloc);
    for (at, pair) in pairs.as_slice().iter().enumerate() {
        let g = cost_at(copy, 1 + 2 * states as usize + at);
        rows.push(PairRow {
            i: pair.0,
            j: pair.1,
            g,
        })?;
    }
    Ok(rows)
}

/// The row of an element with so many states and these listed pairs.
fn row_from(
    alloc: Global,
    states: u32,
    pairs: &Pairs,
    own: &SettledRow<Cost>,
    copy: &SettledRow<Cost>,
) -> Result<Row, NoMemory>
    requires states { states ≤ 1025 }
    requires pairs { length pairs.now ≤ 2000000 }
    ensures { IfOk result (λ row. row ≡ spec.row_from states pairs.now own.now copy.now) }
{
    Ok(Row {
        m: own.m,
        v: copy.m,
        states: state_rows(alloc, states, &own.p, &copy.p)?,
        pairs: pair_rows(alloc, states, pairs, &copy.p)?,
    })
}

fn states_at(first: &DeclSet, place: usize) -> u32
    ensures value { result ≡ own_states (slice_get first.now.elements place) }
    ensures few { result ≤ 1025 }
{
    let _ = first.count();
    match element_at(first, place) {
        None => 0,
        Some((name, automaton)) => automaton.states(),
    }
}

/// The rows of all elements, by the settled costs of the elements and then of their copies.
pub(crate) fn rows_of(
    alloc: Global,
    first: &DeclSet,
    second: &DeclSet,
    sides: &Sides,
    settled: &[SettledRow<Cost>],
) -> Result<Rows, NoMemory>
    requires sides { AreSides first.now second.now sides.now }
    requires settled { length settled.now ≡ length first.now.elements + length first.now.elements }
    ensures { IfOk result (spec.AreRows first.now second.now sides.now settled.now (length first.now.elements)) }
{
    let count = first.count();
    let mut rows = Rows::new(alloc);
    for (place, side) in sides.as_slice().iter().enumerate() {
        let states = states_at(first, place);
        let row = row_from(
            alloc,
            states,
            &side.pairs,
            &settled[place],
            &settled[count + place],
        )?;
        rows.push(row)?;
    }
    Ok(rows)
}
