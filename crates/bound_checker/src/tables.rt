//! Tables of costs.

use jats_chars::{ListOf, Name};
use tree_costs::Cost;

/// The costs of a state of an element's content in the first set: P, for names that lead from it to acceptance, and F, the
/// same where a document under one of the names is wrong in the second set.
#[derive(Clone, Copy, Debug, PartialEq, Eq)]
pub struct StateRow {
    pub p: Cost,
    pub f: Cost,
}

/// The cost G of a listed pair: for names that lead from state i of the first content to acceptance, and not from state j
/// of the second.
#[derive(Clone, Copy, Debug, PartialEq, Eq)]
pub struct PairRow {
    pub i: u32,
    pub j: u32,
    pub g: Cost,
}

/// Costs of states in order.
pub type StateRows = ListOf<StateRow>;

/// Costs of pairs, ascending.
pub type PairRows = ListOf<PairRow>;

/// The costs of an element: m for its documents, v for those that separate, then those of its states and listed pairs.
#[derive(Debug, Drop)]
pub struct Row {
    pub m: Cost,
    pub v: Cost,
    pub states: StateRows,
    pub pairs: PairRows,
}

/// Rows in order.
pub type Rows = ListOf<Row>;

/// A row for each element of the first set, in order of declaration, with costs cut at one above the cap.
#[derive(Debug, Drop)]
pub struct Tables {
    pub root: Name,
    pub cap: u32,
    pub rows: Rows,
}
