//! Tables of least costs of one set.

use crate::{Cost, CostList};
use jats_chars::ListOf;

/// The least costs of an element: the size of its documents, and for each state of its content the sum of the sizes along
/// names that lead from there to acceptance.
#[derive(Debug, Drop)]
pub struct LeastRow {
    pub m: Cost,
    pub p: CostList,
}

/// Rows in order.
pub type LeastRows = ListOf<LeastRow>;

/// A row for each element of a set, in order of declaration, with costs cut at one above the cap.
#[derive(Debug, Drop)]
pub struct Least {
    pub cap: u32,
    pub rows: LeastRows,
}
