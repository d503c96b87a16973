//! What is reported.

use decl_set::BrokenDecl;
use jats_chars::ListOf;

/// Broken elements in order.
pub type BrokenList = ListOf<BrokenDecl>;

/// Which useful elements of the first set break in the second.
#[derive(Debug, Drop)]
pub struct Report {
    /// How many elements of the first are useful.
    pub useful: u64,
    /// The useful ones that break, in order of declaration, each with its first cause.
    pub differs: BrokenList,
}
