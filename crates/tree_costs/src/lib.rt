//! Costs of trees.
//!
//! A cost is a number up to one above a cap, or none at all. `specs/Costs.antt` says how costs are compared and added, and
//! what the least of a family of costs is. `specs/Families.antt` has the families of one set of declarations: the sizes of
//! the documents from an element, and the sums along the names that lead from a state of its content to acceptance. A
//! table of these least costs is a `Least`, read by `specs/Leasts.antt`.
//!
//! `specs/Graphs.antt` has graphs of steps with the trees that they grow. The trees of a set's own graph are its documents,
//! so a solved graph has the least costs; `specs/Numbered.antt` says the same of graphs of numbers, as a solver has them.
#![tactic(auto)]

mod cost;
mod laws;
mod least;

pub use cost::{Cost, CostList, at_most, sum};
pub use laws::{costs_law, graph_law, least_law, numbered_law};
pub use least::{Least, LeastRow, LeastRows};
