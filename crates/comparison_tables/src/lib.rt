//! The exact tables of a comparison.
//!
//! `exact_tables` gives for two sets of declarations the one table of exact costs (`exact_tables` has what it says), or
//! the element at which the listed pairs are too many (`specs/Outcome.antt`). It is the solved graph of the comparison:
//! each element of the first set stands in it twice, once with the states and steps of its content, so that its trees
//! are its documents, and once as a copy, whose trees are the documents that the second set does not allow.
//!
//! `sides` finds for each element whether it is odd and which pairs of states are listed, and `entries` its content in
//! both sets, once and not at each look. The states of a copy are numbered (`kinds`): the start, then one for P and one
//! for F of each state, then the listed pairs in their order, each found by halves (`places`). `accepting` and `steps`
//! say of a number whether it accepts and which steps it has, one at a time and looked up where they are asked for, and
//! first where they stand in contents that are alike (`near`); `copies` says so of each element and copy by its place,
//! `graph` hands it to the solver of `least_trees`, and `rows` reads the tables off its costs. `graph_law` says that
//! the numbers stand for the graph of a comparison, and `tables_law` that the exact tables are one, are accepted, and
//! can be printed.
#![tactic(auto)]

mod accepting;
mod copies;
mod entries;
mod fault;
mod graph;
mod held;
mod kinds;
mod laws;
mod near;
mod places;
mod rows;
mod sides;
mod steps;
mod tables;

pub use fault::TablesFault;
pub use laws::{graph_law, tables_law};
pub use tables::exact_tables;
