//! Least costs of graphs of steps, and of a set of declarations.
//!
//! A graph of steps has elements with weights, and states of each of which state 0 is the start; steps lead from one state to
//! another on an element. `graph` has the traits: what a graph stands for, and that it counts each look at a step and each
//! sum. `least_counted` gives the least weight of a tree of each element and the least sum along the steps from each state to
//! one that accepts, whatever the graph is, with at most one look a step and one more a state, and at most one sum a step
//! and one an element. `DeclGraph` is the graph of a set, and `least` the least sizes of its documents.
//!
//! Inside, each weight, element and state has a spot with a cost (`spots`), and each step and element a rule that says what its
//! target costs at most (`gather`, `rules`). A state that accepts costs 0 and has no rules. Each spot is settled once, the one
//! with the smallest cost first (`solver`): a board of winners tells which is next (`board`), and lists of uses which sums a
//! settled spot completes (`uses`, `lowering`). Every sum is taken when both of its parts are settled, and never again.
#![tactic(auto)]

mod board;
mod decl_graph;
mod gather;
mod graph;
mod lowering;
mod rows;
mod rules;
mod set_costs;
mod settled;
mod solver;
mod spots;
mod uses;

pub use decl_graph::DeclGraph;
pub use graph::{StepGraph, Worth};
pub use rows::least_counted;
pub use set_costs::least;
pub use settled::{Settled, SettledRow};
