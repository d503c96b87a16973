//! Position automata of contents (XML 1.0, 3.2.1 and Appendix E).
//!
//! The names that occur in a model are numbered from 1 in order, and its marked words are what it derives over numbered
//! names. State 0 is the start, and state i stands at the name numbered i. Which states follow on a name, which accept,
//! and when a content is deterministic are said by `specs/Automata.antt` of the marked words alone; EMPTY, mixed content
//! and ANY have state 0 alone. `states_law` says that a content derives the lists of names that lead to a state that
//! accepts, `runs_law` that it does so step by step. `specs/Stepping.antt` has acceptance and steps as functions.
//!
//! `build` gives an `Automaton` exactly where a content is deterministic. A contract sees the automaton as its content,
//! so that `step`, `step_of`, `follows`, `accepts_at` and `run` speak of the definitions directly. Inside, a walk over
//! the model finds its first and last names and the pairs that may stand side by side; each state keeps its row of
//! positions in order, with a look-up by the number of a name. The pairs of a loop are listed only where no loop around
//! it lists them too, so that a nest of loops lists each pair once.
#![tactic(auto)]

mod automaton;
mod fault;
mod laws;
mod names;
mod owed;
mod parts;
mod rows;
mod walk;

pub use automaton::{Automaton, build};
pub use fault::BuildFault;
pub use laws::{judging_law, runs_law, states_law, steps_law};
pub use owed::Product;
pub use walk::Ends;
