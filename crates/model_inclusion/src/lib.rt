//! The pairs of states to which the same names lead two contents.
//!
//! Two automata go on side by side: from a pair of states a step on a name that both take leads to the next pair. A pair is
//! listed where one list of live names leads the first content to its first state and the second to its second
//! (`specs/Listed.antt`); `pairs_law` says that these are the pairs that common steps reach from the two starts, and that
//! they are one list.
//!
//! The steps of both automata are laid out once as rows of numbered names (`rows`). For a pair the second's row is noted in
//! a table by number, in which each step of the first's row is looked up; so a pair takes the time of its two rows. Pairs
//! are numbers, flags tell which are reached, and going over the flags gives the pairs in order.
#![tactic(auto)]

mod fault;
mod laws;
mod live;
mod parting;
mod reach;
mod rows;
mod set;
mod side;

pub use fault::PairFault;
pub use laws::{inclusion_law, pairs_law};
pub use live::LiveNames;
pub use set::PairSet;
pub use side::{Compared, compare, pairs, pairs_among};
