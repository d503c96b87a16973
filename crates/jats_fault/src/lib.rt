//! Refusals: what may be wrong with the input, and the line that says so.
//!
//! Whatever layer finds a fault makes a `Fault`: a number of the table of refusals, the place, and up to three details.
//! `line` writes it, and `number_of_line` reads the number back from a line. The table and the line are stated in
//! `specs/Table.antt` and `specs/Lines.antt`; that no two refusals have one number or one name, and that the number of
//! a line is read back, stands in `laws`.
#![tactic(auto)]

mod fault;
mod laws;
mod lines;
pub mod numbers;
mod table;

pub use fault::{Details, Fault, Place};
pub use laws::{distinct_law, number_law};
pub use lines::line;
pub use table::{fault_name, number_of_line};
