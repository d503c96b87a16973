//! Tables of costs for two sets of declarations, their checker and their certificates.
//!
//! A table says of each element of the first set, of the states of its content and of listed pairs of states of both
//! contents a cost. `specs/Kinds.antt` has the eleven kinds of inequality between these costs. Where all hold the tables
//! are feasible: each m is at most the size of every document from its element, and each v at most the size of every
//! document from it that the second set does not allow (`specs/Laws.antt`). So one who does not trust how tables were made
//! checks them by `check_tables`, which looks once at each step. A certificate is the tables in lines of text.
#![tactic(auto)]

mod check;
mod cursor;
mod entries;
mod fault;
mod held;
mod laws;
mod near;
mod printing;
mod reading;
mod tables;
mod words;

pub use check::{Broken, check_tables};
pub use fault::CertFault;
pub use laws::{certificate_law, odd_law, sound_law, tests_law};
pub use near::listed_cost;
pub use printing::print_cert;
pub use reading::read_cert;
pub use tables::{PairRow, PairRows, Row, Rows, StateRow, StateRows, Tables};
pub use tree_costs::{Cost, CostList, Least, LeastRow, LeastRows, sum};
pub use words::number;
