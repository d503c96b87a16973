//! The flat text of a set: one plain DTD that says the same.
//!
//! `flatten` writes what a set declares, one declaration a line (`specs/Flat.antt`). `flat_law` says that this text, read as
//! a module, gives the same set again (`specs/Laws.antt`). `flat_size` tells how many bytes it takes without writing it.
#![tactic(auto)]

mod laws;
mod parts;
mod rows;
mod sizes;
mod texts;
mod writing;

pub use laws::flat_law;
pub use sizes::flat_size;
pub use writing::flatten;
