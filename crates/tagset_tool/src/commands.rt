//! The commands, each in a file of its own.

pub mod check;
pub mod compare;
pub mod fill;
pub mod flatten;
pub mod least;
pub mod report;
pub mod validate;
pub mod verify;
pub mod work;
