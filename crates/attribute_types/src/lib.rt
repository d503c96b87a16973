//! Types of attributes, and the values that they allow.
//!
//! A declared attribute has a type and a preset. Together they give its class: the set of its values, after the step of
//! normalisation that is the same for all types (XML 1.0, 3.3.1 to 3.3.3). A value of a tokenised type is judged by its
//! collapse, a list of words with one space between two. There are eight classes, and `in_class` says which values are
//! in which.
//!
//! For two classes `covers` tells whether every value of the first is in the second. Where it is not so, `uncovered`
//! gives a value of the first that is not in the second, by a table with a cell for each two classes. Classes are
//! proper here: a list of tokens is not empty and holds Nmtokens, and a fixed text of a tokenised type is Nmtokens.
#![tactic(auto)]

mod classes;
mod covering;
mod laws;
mod spacing;
mod types;

pub use classes::{ValueClass, class_of, in_class, sample};
pub use covering::{covers, uncovered};
pub use laws::chars_law;
pub use spacing::collapse;
pub use types::{AttType, Preset};
