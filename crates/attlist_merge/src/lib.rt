//! Lists of attributes.
//!
//! The body of an attribute-list declaration names an element and defines attributes: a name, a type and a preset each.
//! `parse_attlist` reads it into a `RawAttList`, with values unread between their quotes. `IsAttlist` says how a body is
//! written, and by `attlist_law` exactly that is read.
//!
//! An `AttList` keeps the definitions of one element in order of declaration, of which the first of a name binds, under
//! the constraints of XML 1.0 (3.3.1 and 3.3.2). It finds them by hash.
//!
//! A list of values is right by a list of attributes where each of its attributes is declared and in its class, and each
//! required one is there. `odd_att` compares two lists: it answers the first attribute by which values that are right by
//! the first may be wrong by the second, and None exactly where there are no such values.
#![tactic(auto)]

mod check;
mod laws;
mod list;
mod odd;
mod parse;
mod raw;
mod sample_laws;
mod value;

pub use laws::attlist_law;
pub use list::{Att, AttFault, AttList, Definition};
pub use odd::{OddAtt, attributes_cover, lists_cover, odd_att, odd_attribute};
pub use parse::{ListFault, parse_attlist};
pub use raw::{RawAtt, RawAttList, RawAtts, RawPreset};
pub use sample_laws::{required_law, shown_law};
