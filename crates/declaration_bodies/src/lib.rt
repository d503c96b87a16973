//! The bodies of declarations.
//!
//! The body of a declaration is what stands in it behind its keyword and before `>`, without references to parameter
//! entities. `read_element`, `read_entity` and `read_notation` read the bodies of ELEMENT, ENTITY and NOTATION declarations
//! as they are written: the content of an element, the value of an entity and references in it are not looked into further.
//! `read_ids` reads an external identifier.
//!
//! `specs/` computes what is read, by kind of declaration; `specs/Grammar.antt` says how a body is written, and by
//! `bodies_law` exactly that is read.
#![tactic(auto)]

mod elements;
mod entities;
mod identifiers;
mod laws;
mod notations;

pub use elements::read_element;
pub use entities::{RawDef, RawEntity, read_entity};
pub use identifiers::read_ids;
pub use laws::bodies_law;
pub use notations::read_notation;
