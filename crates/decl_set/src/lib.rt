//! The set of declarations.
//!
//! A set is what a module, or many, declare: the elements with their contents, the attributes by element, the general
//! entities and the notations, each in order of declaration. Contracts see it as `specs/Declarations.antt`. What each
//! declaration does to it, and which is refused, is said in `specs/Declaring.antt`; what the value of an attribute stands
//! for in `specs/Values.antt`; what a set keeps at every moment in `specs/Asked.antt`.
//!
//! When a document meets a set, when one set's documents are all documents of another, and which element tells why not, is
//! said in `specs/Validity.antt` and `specs/Breaks.antt` over the trees of `document_trees`; what of an element another set
//! does not allow, whatever names stand in it, in `specs/Oddness.antt`.
#![tactic(auto)]

mod attributes;
mod breaks;
mod children;
mod declaring;
mod ending;
mod entity;
mod faults;
mod laws;
mod oddness;
mod pieces;
mod set;
mod spelled;
mod value_stack;
mod values;

pub use breaks::{BrokenDecl, Cause, Odd};
pub use entity::EntityDef;
pub use faults::{DeclFault, ValueFault};
pub use laws::breaks_law;
pub use oddness::{is_odd, odd};
pub use set::DeclSet;
pub use values::value_of;
