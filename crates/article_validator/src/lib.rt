//! Validity of articles.
//!
//! An article is valid in a set of declarations where each of its elements meets its declaration, its IDs differ, each
//! reference to an ID has one, and each attribute that names an entity names an unparsed one. `faults` lists all that is
//! wrong in an article, in document order; `first_broken` gives the first element that does not meet its declaration.
//!
//! `specs/Structure.antt` says what is wrong in a node by its own declaration, `specs/Links.antt` by its IDs and references,
//! and `specs/Faults.antt` lists both over the article; `specs/First.antt` says the other. Both are tied to `IsValid` of
//! `decl_set`, the validity of which comparisons speak. In code the article is walked over twice: once for its IDs, each of
//! which is kept once in a set with a look-up by hash, and once for what is wrong; `specs/Listing.antt` has the list that
//! such sets give, which is the same. `fill` gives an article with the defaults that a reader of the set sees, as
//! `specs/Filling.antt` says; `specs/FillingSteps.antt` follows it item by item.
#![tactic(auto)]

mod attributes;
mod causes;
mod content;
mod fault;
mod filling;
mod first;
mod laws;
mod link_causes;
mod links;
mod specified;
mod walk;
mod words;

pub use fault::{Invalid, InvalidCause, InvalidList};
pub use filling::fill;
pub use first::first_broken;
pub use laws::{deriving_law, filling_law, first_law, validity_law};
pub use walk::faults;
