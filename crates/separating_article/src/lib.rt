//! Chosen articles.
//!
//! Of all documents of an element that are as small as can be, one is chosen by a rule, so that two programs show the same
//! one. `specs/Articles.antt` says which tree is the least article of an element, by the exact costs of its set, and what
//! `least_article` answers; the rule itself is that of `exact_tables`.
//!
//! The tree is built without recursion: elements that are started stand on a stack, each with the step that comes next
//! (`choosing`, `chosen_steps`), and the bytes of its text are taken from the limit before a part is made (`spending`, `required`).
//! `specs/Growing.antt` says what a tree under way still comes to, and `specs/Sizes.antt` how many bytes a text has.
#![tactic(auto)]

mod building;
mod choosing;
mod chosen_steps;
mod fault;
mod growing;
mod guide;
mod laws;
mod least;
mod opening;
mod required;
mod separated;
mod spending;

pub use fault::BuildOver;
pub use laws::{least_law, separating_law, size_law};
pub use least::least_article;
pub use separated::separating;
