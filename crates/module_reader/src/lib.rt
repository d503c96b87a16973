//! Sets of declarations read from modules.
//!
//! A module is a text of items. `read_set` goes over the text of the entry and over the texts of the parameter entities that
//! it refers to between declarations, loads the modules that outer entities name, each once, and declares in the set what
//! the declarations say once their references are expanded.
//!
//! `specs/Reading.antt` says what a text does to a reading, by cases on its first item; `specs/Sources.antt` when a module is
//! loaded, and `specs/Stops.antt` where a reading stops and why. How the bodies of declarations are written stands in
//! `declaration_bodies` and `attlist_merge`. `specs/Sets.antt` puts these together: the set that an entry and a catalog stand
//! for, or the first refusal.
#![tactic(auto)]

mod asking;
mod catalogs;
mod declaring;
mod entities;
mod faults;
mod files;
mod frames;
mod kinds;
mod laws;
mod loading;
mod machine;
mod openings;
mod passing;
mod reading;
mod refusals;
mod sections;
mod standing;
mod state;
mod steps;
mod stops;
mod texts;

pub use catalogs::load_catalog;
pub use faults::ReadFault;
pub use files::load_text;
pub use laws::{content_law, kept_law};
pub use reading::read_set;
