//! Contents of elements (XML 1.0, 3.2): what they derive, and how they are spelled.
//!
//! A `Content` says what may stand in an element: nothing, anything, text among elements of some names, or elements
//! by a model, which is a `Particle`.
//!
//! Which lists of names a content derives is `Derives` (specs/Model.antt). It goes over a regular model of five forms,
//! and `derivation_law` says the same in the words of the standard.
//!
//! Which texts spell a content is `Spells` (specs/Grammar.antt), a grammar with white space and without limits. Which
//! contents keep the limits is `IsProper` (specs/Proper.antt). `parse_content` leads from a text to the proper content
//! that it spells, or to the first fault that holds (`Parses`), and `print_content` from a proper content to its flat
//! spelling. `parse_law` says that these answers are exact, `print_law` that what is printed parses back.
//!
//! Between the grammar and the code stands a reader of lists (specs/Reading.antt). The code reads by places in the
//! text what that reader reads from the front, and reader and grammar agree in both directions.
#![tactic(auto)]

mod content;
mod copying;
mod counting;
mod laws;
mod parsing;
mod printing;
mod reading;

pub use content::{Content, Occurs, Particle, ParticleList, TextKind, text_kind};
pub use laws::{derivation_law, parse_law, print_law};
pub use parsing::{ContentFault, is_too_deep, parse_content};
pub use printing::print_content;
