//! Parameter entities: what is bound, and what texts with references to them stand for.
//!
//! `Bindings` has the parameter entities in order of declaration, the first declaration of a name being the one that
//! binds. An outer entity has no text until it is loaded and `set_outer` gives it one.
//!
//! `literal` and `plain_body` take a text with references, and give the text that it stands for, as an entity value and as
//! the body of a declaration. `specs/Expansion.antt` says what that is, by cases on the first piece of a text: the text of
//! a reference is expanded in its place, one level deeper, with its name open. `specs/Opening.antt` says when a name may
//! open, and `specs/Pieces.antt` what a text begins with. The answer is the whole text with the count of characters that
//! were included, or the first thing that stops the expansion. The code writes into one text, and texts that wait stand on
//! a stack (`specs/Frames.antt`); no text is copied to be read. An expansion that stops where a text is not loaded is a
//! `PausedExpansion`, which goes on there once it is (`specs/Pausing.antt`). Of each open text one flag says whether what is
//! written of it breaks nesting so far (`specs/Nesting.antt`), so that what is written is never read again.
//!
//! `ignored_end` finds the end of an ignored section (`specs/Ignored.antt`).
#![tactic(auto)]

mod bindings;
mod expansions;
mod faults;
mod ignored;
mod laws;
mod openings;
mod pausing;
mod pieces;
mod stack;

pub use bindings::{Bindings, PeText};
pub use expansions::{literal, literal_in, plain_body, plain_body_in};
pub use faults::PeFault;
pub use ignored::ignored_end;
pub use laws::{again_law, given_law, resuming_law};
pub use openings::{Opened, opening};
pub use pausing::{PausedExpansion, Place, Progress};
pub use pieces::Manner;

/// How many characters were included in one set or article: at most 67,108,864.
#[derive(Clone, Copy, Debug, PartialEq, Eq)]
pub struct Budget {
    pub spent: u64,
}
