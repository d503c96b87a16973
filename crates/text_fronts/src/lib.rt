//! Texts read from the front.
//!
//! The bodies of declarations, tags and declarations of a document type are read part by part: white space, Names, words and
//! literals between quotes. Each call takes a text and answers what stands at its front with the rest behind it, or None
//! where nothing of the form begins the text. Nothing is copied but names.
//!
//! `specs/Fronts.antt` computes what is read, and `specs/Grammar.antt` says how such parts are written. The lemmas of
//! `proofs/Sound.antt` (what is read is written so) and `proofs/Complete.antt` (what is written is read) are for the proofs
//! of all readers above.
#![tactic(auto)]

mod literals;
mod names;
mod space;

pub use literals::{first_place, read_literal, spaced_literal};
pub use names::{read_name, spaced_name, word};
pub use space::{is_blank, read_space, skipped, trimmed, trimmed_end};
