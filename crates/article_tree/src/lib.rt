//! Articles read and written.
//!
//! An article is a text of XML 1.0: what stands before its one element, the element, and what stands behind it. `specs/`
//! says what an article is and what it gives: `Tokens` has the tokens of a content, `Content` its pieces and the items
//! that they give, `Grammar` what a text must be to be an article of a node, and `Writing` the text of a node and which
//! nodes are writable.
//!
//! `Taking`, `Stops`, `Reading` and `InPlace` compute the same: the first token of a text, and the node of an article or
//! the first fault of it, with its place. The laws at the end say that what is computed agrees with the grammar, that a
//! text is an article of one node at most, and that what is written of a writable node is read back.
//!
//! `read_article` gives the node of an article from its bytes, and `write_article` the text of a node, both without
//! recursion; `written_size` tells how long that text is without making it. The parts of reading are calls with the contracts of their definitions: `tokens` gives the token at a place,
//! lent from the text, `elements` does what tags do, with the values of attributes by `values`, `entities` opens a reference,
//! `held` keeps what was read, and `stops` makes the refusals. `Works` says what a stack of texts still gives.
#![tactic(auto)]

mod counted;
mod elements;
mod entities;
mod frames;
mod fronts;
mod held;
mod laws;
mod outside;
mod reading;
mod repeats;
mod runs;
mod sizing;
mod steps;
mod stops;
mod taking;
mod token;
mod tokens;
mod values;
mod writing;
mod written;

pub use document_trees::{AttValues, Item, ItemList, Node};
pub use laws::{
    article_law, content_law, document_law, fault_law, one_law, placing_law, reading_law,
    token_law, writing_law,
};
pub use reading::read_article;
pub use sizing::written_size;
pub use stops::ArticleFault;
pub use writing::write_article;
