//! Articles of a store.
//!
//! `load_bytes` gives the bytes of a file of a store, and `load_article` the node of the article that they are. A file that
//! is absent or too long is refused before what is in it.
#![tactic(auto)]

mod articles;
mod bytes;

pub use articles::load_article;
pub use bytes::load_bytes;
