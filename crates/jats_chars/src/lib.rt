//! Characters, texts, names and lists.
//!
//! A module, a catalog, an article or a certificate is a list of bytes. This crate says which characters these bytes
//! are, and which of them make names. All other crates speak of texts as lists of characters: a contract sees a `Text`
//! and a `Name` as the list of its code points, and a `ListOf<T>` as the list of its items.
#![tactic(auto)]

mod classes;
mod decoding;
mod hashing;
pub mod limits;
mod list;
mod name;
mod text;
mod text_declaration;

pub use classes::{Ranges, is_char, is_name_char, is_name_start, is_pubid_char, is_space};
pub use decoding::{DecodeFault, decode};
pub use hashing::Spelled;
pub use list::ListOf;
pub use name::{Name, is_name, is_name_slice, is_nmtoken, is_nmtoken_slice};
use std::alloc::{AllocError, AllocFailed};
pub use text::Text;
use thiserror::Error;

/// Memory ran out.
#[derive(Clone, Copy, Debug, PartialEq, Eq, Error)]
#[error("out of memory")]
pub struct NoMemory;

impl<T: Drop> From<AllocFailed<T>> for NoMemory {
    fn from(_failed: AllocFailed<T>) -> NoMemory {
        NoMemory
    }
}

impl From<AllocError> for NoMemory {
    fn from(_error: AllocError) -> NoMemory {
        NoMemory
    }
}

/// Texts in order.
pub type TextList = ListOf<Text>;

/// Names in order.
pub type NameList = ListOf<Name>;
