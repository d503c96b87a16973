//! Where a text stands.

use jats_chars::{Name, Text};

/// The text of an inner parameter entity: where its reference begins in the text of the innermost module, counted from 0, and
/// its name.
#[derive(Debug, Drop)]
pub struct Inner {
    pub place: usize,
    pub name: Name,
}

/// Where a text stands: the name of the innermost module that is read, whose own text it is, or the entity whose text it is.
#[derive(Debug, Drop)]
pub struct Standing {
    pub inmost: Text,
    pub inner: Option<Inner>,
}
