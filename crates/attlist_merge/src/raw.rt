//! Definitions as they are written.

use attribute_types::AttType;
use jats_chars::{ListOf, Name, Text};

/// What is written for an attribute that an element does not specify. A text is what stands between the quotes, unread.
#[derive(Debug, Drop)]
pub enum RawPreset {
    Required,
    Implied,
    Value(Text),
    Fixed(Text),
}

/// One definition of a declaration.
#[derive(Debug, Drop)]
pub struct RawAtt {
    pub name: Name,
    pub kind: AttType,
    pub preset: RawPreset,
}

/// Definitions in order.
pub type RawAtts = ListOf<RawAtt>;

/// A declaration: the element, and its definitions.
#[derive(Debug, Drop)]
pub struct RawAttList {
    pub element: Name,
    pub atts: RawAtts,
}
