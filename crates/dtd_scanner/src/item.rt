//! Items, their kinds, and why there is none.

/// What an item is.
#[derive(Clone, Copy, Debug, Drop, PartialEq, Eq)]
pub enum ItemKind {
    /// white space, the longest run of it (XML 1.0, 2.3)
    Blank,
    /// a comment (XML 1.0, 2.5)
    Comment,
    /// a processing instruction (XML 1.0, 2.6)
    Pi,
    /// a reference to a parameter entity (XML 1.0, 4.1)
    Reference,
    /// the start of a conditional section, up to and with the `[` behind its keyword (XML 1.0, 3.4)
    SectionStart,
    /// a declaration that begins with `<!ELEMENT` (XML 1.0, 3.2)
    ElementDecl,
    /// a declaration that begins with `<!ATTLIST` (XML 1.0, 3.3)
    AttlistDecl,
    /// a declaration that begins with `<!ENTITY` (XML 1.0, 4.2)
    EntityDecl,
    /// a declaration that begins with `<!NOTATION` (XML 1.0, 4.7)
    NotationDecl,
}

/// An item at a place of a text.
#[derive(Clone, Copy, Debug, Drop, PartialEq, Eq)]
pub struct Item {
    /// What it is.
    pub kind: ItemKind,
    /// The place behind its last character, counted from 0.
    pub end: usize,
}

/// Why there is no item at a place.
#[derive(Clone, Copy, Debug, Drop, PartialEq, Eq)]
pub enum ScanFault {
    /// No item begins there.
    Malformed,
    /// An item begins there, and none ends in the text.
    Unclosed,
}
