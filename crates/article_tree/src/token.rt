//! Tokens of a content, lent from its text.

/// An attribute as it is written: its name, and the text between its quotes.
#[derive(Clone, Copy, Debug, Drop)]
pub struct TagAtt<'a> {
    pub name: &'a [char],
    pub value: &'a [char],
}

/// The attributes of a tag, and whether it closes its element.
#[derive(Debug, Drop)]
pub struct Attributes<'a> {
    pub atts: Vec<TagAtt<'a>>,
    pub closed: bool,
}

/// A start tag, or the tag of an empty element, which closes the element.
#[derive(Debug, Drop)]
pub struct StartTag<'a> {
    pub name: &'a [char],
    pub atts: Vec<TagAtt<'a>>,
    pub closed: bool,
}

/// A token.
#[derive(Debug, Drop)]
pub enum Lent<'a> {
    /// A character that stands for itself.
    Letter(char),
    /// What stands in a CDATA section (XML 1.0, 2.7).
    Section(&'a [char]),
    /// The character of a character reference (XML 1.0, 4.1).
    Coded(char),
    /// The name in a reference to a general entity (XML 1.0, 4.1).
    Named(&'a [char]),
    /// What stands in a comment (XML 1.0, 2.5).
    Remark(&'a [char]),
    /// The target and the body of a processing instruction (XML 1.0, 2.6).
    Instruction(&'a [char], &'a [char]),
    /// A tag that begins an element (XML 1.0, 3.1).
    Start(StartTag<'a>),
    /// The name in an end tag (XML 1.0, 3.1).
    Stop(&'a [char]),
}
