//! What is wrong in an article.

use jats_chars::{ListOf, Name, Text};

/// Why a node of an article is invalid, in the order in which the causes of one node are listed.
#[derive(Debug, Drop)]
pub enum InvalidCause {
    /// The top element has another name than the root that is asked for.
    Root,
    /// The element is not declared (XML 1.0, 3, Element Valid).
    Undeclared,
    /// The names of the children are not derived by the content.
    Content,
    /// Other items stand in the element than its content allows.
    Text,
    /// The attribute of this name is not declared (3.1, Attribute Value Type).
    AttUndeclared(Name),
    /// The value of the attribute of this name is not one that its declaration allows (3.3.1, 3.3.2).
    Value(Name),
    /// The attribute of this name is required, and is not there (3.3.2, Required Attribute).
    Missing(Name),
    /// The attribute of this name is an ID whose value an earlier ID has (3.3.1, ID).
    RepeatedId(Name, Text),
    /// The attribute of this name refers to an ID that no attribute of the article has (3.3.1, IDREF).
    NoTarget(Name, Text),
    /// The attribute of this name names an entity that is not declared as unparsed (3.3.1, Entity Name).
    NoEntity(Name, Text),
}

/// A node that is invalid: its number in document order, from 1, its element's name, and why.
#[derive(Debug, Drop)]
pub struct Invalid {
    pub node: u64,
    pub element: Name,
    pub cause: InvalidCause,
}

/// What is wrong in an article, in order.
pub type InvalidList = ListOf<Invalid>;
