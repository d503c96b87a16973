//! The nodes of a document as a program keeps them.

use jats_chars::{ListOf, Name, Text};
use std::marker::Model;

/// Attributes in order, each a name with its value.
pub type AttValues = ListOf<(Name, Text)>;

/// Items in order.
pub type ItemList = ListOf<Item>;

/// An element (XML 1.0, 3): its name, its attributes and the items in it, each in order. The element of a document has
/// all others in it.
#[cycle(tree)]
#[derive(Debug, Drop)]
pub struct Node {
    pub name: Name,
    pub atts: AttValues,
    pub items: ItemList,
}

impl Model for Node {
    ghost use Rattle.document_trees.specs.Trees as trees;
    ghost use Rattle.document_trees.specs.Coding.{items_coded};
    ghost use Rattle.std.specs.Coded.{codes};

    ghost Value = { trees.Node };

    ghost coded = { Prim.hlevel (codes, items_coded) };

    ghost use Rattle.document_trees.specs.Seen.{items_of};

    ghost view = { λ a. record { name = a.name; atts = a.atts; items = items_of a.items } };

    ghost size = { trees.size };

    ghost use Rattle.document_trees.specs.Falls.{below_fewer};

    ghost size_decreases = { λ a h. below_fewer a.items };
}

/// What stands in an element.
#[cycle(tree)]
#[derive(Debug, Drop)]
pub enum Item {
    /// An element.
    Element(Node),
    /// A run of characters, and whether it is plain.
    Chars { text: Text, plain: bool },
    /// A comment (2.5).
    Comment(Text),
    /// A processing instruction (2.6).
    Pi { target: Name, body: Text },
}
