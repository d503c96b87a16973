//! Documents as trees.
//!
//! `specs/Trees.antt` says what a document is, apart from any set of declarations: a tree of elements with attributes, in
//! which runs of characters, comments and processing instructions stand beside the elements. It says what is assumed of
//! every document, what its nodes are in document order, how many there are and how many elements are open at once. A
//! document may be of any depth. All crates that speak of validity, of comparisons and of articles speak of this one tree.
//!
//! `Node` is such a tree as a program keeps it: a contract sees a `Node` as the document, and `items_of` of
//! `specs/Seen.antt` gives the items of an `ItemList`. `Nodes` goes over the nodes in document order without recursion.
#![tactic(auto)]

mod building;
mod laws;
mod nodes;
mod walk;

pub use laws::{alone_law, items_law, nodes_law};
pub use nodes::{AttValues, Item, ItemList, Node};
pub use walk::{Nodes, elements};
