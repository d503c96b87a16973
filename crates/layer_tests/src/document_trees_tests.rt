//! A tree is built, walked over and counted.

use document_trees::{AttValues, Item, ItemList, Node, Nodes, elements};
use jats_chars::{Name, NoMemory, Text};
use std::alloc::Global;

/// An element without attributes and items, of the name `n`.
fn leaf(alloc: Global, name: char) -> Result<Option<Node>, NoMemory> {
    let text = Text::from_slice(alloc, &[name])?;
    match Name::from_text(alloc, &text)? {
        None => Ok(None),
        Some(name) => Ok(Some(Node::new(name, AttValues::new(alloc), ItemList::new(alloc)))),
    }
}

/// Elements in one another, as many as there are levels.
fn nested(alloc: Global, levels: usize) -> Result<Option<Node>, NoMemory> {
    let mut inner = leaf(alloc, 'z')?;
    for _ in 1..levels {
        let mut outer = leaf(alloc, 'n')?;
        if let (Some(outer), Some(inner)) = (&mut outer, inner) {
            outer.push(Item::Element(inner))?;
        }
        inner = outer;
    }
    Ok(inner)
}

#[test]
fn a_tree_of_2048_levels(rt: HostRuntime) -> Result<(), NoMemory> {
    let tree = nested(rt.alloc(), 2048)?;
    let count = match &tree {
        None => 0,
        Some(node) => elements(rt.alloc(), node)?,
    };
    assert!(rt; count == 2048);
    Ok(())
}
