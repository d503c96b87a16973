//! A node is written, and its text measured.

use article_tree::{AttValues, Item, ItemList, Node, write_article, written_size};
use jats_chars::{Name, NoMemory, Text};
use std::alloc::Global;

/// The element `n` with one attribute, a run that is not plain and a comment.
fn node(alloc: Global) -> Result<Option<Node>, NoMemory> {
    let mut atts = AttValues::new(alloc);
    let mut items = ItemList::new(alloc);
    items.push(Item::Chars {
        text: Text::from_str(alloc, "a<b")?,
        plain: false,
    })?;
    items.push(Item::Comment(Text::from_str(alloc, "c")?))?;
    match (
        Name::from_slice(alloc, &['n'])?,
        Name::from_slice(alloc, &['k'])?,
    ) {
        (Some(name), Some(key)) => {
            atts.push((key, Text::from_str(alloc, "v\n")?))?;
            Ok(Some(Node::new(name, atts, items)))
        }
        _ => Ok(None),
    }
}

#[test]
fn a_node_is_written(rt: HostRuntime) -> Result<(), NoMemory> {
    let alloc = rt.alloc();
    if let Some(node) = node(alloc)? {
        let bytes = write_article(alloc, &node)?;
        assert!(rt; bytes.as_slice() == b"<n k=\"v&#10;\">a&lt;b<!--c--></n>".as_slice());
        let size = written_size(alloc, &node)?;
        assert!(rt; size == 32);
    }
    Ok(())
}
