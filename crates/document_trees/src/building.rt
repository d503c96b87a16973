//! Nodes put together.

ghost use Rattle.std.specs.Prelude.{◌≡◌, [], ◌∷◌, OnOk, OnErr};
ghost use Rattle.document_trees.specs.Trees as trees;
ghost use Rattle.document_trees.specs.Seen.{items_of};

use crate::{AttValues, Item, ItemList, Node};
use jats_chars::{Name, NoMemory};

impl Node {
    /// The element of these parts.
    pub fn new(name: Name, atts: AttValues, items: ItemList) -> Node
        ensures { result ≡ record { name = name; atts = atts; items = items_of items } }
    {
        Node { name, atts, items }
    }

    /// Puts an item behind the others.
    pub fn push(&mut self, item: Item) -> Result<(), NoMemory>
        ensures ok { OnOk result (self.new ≡ record self.old { items = trees.joined self.old.items (items_of (item ∷ [])) }) }
        ensures err { OnErr result (self.new ≡ self.old) }
    {
        self.items.push(item)?;
        Ok(())
    }
}
