//! The nodes of a tree in document order, without recursion.

ghost use Rattle.std.specs.Prelude.{◌≡◌, ℕ, ◌^◌, ◌-◌, min, List, [], ◌∷◌, ◌++◌, None, Some, slice_get, drop, OnOk, OnErr, IfOk, IfSome, option_map, ◌<◌, length};
ghost use Rattle.std.specs.Option.{option_copied};
ghost use Rattle.document_trees.specs.Trees as trees;
ghost use Rattle.document_trees.specs.Trees.{nodes_below};
ghost use Rattle.document_trees.specs.Seen.{items_of};
ghost use Rattle.document_trees.specs.Walks.{from_element, left_in, left_under};

use crate::{Item, Node};
use jats_chars::NoMemory;
use std::alloc::Global;
use std::marker::Model;

/// The nodes of a tree that are still to be given, in document order. It keeps a slice for each element that is open, so
/// trees may be as deep as memory allows.
#[derive(Drop)]
pub struct Nodes<'a> {
    first: Option<&'a Node>,
    lists: Vec<&'a [Item]>,
}

impl<'a> Model for Nodes<'a> {
    ghost use Rattle.std.specs.Prelude.{List, ◌++◌};
    ghost use Rattle.std.specs.Option.{option_copied};
    ghost use Rattle.std.specs.Coded.{codes};
    ghost use Rattle.document_trees.specs.Trees as trees;
    ghost use Rattle.document_trees.specs.Coding.{items_coded};

    ghost Value = { List trees.Node };

    ghost coded = { Prim.hlevel (codes, items_coded) };

    ghost use Rattle.document_trees.specs.Walks.{left_in, from_top};

    ghost view = { λ a. from_top (option_copied a.first) ++ left_in a.lists.items };
}

/// The first element among the items, with the items after it, or None exactly where there is none.
fn first_element(items: &[Item]) -> Option<(&Node, &[Item])>
    ensures { trees.nodes_below (items_of items.now) ≡ from_element (option_map (λ p. (p.0.now, p.1.now)) result) }
{
    let mut rest = items;
    while let Some((item, after)) = rest.split_first() {
        match item {
            Item::Element(node) => return Some((node, after)),
            _ => rest = after,
        }
    }
    None
}

/// Drops the last lists as long as they hold no element. The first element of the last list left, with the items after
/// it, or None exactly where no list is left.
fn last_element<'a>(lists: &mut Vec<&'a [Item]>) -> Option<(&'a Node, &'a [Item])>
    ensures left { left_in lists.new.items ≡ left_in lists.old.items }
    ensures some { IfSome result (λ p. left_in lists.old.items ≡ from_element (Some (p.0.now, p.1.now)) ++ left_under lists.new.items) }
    ensures filled { IfSome result (λ p. 0 < length lists.new.items) }
    ensures none { result ≡ None → lists.new.items ≡ [] }
{
    while let Some(items) = lists.last() {
        match first_element(items) {
            Some(found) => return Some(found),
            None => {
                lists.pop();
            }
        }
    }
    None
}

/// Goes into an element of the last list: the items after it take the place of that list, and those in it go last.
fn enter<'a>(lists: &mut Vec<&'a [Item]>, node: &'a Node, after: &'a [Item]) -> Result<(), NoMemory>
    requires { 0 < length lists.old.items }
    ensures ok { OnOk result (left_in lists.new.items ≡ nodes_below node.now.items ++ (nodes_below (items_of after.now) ++ left_under lists.old.items)) }
    ensures err { OnErr result (lists.new.items ≡ lists.old.items) }
{
    let at = lists.len() - 1;
    lists.push(node.items.as_slice())?;
    lists[at] = after;
    Ok(())
}

fn next_below<'a>(lists: &mut Vec<&'a [Item]>) -> Result<Option<&'a Node>, NoMemory>
    ensures node { IfOk result (λ node. option_copied node ≡ slice_get (left_in lists.old.items) 0) }
    ensures rest { OnOk result (left_in lists.new.items ≡ drop 1 (left_in lists.old.items)) }
    ensures err { OnErr result (left_in lists.new.items ≡ left_in lists.old.items) }
{
    match last_element(lists) {
        None => Ok(None),
        Some((node, after)) => {
            enter(lists, node, after)?;
            Ok(Some(node))
        }
    }
}

impl<'a> Nodes<'a> {
    /// All nodes of a tree.
    pub fn new(alloc: Global, node: &'a Node) -> Nodes<'a>
        ensures { result ≡ trees.nodes_in node.now }
    {
        Nodes {
            first: Some(node),
            lists: Vec::new(alloc),
        }
    }

    /// The next node, which is no longer among those to be given, or None exactly where there are no more.
    pub fn next(&mut self) -> Result<Option<&'a Node>, NoMemory>
        ensures node { IfOk result (λ node. option_copied node ≡ slice_get self.old 0) }
        ensures rest { OnOk result (self.new ≡ drop 1 self.old) }
        ensures err { OnErr result (self.new ≡ self.old) }
    {
        if let Some(node) = self.first {
            self.lists.push(node.items.as_slice())?;
            self.first = None;
            return Ok(Some(node));
        }
        next_below(&mut self.lists)
    }
}

/// How many elements a tree has. The count stands still at its last value, 2^64 - 1.
pub fn elements(alloc: Global, node: &Node) -> Result<u64, NoMemory>
    ensures { IfOk result (λ n. n ≡ min (trees.size node.now) (2 ^ 64 - 1)) }
{
    let mut nodes = Nodes::new(alloc, node);
    let mut count: u64 = 0;
    while nodes.next()?.is_some() {
        count = count.saturating_add(1);
    }
    Ok(count)
}
