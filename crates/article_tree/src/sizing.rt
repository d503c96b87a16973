//! How many bytes the text of a node has.

ghost use Rattle.std.specs.Prelude.{◌≡◌, ◌-◌, ◌^◌, ◌∷◌, [], min, length, IfOk, OnOk, encode_utf8_all};
ghost use Rattle.std.specs.Bool.{OnTrue, OnFalse};
ghost use Rattle.document_trees.specs.declared.nodes.Item.TheVariants.{Element};
ghost use Rattle.article_tree.specs.Sizes.{Goes, GoesOn, total_of};
ghost use Rattle.article_tree.specs.Writing as spec;

use crate::counted::{count_comment, count_end, count_instruction, count_run, count_tag};
use crate::writing::Waiting;
use document_trees::{Item, Node};
use jats_chars::NoMemory;
use std::alloc::Global;

/// A count under way: how many bytes are counted, the items that come next, and the elements that are open, the innermost
/// last.
#[derive(Debug, Drop)]
pub struct Sizing<'a> {
    pub total: u64,
    pub items: &'a [Item],
    pub waiting: Vec<Waiting<'a>>,
}

/// Counts an element that is empty, or its start tag, and goes into it.
fn size_element<'a>(
    work: &mut Sizing<'a>,
    node: &'a Node,
    after: &'a [Item],
) -> Result<(), NoMemory>
    ensures { OnOk result (GoesOn (Element node.now ∷ after.now) work.old work.new) }
{
    let front = count_tag(work.total, &node.name, node.atts.as_slice());
    let inside = node.items.as_slice();
    if inside.is_empty() {
        work.total = front.saturating_add(2);
        work.items = after;
    } else {
        work.total = front.saturating_add(1);
        work.waiting.push(Waiting {
            name: &node.name,
            later: after,
        })?;
        work.items = inside;
    }
    Ok(())
}

/// Counts an item.
fn size_item<'a>(work: &mut Sizing<'a>, item: &'a Item, after: &'a [Item]) -> Result<(), NoMemory>
    requires { work.old.items.now ≡ item.now ∷ after.now }
    ensures { OnOk result (Goes work.old work.new) }
{
    match item {
        Item::Element(node) => size_element(work, node, after),
        Item::Chars { text, plain } => {
            work.total = count_run(work.total, text.as_slice(), *plain);
            work.items = after;
            Ok(())
        }
        Item::Comment(text) => {
            work.total = count_comment(work.total, text.as_slice());
            work.items = after;
            Ok(())
        }
        Item::Pi { target, body } => {
            work.total = count_instruction(work.total, target, body.as_slice());
            work.items = after;
            Ok(())
        }
    }
}

/// Counts the end of the innermost element, and answers whether one was open.
fn size_end(work: &mut Sizing) -> bool
    requires { work.old.items.now ≡ [] }
    ensures ends { OnTrue result (Goes work.old work.new) }
    ensures all { OnFalse result (total_of work.old ≡ work.new.total) }
{
    let total = work.total;
    match work.waiting.pop() {
        None => false,
        Some(waiting) => {
            work.total = count_end(total, waiting.name);
            work.items = waiting.later;
            true
        }
    }
}

/// Counts an item or the end of an element, and answers whether there was one.
fn step(work: &mut Sizing) -> Result<bool, NoMemory>
    ensures goes { IfOk result (λ more. OnTrue more (Goes work.old work.new)) }
    ensures all { IfOk result (λ more. OnFalse more (total_of work.old ≡ work.new.total)) }
{
    match work.items.split_first() {
        None => Ok(size_end(work)),
        Some((item, after)) => {
            size_item(work, item, after)?;
            Ok(true)
        }
    }
}

/// Counts all that is left.
fn size_all(work: &mut Sizing) -> Result<(), NoMemory>
    ensures { OnOk result (work.new.total ≡ total_of work.old) }
{
    let mut more = true;
    while more {
        more = step(work)?;
    }
    Ok(())
}

/// How many bytes `write_article` gives of a node, or 2^64 - 1 where they are more, which no memory holds. The text is not
/// made: memory is taken only for the elements that are open, and their depth is limited by it alone.
pub fn written_size(alloc: Global, node: &Node) -> Result<u64, NoMemory>
    ensures { IfOk result (λ n. n ≡ min (length (encode_utf8_all (spec.write node.now))) (2 ^ 64 - 1)) }
{
    let (none, _) = node.items.as_slice().split_at(0);
    let mut work = Sizing {
        total: 0,
        items: none,
        waiting: Vec::new(alloc),
    };
    size_element(&mut work, node, none)?;
    size_all(&mut work)?;
    Ok(work.total)
}
