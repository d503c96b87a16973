//! The text of a node.

ghost use Rattle.std.specs.Prelude.{◌≡◌, ◌∷◌, [], IfOk, OnOk, encode_utf8_all};
ghost use Rattle.std.specs.Bool.{OnTrue, OnFalse};
ghost use Rattle.document_trees.specs.declared.nodes.Item.TheVariants.{Element};
ghost use Rattle.article_tree.specs.Writing as spec;
ghost use Rattle.article_tree.specs.WritingSteps.{Writes, WritesOn, whole_of};

use crate::written::{put_comment, put_end, put_instruction, put_run, put_tag};
use document_trees::{Item, Node};
use jats_chars::{Name, NoMemory, Text};
use std::alloc::Global;

/// An element that is open, and the items behind it.
#[derive(Clone, Copy, Debug, Drop)]
pub struct Waiting<'a> {
    pub name: &'a Name,
    pub later: &'a [Item],
}

/// A text under way: what is written, the items that come next, and the elements that are open, the innermost last.
#[derive(Debug, Drop)]
pub struct Writing<'a> {
    pub out: Text,
    pub items: &'a [Item],
    pub waiting: Vec<Waiting<'a>>,
}

/// Writes an element that is empty, or its start tag, and goes into it.
fn write_element<'a>(
    work: &mut Writing<'a>,
    node: &'a Node,
    after: &'a [Item],
) -> Result<(), NoMemory>
    ensures { OnOk result (WritesOn (Element node.now ∷ after.now) work.old work.new) }
{
    put_tag(&mut work.out, &node.name, node.atts.as_slice())?;
    let inside = node.items.as_slice();
    if inside.is_empty() {
        work.out.push_slice(&['/', '>'])?;
        work.items = after;
    } else {
        work.out.push('>')?;
        work.waiting.push(Waiting {
            name: &node.name,
            later: after,
        })?;
        work.items = inside;
    }
    Ok(())
}

/// Writes an item.
fn write_item<'a>(work: &mut Writing<'a>, item: &'a Item, after: &'a [Item]) -> Result<(), NoMemory>
    requires { work.old.items.now ≡ item.now ∷ after.now }
    ensures { OnOk result (Writes work.old work.new) }
{
    match item {
        Item::Element(node) => write_element(work, node, after),
        Item::Chars { text, plain } => {
            put_run(&mut work.out, text.as_slice(), *plain)?;
            work.items = after;
            Ok(())
        }
        Item::Comment(text) => {
            put_comment(&mut work.out, text.as_slice())?;
            work.items = after;
            Ok(())
        }
        Item::Pi { target, body } => {
            put_instruction(&mut work.out, target, body.as_slice())?;
            work.items = after;
            Ok(())
        }
    }
}

/// Writes the end of the innermost element, and answers whether one was open.
fn end_element(work: &mut Writing) -> Result<bool, NoMemory>
    requires { work.old.items.now ≡ [] }
    ensures ends { IfOk result (λ more. OnTrue more (Writes work.old work.new)) }
    ensures all { IfOk result (λ more. OnFalse more (whole_of work.old ≡ work.new.out)) }
{
    match work.waiting.pop() {
        None => Ok(false),
        Some(waiting) => {
            put_end(&mut work.out, waiting.name)?;
            work.items = waiting.later;
            Ok(true)
        }
    }
}

/// Writes an item or the end of an element, and answers whether there was one.
fn step(work: &mut Writing) -> Result<bool, NoMemory>
    ensures goes { IfOk result (λ more. OnTrue more (Writes work.old work.new)) }
    ensures all { IfOk result (λ more. OnFalse more (whole_of work.old ≡ work.new.out)) }
{
    match work.items.split_first() {
        None => end_element(work),
        Some((item, after)) => {
            write_item(work, item, after)?;
            Ok(true)
        }
    }
}

/// Writes all that is left.
fn write_all(work: &mut Writing) -> Result<(), NoMemory>
    ensures { OnOk result (work.new.out ≡ whole_of work.old) }
{
    let mut more = true;
    while more {
        more = step(work)?;
    }
    Ok(())
}

/// The text of a node.
fn text_of(alloc: Global, node: &Node) -> Result<Text, NoMemory>
    ensures { IfOk result (λ text. text ≡ spec.write node.now) }
{
    let (none, _) = node.items.as_slice().split_at(0);
    let mut work = Writing {
        out: Text::new(alloc),
        items: none,
        waiting: Vec::new(alloc),
    };
    write_element(&mut work, node, none)?;
    write_all(&mut work)?;
    let Writing { out, .. } = work;
    Ok(out)
}

/// The text of a node, in UTF-8 (XML 1.0, 3.1): tags with attributes in their order, runs, comments and processing
/// instructions. What has another meaning as it stands is written as a reference, and a run that is not plain is told from
/// one that is; of a writable node the text is read back as the same node, whatever is declared. The depth of a node is
/// limited by memory alone.
pub fn write_article(alloc: Global, node: &Node) -> Result<Vec<u8>, NoMemory>
    ensures { IfOk result (λ bytes. bytes.items ≡ encode_utf8_all (spec.write node.now)) }
{
    let text = text_of(alloc, node)?;
    let bytes: String = text.as_slice().iter().copied().collect(alloc)?;
    Ok(bytes.into_bytes())
}
