//! Articles with their defaults.

ghost use Rattle.std.specs.Prelude.{◌≡◌, ◌∷◌, ◌++◌, [], IfOk, OnOk, slice_get};
ghost use Rattle.std.specs.Bool.{OnTrue, OnFalse};
ghost use Rattle.std.specs.List.{flat_map};
ghost use Rattle.std.specs.Option.{option_copied, option_map_or};
ghost use Rattle.document_trees.specs.Trees as tree;
ghost use Rattle.document_trees.specs.declared.nodes.Item.TheVariants.{Element};
ghost use Rattle.attlist_merge.specs.Lists.{value_in};
ghost use Rattle.article_validator.specs.Filling as spec;
ghost use Rattle.article_validator.specs.FillingSteps.{Fills, whole_of};
ghost use Rattle.article_validator.specs.Listing.{one_or_none};

use crate::attributes::list_or;
use crate::links::value_of;
use crate::specified::Specified;
use attlist_merge::{AttList, Definition};
use decl_set::DeclSet;
use document_trees::{AttValues, Item, ItemList, Node};
use jats_chars::{Name, NoMemory, Text};
use std::alloc::Global;

/// An element that waits for one in it, with the items that are still to be filled behind that.
#[derive(Debug, Drop)]
pub struct Waiting<'a> {
    pub node: Node,
    pub later: &'a [Item],
}

/// An element with the items that are filled, those that come next, and the elements around it, the innermost last.
#[derive(Debug, Drop)]
pub struct Filling<'a> {
    pub node: Node,
    pub later: &'a [Item],
    pub waiting: Vec<Waiting<'a>>,
}

fn copied_one(alloc: Global, att: &(Name, Text)) -> Result<(Name, Text), NoMemory>
    ensures { IfOk result (λ copy. copy ≡ att.now) }
{
    let name = att.0.copy(alloc)?;
    let value = att.1.copy(alloc)?;
    Ok((name, value))
}

/// The same attributes.
fn copied(alloc: Global, atts: &[(Name, Text)]) -> Result<AttValues, NoMemory>
    ensures { IfOk result (λ copy. copy ≡ atts.now) }
{
    let mut copy = AttValues::new(alloc);
    for att in atts {
        copy.push(copied_one(alloc, att)?)?;
    }
    Ok(copy)
}

/// The default or fixed value of an attribute that is not specified.
fn default_of(
    alloc: Global,
    specified: &Specified,
    name: &Name,
    definition: &Definition,
) -> Result<Option<(Name, Text)>, NoMemory>
    ensures { IfOk result (λ o. one_or_none o ≡ spec.default_of specified.now (name.now, definition.now)) }
{
    if specified.has(name) {
        return Ok(None);
    }
    match value_of(&definition.preset) {
        None => Ok(None),
        Some(value) => Ok(Some((name.copy(alloc)?, value.copy(alloc)?))),
    }
}

fn default_at(
    alloc: Global,
    list: &AttList,
    specified: &Specified,
    at: usize,
) -> Result<Option<(Name, Text)>, NoMemory>
    ensures { IfOk result (λ o. one_or_none o ≡ option_map_or (spec.default_of specified.now) (slice_get list.now at) []) }
{
    match list.get(at) {
        None => Ok(None),
        Some((name, definition)) => default_of(alloc, specified, name, definition),
    }
}

fn put_value(atts: &mut AttValues, value: Option<(Name, Text)>) -> Result<(), NoMemory>
    ensures { OnOk result (atts.new ≡ atts.old ++ one_or_none value) }
{
    match value {
        None => Ok(()),
        Some(value) => atts.push(value),
    }
}

/// Puts the defaults of the attributes that are not specified behind others.
fn put_defaults(
    alloc: Global,
    all: &mut AttValues,
    list: &AttList,
    atts: &[(Name, Text)],
) -> Result<(), NoMemory>
    ensures { OnOk result (all.new ≡ all.old ++ flat_map (spec.default_of atts.now) list.now) }
{
    let specified = Specified::new(alloc, atts)?;
    for at in 0..list.len() {
        let value = default_at(alloc, list, &specified, at)?;
        put_value(all, value)?;
    }
    Ok(())
}

/// The attributes of an element, and behind them the defaults of those that are not specified.
fn filled_atts(
    alloc: Global,
    set: &DeclSet,
    name: &Name,
    atts: &[(Name, Text)],
) -> Result<AttValues, NoMemory>
    ensures { IfOk result (λ all. all ≡ spec.filled_atts set.now name.now atts.now) }
{
    let mut all = copied(alloc, atts)?;
    let none = AttList::new(alloc);
    let list = list_or(set.atts_of(name), &none);
    match set.content_of(name) {
        None => {}
        Some(_) => put_defaults(alloc, &mut all, list, atts)?,
    }
    Ok(all)
}

/// The element with its defaults, without its items.
fn begun(alloc: Global, set: &DeclSet, node: &Node) -> Result<Node, NoMemory>
    ensures { IfOk result (λ n. n ≡ record { name = node.now.name; atts = spec.filled_atts set.now node.now.name node.now.atts; items = tree.nothing }) }
{
    let name = node.name.copy(alloc)?;
    let atts = filled_atts(alloc, set, &node.name, node.atts.as_slice())?;
    Ok(Node::new(name, atts, ItemList::new(alloc)))
}

/// Goes into an element.
fn enter_element<'a>(
    alloc: Global,
    set: &DeclSet,
    work: &mut Filling<'a>,
    node: &'a Node,
    after: &'a [Item],
) -> Result<(), NoMemory>
    requires { work.old.later.now ≡ Element node.now ∷ after.now }
    ensures { OnOk result (Fills set.now work.old work.new) }
{
    let inner = begun(alloc, set, node)?;
    let outer = std::mem::replace(&mut work.node, inner);
    work.waiting.push(Waiting {
        node: outer,
        later: after,
    })?;
    work.later = node.items.as_slice();
    Ok(())
}

/// Fills an item.
fn fill_item<'a>(
    alloc: Global,
    set: &DeclSet,
    work: &mut Filling<'a>,
    item: &'a Item,
    after: &'a [Item],
) -> Result<(), NoMemory>
    requires { work.old.later.now ≡ item.now ∷ after.now }
    ensures { OnOk result (Fills set.now work.old work.new) }
{
    match item {
        Item::Element(node) => enter_element(alloc, set, work, node, after),
        Item::Chars { text, plain } => {
            let text = text.copy(alloc)?;
            work.node.push(Item::Chars {
                text,
                plain: *plain,
            })?;
            work.later = after;
            Ok(())
        }
        Item::Comment(text) => {
            work.node.push(Item::Comment(text.copy(alloc)?))?;
            work.later = after;
            Ok(())
        }
        Item::Pi { target, body } => {
            let target = target.copy(alloc)?;
            let body = body.copy(alloc)?;
            work.node.push(Item::Pi { target, body })?;
            work.later = after;
            Ok(())
        }
    }
}

/// Ends the element, and answers whether one was around it.
fn leave_element(set: &DeclSet, work: &mut Filling) -> Result<bool, NoMemory>
    requires { work.old.later.now ≡ [] }
    ensures leaves { IfOk result (λ more. OnTrue more (Fills set.now work.old work.new)) }
    ensures all { IfOk result (λ more. OnFalse more (whole_of set.now work.old ≡ work.new.node)) }
{
    let _ = set.count();
    match work.waiting.pop() {
        None => Ok(false),
        Some(waiting) => {
            let Waiting { node, later } = waiting;
            let inner = std::mem::replace(&mut work.node, node);
            work.node.push(Item::Element(inner))?;
            work.later = later;
            Ok(true)
        }
    }
}

/// Fills an item or ends an element, and answers whether there was one.
fn step(alloc: Global, set: &DeclSet, work: &mut Filling) -> Result<bool, NoMemory>
    ensures goes { IfOk result (λ more. OnTrue more (Fills set.now work.old work.new)) }
    ensures all { IfOk result (λ more. OnFalse more (whole_of set.now work.old ≡ work.new.node)) }
{
    match work.later.split_first() {
        None => leave_element(set, work),
        Some((item, after)) => {
            fill_item(alloc, set, work, item, after)?;
            Ok(true)
        }
    }
}

/// Fills all that is left.
fn fill_all(alloc: Global, set: &DeclSet, work: &mut Filling) -> Result<(), NoMemory>
    ensures { OnOk result (work.new.node ≡ whole_of set.now work.old) }
{
    let mut more = true;
    while more {
        more = step(alloc, set, work)?;
    }
    Ok(())
}

/// The article with its defaults (XML 1.0, 3.3.2): at each element that is declared, the default and fixed values of the
/// attributes that are not specified stand behind those that are, in order of declaration, and nothing else is changed.
/// Filling again changes nothing. The depth of an article is limited by memory alone.
pub fn fill(alloc: Global, set: &DeclSet, node: &Node) -> Result<Node, NoMemory>
    ensures { IfOk result (λ n. n ≡ spec.filled set.now node.now) }
{
    let mut work = Filling {
        node: begun(alloc, set, node)?,
        later: node.items.as_slice(),
        waiting: Vec::new(alloc),
    };
    fill_all(alloc, set, &mut work)?;
    let Filling { node, .. } = work;
    Ok(node)
}
