//! What is wrong with the IDs of an article, and with what refers to them or names an entity.

ghost use Rattle.std.specs.Prelude.{◌≡◌, ◌++◌, ◌∷◌, [], List, ℕ, map, OnOk, IfOk, option_map, slice_get, bytes_eq};
ghost use Rattle.std.specs.List.{flat_map};
ghost use Rattle.std.specs.Option.{option_copied, option_map_or};
ghost use Rattle.indexmap.specs.IndexSet.{insert_key, insert_all};
ghost use Rattle.attribute_types.specs.Spacing.{collapsed, words_in};
ghost use Rattle.attlist_merge.specs.Lists.{value_in};
ghost use Rattle.article_validator.specs.Faults.{invalid};
ghost use Rattle.article_validator.specs.Links as spec;
ghost use Rattle.article_validator.specs.Listing.{one_or_none, kept_causes};

use crate::specified::Specified;
use attlist_merge::{AttList, Definition};
use attribute_types::{AttType, Preset, collapse, in_class};
use decl_set::DeclSet;
use document_trees::{Node, Nodes};
use indexmap::IndexSet;
use jats_chars::{Name, NoMemory, Text};
use std::alloc::Global;

/// An attribute with its type and its value, be it specified or a default.
pub type Link<'a> = (&'a Name, &'a AttType, &'a Text);

/// A specified attribute, where it is declared and its value in its class.
pub fn specified_link<'a>(atts: &'a AttList, att: &'a (Name, Text)) -> Option<Link<'a>>
    ensures { one_or_none (option_map (λ l. spec.link l.0.now l.1.now l.2.now) result) ≡ spec.specified_link atts.now att.now }
{
    match atts.definition_of(&att.0) {
        None => None,
        Some(definition) => {
            if in_class(&definition.class, &att.1) {
                Some((&att.0, &definition.kind, &att.1))
            } else {
                None
            }
        }
    }
}

pub fn value_of(preset: &Preset) -> Option<&Text>
    ensures { option_copied result ≡ value_in preset.now }
{
    match preset {
        Preset::Required | Preset::Implied => None,
        Preset::Value(text) | Preset::Fixed(text) => Some(text),
    }
}

/// The default or fixed value of an attribute that is not specified.
fn default_link<'a>(
    specified: &Specified,
    name: &'a Name,
    definition: &'a Definition,
) -> Option<Link<'a>>
    ensures { one_or_none (option_map (λ l. spec.link l.0.now l.1.now l.2.now) result) ≡ spec.default_link specified.now (name.now, definition.now) }
{
    match value_of(&definition.preset) {
        None => None,
        Some(value) => {
            if specified.has(name) {
                None
            } else {
                Some((name, &definition.kind, value))
            }
        }
    }
}

pub fn default_link_at<'a>(atts: &'a AttList, specified: &Specified, at: usize) -> Option<Link<'a>>
    ensures { one_or_none (option_map (λ l. spec.link l.0.now l.1.now l.2.now) result) ≡ option_map_or (spec.default_link specified.now) (slice_get atts.now at) [] }
{
    match atts.get(at) {
        None => None,
        Some((name, definition)) => default_link(specified, name, definition),
    }
}

// ---- IDs

/// Keeps an ID.
pub fn keep(ids: &mut IndexSet<Text>, id: Text) -> Result<(), NoMemory>
    ensures { OnOk result (ids.new.keys ≡ insert_key bytes_eq ids.old.keys id) }
{
    ids.insert(id)?;
    Ok(())
}

/// Keeps the ID that a link is.
fn keep_link(alloc: Global, ids: &mut IndexSet<Text>, link: Option<Link>) -> Result<(), NoMemory>
    ensures { OnOk result (ids.new.keys ≡ insert_all bytes_eq ids.old.keys (flat_map spec.ids_of (one_or_none (option_map (λ l. spec.link l.0.now l.1.now l.2.now) link.entry)))) }
{
    match link {
        Some((_, AttType::Id, value)) => keep(ids, collapse(alloc, value)?),
        _ => Ok(()),
    }
}

fn keep_specified(
    alloc: Global,
    ids: &mut IndexSet<Text>,
    atts: &AttList,
    node: &Node,
) -> Result<(), NoMemory>
    ensures { OnOk result (ids.new.keys ≡ insert_all bytes_eq ids.old.keys (flat_map spec.ids_of (flat_map (spec.specified_link atts.now) node.now.atts))) }
{
    let mut rest = node.atts.as_slice();
    while let Some((att, after)) = rest.split_first() {
        keep_link(alloc, ids, specified_link(atts, att))?;
        rest = after;
    }
    Ok(())
}

fn keep_defaults(
    alloc: Global,
    ids: &mut IndexSet<Text>,
    atts: &AttList,
    node: &Node,
) -> Result<(), NoMemory>
    ensures { OnOk result (ids.new.keys ≡ insert_all bytes_eq ids.old.keys (flat_map spec.ids_of (flat_map (spec.default_link node.now.atts) atts.now))) }
{
    let specified = Specified::new(alloc, node.atts.as_slice())?;
    for at in 0..atts.len() {
        keep_link(alloc, ids, default_link_at(atts, &specified, at))?;
    }
    Ok(())
}

fn keep_links(
    alloc: Global,
    ids: &mut IndexSet<Text>,
    atts: &AttList,
    node: &Node,
) -> Result<(), NoMemory>
    ensures { OnOk result (ids.new.keys ≡ insert_all bytes_eq ids.old.keys (flat_map spec.ids_of (flat_map (spec.specified_link atts.now) node.now.atts ++ flat_map (spec.default_link node.now.atts) atts.now))) }
{
    keep_specified(alloc, ids, atts, node)?;
    keep_defaults(alloc, ids, atts, node)
}

/// Keeps the IDs of a node.
#[tactic(auto, using(crate::proofs::Linkless::none_kept))]
fn keep_node(
    alloc: Global,
    ids: &mut IndexSet<Text>,
    set: &DeclSet,
    node: &Node,
) -> Result<(), NoMemory>
    ensures { OnOk result (ids.new.keys ≡ insert_all bytes_eq ids.old.keys (spec.ids_in set.now node.now)) }
{
    match set.atts_of(&node.name) {
        None => Ok(()),
        Some(atts) => match set.content_of(&node.name) {
            None => Ok(()),
            Some(_) => keep_links(alloc, ids, atts, node),
        },
    }
}

/// The IDs of an article, each once.
#[tactic(auto, using(crate::proofs::Listing::insert_more))]
pub fn ids_of(alloc: Global, set: &DeclSet, node: &Node) -> Result<IndexSet<Text>, NoMemory>
    ensures { IfOk result (λ ids. ids.keys ≡ insert_all bytes_eq [] (spec.all_ids set.now node.now)) }
{
    let mut ids = IndexSet::new(alloc);
    let mut nodes = Nodes::new(alloc, node);
    while let Some(node) = nodes.next()? {
        keep_node(alloc, &mut ids, set, node)?;
    }
    Ok(ids)
}
