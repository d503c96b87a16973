//! What is wrong with the links of a node: its IDs, and what refers to IDs or names an entity.

ghost use Rattle.std.specs.Prelude.{◌≡◌, ◌++◌, ◌∷◌, [], map, OnOk, IfOk, option_map, bytes_eq};
ghost use Rattle.std.specs.List.{flat_map};
ghost use Rattle.indexmap.specs.IndexSet.{insert_key, insert_all};
ghost use Rattle.attribute_types.specs.Spacing.{collapsed, words_in};
ghost use Rattle.article_validator.specs.Faults.{invalid};
ghost use Rattle.article_validator.specs.Links as spec;
ghost use Rattle.article_validator.specs.Listing.{one_or_none, kept_causes};

use crate::causes::put;
use crate::links::{Link, default_link_at, keep, specified_link};
use crate::specified::Specified;
use crate::words::first_word;
use crate::{InvalidCause, InvalidList};
use attlist_merge::AttList;
use attribute_types::{AttType, collapse};
use decl_set::{DeclSet, EntityDef};
use document_trees::Node;
use indexmap::IndexSet;
use jats_chars::{Name, NoMemory, Text};
use std::alloc::Global;

fn repeated(
    alloc: Global,
    seen: &IndexSet<Text>,
    name: &Name,
    id: &Text,
) -> Result<Option<InvalidCause>, NoMemory>
    ensures { IfOk result (λ o. one_or_none o ≡ spec.repeated seen.now.keys name.now id.now) }
{
    if seen.contains(id) {
        let name = name.copy(alloc)?;
        Ok(Some(InvalidCause::RepeatedId(name, id.copy(alloc)?)))
    } else {
        Ok(None)
    }
}

fn untargeted(
    alloc: Global,
    all: &IndexSet<Text>,
    name: &Name,
    word: &[char],
) -> Result<Option<InvalidCause>, NoMemory>
    ensures { IfOk result (λ o. one_or_none o ≡ spec.untargeted all.now.keys name.now word.now) }
{
    let target = Text::from_slice(alloc, word)?;
    if all.contains(&target) {
        Ok(None)
    } else {
        Ok(Some(InvalidCause::NoTarget(name.copy(alloc)?, target)))
    }
}

fn is_unparsed_name(set: &DeclSet, name: &Name) -> bool
    ensures { result ≡ spec.is_unparsed set.now name.now }
{
    match set.entity_of(name) {
        Some(EntityDef::Unparsed(_, _)) => true,
        _ => false,
    }
}

/// Whether the word is the name of an unparsed entity.
fn is_unparsed(alloc: Global, set: &DeclSet, word: &[char]) -> Result<bool, NoMemory>
    ensures { IfOk result (λ b. b ≡ spec.is_unparsed set.now word.now) }
{
    let _ = set.entity_count();
    match Name::from_slice(alloc, word)? {
        None => Ok(false),
        Some(name) => Ok(is_unparsed_name(set, &name)),
    }
}

fn unnamed(
    alloc: Global,
    set: &DeclSet,
    name: &Name,
    word: &[char],
) -> Result<Option<InvalidCause>, NoMemory>
    ensures { IfOk result (λ o. one_or_none o ≡ spec.unnamed set.now name.now word.now) }
{
    if is_unparsed(alloc, set, word)? {
        Ok(None)
    } else {
        let name = name.copy(alloc)?;
        Ok(Some(InvalidCause::NoEntity(name, Text::from_slice(alloc, word)?)))
    }
}

fn put_untargeted(
    alloc: Global,
    list: &mut InvalidList,
    number: u64,
    node: &Node,
    all: &IndexSet<Text>,
    name: &Name,
    value: &Text,
) -> Result<(), NoMemory>
    ensures { OnOk result (list.new ≡ list.old ++ map (invalid number node.now.name) (flat_map (spec.untargeted all.now.keys name.now) (words_in (collapsed value.now)))) }
{
    let value = collapse(alloc, value)?;
    let mut rest = value.as_slice();
    while let Some((word, next)) = first_word(rest) {
        let cause = untargeted(alloc, all, name, word)?;
        put(alloc, list, number, node, cause)?;
        rest = next;
    }
    Ok(())
}

fn put_unnamed(
    alloc: Global,
    list: &mut InvalidList,
    number: u64,
    node: &Node,
    set: &DeclSet,
    name: &Name,
    value: &Text,
) -> Result<(), NoMemory>
    ensures { OnOk result (list.new ≡ list.old ++ map (invalid number node.now.name) (flat_map (spec.unnamed set.now name.now) (words_in (collapsed value.now)))) }
{
    let value = collapse(alloc, value)?;
    let mut rest = value.as_slice();
    while let Some((word, next)) = first_word(rest) {
        let cause = unnamed(alloc, set, name, word)?;
        put(alloc, list, number, node, cause)?;
        rest = next;
    }
    Ok(())
}

fn put_repeated(
    alloc: Global,
    list: &mut InvalidList,
    number: u64,
    node: &Node,
    seen: &mut IndexSet<Text>,
    name: &Name,
    value: &Text,
) -> Result<(), NoMemory>
    ensures causes { OnOk result (list.new ≡ list.old ++ map (invalid number node.now.name) (spec.repeated seen.old.keys name.now (collapsed value.now))) }
    ensures kept { OnOk result (seen.new.keys ≡ insert_key bytes_eq seen.old.keys (collapsed value.now)) }
{
    let id = collapse(alloc, value)?;
    let cause = repeated(alloc, seen, name, &id)?;
    put(alloc, list, number, node, cause)?;
    keep(seen, id)
}

/// Puts what is wrong with a link behind the others, and keeps the ID that it is.
fn put_link(
    alloc: Global,
    list: &mut InvalidList,
    number: u64,
    node: &Node,
    set: &DeclSet,
    all: &IndexSet<Text>,
    seen: &mut IndexSet<Text>,
    link: Link,
) -> Result<(), NoMemory>
    ensures causes { OnOk result (list.new ≡ list.old ++ map (invalid number node.now.name) (spec.link_causes set.now all.now.keys seen.old.keys (spec.link link.entry.0.now link.entry.1.now link.entry.2.now))) }
    ensures kept { OnOk result (seen.new.keys ≡ insert_all bytes_eq seen.old.keys (spec.ids_of (spec.link link.entry.0.now link.entry.1.now link.entry.2.now))) }
{
    let (name, kind, value) = link;
    match kind {
        AttType::Id => put_repeated(alloc, list, number, node, seen, name, value),
        AttType::Idref | AttType::Idrefs => {
            put_untargeted(alloc, list, number, node, all, name, value)
        }
        AttType::Entity | AttType::Entities => {
            put_unnamed(alloc, list, number, node, set, name, value)
        }
        _ => Ok(()),
    }
}

fn put_some(
    alloc: Global,
    list: &mut InvalidList,
    number: u64,
    node: &Node,
    set: &DeclSet,
    all: &IndexSet<Text>,
    seen: &mut IndexSet<Text>,
    link: Option<Link>,
) -> Result<(), NoMemory>
    ensures causes { OnOk result (list.new ≡ list.old ++ map (invalid number node.now.name) (kept_causes set.now all.now.keys seen.old.keys (one_or_none (option_map (λ l. spec.link l.0.now l.1.now l.2.now) link.entry)))) }
    ensures kept { OnOk result (seen.new.keys ≡ insert_all bytes_eq seen.old.keys (flat_map spec.ids_of (one_or_none (option_map (λ l. spec.link l.0.now l.1.now l.2.now) link.entry)))) }
{
    match link {
        None => Ok(()),
        Some(link) => put_link(alloc, list, number, node, set, all, seen, link),
    }
}

fn put_specified(
    alloc: Global,
    list: &mut InvalidList,
    number: u64,
    node: &Node,
    set: &DeclSet,
    all: &IndexSet<Text>,
    seen: &mut IndexSet<Text>,
    atts: &AttList,
) -> Result<(), NoMemory>
    ensures causes { OnOk result (list.new ≡ list.old ++ map (invalid number node.now.name) (kept_causes set.now all.now.keys seen.old.keys (flat_map (spec.specified_link atts.now) node.now.atts))) }
    ensures kept { OnOk result (seen.new.keys ≡ insert_all bytes_eq seen.old.keys (flat_map spec.ids_of (flat_map (spec.specified_link atts.now) node.now.atts))) }
{
    let mut rest = node.atts.as_slice();
    while let Some((att, after)) = rest.split_first() {
        let link = specified_link(atts, att);
        put_some(alloc, list, number, node, set, all, seen, link)?;
        rest = after;
    }
    Ok(())
}

fn put_defaults(
    alloc: Global,
    list: &mut InvalidList,
    number: u64,
    node: &Node,
    set: &DeclSet,
    all: &IndexSet<Text>,
    seen: &mut IndexSet<Text>,
    atts: &AttList,
) -> Result<(), NoMemory>
    ensures causes { OnOk result (list.new ≡ list.old ++ map (invalid number node.now.name) (kept_causes set.now all.now.keys seen.old.keys (flat_map (spec.default_link node.now.atts) atts.now))) }
    ensures kept { OnOk result (seen.new.keys ≡ insert_all bytes_eq seen.old.keys (flat_map spec.ids_of (flat_map (spec.default_link node.now.atts) atts.now))) }
{
    let specified = Specified::new(alloc, node.atts.as_slice())?;
    for at in 0..atts.len() {
        let link = default_link_at(atts, &specified, at);
        put_some(alloc, list, number, node, set, all, seen, link)?;
    }
    Ok(())
}

/// Puts what is wrong with the links of a node that is declared, and has these attributes, behind the others, and keeps its
/// IDs.
pub fn put_links(
    alloc: Global,
    list: &mut InvalidList,
    number: u64,
    node: &Node,
    set: &DeclSet,
    all: &IndexSet<Text>,
    seen: &mut IndexSet<Text>,
    atts: &AttList,
) -> Result<(), NoMemory>
    ensures causes { OnOk result (list.new ≡ list.old ++ map (invalid number node.now.name) (kept_causes set.now all.now.keys seen.old.keys (flat_map (spec.specified_link atts.now) node.now.atts ++ flat_map (spec.default_link node.now.atts) atts.now))) }
    ensures kept { OnOk result (seen.new.keys ≡ insert_all bytes_eq seen.old.keys (flat_map spec.ids_of (flat_map (spec.specified_link atts.now) node.now.atts ++ flat_map (spec.default_link node.now.atts) atts.now))) }
{
    put_specified(alloc, list, number, node, set, all, seen, atts)?;
    put_defaults(alloc, list, number, node, set, all, seen, atts)
}
