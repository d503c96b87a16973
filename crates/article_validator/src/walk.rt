//! All that is wrong in an article.

ghost use Rattle.std.specs.Prelude.{◌≡◌, ◌↔◌, ◌++◌, [], suc, map, option_map, OnOk, IfOk, IfSome, bytes_eq};
ghost use Rattle.std.specs.List.{flat_map};
ghost use Rattle.indexmap.specs.IndexSet.{insert_all};
ghost use Rattle.document_trees.specs.Trees.{nodes_in};
ghost use Rattle.decl_set.specs.Validity.{IsValid};
ghost use Rattle.article_validator.specs.Faults as spec;
ghost use Rattle.article_validator.specs.Links.{AreLinked, ids_in, ids_of, links_by, links_in};
ghost use Rattle.article_validator.specs.Listing.{kept_causes, kept_from};
ghost use Rattle.article_validator.specs.Structure.{causes_by, causes_in};

use crate::attributes::list_or;
use crate::causes::{put, put_causes};
use crate::link_causes::put_links;
use crate::links::ids_of;
use crate::{InvalidCause, InvalidList};
use attlist_merge::AttList;
use content_models::Content;
use decl_set::DeclSet;
use document_trees::{Node, Nodes};
use indexmap::IndexSet;
use jats_chars::{NoMemory, Text};
use position_automata::Automaton;
use std::alloc::Global;

fn put_root(alloc: Global, list: &mut InvalidList, root: &Text, node: &Node) -> Result<(), NoMemory>
    ensures { OnOk result (list.new ≡ list.old ++ spec.root_faults root.now node.now) }
{
    if *root == *node.name.text() {
        Ok(())
    } else {
        put(alloc, list, 1, node, Some(InvalidCause::Root))
    }
}

/// The next number. Where it does not fit, memory is said to run out: no machine holds so many nodes.
fn next_number(number: u64) -> Result<u64, NoMemory>
    ensures { IfOk result (λ n. n ≡ suc number) }
{
    match number.checked_add(1) {
        Some(next) => Ok(next),
        None => Err(NoMemory),
    }
}

/// Puts all causes of a node of which this is declared behind the others, and keeps its IDs.
fn put_by(
    alloc: Global,
    list: &mut InvalidList,
    number: u64,
    node: &Node,
    set: &DeclSet,
    all: &IndexSet<Text>,
    seen: &mut IndexSet<Text>,
    declared: Option<(&Content, &Automaton)>,
    atts: &AttList,
) -> Result<(), NoMemory>
    requires { IfSome declared (λ d. d.1.now ≡ d.0.now) }
    ensures causes { OnOk result (list.new ≡ list.old ++ map (spec.invalid number node.now.name) (causes_by (option_map (λ d. d.0.now) declared.entry) atts.now node.now ++ kept_causes set.now all.now.keys seen.old.keys (links_by (option_map (λ d. d.0.now) declared.entry) atts.now node.now.atts))) }
    ensures kept { OnOk result (seen.new.keys ≡ insert_all bytes_eq seen.old.keys (flat_map ids_of (links_by (option_map (λ d. d.0.now) declared.entry) atts.now node.now.atts))) }
{
    put_causes(alloc, list, number, declared, atts, node)?;
    match declared {
        None => Ok(()),
        Some(_) => put_links(alloc, list, number, node, set, all, seen, atts),
    }
}

/// Puts all causes of a node behind the others, and keeps its IDs.
fn put_node(
    alloc: Global,
    list: &mut InvalidList,
    number: u64,
    node: &Node,
    set: &DeclSet,
    all: &IndexSet<Text>,
    seen: &mut IndexSet<Text>,
) -> Result<(), NoMemory>
    ensures causes { OnOk result (list.new ≡ list.old ++ map (spec.invalid number node.now.name) (causes_in set.now node.now ++ kept_causes set.now all.now.keys seen.old.keys (links_in set.now node.now))) }
    ensures kept { OnOk result (seen.new.keys ≡ insert_all bytes_eq seen.old.keys (ids_in set.now node.now)) }
{
    let none = AttList::new(alloc);
    let atts = list_or(set.atts_of(&node.name), &none);
    let declared = set.declared_of(&node.name);
    put_by(alloc, list, number, node, set, all, seen, declared, atts)
}

#[tactic(auto, using(crate::proofs::Appending::parted))]
fn put_nodes(
    alloc: Global,
    list: &mut InvalidList,
    node: &Node,
    set: &DeclSet,
    all: &IndexSet<Text>,
) -> Result<(), NoMemory>
    ensures { OnOk result (list.new ≡ list.old ++ kept_from set.now all.now.keys 1 [] (nodes_in node.now)) }
{
    let mut seen = IndexSet::new(alloc);
    let mut nodes = Nodes::new(alloc, node);
    let mut number: u64 = 0;
    while let Some(node) = nodes.next()? {
        number = next_number(number)?;
        put_node(alloc, list, number, node, set, all, &mut seen)?;
    }
    Ok(())
}

fn list_of(alloc: Global, set: &DeclSet, root: &Text, node: &Node) -> Result<InvalidList, NoMemory>
    ensures { IfOk result (λ list. list ≡ spec.fault_list set.now root.now node.now) }
{
    let all = ids_of(alloc, set, node)?;
    let mut list = InvalidList::new(alloc);
    put_root(alloc, &mut list, root, node)?;
    put_nodes(alloc, &mut list, node, set, &all)?;
    Ok(list)
}

/// All that is wrong in an article, in document order: the nodes are numbered from 1, and each gives its causes in the
/// order of `InvalidCause`, attributes in order and missing ones in order of declaration, and then those of its IDs, its
/// references to IDs and its names of entities (XML 1.0, 3, Element Valid, 3.1, 3.3.1 and 3.3.2). At an element that is
/// not declared nothing else is listed, and its attributes give no ID. First of all stands `Root` where the top element
/// has another name than the root.
///
/// The list is empty exactly where the article is valid from the root, no ID repeats, each reference has its ID, and each
/// name of an entity is that of an unparsed one.
pub fn faults(
    alloc: Global,
    set: &DeclSet,
    root: &Text,
    node: &Node,
) -> Result<InvalidList, NoMemory>
    ensures value { IfOk result (λ list. list ≡ spec.fault_list set.now root.now node.now) }
    ensures none { IfOk result (λ list. (list ≡ []) ↔ (IsValid set.now root.now node.now × AreLinked set.now node.now)) }
{
    let _ = set.count();
    list_of(alloc, set, root, node)
}
