//! The first node that does not meet its declaration.

ghost use Rattle.std.specs.Prelude.{◌≡◌, ◌↔◌, Some, None, IfOk, option_map, option_and_then, slice_get};
ghost use Rattle.attlist_merge.specs.Oddness.{first_some};
ghost use Rattle.document_trees.specs.Trees.{EachNode};
ghost use Rattle.decl_set.specs.Validity.{Meets};
ghost use Rattle.decl_set.specs.Declarations.{content_in, attributes_in};
ghost use Rattle.decl_set.specs.declared.breaks.Cause.TheVariants as cause;
ghost use Rattle.article_validator.specs.First as spec;

use crate::attributes::{is_allowed, list_or};
use crate::content::{derives, is_text_allowed};
use crate::specified::Specified;
use attlist_merge::{AttList, Definition};
use content_models::{Content, text_kind};
use decl_set::{BrokenDecl, Cause, DeclSet};
use document_trees::{Node, Nodes};
use jats_chars::{Name, NoMemory, Text};
use position_automata::Automaton;
use std::alloc::Global;

fn unallowed(alloc: Global, list: &AttList, att: &(Name, Text)) -> Result<Option<Name>, NoMemory>
    ensures { IfOk result (λ o. o ≡ spec.unallowed list.now att.now) }
{
    if is_allowed(list, &att.0, &att.1) {
        Ok(None)
    } else {
        Ok(Some(att.0.copy(alloc)?))
    }
}

fn first_unallowed(
    alloc: Global,
    list: &AttList,
    atts: &[(Name, Text)],
) -> Result<Option<Name>, NoMemory>
    ensures { IfOk result (λ o. o ≡ first_some (spec.unallowed list.now) atts.now) }
{
    let mut rest = atts;
    while let Some((att, after)) = rest.split_first() {
        match unallowed(alloc, list, att)? {
            Some(name) => return Ok(Some(name)),
            None => rest = after,
        }
    }
    Ok(None)
}

fn ungiven(
    alloc: Global,
    specified: &Specified,
    name: &Name,
    definition: &Definition,
) -> Result<Option<Name>, NoMemory>
    ensures { IfOk result (λ o. o ≡ spec.ungiven specified.now (name.now, definition.now)) }
{
    if specified.is_given(name, definition) {
        Ok(None)
    } else {
        Ok(Some(name.copy(alloc)?))
    }
}

fn ungiven_at(
    alloc: Global,
    list: &AttList,
    specified: &Specified,
    at: usize,
) -> Result<Option<Name>, NoMemory>
    ensures { IfOk result (λ o. o ≡ option_and_then (spec.ungiven specified.now) (slice_get list.now at)) }
{
    match list.get(at) {
        None => Ok(None),
        Some((name, definition)) => ungiven(alloc, specified, name, definition),
    }
}

fn first_ungiven(
    alloc: Global,
    list: &AttList,
    atts: &[(Name, Text)],
) -> Result<Option<Name>, NoMemory>
    ensures { IfOk result (λ o. o ≡ first_some (spec.ungiven atts.now) list.now) }
{
    let specified = Specified::new(alloc, atts)?;
    for at in 0..list.len() {
        match ungiven_at(alloc, list, &specified, at)? {
            Some(name) => return Ok(Some(name)),
            None => {}
        }
    }
    Ok(None)
}

fn wrong_attribute(
    alloc: Global,
    list: &AttList,
    atts: &[(Name, Text)],
) -> Result<Option<Name>, NoMemory>
    ensures { IfOk result (λ o. o ≡ spec.wrong_attribute list.now atts.now) }
{
    match first_unallowed(alloc, list, atts)? {
        Some(name) => Ok(Some(name)),
        None => first_ungiven(alloc, list, atts),
    }
}

fn attribute_cause(
    alloc: Global,
    list: &AttList,
    atts: &[(Name, Text)],
) -> Result<Option<Cause>, NoMemory>
    ensures { IfOk result (λ o. o ≡ option_map (λ name. cause.Attribute name) (spec.wrong_attribute list.now atts.now)) }
{
    match wrong_attribute(alloc, list, atts)? {
        None => Ok(None),
        Some(name) => Ok(Some(Cause::Attribute(name))),
    }
}

fn cause_by(
    alloc: Global,
    content: &Content,
    automaton: &Automaton,
    list: &AttList,
    node: &Node,
) -> Result<Option<Cause>, NoMemory>
    requires { automaton.now ≡ content.now }
    ensures { IfOk result (λ o. o ≡ spec.broken_by (Some content.now) list.now node.now) }
{
    if !derives(automaton, node.items.as_slice()) {
        return Ok(Some(Cause::Content));
    }
    if !is_text_allowed(text_kind(content), node.items.as_slice()) {
        return Ok(Some(Cause::Text));
    }
    attribute_cause(alloc, list, node.atts.as_slice())
}

fn cause_in(alloc: Global, set: &DeclSet, node: &Node) -> Result<Option<Cause>, NoMemory>
    ensures { IfOk result (λ o. o ≡ spec.broken_by (content_in set.now node.now.name) (attributes_in set.now node.now.name) node.now) }
{
    let none = AttList::new(alloc);
    let list = list_or(set.atts_of(&node.name), &none);
    match set.content_of(&node.name) {
        None => Ok(Some(Cause::Undeclared)),
        Some(content) => match set.automaton_of(&node.name) {
            None => Ok(Some(Cause::Undeclared)),
            Some(automaton) => cause_by(alloc, content, automaton, list, node),
        },
    }
}

fn broken_in(alloc: Global, set: &DeclSet, node: &Node) -> Result<Option<BrokenDecl>, NoMemory>
    ensures { IfOk result (λ o. o ≡ spec.broken_in set.now node.now) }
{
    match cause_in(alloc, set, node)? {
        None => Ok(None),
        Some(cause) => Ok(Some(BrokenDecl {
            element: node.name.copy(alloc)?,
            cause,
        })),
    }
}

#[tactic(auto, unfolding(crate::specs::First::first_broken))]
fn first_in(alloc: Global, set: &DeclSet, node: &Node) -> Result<Option<BrokenDecl>, NoMemory>
    ensures { IfOk result (λ o. o ≡ spec.first_broken set.now node.now) }
{
    let mut nodes = Nodes::new(alloc, node);
    while let Some(node) = nodes.next()? {
        match broken_in(alloc, set, node)? {
            Some(broken) => return Ok(Some(broken)),
            None => {}
        }
    }
    Ok(None)
}

/// The first node in document order that does not meet its declaration, and the first of these that holds of it: its
/// element is not declared, the names of its children are not derived, other items stand in it than its content allows,
/// an attribute is not declared or not in its class, or else a required one is not there (XML 1.0, 3, Element Valid, 3.1,
/// 3.3.1 and 3.3.2). None exactly where every node meets its declaration.
pub fn first_broken(
    alloc: Global,
    set: &DeclSet,
    node: &Node,
) -> Result<Option<BrokenDecl>, NoMemory>
    ensures value { IfOk result (λ o. o ≡ spec.first_broken set.now node.now) }
    ensures none { IfOk result (λ o. (o ≡ None) ↔ EachNode (Meets set.now) node.now) }
{
    let _ = set.count();
    first_in(alloc, set, node)
}
