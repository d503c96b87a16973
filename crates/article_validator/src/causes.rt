//! What is wrong in one node by its own declaration, listed.

ghost use Rattle.std.specs.Prelude.{◌≡◌, ◌++◌, ◌∷◌, [], Some, map, option_map, OnOk, IfOk, IfSome, slice_get};
ghost use Rattle.std.specs.List.{flat_map};
ghost use Rattle.std.specs.Option.{option_map_or};
ghost use Rattle.document_trees.specs.Seen.{items_of};
ghost use Rattle.article_validator.specs.Faults.{invalid};
ghost use Rattle.article_validator.specs.Listing.{one_or_none};
ghost use Rattle.article_validator.specs.Structure as spec;

use crate::content::{derives, is_text_allowed};
use crate::specified::Specified;
use crate::{Invalid, InvalidCause, InvalidList};
use attlist_merge::AttList;
use attribute_types::in_class;
use content_models::{Content, text_kind};
use document_trees::{Item, Node};
use jats_chars::{Name, NoMemory, Text};
use position_automata::Automaton;
use std::alloc::Global;

/// Puts a cause at a node, where there is one, behind the others.
pub fn put(
    alloc: Global,
    list: &mut InvalidList,
    number: u64,
    node: &Node,
    cause: Option<InvalidCause>,
) -> Result<(), NoMemory>
    ensures { OnOk result (list.new ≡ list.old ++ map (invalid number node.now.name) (one_or_none cause)) }
{
    match cause {
        None => Ok(()),
        Some(cause) => {
            let element = node.name.copy(alloc)?;
            list.push(Invalid {
                node: number,
                element,
                cause,
            })
        }
    }
}

fn specified_cause(
    alloc: Global,
    atts: &AttList,
    att: &(Name, Text),
) -> Result<Option<InvalidCause>, NoMemory>
    ensures { IfOk result (λ o. one_or_none o ≡ spec.specified_causes atts.now att.now) }
{
    match atts.definition_of(&att.0) {
        None => Ok(Some(InvalidCause::AttUndeclared(att.0.copy(alloc)?))),
        Some(definition) => {
            if in_class(&definition.class, &att.1) {
                Ok(None)
            } else {
                Ok(Some(InvalidCause::Value(att.0.copy(alloc)?)))
            }
        }
    }
}

fn put_specified(
    alloc: Global,
    list: &mut InvalidList,
    number: u64,
    node: &Node,
    atts: &AttList,
) -> Result<(), NoMemory>
    ensures { OnOk result (list.new ≡ list.old ++ map (invalid number node.now.name) (flat_map (spec.specified_causes atts.now) node.now.atts)) }
{
    let mut rest = node.atts.as_slice();
    while let Some((att, after)) = rest.split_first() {
        let cause = specified_cause(alloc, atts, att)?;
        put(alloc, list, number, node, cause)?;
        rest = after;
    }
    Ok(())
}

fn missing_cause(
    alloc: Global,
    atts: &AttList,
    specified: &Specified,
    at: usize,
) -> Result<Option<InvalidCause>, NoMemory>
    ensures { IfOk result (λ o. one_or_none o ≡ option_map_or (spec.missing_causes specified.now) (slice_get atts.now at) []) }
{
    match atts.get(at) {
        None => Ok(None),
        Some((name, definition)) => {
            if specified.is_given(name, definition) {
                Ok(None)
            } else {
                Ok(Some(InvalidCause::Missing(name.copy(alloc)?)))
            }
        }
    }
}

fn put_missing(
    alloc: Global,
    list: &mut InvalidList,
    number: u64,
    node: &Node,
    atts: &AttList,
) -> Result<(), NoMemory>
    ensures { OnOk result (list.new ≡ list.old ++ map (invalid number node.now.name) (flat_map (spec.missing_causes node.now.atts) atts.now)) }
{
    let specified = Specified::new(alloc, node.atts.as_slice())?;
    for at in 0..atts.len() {
        let cause = missing_cause(alloc, atts, &specified, at)?;
        put(alloc, list, number, node, cause)?;
    }
    Ok(())
}

fn content_cause(automaton: &Automaton, items: &[Item]) -> Option<InvalidCause>
    ensures { one_or_none result ≡ spec.content_causes automaton.now (items_of items.now) }
{
    if derives(automaton, items) {
        None
    } else {
        Some(InvalidCause::Content)
    }
}

fn text_cause(content: &Content, items: &[Item]) -> Option<InvalidCause>
    ensures { one_or_none result ≡ spec.text_causes content.now (items_of items.now) }
{
    if is_text_allowed(text_kind(content), items) {
        None
    } else {
        Some(InvalidCause::Text)
    }
}

fn put_attributes(
    alloc: Global,
    list: &mut InvalidList,
    number: u64,
    node: &Node,
    atts: &AttList,
) -> Result<(), NoMemory>
    ensures { OnOk result (list.new ≡ list.old ++ map (invalid number node.now.name) (spec.attribute_causes atts.now node.now.atts)) }
{
    put_specified(alloc, list, number, node, atts)?;
    put_missing(alloc, list, number, node, atts)
}

fn put_content(
    alloc: Global,
    list: &mut InvalidList,
    number: u64,
    node: &Node,
    content: &Content,
    automaton: &Automaton,
) -> Result<(), NoMemory>
    requires { automaton.now ≡ content.now }
    ensures { OnOk result (list.new ≡ list.old ++ map (invalid number node.now.name) (spec.content_causes content.now node.now.items ++ spec.text_causes content.now node.now.items)) }
{
    let cause = content_cause(automaton, node.items.as_slice());
    put(alloc, list, number, node, cause)?;
    let cause = text_cause(content, node.items.as_slice());
    put(alloc, list, number, node, cause)
}

fn put_declared(
    alloc: Global,
    list: &mut InvalidList,
    number: u64,
    node: &Node,
    content: &Content,
    automaton: &Automaton,
    atts: &AttList,
) -> Result<(), NoMemory>
    requires { automaton.now ≡ content.now }
    ensures { OnOk result (list.new ≡ list.old ++ map (invalid number node.now.name) (spec.causes_by (Some content.now) atts.now node.now)) }
{
    put_content(alloc, list, number, node, content, automaton)?;
    put_attributes(alloc, list, number, node, atts)
}

/// Puts the causes of a node by its own declaration behind the others: its content with its automaton, where it is declared,
/// and its attributes.
pub fn put_causes(
    alloc: Global,
    list: &mut InvalidList,
    number: u64,
    declared: Option<(&Content, &Automaton)>,
    atts: &AttList,
    node: &Node,
) -> Result<(), NoMemory>
    requires { IfSome declared (λ d. d.1.now ≡ d.0.now) }
    ensures { OnOk result (list.new ≡ list.old ++ map (invalid number node.now.name) (spec.causes_by (option_map (λ d. d.0.now) declared.entry) atts.now node.now)) }
{
    match declared {
        None => put(alloc, list, number, node, Some(InvalidCause::Undeclared)),
        Some((content, automaton)) => {
            put_declared(alloc, list, number, node, content, automaton, atts)
        }
    }
}
