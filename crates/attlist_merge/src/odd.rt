//! One list of attributes against another.

ghost use Rattle.std.specs.Prelude.{◌≡◌, ◌&&◌, not, is_none, [], length, option_and_then, slice_get, IfOk, IsTrue, ◌↔◌};
ghost use Rattle.std.specs.Option.{option_copied};
ghost use Rattle.attlist_merge.specs.Values.{CoversList};
ghost use Rattle.attlist_merge.specs.Lists.{IsKept, IsSound, is_required as is_needed};
ghost use Rattle.attlist_merge.specs.Oddness as spec;
ghost use Rattle.attlist_merge.specs.Shown.{attributes};

use crate::check::is_required;
use crate::{AttList, Definition};
use attribute_types::{covers, sample, uncovered};
use jats_chars::{Name, NoMemory, Text};
use std::alloc::Global;

/// An attribute by which an element is odd against another set's.
#[derive(Debug, Drop)]
pub enum OddAtt {
    /// The second does not declare this attribute, which may have this value in the first.
    Undeclared(Name, Text),
    /// This value is in the attribute's class in the first, and not in the second.
    Value(Name, Text),
    /// The second requires this attribute, and the first does not.
    Missing(Name),
}

/// An attribute of the first list against the second: lacking, with a sample, or not covered, with a value.
fn odd_value(
    alloc: Global,
    second: &AttList,
    name: &Name,
    definition: &Definition,
) -> Result<Option<OddAtt>, NoMemory>
    requires { IsSound (name.now, definition.now) }
    ensures { IfOk result (λ o. o ≡ spec.odd_value second.now (name.now, definition.now)) }
{
    match second.definition_of(name) {
        None => {
            let value = sample(alloc, &definition.class)?;
            Ok(Some(OddAtt::Undeclared(name.copy(alloc)?, value)))
        }
        Some(other) => match uncovered(alloc, &definition.class, &other.class)? {
            None => Ok(None),
            Some(value) => Ok(Some(OddAtt::Value(name.copy(alloc)?, value))),
        },
    }
}

fn odd_value_at(
    alloc: Global,
    first: &AttList,
    second: &AttList,
    at: usize,
) -> Result<Option<OddAtt>, NoMemory>
    ensures { IfOk result (λ o. o ≡ option_and_then (spec.odd_value second.now) (slice_get first.now at)) }
{
    match first.get(at) {
        None => Ok(None),
        Some((name, definition)) => odd_value(alloc, second, name, definition),
    }
}

fn first_odd_value(
    alloc: Global,
    first: &AttList,
    second: &AttList,
) -> Result<Option<OddAtt>, NoMemory>
    ensures { IfOk result (λ o. o ≡ spec.first_some (spec.odd_value second.now) first.now) }
{
    for at in 0..first.len() {
        match odd_value_at(alloc, first, second, at)? {
            Some(odd) => return Ok(Some(odd)),
            None => {}
        }
    }
    Ok(None)
}

/// Whether the list requires the attribute.
fn is_required_in(list: &AttList, name: &Name) -> bool
    ensures { result ≡ spec.requires list.now name.now }
{
    match list.definition_of(name) {
        None => false,
        Some(definition) => is_required(&definition.preset),
    }
}

/// Whether the second list's attribute is required there, and not in the first.
fn is_missing(first: &AttList, name: &Name, definition: &Definition) -> bool
    ensures { result ≡ (is_needed definition.now.preset && not (spec.requires first.now name.now)) }
{
    is_required(&definition.preset) && !is_required_in(first, name)
}

fn odd_missing(
    alloc: Global,
    first: &AttList,
    name: &Name,
    definition: &Definition,
) -> Result<Option<OddAtt>, NoMemory>
    ensures { IfOk result (λ o. o ≡ spec.odd_missing first.now (name.now, definition.now)) }
{
    if is_missing(first, name, definition) {
        Ok(Some(OddAtt::Missing(name.copy(alloc)?)))
    } else {
        Ok(None)
    }
}

fn odd_missing_at(
    alloc: Global,
    first: &AttList,
    second: &AttList,
    at: usize,
) -> Result<Option<OddAtt>, NoMemory>
    ensures { IfOk result (λ o. o ≡ option_and_then (spec.odd_missing first.now) (slice_get second.now at)) }
{
    match second.get(at) {
        None => Ok(None),
        Some((name, definition)) => odd_missing(alloc, first, name, definition),
    }
}

fn first_odd_missing(
    alloc: Global,
    first: &AttList,
    second: &AttList,
) -> Result<Option<OddAtt>, NoMemory>
    ensures { IfOk result (λ o. o ≡ spec.first_some (spec.odd_missing first.now) second.now) }
{
    for at in 0..second.len() {
        match odd_missing_at(alloc, first, second, at)? {
            Some(odd) => return Ok(Some(odd)),
            None => {}
        }
    }
    Ok(None)
}

fn first_odd(alloc: Global, first: &AttList, second: &AttList) -> Result<Option<OddAtt>, NoMemory>
    ensures { IfOk result (λ o. o ≡ spec.odd_of first.now second.now) }
{
    match first_odd_value(alloc, first, second)? {
        Some(odd) => Ok(Some(odd)),
        None => first_odd_missing(alloc, first, second),
    }
}

/// Whether the second list declares the attribute and covers its class.
fn is_covered(second: &AttList, name: &Name, definition: &Definition) -> bool
    requires { IsSound (name.now, definition.now) }
    ensures { result ≡ is_none (spec.odd_value second.now (name.now, definition.now)) }
{
    match second.definition_of(name) {
        None => false,
        Some(other) => covers(&definition.class, &other.class),
    }
}

fn is_covered_at(first: &AttList, second: &AttList, at: usize) -> bool
    ensures { result ≡ is_none (option_and_then (spec.odd_value second.now) (slice_get first.now at)) }
{
    match first.get(at) {
        None => true,
        Some((name, definition)) => is_covered(second, name, definition),
    }
}

fn are_covered(first: &AttList, second: &AttList) -> bool
    ensures { result ≡ is_none (spec.first_some (spec.odd_value second.now) first.now) }
{
    for at in 0..first.len() {
        if !is_covered_at(first, second, at) {
            return false;
        }
    }
    true
}

fn is_missing_at(first: &AttList, second: &AttList, at: usize) -> bool
    ensures { result ≡ not (is_none (option_and_then (spec.odd_missing first.now) (slice_get second.now at))) }
{
    match second.get(at) {
        None => false,
        Some((name, definition)) => is_missing(first, name, definition),
    }
}

fn are_required(first: &AttList, second: &AttList) -> bool
    ensures { result ≡ is_none (spec.first_some (spec.odd_missing first.now) second.now) }
{
    for at in 0..second.len() {
        if is_missing_at(first, second, at) {
            return false;
        }
    }
    true
}

fn are_alike(first: &AttList, second: &AttList) -> bool
    ensures { result ≡ is_none (spec.odd_of first.now second.now) }
{
    are_covered(first, second) && are_required(first, second)
}

/// The first attribute by which the first list is odd against the second: one of the first, in order, that the second
/// lacks or does not cover, with a value; else one that the second requires and the first does not. None exactly where
/// every list of values that is right by the first is right by the second.
pub fn odd_att(alloc: Global, first: &AttList, second: &AttList) -> Result<Option<OddAtt>, NoMemory>
    ensures value { IfOk result (λ o. o ≡ spec.odd_of first.now second.now) }
    ensures told { IfOk result (λ o. spec.Tells first.now second.now o) }
    ensures none { IfOk result (λ o. IsTrue (is_none o) ↔ CoversList first.now second.now) }
{
    let _ = first.len();
    let _ = second.len();
    first_odd(alloc, first, second)
}

/// Whether every list of values that is right by the first list is right by the second. Takes no memory.
pub fn lists_cover(first: &AttList, second: &AttList) -> bool
    ensures value { result ≡ is_none (spec.odd_of first.now second.now) }
    ensures covers { IsTrue result ↔ CoversList first.now second.now }
{
    let _ = first.len();
    let _ = second.len();
    are_alike(first, second)
}

// ---- elements that may have no list

/// How many attributes an element has: none where it has no list.
fn count(list: Option<&AttList>) -> usize
    ensures value { result ≡ length (attributes (option_copied list.entry)) }
    ensures kept { IsKept (attributes (option_copied list.entry)) }
{
    match list {
        None => 0,
        Some(list) => list.len(),
    }
}

fn is_required_at(list: &AttList, at: usize) -> bool
    ensures { result ≡ not (is_none (option_and_then (spec.odd_missing []) (slice_get list.now at))) }
{
    match list.get(at) {
        None => false,
        Some((_, definition)) => is_required(&definition.preset),
    }
}

fn requires_none(list: &AttList) -> bool
    ensures { result ≡ is_none (spec.first_some (spec.odd_missing []) list.now) }
{
    for at in 0..list.len() {
        if is_required_at(list, at) {
            return false;
        }
    }
    true
}

fn are_alike_in(first: Option<&AttList>, second: Option<&AttList>) -> bool
    ensures { result ≡ is_none (spec.odd_of (attributes (option_copied first.entry)) (attributes (option_copied second.entry))) }
{
    match second {
        None => count(first) == 0,
        Some(second) => match first {
            None => requires_none(second),
            Some(first) => are_alike(first, second),
        },
    }
}

/// Whether every list of values that is right for an element in one set is right for it in another, from its lists of
/// attributes there: None where it has none. Takes no memory.
pub fn attributes_cover(first: Option<&AttList>, second: Option<&AttList>) -> bool
    ensures value { result ≡ is_none (spec.odd_of (attributes (option_copied first.entry)) (attributes (option_copied second.entry))) }
    ensures covers { IsTrue result ↔ CoversList (attributes (option_copied first.entry)) (attributes (option_copied second.entry)) }
{
    let _ = count(first);
    let _ = count(second);
    are_alike_in(first, second)
}

fn or_none<'a>(list: Option<&'a AttList>, none: &'a AttList) -> &'a AttList
    requires { none.now ≡ [] }
    ensures { result.now ≡ attributes (option_copied list.entry) }
{
    match list {
        None => none,
        Some(list) => list,
    }
}

/// What `odd_att` answers for an element, from its lists of attributes in two sets: None where it has none.
pub fn odd_attribute(
    alloc: Global,
    first: Option<&AttList>,
    second: Option<&AttList>,
) -> Result<Option<OddAtt>, NoMemory>
    ensures value { IfOk result (λ o. o ≡ spec.odd_of (attributes (option_copied first.entry)) (attributes (option_copied second.entry))) }
    ensures told { IfOk result (λ o. spec.Tells (attributes (option_copied first.entry)) (attributes (option_copied second.entry)) o) }
    ensures none { IfOk result (λ o. IsTrue (is_none o) ↔ CoversList (attributes (option_copied first.entry)) (attributes (option_copied second.entry))) }
{
    let none = AttList::new(alloc);
    odd_att(alloc, or_none(first, &none), or_none(second, &none))
}
