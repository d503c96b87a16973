//! The bodies of entity declarations.

ghost use Rattle.std.specs.Prelude.{◌≡◌, ◌≤◌, length, option_and_then, IfOk, true, false};
ghost use Rattle.dtd_scanner.specs.Items.{first_is, is_quote as quote};
ghost use Rattle.text_fronts.specs.Fronts as front;
ghost use Rattle.declaration_bodies.specs.Identifiers as ids_spec;
ghost use Rattle.declaration_bodies.specs.Entities as spec;

use crate::identifiers::read_ids;
use dtd_scanner::{begins_reference, is_quote, reference_len};
use entity_catalog::Ids;
use jats_chars::{Name, NoMemory, Text};
use std::alloc::Global;
use text_fronts::{is_blank, read_literal, read_name, read_space, spaced_name, word};

/// What an entity is declared as.
#[derive(Debug, Drop)]
pub enum RawDef {
    /// What stands between the quotes of an entity value, unread.
    Value(Text),
    /// The identifiers of an external entity.
    External(Ids),
    /// The identifiers of an unparsed general entity, and its notation.
    Unparsed(Ids, Name),
}

/// The declaration of an entity, as it is written.
#[derive(Debug, Drop)]
pub struct RawEntity {
    /// Whether it is a parameter entity.
    pub parameter: bool,
    pub name: Name,
    pub def: RawDef,
}

/// Whether the reference that this character begins, if any, has its form.
fn is_right(c: char, text: &[char]) -> bool
    requires { 1 ≤ length text.now }
    ensures { result ≡ spec.is_right c text.now }
{
    if c == '&' {
        begins_reference(text)
    } else if c == '%' {
        reference_len(text).is_some()
    } else {
        true
    }
}

/// Whether each `%` and `&` begins a reference.
#[tactic(auto, unfolding(crate::specs::Entities::is_entity_value))]
fn is_entity_value(text: &[char]) -> bool
    ensures { result ≡ spec.is_entity_value text.now }
{
    let mut rest = text;
    while let Some((c, after)) = rest.split_first() {
        if !is_right(*c, rest) {
            return false;
        }
        rest = after;
    }
    true
}

/// A quoted value with S? behind.
fn read_value(alloc: Global, text: &[char]) -> Result<Option<RawDef>, NoMemory>
    ensures { IfOk result (λ o. o ≡ option_and_then spec.as_value (front.read_literal text.now)) }
{
    match read_literal(text) {
        None => Ok(None),
        Some((value, rest)) => {
            if is_entity_value(value) && is_blank(rest) {
                Ok(Some(RawDef::Value(Text::from_slice(alloc, value)?)))
            } else {
                Ok(None)
            }
        }
    }
}

/// Behind S `NDATA`: S Name S?.
fn read_notation_name(alloc: Global, ids: Ids, text: &[char]) -> Result<Option<RawDef>, NoMemory>
    ensures { IfOk result (λ o. o ≡ option_and_then (spec.notation_named ids) (front.spaced_name text.now)) }
{
    match spaced_name(alloc, text)? {
        None => Ok(None),
        Some((notation, rest)) => {
            if is_blank(rest) {
                Ok(Some(RawDef::Unparsed(ids, notation)))
            } else {
                Ok(None)
            }
        }
    }
}

fn read_ndata(alloc: Global, ids: Ids, text: &[char]) -> Result<Option<RawDef>, NoMemory>
    ensures { IfOk result (λ o. o ≡ spec.read_ndata ids text.now) }
{
    let (keyword, rest) = word(text);
    if keyword == ['N', 'D', 'A', 'T', 'A'].as_slice() {
        read_notation_name(alloc, ids, rest)
    } else {
        Ok(None)
    }
}

/// Behind the identifiers of an entity: S?, or, of a general entity, its notation.
fn as_external(
    alloc: Global,
    parameter: bool,
    ids: Ids,
    rest: &[char],
) -> Result<Option<RawDef>, NoMemory>
    ensures { IfOk result (λ o. o ≡ spec.as_external parameter (ids, rest.now)) }
{
    if is_blank(rest) {
        return Ok(Some(RawDef::External(ids)));
    }
    if parameter {
        return Ok(None);
    }
    match read_space(rest) {
        None => Ok(None),
        Some(rest) => read_ndata(alloc, ids, rest),
    }
}

fn read_external(alloc: Global, parameter: bool, text: &[char]) -> Result<Option<RawDef>, NoMemory>
    ensures { IfOk result (λ o. o ≡ option_and_then (spec.as_external parameter) (ids_spec.read_ids text.now)) }
{
    match read_ids(alloc, text)? {
        None => Ok(None),
        Some((ids, rest)) => as_external(alloc, parameter, ids, rest),
    }
}

fn first_is_quote(text: &[char]) -> bool
    ensures { result ≡ first_is quote text.now }
{
    match text.split_first() {
        None => false,
        Some((c, _)) => is_quote(*c),
    }
}

fn read_def(alloc: Global, parameter: bool, text: &[char]) -> Result<Option<RawDef>, NoMemory>
    ensures { IfOk result (λ o. o ≡ spec.read_def parameter text.now) }
{
    if first_is_quote(text) {
        read_value(alloc, text)
    } else {
        read_external(alloc, parameter, text)
    }
}

/// Behind the name of an entity: S and what it is declared as.
fn with_def(
    alloc: Global,
    parameter: bool,
    name: Name,
    rest: &[char],
) -> Result<Option<RawEntity>, NoMemory>
    ensures { IfOk result (λ o. o ≡ spec.with_def parameter (name, rest.now)) }
{
    let Some(text) = read_space(rest) else {
        return Ok(None);
    };
    match read_def(alloc, parameter, text)? {
        None => Ok(None),
        Some(def) => Ok(Some(RawEntity {
            parameter,
            name,
            def,
        })),
    }
}

fn read_parameter(alloc: Global, text: &[char]) -> Result<Option<RawEntity>, NoMemory>
    ensures { IfOk result (λ o. o ≡ option_and_then (spec.with_def true) (front.spaced_name text.now)) }
{
    match spaced_name(alloc, text)? {
        None => Ok(None),
        Some((name, rest)) => with_def(alloc, true, name, rest),
    }
}

fn read_general(alloc: Global, text: &[char]) -> Result<Option<RawEntity>, NoMemory>
    ensures { IfOk result (λ o. o ≡ option_and_then (spec.with_def false) (front.read_name text.now)) }
{
    match read_name(alloc, text)? {
        None => Ok(None),
        Some((name, rest)) => with_def(alloc, false, name, rest),
    }
}

fn entity_behind(alloc: Global, text: &[char]) -> Result<Option<RawEntity>, NoMemory>
    ensures { IfOk result (λ o. o ≡ spec.entity_behind text.now) }
{
    if text.starts_with(&['%']) {
        let (_, text) = text.split_at(1);
        read_parameter(alloc, text)
    } else {
        read_general(alloc, text)
    }
}

/// The declaration of an entity, as it is written, or None exactly where the body has not that form.
#[tactic(auto, unfolding(crate::specs::Entities::entity_of))]
pub fn read_entity(alloc: Global, body: &[char]) -> Result<Option<RawEntity>, NoMemory>
    ensures { IfOk result (λ o. o ≡ spec.entity_of body.now) }
{
    match read_space(body) {
        None => Ok(None),
        Some(text) => entity_behind(alloc, text),
    }
}
