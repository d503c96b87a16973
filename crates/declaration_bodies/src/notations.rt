//! The bodies of notation declarations.

ghost use Rattle.std.specs.Prelude.{◌≡◌, option_and_then, IfOk};
ghost use Rattle.declaration_bodies.specs.Identifiers as ids_spec;
ghost use Rattle.declaration_bodies.specs.Notations as spec;

use crate::identifiers::{read_system, spaced_public, with_system};
use entity_catalog::Ids;
use jats_chars::{Name, NoMemory, Text};
use std::alloc::Global;
use text_fronts::{is_blank, read_space, spaced_name, word};

/// The identifiers, where S? alone stands behind them.
fn if_blank(ids: Ids, rest: &[char]) -> Option<Ids>
    ensures { result ≡ spec.if_blank (ids, rest.now) }
{
    if is_blank(rest) { Some(ids) } else { None }
}

fn public_ids(alloc: Global, public: Text, rest: &[char]) -> Result<Option<Ids>, NoMemory>
    ensures { IfOk result (λ o. o ≡ spec.public_ids (public, rest.now)) }
{
    if is_blank(rest) {
        return Ok(Some(Ids::PublicOnly(public)));
    }
    match with_system(alloc, public, rest)? {
        None => Ok(None),
        Some((ids, rest)) => Ok(if_blank(ids, rest)),
    }
}

fn notation_public(alloc: Global, text: &[char]) -> Result<Option<Ids>, NoMemory>
    ensures { IfOk result (λ o. o ≡ option_and_then spec.public_ids (ids_spec.spaced_public text.now)) }
{
    match spaced_public(alloc, text)? {
        None => Ok(None),
        Some((public, rest)) => public_ids(alloc, public, rest),
    }
}

fn notation_system(alloc: Global, text: &[char]) -> Result<Option<Ids>, NoMemory>
    ensures { IfOk result (λ o. o ≡ option_and_then spec.if_blank (ids_spec.read_system text.now)) }
{
    match read_system(alloc, text)? {
        None => Ok(None),
        Some((ids, rest)) => Ok(if_blank(ids, rest)),
    }
}

fn notation_ids(alloc: Global, text: &[char]) -> Result<Option<Ids>, NoMemory>
    ensures { IfOk result (λ o. o ≡ spec.notation_ids text.now) }
{
    let (keyword, rest) = word(text);
    if keyword == ['S', 'Y', 'S', 'T', 'E', 'M'].as_slice() {
        notation_system(alloc, rest)
    } else if keyword == ['P', 'U', 'B', 'L', 'I', 'C'].as_slice() {
        notation_public(alloc, rest)
    } else {
        Ok(None)
    }
}

fn with_ids(alloc: Global, name: Name, rest: &[char]) -> Result<Option<(Name, Ids)>, NoMemory>
    ensures { IfOk result (λ o. o ≡ spec.with_ids (name, rest.now)) }
{
    let Some(text) = read_space(rest) else {
        return Ok(None);
    };
    match notation_ids(alloc, text)? {
        None => Ok(None),
        Some(ids) => Ok(Some((name, ids))),
    }
}

/// The name and the identifiers of a notation declaration, or None exactly where the body has not that form.
#[tactic(auto, unfolding(crate::specs::Notations::notation_of))]
pub fn read_notation(alloc: Global, body: &[char]) -> Result<Option<(Name, Ids)>, NoMemory>
    ensures { IfOk result (λ o. o ≡ spec.notation_of body.now) }
{
    match spaced_name(alloc, body)? {
        None => Ok(None),
        Some((name, rest)) => with_ids(alloc, name, rest),
    }
}
