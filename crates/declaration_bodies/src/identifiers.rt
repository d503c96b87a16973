//! External identifiers.

ghost use Rattle.std.specs.Prelude.{◌≡◌, ◌<◌, ℕ, List, length, option_map, option_and_then, IfOk, IfSome};
ghost use Rattle.std.specs.List.{list_all};
ghost use Rattle.jats_chars.specs.Classes.{is_pubid_char as pubid_char};
ghost use Rattle.declaration_bodies.specs.Identifiers as spec;

use entity_catalog::{Ids, collapse_public};
use jats_chars::{NoMemory, Text, is_pubid_char};
use std::alloc::Global;
use text_fronts::{spaced_literal, word};

fn line_end(c: char) -> char
    ensures { result ≡ spec.line_end c }
{
    if c == '\r' { '\n' } else { c }
}

/// A system identifier, in which CR is LF.
fn as_system(alloc: Global, text: &[char]) -> Result<Text, NoMemory>
    ensures { IfOk result (λ t. t ≡ spec.as_system text.now) }
{
    let chars: Vec<char> = text.iter().map(|c| line_end(*c)).collect(alloc)?;
    Ok(Text::from_vec(chars))
}

fn are_pubid_chars(text: &[char]) -> bool
    ensures { result ≡ list_all pubid_char text.now }
{
    text.iter().all(|c| is_pubid_char(*c))
}

/// A public identifier, collapsed, where it is of PubidChars.
fn as_public(alloc: Global, text: &[char]) -> Result<Option<Text>, NoMemory>
    ensures { IfOk result (λ o. (rest : List ℕ) → spec.as_public (text.now, rest) ≡ option_map (λ t. (t, rest)) o) }
{
    if !are_pubid_chars(text) {
        return Ok(None);
    }
    let text = Text::from_slice(alloc, text)?;
    Ok(Some(collapse_public(alloc, &text)?))
}

/// S and a public literal, and the rest.
pub fn spaced_public(alloc: Global, text: &[char]) -> Result<Option<(Text, &[char])>, NoMemory>
    ensures value { IfOk result (λ o. option_map (λ x. (x.0, x.1.now)) o ≡ spec.spaced_public text.now) }
    ensures within { IfOk result (λ o. IfSome o (λ x. length x.1.now < length text.now)) }
{
    match spaced_literal(text) {
        None => Ok(None),
        Some((literal, rest)) => match as_public(alloc, literal)? {
            None => Ok(None),
            Some(public) => Ok(Some((public, rest))),
        },
    }
}

/// Behind a public identifier: S and a system literal.
pub fn with_system(
    alloc: Global,
    public: Text,
    text: &[char],
) -> Result<Option<(Ids, &[char])>, NoMemory>
    ensures value { IfOk result (λ o. option_map (λ x. (x.0, x.1.now)) o ≡ spec.with_system (public, text.now)) }
    ensures within { IfOk result (λ o. IfSome o (λ x. length x.1.now < length text.now)) }
{
    match spaced_literal(text) {
        None => Ok(None),
        Some((literal, rest)) => {
            let system = as_system(alloc, literal)?;
            Ok(Some((Ids::Public(public, system), rest)))
        }
    }
}

/// Behind `SYSTEM`: S and a system literal.
pub fn read_system(alloc: Global, text: &[char]) -> Result<Option<(Ids, &[char])>, NoMemory>
    ensures value { IfOk result (λ o. option_map (λ x. (x.0, x.1.now)) o ≡ spec.read_system text.now) }
    ensures within { IfOk result (λ o. IfSome o (λ x. length x.1.now < length text.now)) }
{
    match spaced_literal(text) {
        None => Ok(None),
        Some((literal, rest)) => Ok(Some((Ids::System(as_system(alloc, literal)?), rest))),
    }
}

/// Behind `PUBLIC`.
fn read_public(alloc: Global, text: &[char]) -> Result<Option<(Ids, &[char])>, NoMemory>
    ensures value { IfOk result (λ o. option_map (λ x. (x.0, x.1.now)) o ≡ option_and_then spec.with_system (spec.spaced_public text.now)) }
    ensures within { IfOk result (λ o. IfSome o (λ x. length x.1.now < length text.now)) }
{
    match spaced_public(alloc, text)? {
        None => Ok(None),
        Some((public, rest)) => with_system(alloc, public, rest),
    }
}

/// An external identifier (XML 1.0, 4.2.2, production 75), and the rest, or None exactly where none begins the text. The
/// public identifier is collapsed, and CR is LF in the system identifier.
#[tactic(auto, unfolding(crate::specs::Identifiers::read_ids))]
pub fn read_ids(alloc: Global, text: &[char]) -> Result<Option<(Ids, &[char])>, NoMemory>
    ensures value { IfOk result (λ o. option_map (λ x. (x.0, x.1.now)) o ≡ spec.read_ids text.now) }
    ensures within { IfOk result (λ o. IfSome o (λ x. length x.1.now < length text.now)) }
{
    let (keyword, rest) = word(text);
    if keyword == ['S', 'Y', 'S', 'T', 'E', 'M'].as_slice() {
        read_system(alloc, rest)
    } else if keyword == ['P', 'U', 'B', 'L', 'I', 'C'].as_slice() {
        read_public(alloc, rest)
    } else {
        Ok(None)
    }
}
