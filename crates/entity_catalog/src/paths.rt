//! Names of files.

ghost use Rattle.std.specs.Prelude.{◌≡◌, ◌≤◌, ◌<◌, IfOk, IfSome, MatchOption, Some, None, map, length, reverse, position, ◌==◌};
ghost use Rattle.std.specs.Bool.{MatchBool};
ghost use Rattle.std.specs.List.{list_any, slice_split};
ghost use Rattle.std.specs.Option.{option_map, option_and_then};
ghost use Rattle.entity_catalog.specs.Join as spec;
ghost use Rattle.entity_catalog.specs.Outcomes.{Resolves};

use crate::ResolveFault;
use crate::parts::joined_with;
use jats_chars::{NoMemory, Text};
use std::alloc::{AllocError, Global};

fn has_colon(identifier: &[char]) -> bool
    ensures { result ≡ list_any spec.is_colon identifier.now }
{
    identifier.iter().any(|c| *c == ':')
}

/// Whether the identifier may be joined: it begins with no `/` and holds no `:`.
fn is_relative(identifier: &[char]) -> bool
    ensures { result ≡ spec.is_relative identifier.now }
{
    !identifier.starts_with(&['/']) && !has_colon(identifier)
}

fn last_slash(base: &[char]) -> Option<usize>
    ensures value { result ≡ position spec.is_slash (reverse base.now) }
    ensures within { IfSome result (λ k. k < length base.now) }
{
    base.iter().rev().position(|c| *c == '/')
}

/// The base up to and with its last `/`.
fn folder(base: &[char]) -> &[char]
    ensures { result.now ≡ spec.folder base.now }
{
    match last_slash(base) {
        None => &[],
        Some(k) => &base[..base.len() - k],
    }
}

/// Takes one part more. False says that it is a `..` which finds no part before it.
fn keep<'p>(kept: &mut Vec<&'p [char]>, part: &'p [char]) -> Result<bool, AllocError>
    ensures { IfOk result (λ found. MatchBool found (spec.with_part (map (λ x. x.now) kept.old.items) part.now ≡ Some (map (λ x. x.now) kept.new.items)) (spec.with_part (map (λ x. x.now) kept.old.items) part.now ≡ None)) }
{
    if part.is_empty() || part == ['.'].as_slice() {
        return Ok(true);
    }
    if part == ['.', '.'].as_slice() {
        return Ok(kept.pop().is_some());
    }
    kept.push(part)?;
    Ok(true)
}

/// The parts of the path that are kept, or None where a `..` finds no part before it.
fn kept_parts(alloc: Global, path: &[char]) -> Result<Option<Vec<&[char]>>, AllocError>
    ensures { IfOk result (λ o. option_map (λ v. map (λ x. x.now) v.items) o ≡ spec.kept_of (slice_split spec.is_slash path.now)) }
{
    let mut kept = Vec::new(alloc);
    for part in path.split(|c| *c == '/') {
        if !keep(&mut kept, part)? {
            return Ok(None);
        }
    }
    Ok(Some(kept))
}

fn name_of(alloc: Global, parts: &[&[char]]) -> Result<Option<Text>, NoMemory>
    ensures { IfOk result (λ o. o ≡ spec.name_of (map (λ x. x.now) parts.now)) }
{
    if parts.is_empty() {
        return Ok(None);
    }
    let name = joined_with(alloc, '/', parts)?;
    Ok(Some(name))
}

fn path_name(alloc: Global, path: &[char]) -> Result<Option<Text>, NoMemory>
    ensures { IfOk result (λ o. o ≡ option_and_then spec.name_of (spec.kept_of (slice_split spec.is_slash path.now))) }
{
    match kept_parts(alloc, path)? {
        None => Ok(None),
        Some(parts) => name_of(alloc, parts.as_slice()),
    }
}

/// The name that the identifier is joined to, or None where the path escapes.
#[tactic(auto, unfolding(crate::specs::Join::join))]
pub fn joined_name(
    alloc: Global,
    base: &[char],
    identifier: &[char],
) -> Result<Option<Text>, NoMemory>
    ensures { IfOk result (λ o. o ≡ spec.join base.now identifier.now) }
{
    if !is_relative(identifier) {
        return Ok(None);
    }
    let mut path = Text::from_slice(alloc, folder(base))?;
    path.push_slice(identifier)?;
    path_name(alloc, path.as_slice())
}

/// The name of a file from the name of the file that names it: the base up to and with its last `/` and the identifier
/// are cut at each `/`, empty parts and `.` are dropped, and `..` drops the part before it. `PathEscapes` comes exactly
/// where `..` finds no part, where nothing is left, and where the identifier begins with `/` or holds `:`.
pub fn join(alloc: Global, base: &Text, identifier: &Text) -> Result<Text, ResolveFault>
    ensures { Resolves (spec.join base.now identifier.now) result }
{
    match joined_name(alloc, base.as_slice(), identifier.as_slice()) {
        Ok(Some(name)) => Ok(name),
        Ok(None) => Err(ResolveFault::PathEscapes),
        Err(_) => Err(ResolveFault::NoMemory),
    }
}
