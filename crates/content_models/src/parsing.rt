//! Contents parsed.

ghost use Rattle.std.specs.Prelude.{◌≡◌, ◌≤◌, ◌<◌, ◌+◌, ◌-◌, [], length, drop, nat_lt, IfOk, IfSome, MatchOption, IsTrue, codes, nat_eq};
ghost use Rattle.std.specs.List.{starts_with};
ghost use Rattle.content_models.specs.Reading as spec;
ghost use Rattle.content_models.specs.Parses.{Parses, Judges, most_open};
ghost use Rattle.content_models.specs.Given.{GivesNames, found_in};

use crate::counting::{first_repeated, has_more_names};
use crate::reading::{Found, Word, Words, read_group, read_name, skip};
use crate::{Content, Particle};
use jats_chars::limits::{OPEN_GROUPS, POSITIONS};
use jats_chars::{Name, NameList, NoMemory, Text};
use std::alloc::Global;
use thiserror::Error;

/// Why a text spells no proper content.
#[derive(Debug, Drop, Error)]
pub enum ContentFault {
    /// Some front of the text has more than 64 open parentheses.
    #[error("more than 64 groups inside one another")]
    GroupTooDeep,
    /// The text is not of the form of a content.
    #[error("no content")]
    Malformed,
    /// More than 1,024 names occur.
    #[error("more than 1,024 names")]
    PositionsOver,
    /// This name of a mixed content equals an earlier one.
    #[error("a name stands twice in a mixed content")]
    DuplicateMixedName(Name),
    /// Memory ran out.
    #[error("out of memory")]
    NoMemory,
}

/// Whether some front of the text has more than 64 open parentheses, where a `)` closes the last one that is open, and none
/// where none is.
#[tactic(auto, using(crate::proofs::Depths::depths))]
pub fn is_too_deep(text: &[char]) -> bool
    ensures { result ≡ nat_lt 64 (most_open 0 text.now) }
{
    let mut open = 0;
    for c in text {
        if *c == '(' {
            if open == OPEN_GROUPS {
                return true;
            }
            open += 1;
        } else if *c == ')' && open > 0 {
            open -= 1;
        }
    }
    false
}

#[tactic(auto, using(crate::proofs::Groups::reads))]
fn read_names(alloc: Global, text: &[char], at: usize) -> Result<Option<Words>, NoMemory>
    requires { at ≤ length text.now }
    ensures { GivesNames text.now at (spec.more spec.bare (length text.now) 124 [] (drop at text.now)) result }
{
    let mut list = NameList::new(alloc);
    let mut end = at;
    while end < text.len() && text[end] != ')' {
        if text[end] != '|' {
            return Ok(None);
        }
        let start = skip(text, end + 1);
        match read_name(alloc, text, start)? {
            None => return Ok(None),
            Some(word) => {
                let Word { name, end: next } = word;
                list.push(name)?;
                end = skip(text, next);
            }
        }
    }
    if end == text.len() {
        return Ok(None);
    }
    Ok(Some(Words { list, end: end + 1 }))
}

fn mixed_end(names: NameList, rest: &[char]) -> Option<Content>
    ensures { result ≡ spec.mixed_end (names, rest.now) }
{
    if rest == ['*'].as_slice() || rest.is_empty() && names.len() == 0 {
        Some(Content::Mixed(names))
    } else {
        None
    }
}

#[tactic(auto, unfolding(crate::specs::Reading::mixed_of))]
fn read_mixed(alloc: Global, text: &[char], at: usize) -> Result<Option<Content>, NoMemory>
    requires { at ≤ length text.now }
    ensures { IfOk result (λ o. o ≡ spec.mixed_of (length text.now) (drop at text.now)) }
{
    let start = skip(text, at);
    match read_names(alloc, text, start)? {
        None => Ok(None),
        Some(words) => {
            let Words { list, end } = words;
            Ok(mixed_end(list, &text[end..]))
        }
    }
}

fn whole(text: &[char], found: Found) -> Option<Content>
    requires { found.end ≤ length text.now }
    ensures { result ≡ spec.whole (found_in text.now found) }
{
    let Found { part, end } = found;
    if end == text.len() {
        Some(Content::Children(part))
    } else {
        None
    }
}

fn read_children(alloc: Global, text: &[char]) -> Result<Option<Content>, NoMemory>
    requires { 1 ≤ length text.now }
    ensures { IfOk result (λ o. o ≡ spec.children_of (length text.now) (drop 1 text.now)) }
{
    match read_group(alloc, text, 1, OPEN_GROUPS - 1)? {
        None => Ok(None),
        Some(found) => Ok(whole(text, found)),
    }
}

const PCDATA: [char; 7] = ['#', 'P', 'C', 'D', 'A', 'T', 'A'];

#[tactic(auto, unfolding(crate::specs::Reading::group_of))]
fn read_opened(alloc: Global, text: &[char]) -> Result<Option<Content>, NoMemory>
    requires { 1 ≤ length text.now }
    ensures { IfOk result (λ o. o ≡ spec.group_of (length text.now) (drop 1 text.now)) }
{
    let start = skip(text, 1);
    if text[start..].starts_with(&PCDATA) {
        read_mixed(alloc, text, start + PCDATA.len())
    } else {
        read_children(alloc, text)
    }
}

#[tactic(auto, unfolding(crate::specs::Reading::content_of))]
fn read_content(alloc: Global, text: &[char]) -> Result<Option<Content>, NoMemory>
    ensures { IfOk result (λ o. o ≡ spec.content_of text.now) }
{
    if text == ['E', 'M', 'P', 'T', 'Y'].as_slice() {
        return Ok(Some(Content::Empty));
    }
    if text == ['A', 'N', 'Y'].as_slice() {
        return Ok(Some(Content::Any));
    }
    if text.starts_with(&['(']) {
        read_opened(alloc, text)
    } else {
        Ok(None)
    }
}

/// The names of a mixed content, or the fault that they have.
fn judge_names(alloc: Global, names: NameList) -> Result<Content, ContentFault>
    ensures { Judges (Content.Mixed names) result }
{
    if names.len() > POSITIONS {
        return Err(ContentFault::PositionsOver);
    }
    match first_repeated(alloc, names.as_slice()) {
        Ok(None) => Ok(Content::Mixed(names)),
        Ok(Some(name)) => Err(ContentFault::DuplicateMixedName(name)),
        Err(_) => Err(ContentFault::NoMemory),
    }
}

fn judge_model(part: Particle) -> Result<Content, ContentFault>
    ensures { Judges (Content.Children part) result }
{
    if has_more_names(&part, POSITIONS) {
        Err(ContentFault::PositionsOver)
    } else {
        Ok(Content::Children(part))
    }
}

/// The content, or the first fault that it has.
fn judge(alloc: Global, content: Content) -> Result<Content, ContentFault>
    ensures { Judges content result }
{
    match content {
        Content::Empty => Ok(Content::Empty),
        Content::Any => Ok(Content::Any),
        Content::Mixed(names) => judge_names(alloc, names),
        Content::Children(part) => judge_model(part),
    }
}

/// The proper content that a text spells, without white space at its ends (XML 1.0, 3.2). It takes time linear in the
/// text. The faults are tested in this order:
///
/// - GroupTooDeep exactly where some front of the text has more than 64 open parentheses;
/// - Malformed exactly where no content is spelled;
/// - PositionsOver exactly where more than 1,024 names occur in the content that is spelled;
/// - DuplicateMixedName with the first name of a mixed content that equals an earlier one.
pub fn parse_content(alloc: Global, text: &Text) -> Result<Content, ContentFault>
    ensures { Parses text.now result }
{
    let text = text.as_slice();
    if is_too_deep(text) {
        return Err(ContentFault::GroupTooDeep);
    }
    match read_content(alloc, text) {
        Ok(Some(content)) => judge(alloc, content),
        Ok(None) => Err(ContentFault::Malformed),
        Err(_) => Err(ContentFault::NoMemory),
    }
}
