//! Contents read from their texts.

ghost use Rattle.std.specs.Prelude.{◌≡◌, ◌≤◌, ◌<◌, ◌+◌, ◌-◌, ◌∷◌, [], length, drop, IfOk, IfSome, option_map};
ghost use Rattle.content_models.specs.declared.content.Particle.TheVariants.{Seq, Choice};
ghost use Rattle.content_models.specs.Reading as spec;
ghost use Rattle.content_models.specs.Given.{Gives, GivesItems, GivesName, found_in, parts_in};

use crate::{Content, Occurs, Particle, ParticleList};
use jats_chars::{Name, NameList, NoMemory, is_name_char, is_space};
use std::alloc::Global;

/// A part, and the place after it.
#[derive(Drop)]
pub struct Found {
    pub part: Particle,
    pub end: usize,
}

/// Parts, and the place after them.
#[derive(Drop)]
pub struct Parts {
    pub list: ParticleList,
    pub end: usize,
}

/// A name, and the place after it.
#[derive(Drop)]
pub struct Word {
    pub name: Name,
    pub end: usize,
}

/// Names, and the place after them.
#[derive(Drop)]
pub struct Words {
    pub list: NameList,
    pub end: usize,
}

/// The first place from `at` on without white space.
#[tactic(auto, using(crate::proofs::Places::skips))]
pub fn skip(text: &[char], at: usize) -> usize
    requires { at ≤ length text.now }
    ensures value { drop result text.now ≡ spec.skip (drop at text.now) }
    ensures from { at ≤ result }
    ensures within { result ≤ length text.now }
{
    let mut end = at;
    while end < text.len() && is_space(text[end]) {
        end += 1;
    }
    end
}

#[tactic(auto, using(crate::proofs::Places::skips))]
fn name_end(text: &[char], at: usize) -> usize
    requires { at ≤ length text.now }
    ensures value { result ≡ at + spec.name_length (drop at text.now) }
    ensures within { result ≤ length text.now }
{
    let mut end = at;
    while end < text.len() && is_name_char(text[end]) {
        end += 1;
    }
    end
}

fn read_sign(text: &[char], at: usize) -> (Occurs, usize)
    requires { at ≤ length text.now }
    ensures value { (result.0, drop result.1 text.now) ≡ spec.occurs_of (drop at text.now) }
    ensures from { at ≤ result.1 }
    ensures within { result.1 ≤ length text.now }
{
    if at == text.len() {
        return (Occurs::Once, at);
    }
    match text[at] {
        '?' => (Occurs::Opt, at + 1),
        '*' => (Occurs::Star, at + 1),
        '+' => (Occurs::Plus, at + 1),
        _ => (Occurs::Once, at),
    }
}

#[tactic(auto, unfolding(crate::specs::Reading::bare))]
pub fn read_name(alloc: Global, text: &[char], at: usize) -> Result<Option<Word>, NoMemory>
    requires { at ≤ length text.now }
    ensures { GivesName text.now at (spec.bare (drop at text.now)) result }
{
    let end = name_end(text, at);
    match Name::from_slice(alloc, &text[at..end])? {
        None => Ok(None),
        Some(name) => Ok(Some(Word { name, end })),
    }
}

fn read_named(alloc: Global, text: &[char], at: usize) -> Result<Option<Found>, NoMemory>
    requires { at ≤ length text.now }
    ensures { Gives text.now at (spec.named (drop at text.now)) result }
{
    match read_name(alloc, text, at)? {
        None => Ok(None),
        Some(word) => {
            let Word { name, end } = word;
            let (occurs, end) = read_sign(text, end);
            Ok(Some(Found {
                part: Particle::One(name, occurs),
                end,
            }))
        }
    }
}

/// The part at a place, with at most `depth` groups inside one another.
#[cycle(read)]
#[tactic(auto, using(crate::proofs::Groups::reads))]
fn read(alloc: Global, text: &[char], at: usize, depth: usize) -> Result<Option<Found>, NoMemory>
    requires { at ≤ length text.now }
    ensures { Gives text.now at (spec.read (length text.now) depth (drop at text.now)) result }
{
    if at == text.len() {
        return Ok(None);
    }
    if depth > 0 && text[at] == '(' {
        read_group(alloc, text, at + 1, depth - 1)
    } else {
        read_named(alloc, text, at)
    }
}

/// The group whose `(` stands before a place.
#[cycle(read)]
#[tactic(auto, using(crate::proofs::Groups::reads))]
pub fn read_group(
    alloc: Global,
    text: &[char],
    at: usize,
    depth: usize,
) -> Result<Option<Found>, NoMemory>
    requires { at ≤ length text.now }
    ensures { Gives text.now at (spec.grouped (spec.read (length text.now) depth) (length text.now) (drop at text.now)) result }
{
    let start = skip(text, at);
    match read(alloc, text, start, depth)? {
        None => Ok(None),
        Some(first) => read_group_by(alloc, text, first, depth),
    }
}

#[cycle(read)]
#[tactic(auto, using(crate::proofs::Groups::reads))]
fn read_group_by(
    alloc: Global,
    text: &[char],
    first: Found,
    depth: usize,
) -> Result<Option<Found>, NoMemory>
    requires within { first.end ≤ length text.now }
    requires onward { 0 < first.end }
    ensures { Gives text.now first.end (spec.grouped_by (spec.read (length text.now) depth) (length text.now) first.part (spec.skip (drop first.end text.now))) result }
{
    let Found { part, end } = first;
    let end = skip(text, end);
    if end == text.len() {
        return Ok(None);
    }
    let mut list = ParticleList::new(alloc);
    list.push(part)?;
    if text[end] == '|' {
        match read_more(alloc, text, Parts { list, end }, '|', depth)? {
            None => Ok(None),
            Some(found) => Ok(Some(choice(text, found))),
        }
    } else {
        match read_more(alloc, text, Parts { list, end }, ',', depth)? {
            None => Ok(None),
            Some(found) => Ok(Some(sequence(text, found))),
        }
    }
}

fn choice(text: &[char], found: Parts) -> Found
    requires { found.end ≤ length text.now }
    ensures value { found_in text.now result ≡ spec.closed Choice (parts_in text.now found) }
    ensures from { found.end ≤ result.end }
    ensures within { result.end ≤ length text.now }
{
    let Parts { list, end } = found;
    let (occurs, end) = read_sign(text, end);
    Found {
        part: Particle::Choice(list, occurs),
        end,
    }
}

fn sequence(text: &[char], found: Parts) -> Found
    requires { found.end ≤ length text.now }
    ensures value { found_in text.now result ≡ spec.closed Seq (parts_in text.now found) }
    ensures from { found.end ≤ result.end }
    ensures within { result.end ≤ length text.now }
{
    let Parts { list, end } = found;
    let (occurs, end) = read_sign(text, end);
    Found {
        part: Particle::Seq(list, occurs),
        end,
    }
}

#[cycle(read)]
#[tactic(auto, using(crate::proofs::Groups::reads))]
fn read_more(
    alloc: Global,
    text: &[char],
    so_far: Parts,
    separator: char,
    depth: usize,
) -> Result<Option<Parts>, NoMemory>
    requires within { so_far.end ≤ length text.now }
    requires few { length so_far.list ≤ so_far.end }
    ensures { GivesItems text.now so_far.end (spec.more (spec.read (length text.now) depth) (length text.now + 1 - length so_far.list) separator so_far.list (drop so_far.end text.now)) result }
{
    let Parts { mut list, mut end } = so_far;
    while end < text.len() && text[end] != ')' {
        if text[end] != separator {
            return Ok(None);
        }
        let start = skip(text, end + 1);
        match read(alloc, text, start, depth)? {
            None => return Ok(None),
            Some(found) => {
                let Found { part, end: next } = found;
                list.push(part)?;
                end = skip(text, next);
            }
        }
    }
    if end == text.len() {
        return Ok(None);
    }
    Ok(Some(Parts { list, end: end + 1 }))
}
