//! Values by a stack of texts that wait.

ghost use Rattle.std.specs.Prelude.{◌≡◌, ◌++◌, ◌∷◌, ◌+◌, ◌<◌, ◌≤◌, IfOk, IfSome, IsTrue, ◌||◌, Some, None, [], drop, ℕ, List, bytes_eq, length};
ghost use Rattle.std.specs.List.{list_any};
ghost use Rattle.jats_chars.specs.Names.{is_name};
ghost use Rattle.dtd_scanner.specs.References.{named};
ghost use Rattle.pe_expansion.specs.Opening.{is_open as is_open_in};
ghost use Rattle.decl_set.specs.Values as spec;
ghost use Rattle.decl_set.specs.Declarations.{Entity};
ghost use Rattle.decl_set.specs.ValueFrames.{open_names, Gives, GoesOn, StandsFor, Stepped};
ghost use Rattle.decl_set.specs.declared.pieces.Kind.TheVariants.{Named};

use crate::pieces::{Kind, Piece, value_piece};
use crate::spelled::found;
use crate::{EntityDef, ValueFault};
use indexmap::IndexMap;
use jats_chars::limits::{INCLUDED_CHARACTERS, OPEN_ENTITIES};
use jats_chars::{Name, NameList, NoMemory, Text};
use std::alloc::Global;

/// A text that waits, from a place on, until the text of an entity ends.
#[derive(Debug, Drop)]
pub struct Frame<'a> {
    pub name: &'a Name,
    pub text: &'a [char],
    pub at: usize,
}

/// A value under way: what is written, the count of included characters, the texts that wait, and the place in the text
/// that is read.
#[derive(Debug, Drop)]
pub struct Work<'a> {
    pub written: Text,
    pub spent: u64,
    pub frames: Vec<Frame<'a>>,
    pub text: &'a [char],
    pub at: usize,
}

/// An entity that may open: its name as it is declared, its text, and the count of included characters with it.
#[derive(Debug, Drop)]
struct Entered<'a> {
    name: &'a Name,
    text: &'a Text,
    spent: u64,
}

fn name_of(alloc: Global, name: &[char]) -> Result<Name, NoMemory>
    requires { IsTrue (is_name name.now) }
    ensures { IfOk result (λ n. n ≡ name.now) }
{
    match Name::from_slice(alloc, name)? {
        Some(name) => Ok(name),
        None => unreachable!(),
    }
}

fn is_in_chain(chain: &NameList, name: &Name) -> bool
    ensures { result ≡ is_open_in chain.now name.now }
{
    chain.as_slice().iter().any(|n| *n == *name)
}

fn is_in_frames(frames: &[Frame], name: &Name) -> bool
    ensures { result ≡ list_any (λ f. bytes_eq f.name.now name.now) frames.now }
{
    frames.iter().any(|f| *f.name == *name)
}

#[tactic(auto, using(crate::proofs::ValueNames::open_names_has))]
fn is_open(chain: &NameList, frames: &[Frame], name: &Name) -> bool
    ensures { result ≡ is_open_in (open_names chain.now frames.now) name.now }
{
    is_in_chain(chain, name) || is_in_frames(frames, name)
}

/// The text of an internal entity, and the count of included characters with it.
#[tactic(auto, using(crate::proofs::ValueNames::open_names_length))]
fn enter_text<'a>(
    alloc: Global,
    chain: &NameList,
    frames: &Vec<Frame>,
    name: &'a Name,
    text: &'a Text,
    spent: u64,
) -> Result<Entered<'a>, ValueFault>
    ensures name { IfOk result (λ e. e.name.now ≡ name.now) }
    ensures within { IfOk result (λ e. (e.spent ≡ spent + length e.text.now) × (e.spent ≤ 67108864) × (length chain.now + length frames.now.items < 32)) }
    ensures text { Gives (λ e. (e.text.now, e.spent)) result (spec.entered (open_names chain.now frames.now.items) spent name.now text.now) }
{
    if is_open(chain, frames.as_slice(), name) {
        return Err(ValueFault::RecursiveEntity(name.copy(alloc)?));
    }
    if frames.len() >= OPEN_ENTITIES || chain.len() >= OPEN_ENTITIES - frames.len() {
        return Err(ValueFault::EntityTooDeep(name.copy(alloc)?));
    }
    let len = text.len() as u64;
    if spent > INCLUDED_CHARACTERS || len > INCLUDED_CHARACTERS - spent {
        return Err(ValueFault::ExpansionOver(name.copy(alloc)?));
    }
    let spent = spent + len;
    Ok(Entered { name, text, spent })
}

/// The text of a reference, and the count of included characters with it.
#[tactic(auto, unfolding(crate::specs::Values::opening))]
fn enter<'a>(
    alloc: Global,
    entities: &'a IndexMap<Name, EntityDef>,
    chain: &NameList,
    frames: &Vec<Frame>,
    name: &[char],
    spent: u64,
) -> Result<Entered<'a>, ValueFault>
    requires { IsTrue (is_name name.now) }
    ensures name { IfOk result (λ e. e.name.now ≡ name.now) }
    ensures within { IfOk result (λ e. (e.spent ≡ spent + length e.text.now) × (e.spent ≤ 67108864) × (length chain.now + length frames.now.items < 32)) }
    ensures text { Gives (λ e. (e.text.now, e.spent)) result (spec.opening entities.now.entries (open_names chain.now frames.now.items) spent name.now) }
{
    match found(entities, name) {
        None => Err(ValueFault::EntityUnknown(name_of(alloc, name)?)),
        Some((name, def)) => {
            match def {
                EntityDef::Internal(text) => { enter_text(alloc, chain, frames, name, text, spent) }
                EntityDef::External(_) => Err(ValueFault::EntityExternal(name.copy(alloc)?)),
                EntityDef::Unparsed(_, _) => Err(ValueFault::EntityExternal(name.copy(alloc)?)),
            }
        }
    }
}

/// The character of a predefined entity (XML 1.0, 4.6).
#[tactic(auto, unfolding(crate::specs::Values::predefined))]
fn predefined(name: &[char]) -> Option<char>
    ensures { result ≡ spec.predefined name.now }
{
    if name == ['l', 't'].as_slice() {
        Some('<')
    } else if name == ['g', 't'].as_slice() {
        Some('>')
    } else if name == ['a', 'm', 'p'].as_slice() {
        Some('&')
    } else if name == ['a', 'p', 'o', 's'].as_slice() {
        Some('\'')
    } else if name == ['q', 'u', 'o', 't'].as_slice() {
        Some('"')
    } else {
        None
    }
}

/// The piece at a place.
fn piece_from(text: &[char], at: usize) -> Option<Piece>
    requires { at < length text.now }
    ensures value { result ≡ spec.value_piece (drop at text.now) }
    ensures within { IfSome result (λ p. (1 ≤ p.len) × (at + p.len ≤ length text.now)) }
    ensures name { IfSome result (λ p. p.kind ≡ Named → (2 ≤ p.len) × IsTrue (is_name (named p.len (drop at text.now)))) }
{
    let (_, rest) = text.split_at(at);
    value_piece(rest)
}

/// The name in a reference.
fn name_at(text: &[char], at: usize, len: usize) -> &[char]
    requires { (2 ≤ len) × (at + len ≤ length text.now) }
    ensures { result.now ≡ named len (drop at text.now) }
{
    &text[at + 1..at + len - 1]
}

/// Goes on with the last text that waits, and answers whether there was one.
#[tactic(auto, unfolding(crate::specs::ValueFrames::left_of, crate::specs::ValueFrames::size_of))]
pub(crate) fn go_on(work: &mut Work) -> bool
    requires { length work.old.text.now ≤ work.old.at }
    ensures { (entities : List Entity) (chain : List (List ℕ)) → GoesOn entities chain work.old work.new result }
{
    match work.frames.pop() {
        None => false,
        Some(frame) => {
            work.text = frame.text;
            work.at = frame.at;
            true
        }
    }
}

/// Writes a character.
fn put(work: &mut Work, c: char, len: usize) -> Result<(), ValueFault>
    requires within { (1 ≤ len) × (work.old.at + len ≤ length work.old.text.now) }
    requires piece { StandsFor (drop work.old.at work.old.text.now) c len }
    ensures { (entities : List Entity) (chain : List (List ℕ)) → Stepped entities chain work.old work.new result }
{
    work.written.push(c)?;
    work.at += len;
    Ok(())
}

/// Opens the text of a reference.
fn open_text<'a>(
    alloc: Global,
    entities: &'a IndexMap<Name, EntityDef>,
    chain: &NameList,
    work: &mut Work<'a>,
    name: &[char],
    len: usize,
) -> Result<(), ValueFault>
    requires within { (2 ≤ len) × (work.old.at + len ≤ length work.old.text.now) }
    requires piece { spec.value_piece (drop work.old.at work.old.text.now) ≡ Some (record { kind = Named; len = len }) }
    requires named { name.now ≡ named len (drop work.old.at work.old.text.now) }
    requires name { IsTrue (is_name name.now) }
    requires other { spec.predefined name.now ≡ None }
    ensures { Stepped entities.now.entries chain.now work.old work.new result }
{
    let text = work.text;
    let at = work.at;
    match enter(alloc, entities, chain, &work.frames, name, work.spent) {
        Err(fault) => Err(fault),
        Ok(entered) => {
            work.frames.push(Frame {
                name: entered.name,
                text,
                at: at + len,
            })?;
            work.spent = entered.spent;
            work.text = entered.text.as_slice();
            work.at = 0;
            Ok(())
        }
    }
}

/// A reference to a general entity.
fn refer<'a>(
    alloc: Global,
    entities: &'a IndexMap<Name, EntityDef>,
    chain: &NameList,
    work: &mut Work<'a>,
    len: usize,
) -> Result<(), ValueFault>
    requires within { (2 ≤ len) × (work.old.at + len ≤ length work.old.text.now) }
    requires piece { spec.value_piece (drop work.old.at work.old.text.now) ≡ Some (record { kind = Named; len = len }) }
    requires name { IsTrue (is_name (named len (drop work.old.at work.old.text.now))) }
    ensures { Stepped entities.now.entries chain.now work.old work.new result }
{
    let name = name_at(work.text, work.at, len);
    match predefined(name) {
        Some(c) => put(work, c, len),
        None => open_text(alloc, entities, chain, work, name, len),
    }
}

/// One piece.
pub(crate) fn step<'a>(
    alloc: Global,
    entities: &'a IndexMap<Name, EntityDef>,
    chain: &NameList,
    work: &mut Work<'a>,
) -> Result<(), ValueFault>
    requires { work.old.at < length work.old.text.now }
    ensures { Stepped entities.now.entries chain.now work.old work.new result }
{
    let Some(piece) = piece_from(work.text, work.at) else {
        return Err(ValueFault::Malformed);
    };
    match piece.kind {
        Kind::Char(c) => put(work, c, piece.len),
        Kind::LessThan => Err(ValueFault::LessThan),
        Kind::Named => refer(alloc, entities, chain, work, piece.len),
    }
}
