//! Expansion by a stack of texts that wait.

ghost use Rattle.std.specs.Prelude.{◌≡◌, ◌++◌, ◌∷◌, ◌+◌, ◌<◌, ◌≤◌, IfOk, IfSome, IsTrue, OnOk, ◌==◌, ◌||◌, not, Ok, Some, None, [], take, drop, ℕ, List, bytes_eq, length, option_map};
ghost use Rattle.std.specs.List.{list_any, prefix_len};
ghost use Rattle.std.specs.Option.{option_copied};
ghost use Rattle.dtd_scanner.specs.References.{named};
ghost use Rattle.jats_chars.specs.Names.{is_name};
ghost use Rattle.pe_expansion.specs.Bound.{Bound, loaded_at, text_in};
ghost use Rattle.pe_expansion.specs.Opening as spec;
ghost use Rattle.pe_expansion.specs.Expansion as expansion;
ghost use Rattle.pe_expansion.specs.Pieces as pieces;
ghost use Rattle.pe_expansion.specs.Frames.{open_names, Closes, GoesOn, Stepped};
ghost use Rattle.pe_expansion.specs.Pausing.{Numbers, SameTexts, Stays, SteppedBy, WantsNone};
ghost use Rattle.pe_expansion.specs.Nesting.{Judges};
ghost use Rattle.pe_expansion.specs.Outcomes.{Fails, Gives};
ghost use Rattle.pe_expansion.specs.declared.pieces.Kind.TheVariants.{Char, Kept, Included};
ghost use Rattle.pe_expansion.specs.declared.pieces.Manner.TheVariants.{Body};

use crate::pieces::{Kind, Manner, Piece, first_piece, plain_len};
use crate::{Bindings, PeFault, PeText};
use jats_chars::limits::{INCLUDED_CHARACTERS, OPEN_ENTITIES};
use jats_chars::{Name, NameList, NoMemory, Text};
use std::alloc::Global;

/// A text that waits, from a place on, until the text of a name ends, which stands in what is written from `start` on;
/// the number of that name; and whether the text that waits breaks nesting so far.
#[derive(Debug, Drop)]
pub struct Frame<'a> {
    pub number: usize,
    pub name: &'a Name,
    pub text: &'a [char],
    pub at: usize,
    pub start: usize,
    pub broken: bool,
}

/// An expansion under way: what is written, the count of included characters, the texts that wait, the place in the text
/// that is read, and whether that text breaks nesting so far.
#[derive(Debug, Drop)]
pub struct Work<'a> {
    pub written: Text,
    pub spent: u64,
    pub frames: Vec<Frame<'a>>,
    pub text: &'a [char],
    pub at: usize,
    pub broken: bool,
}

/// An entity that may open: its number, its name as it is bound, its text, and the count of included characters with it.
#[derive(Debug, Drop)]
pub(crate) struct Entered<'a> {
    pub number: usize,
    pub name: &'a Name,
    pub text: &'a Text,
    pub spent: u64,
}

pub(crate) fn name_of(alloc: Global, name: &[char]) -> Result<Name, NoMemory>
    requires { IsTrue (is_name name.now) }
    ensures { IfOk result (λ n. n ≡ name.now) }
{
    match Name::from_slice(alloc, name)? {
        Some(name) => Ok(name),
        None => unreachable!(),
    }
}

pub(crate) fn is_in_chain(chain: &NameList, name: &Name) -> bool
    ensures { result ≡ spec.is_open chain.now name.now }
{
    chain.as_slice().iter().any(|n| *n == *name)
}

fn is_in_frames(frames: &[Frame], name: &Name) -> bool
    ensures { result ≡ list_any (λ f. bytes_eq f.name.now name.now) frames.now }
{
    frames.iter().any(|f| *f.name == *name)
}

#[tactic(auto, using(crate::proofs::OpenNames::open_names_has))]
fn is_open(chain: &NameList, frames: &[Frame], name: &Name) -> bool
    ensures { result ≡ spec.is_open (open_names chain.now frames.now) name.now }
{
    is_in_chain(chain, name) || is_in_frames(frames, name)
}

pub(crate) fn text_of(entity: &PeText) -> Option<&Text>
    ensures { option_copied result ≡ text_in entity.now }
{
    match entity {
        PeText::Inner(text) => Some(text),
        PeText::Outer { text, .. } => text.as_ref(),
    }
}

/// The text of an entity that may open.
pub(crate) fn load<'a>(
    alloc: Global,
    number: usize,
    name: &'a Name,
    entity: &'a PeText,
    spent: u64,
) -> Result<Entered<'a>, PeFault>
    ensures name { IfOk result (λ e. e.name.now ≡ name.now) }
    ensures number { IfOk result (λ e. e.number ≡ number) }
    ensures there { IfOk result (λ e. text_in entity.now ≡ Some e.text.now) }
    ensures within { IfOk result (λ e. (e.spent ≡ spent + length e.text.now) × (e.spent ≤ 67108864)) }
    ensures text { Gives (λ e. (e.text.now, e.spent)) result (spec.loaded name.now spent (text_in entity.now)) }
{
    match text_of(entity) {
        None => Err(PeFault::NotLoaded(name.copy(alloc)?)),
        Some(text) => {
            let len = text.len() as u64;
            if spent > INCLUDED_CHARACTERS || len > INCLUDED_CHARACTERS - spent {
                Err(PeFault::ExpansionOver(name.copy(alloc)?))
            } else {
                Ok(Entered {
                    number,
                    name,
                    text,
                    spent: spent + len,
                })
            }
        }
    }
}

/// The text of a reference, and the count of included characters with it.
#[tactic(auto, unfolding(crate::specs::Opening::opening), using(crate::proofs::OpenNames::open_names_length, crate::proofs::Numbering::entry_loaded))]
fn enter<'a>(
    alloc: Global,
    bound: &'a Bindings,
    chain: &NameList,
    frames: &Vec<Frame>,
    name: &[char],
    spent: u64,
) -> Result<Entered<'a>, PeFault>
    requires { IsTrue (is_name name.now) }
    ensures name { IfOk result (λ e. e.name.now ≡ name.now) }
    ensures entry { IfOk result (λ e. loaded_at bound.now e.number ≡ Some (e.name.now, e.text.now)) }
    ensures within { IfOk result (λ e. (e.spent ≡ spent + length e.text.now) × (e.spent ≤ 67108864) × (length chain.now + length frames.now.items < 32)) }
    ensures text { Gives (λ e. (e.text.now, e.spent)) result (spec.opening bound.now (open_names chain.now frames.now.items) spent name.now) }
{
    match bound.numbered(name) {
        None => Err(PeFault::UndeclaredPe(name_of(alloc, name)?)),
        Some((number, name, entity)) => {
            if is_open(chain, frames.as_slice(), name) {
                return Err(PeFault::RecursivePe(name.copy(alloc)?));
            }
            if frames.len() >= OPEN_ENTITIES || chain.len() >= OPEN_ENTITIES - frames.len() {
                return Err(PeFault::EntityTooDeep(name.copy(alloc)?));
            }
            load(alloc, number, name, entity, spent)
        }
    }
}

/// Writes what stands before an included text.
fn pad(manner: Manner, written: &mut Text) -> Result<(), NoMemory>
    ensures { OnOk result (written.new ≡ expansion.padded manner written.old) }
{
    match manner {
        Manner::Literal => Ok(()),
        Manner::Body => written.push(' '),
    }
}

/// Whether a text breaks nesting behind a character outside quotes.
fn breaks(broken: bool, c: char) -> bool
    ensures { result ≡ (broken || (c == 60 || c == 62)) }
{
    broken || c == '<' || c == '>'
}

/// Whether the quoted part of this length at a place closes its quote.
fn closes(manner: Manner, text: &[char], at: usize, len: usize) -> bool
    requires within { (1 ≤ len) × (at + len ≤ length text.now) }
    requires piece { pieces.first_piece manner (drop at text.now) ≡ Some (record { kind = Kept; len = len }) }
    ensures { manner ≡ Body → result ≡ expansion.nests None (take len (drop at text.now)) }
{
    1 < len && text[at + len - 1] == text[at]
}

/// Whether a text breaks nesting behind the quoted part of this length at a place.
fn breaks_behind(broken: bool, manner: Manner, text: &[char], at: usize, len: usize) -> bool
    requires within { (1 ≤ len) × (at + len ≤ length text.now) }
    requires piece { pieces.first_piece manner (drop at text.now) ≡ Some (record { kind = Kept; len = len }) }
    ensures { manner ≡ Body → result ≡ (broken || not (expansion.nests None (take len (drop at text.now)))) }
{
    broken || !closes(manner, text, at, len)
}

/// Judges what an included text has become, and writes what stands behind it.
fn close(
    alloc: Global,
    manner: Manner,
    name: &Name,
    start: usize,
    broken: bool,
    written: &mut Text,
) -> Result<(), PeFault>
    requires { manner ≡ Body → expansion.nests None (drop start written.old) ≡ not broken }
    ensures closes { (spent : ℕ) → Closes manner name.now start written.old written.new spent result }
    ensures wants { WantsNone result }
{
    match manner {
        Manner::Literal => Ok(()),
        Manner::Body => {
            if broken {
                return Err(PeFault::PeNesting(name.copy(alloc)?));
            }
            written.push(' ')?;
            Ok(())
        }
    }
}

/// How many characters that stand for themselves stand at a place.
fn plain_from(manner: Manner, text: &[char], at: usize) -> usize
    requires { at < length text.now }
    ensures value { result ≡ prefix_len (pieces.is_plain manner) (drop at text.now) }
    ensures within { at + result ≤ length text.now }
{
    let (_, rest) = text.split_at(at);
    plain_len(manner, rest)
}

/// The piece at a place.
fn piece_from(manner: Manner, text: &[char], at: usize) -> Option<Piece>
    requires { at < length text.now }
    ensures value { result ≡ pieces.first_piece manner (drop at text.now) }
    ensures within { IfSome result (λ p. (1 ≤ p.len) × (at + p.len ≤ length text.now)) }
    ensures name { IfSome result (λ p. p.kind ≡ Included → (2 ≤ p.len) × IsTrue (is_name (named p.len (drop at text.now)))) }
{
    let (_, rest) = text.split_at(at);
    first_piece(manner, rest)
}

/// The name in a reference.
fn name_at(text: &[char], at: usize, len: usize) -> &[char]
    requires { (2 ≤ len) × (at + len ≤ length text.now) }
    ensures { result.now ≡ named len (drop at text.now) }
{
    &text[at + 1..at + len - 1]
}

/// Goes on with the last text that waits, and answers whether there was one.
#[tactic(auto, unfolding(crate::specs::Frames::left_of, crate::specs::Frames::size_of))]
pub(crate) fn go_on(alloc: Global, manner: Manner, work: &mut Work) -> Result<bool, PeFault>
    requires ends { length work.old.text.now ≤ work.old.at }
    requires judges { Judges manner work.old }
    ensures goes_on { (bound : Bound) (chain : List (List ℕ)) → GoesOn manner bound chain work.old work.new result }
    ensures judges { OnOk result (Judges manner work.new) }
    ensures numbers { OnOk result ((bound : Bound) → Numbers bound work.old work.new) }
    ensures wants { WantsNone result }
{
    match work.frames.pop() {
        None => Ok(false),
        Some(frame) => {
            let broken = work.broken;
            match close(
                alloc,
                manner,
                frame.name,
                frame.start,
                broken,
                &mut work.written,
            ) {
                Err(fault) => Err(fault),
                Ok(()) => {
                    work.text = frame.text;
                    work.at = frame.at;
                    work.broken = frame.broken;
                    Ok(true)
                }
            }
        }
    }
}

/// Writes a character.
fn put(manner: Manner, work: &mut Work, c: char, len: usize) -> Result<(), PeFault>
    requires within { (1 ≤ len) × (work.old.at + len ≤ length work.old.text.now) }
    requires piece { pieces.first_piece manner (drop work.old.at work.old.text.now) ≡ Some (record { kind = Char c; len = len }) }
    requires judges { Judges manner work.old }
    ensures steps { (bound : Bound) (chain : List (List ℕ)) → Stepped manner bound chain work.old work.new result }
    ensures judges { OnOk result (Judges manner work.new) }
    ensures texts { OnOk result (SameTexts work.old work.new) }
    ensures wants { WantsNone result }
{
    work.written.push(c)?;
    work.at += len;
    work.broken = breaks(work.broken, c);
    Ok(())
}

/// Copies a part.
fn keep(manner: Manner, work: &mut Work, len: usize) -> Result<(), PeFault>
    requires within { (1 ≤ len) × (work.old.at + len ≤ length work.old.text.now) }
    requires piece { pieces.first_piece manner (drop work.old.at work.old.text.now) ≡ Some (record { kind = Kept; len = len }) }
    requires judges { Judges manner work.old }
    ensures steps { (bound : Bound) (chain : List (List ℕ)) → Stepped manner bound chain work.old work.new result }
    ensures judges { OnOk result (Judges manner work.new) }
    ensures texts { OnOk result (SameTexts work.old work.new) }
    ensures wants { WantsNone result }
{
    let text = work.text;
    let at = work.at;
    work.written.push_slice(&text[at..at + len])?;
    work.at += len;
    work.broken = breaks_behind(work.broken, manner, text, at, len);
    Ok(())
}

/// Copies characters that stand for themselves.
fn copy(manner: Manner, work: &mut Work, len: usize) -> Result<(), PeFault>
    requires within { (1 ≤ len) × (work.old.at + len ≤ length work.old.text.now) }
    requires plain { len ≤ prefix_len (pieces.is_plain manner) (drop work.old.at work.old.text.now) }
    requires judges { Judges manner work.old }
    ensures steps { (bound : Bound) (chain : List (List ℕ)) → Stepped manner bound chain work.old work.new result }
    ensures judges { OnOk result (Judges manner work.new) }
    ensures texts { OnOk result (SameTexts work.old work.new) }
    ensures wants { WantsNone result }
{
    let text = work.text;
    let at = work.at;
    work.written.push_slice(&text[at..at + len])?;
    work.at += len;
    Ok(())
}

/// Opens the text of a reference.
fn open_text<'a>(
    alloc: Global,
    manner: Manner,
    bound: &'a Bindings,
    chain: &NameList,
    work: &mut Work<'a>,
    len: usize,
) -> Result<(), PeFault>
    requires within { (2 ≤ len) × (work.old.at + len ≤ length work.old.text.now) }
    requires piece { pieces.first_piece manner (drop work.old.at work.old.text.now) ≡ Some (record { kind = Included; len = len }) }
    requires name { IsTrue (is_name (named len (drop work.old.at work.old.text.now))) }
    requires judges { Judges manner work.old }
    ensures steps { SteppedBy manner bound.now chain.now work.old work.new result }
    ensures judges { OnOk result (Judges manner work.new) }
    ensures numbers { OnOk result (Numbers bound.now work.old work.new) }
    ensures stays { Stays work.old work.new result }
{
    let text = work.text;
    let at = work.at;
    match enter(
        alloc,
        bound,
        chain,
        &work.frames,
        name_at(text, at, len),
        work.spent,
    ) {
        Err(fault) => Err(fault),
        Ok(entered) => {
            pad(manner, &mut work.written)?;
            work.frames.push(Frame {
                number: entered.number,
                name: entered.name,
                text,
                at: at + len,
                start: work.written.len(),
                broken: work.broken,
            })?;
            work.spent = entered.spent;
            work.text = entered.text.as_slice();
            work.at = 0;
            work.broken = false;
            Ok(())
        }
    }
}

/// The characters that stand for themselves at the place, or else one piece.
pub(crate) fn step<'a>(
    alloc: Global,
    manner: Manner,
    bound: &'a Bindings,
    chain: &NameList,
    work: &mut Work<'a>,
) -> Result<(), PeFault>
    requires within { work.old.at < length work.old.text.now }
    requires judges { Judges manner work.old }
    ensures steps { SteppedBy manner bound.now chain.now work.old work.new result }
    ensures judges { OnOk result (Judges manner work.new) }
    ensures numbers { OnOk result (Numbers bound.now work.old work.new) }
    ensures stays { Stays work.old work.new result }
{
    let plain = plain_from(manner, work.text, work.at);
    if plain > 0 {
        return copy(manner, work, plain);
    }
    let Some(piece) = piece_from(manner, work.text, work.at) else {
        return Err(PeFault::Malformed);
    };
    match piece.kind {
        Kind::Char(c) => put(manner, work, c, piece.len),
        Kind::Kept => keep(manner, work, piece.len),
        Kind::Included => open_text(alloc, manner, bound, chain, work, piece.len),
    }
}
