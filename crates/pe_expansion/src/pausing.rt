//! Expansions that stop where a text is not loaded, and go on there once it is.

ghost use Rattle.std.specs.Prelude.{◌≡◌, ◌++◌, ◌∷◌, ◌≤◌, [], All, IfOk, IsSome, List, OnOk, map, option_map, ℕ};
ghost use Rattle.pe_expansion.specs.Bound.{Bound, loaded_at};
ghost use Rattle.pe_expansion.specs.Nesting.{Judges};
ghost use Rattle.pe_expansion.specs.Pausing.{IsPaused, IsUnderWay, Numbers, Resumes, Stays, Turns, place_of as place_seen, AreNumbered};

use crate::pieces::Manner;
use crate::stack::{Frame, Work, go_on, step, text_of};
use crate::{Bindings, PeFault};
use jats_chars::{Name, NameList, NoMemory, Text};
use std::alloc::Global;

/// A text that waits until the text of an entity ends: the number of the entity, the place from which the text that waits
/// goes on, where the entity's text begins in what is written, and whether the text that waits breaks nesting so far.
#[derive(Clone, Copy, Debug, Drop, PartialEq, Eq)]
pub struct Place {
    pub number: usize,
    pub at: usize,
    pub start: usize,
    pub broken: bool,
}

/// An expansion that is not done: how it is done, how many characters were included before it, what is written and how many
/// characters are included so far, the texts that wait, and the place in the text that is read, which is that of the last
/// entity. It holds no text that it reads.
#[derive(Debug, Drop)]
pub struct PausedExpansion {
    pub(crate) manner: Manner,
    pub(crate) first: u64,
    pub(crate) written: Text,
    pub(crate) spent: u64,
    pub(crate) places: Vec<Place>,
    pub(crate) at: usize,
    pub(crate) broken: bool,
}

/// How far an expansion came.
#[derive(Debug, Drop)]
pub enum Progress {
    /// What the text stands for, and how many characters are included with it.
    Done(Text, u64),
    /// The text of this name is not loaded, and the rest is to go on once it is.
    Waits(Name, PausedExpansion),
}

/// The name and the text of the entity at a place, where it has a text.
fn loaded_entity(bound: &Bindings, number: usize) -> Option<(&Name, &[char])>
    ensures { option_map (λ p. (p.0.now, p.1.now)) result ≡ loaded_at bound.now number }
{
    match bound.entity_at(number) {
        None => None,
        Some((name, entity)) => match text_of(entity) {
            None => None,
            Some(text) => Some((name, text.as_slice())),
        },
    }
}

/// Reads the text of an entity; the text that is read waits.
fn reopen<'a>(bound: &'a Bindings, place: Place, work: &mut Work<'a>) -> Result<(), NoMemory>
    requires { IsSome (loaded_at bound.now place.number) }
    ensures numbers { OnOk result (Numbers bound.now work.old work.new) }
    ensures places { OnOk result (map place_seen work.new.frames.items ≡ map place_seen work.old.frames.items ++ place ∷ []) }
    ensures written { OnOk result ((work.new.written ≡ work.old.written) × (work.new.spent ≡ work.old.spent)) }
    ensures at { OnOk result ((work.new.at ≡ work.old.at) × (work.new.broken ≡ work.old.broken)) }
{
    let Some((name, text)) = loaded_entity(bound, place.number) else {
        unreachable!();
    };
    work.frames.push(Frame {
        number: place.number,
        name,
        text: work.text,
        at: place.at,
        start: place.start,
        broken: place.broken,
    })?;
    work.text = text;
    Ok(())
}

/// Reads the text of the last of these entities; the texts that are before it wait at these places.
fn restore<'a>(bound: &'a Bindings, places: &[Place], work: &mut Work<'a>) -> Result<(), NoMemory>
    requires there { All (λ p. IsSome (loaded_at bound.now p.number)) places.now }
    requires none { work.old.frames.items ≡ [] }
    ensures numbered { OnOk result (AreNumbered bound.now work.old.text.now work.new.frames.items work.new.text.now) }
    ensures places { OnOk result (map place_seen work.new.frames.items ≡ places.now) }
    ensures written { OnOk result ((work.new.written ≡ work.old.written) × (work.new.spent ≡ work.old.spent)) }
    ensures at { OnOk result ((work.new.at ≡ work.old.at) × (work.new.broken ≡ work.old.broken)) }
{
    for place in places {
        reopen(bound, *place, work)?;
    }
    Ok(())
}

fn place_of(frame: &Frame) -> Place
    ensures { result ≡ place_seen frame.now }
{
    Place {
        number: frame.number,
        at: frame.at,
        start: frame.start,
        broken: frame.broken,
    }
}

fn places_of(alloc: Global, frames: &[Frame]) -> Result<Vec<Place>, NoMemory>
    ensures { IfOk result (λ v. v.items ≡ map place_seen frames.now) }
{
    let mut places = Vec::new(alloc);
    for frame in frames {
        places.push(place_of(frame))?;
    }
    Ok(places)
}

/// The expansion of a work.
fn pause(alloc: Global, manner: Manner, first: u64, work: Work) -> Result<PausedExpansion, NoMemory>
    requires { Judges manner work }
    ensures { IfOk result (λ e. (bound : Bound) (chain : List (List ℕ)) (outer : List ℕ) → IsUnderWay manner bound chain outer first work.entry → IsPaused bound chain outer e × (e.manner ≡ manner) × (e.first ≡ first)) }
{
    let places = places_of(alloc, work.frames.as_slice())?;
    let Work {
        written,
        spent,
        at,
        broken,
        ..
    } = work;
    Ok(PausedExpansion {
        manner,
        first,
        written,
        spent,
        places,
        at,
        broken,
    })
}

/// One step, or the end of a text; false where all is done.
fn turn<'a>(
    alloc: Global,
    manner: Manner,
    bound: &'a Bindings,
    chain: &NameList,
    work: &mut Work<'a>,
) -> Result<bool, PeFault>
    requires { Judges manner work.old }
    ensures turns { Turns manner bound.now chain.now work.old work.new result }
    ensures judges { OnOk result (Judges manner work.new) }
    ensures numbers { OnOk result (Numbers bound.now work.old work.new) }
    ensures stays { Stays work.old work.new result }
{
    if work.at < work.text.len() {
        match step(alloc, manner, bound, chain, work) {
            Err(fault) => Err(fault),
            Ok(()) => Ok(true),
        }
    } else {
        go_on(alloc, manner, work)
    }
}

impl PausedExpansion {
    /// The expansion of any text, of which nothing is read, where so many characters were included before.
    pub fn new(alloc: Global, manner: Manner, spent: u64) -> PausedExpansion
        ensures paused { (bound : Bound) (chain : List (List ℕ)) (outer : List ℕ) → IsPaused bound chain outer result }
        ensures of { (result.manner ≡ manner) × (result.first ≡ spent) }
    {
        PausedExpansion {
            manner,
            first: spent,
            written: Text::new(alloc),
            spent,
            places: Vec::new(alloc),
            at: 0,
            broken: false,
        }
    }

    /// Goes on with the expansion of the text, where the names of the chain are open, up to its end or to a text that is not
    /// loaded. Between two calls `set_outer` may give texts to entities that have none, and names may be bound; then the
    /// answer is that of an expansion from the beginning. The faults are those of `literal` and `plain_body`, and
    /// `NotLoaded` is no fault here.
    pub fn resume(
        self,
        alloc: Global,
        bound: &Bindings,
        chain: &NameList,
        text: &[char],
    ) -> Result<Progress, PeFault>
        requires { IsPaused bound.now chain.now text.now self }
        ensures { Resumes bound.now chain.now text.now self result }
    {
        let PausedExpansion {
            manner,
            first,
            written,
            spent,
            places,
            at,
            broken,
        } = self;
        let mut work = Work {
            written,
            spent,
            frames: Vec::new(alloc),
            text,
            at,
            broken,
        };
        restore(bound, places.as_slice(), &mut work)?;
        let mut more = true;
        while more {
            match turn(alloc, manner, bound, chain, &mut work) {
                Err(PeFault::NotLoaded(name)) => {
                    return Ok(Progress::Waits(name, pause(alloc, manner, first, work)?));
                }
                Err(fault) => return Err(fault),
                Ok(goes_on) => more = goes_on,
            }
        }
        Ok(Progress::Done(work.written, work.spent))
    }
}
