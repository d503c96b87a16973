//! Two automata side by side.

ghost use Rattle.std.specs.Prelude.{◌<◌, ◌^◌, length, IfOk};
ghost use Rattle.model_inclusion.specs.Included.{Compares, TellEnds};
ghost use Rattle.model_inclusion.specs.Listed.{ArePairs, ListsPairs};
ghost use Rattle.model_inclusion.specs.Rows.{AreRows};

use crate::parting::any_part;
use crate::reach::reached;
use crate::rows::{Step, rows};
use crate::set::collect;
use crate::{LiveNames, PairFault, PairSet};
use jats_chars::{ListOf, NameList, NoMemory};
use position_automata::Automaton;
use std::alloc::Global;

/// What two contents are to each other on live names.
#[derive(Clone, Copy, Debug)]
pub struct Compared {
    /// How many pairs of states are listed.
    pub pairs: u64,
    /// Whether some list of live names is derived by the first and not by the second.
    pub separates: bool,
}

/// The pairs, by the rows of both automata.
fn pairs_of_rows(
    alloc: Global,
    first: &Automaton,
    second: &Automaton,
    live: &LiveNames,
    firsts: &[ListOf<Step>],
    seconds: &[ListOf<Step>],
) -> Result<PairSet, NoMemory>
    requires first { AreRows live.now first.now firsts.now }
    requires first_small { length firsts.now < 2 ^ 32 }
    requires second { AreRows live.now second.now seconds.now }
    requires second_small { length seconds.now < 2 ^ 32 }
    ensures { IfOk result (ArePairs live.now first.now second.now) }
{
    let _ = first.states();
    let width = second.states();
    let seen = reached(alloc, firsts, seconds, live.len())?;
    collect(alloc, seen.as_slice(), width)
}

/// As `pairs`, where the live names are numbered already, which serves for many automata.
pub fn pairs_among(
    alloc: Global,
    first: &Automaton,
    second: &Automaton,
    live: &LiveNames,
    left: u64,
) -> Result<PairSet, PairFault>
    ensures { ListsPairs live.now first.now second.now left result }
{
    let firsts = rows(alloc, first, live)?;
    let seconds = rows(alloc, second, live)?;
    let found = pairs_of_rows(
        alloc,
        first,
        second,
        live,
        firsts.as_slice(),
        seconds.as_slice(),
    )?;
    if found.len() as u64 > left {
        Err(PairFault::PairsOver)
    } else {
        Ok(found)
    }
}

/// The number of pairs, and whether some list of live names is derived by the first content and not by the second.
/// `PairsOver` exactly where there are more than `left` pairs. The flags tell from which states of the first live names
/// lead to acceptance.
pub fn compare(
    alloc: Global,
    first: &Automaton,
    second: &Automaton,
    live: &LiveNames,
    ends: &[bool],
    left: u64,
) -> Result<Compared, PairFault>
    requires { TellEnds live.now first.now ends.now }
    ensures { Compares live.now first.now second.now left result }
{
    let firsts = rows(alloc, first, live)?;
    let seconds = rows(alloc, second, live)?;
    let found = pairs_of_rows(
        alloc,
        first,
        second,
        live,
        firsts.as_slice(),
        seconds.as_slice(),
    )?;
    let pairs = found.len() as u64;
    if pairs > left {
        return Err(PairFault::PairsOver);
    }
    let _ = second.states();
    let separates = any_part(
        alloc,
        first,
        second,
        firsts.as_slice(),
        seconds.as_slice(),
        live.len(),
        ends,
        found.as_slice(),
    )?;
    Ok(Compared { pairs, separates })
}

/// The pairs of states to which one list of live names leads both automata, ascending by the first and then the second
/// state; `PairsOver` exactly where there are more than `left`, and `NoMemory` where memory runs out.
pub fn pairs(
    alloc: Global,
    first: &Automaton,
    second: &Automaton,
    live: &NameList,
    left: u64,
) -> Result<PairSet, PairFault>
    ensures { ListsPairs live.now first.now second.now left result }
{
    let live = LiveNames::new(alloc, live)?;
    pairs_among(alloc, first, second, &live, left)
}
