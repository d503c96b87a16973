//! The elements of the first set beside those of the second.

ghost use Rattle.std.specs.Prelude.{◌≡◌, ◌≤◌, IfOk};
ghost use Rattle.model_inclusion.specs.Listed.{ListsPairs};
ghost use Rattle.tagset_report.specs.Live.{AreLive};
ghost use Rattle.comparison_tables.specs.Finding.{FindsSide, FindsSides};

use crate::fault::TablesFault;
use crate::held::element_at;
use decl_set::{DeclSet, is_odd};
use jats_chars::limits::PAIRS;
use jats_chars::{ListOf, Name, NoMemory};
use model_inclusion::{LiveNames, PairFault, PairSet, pairs_among};
use position_automata::Automaton;
use std::alloc::Global;

/// Pairs of states in order.
pub type Pairs = ListOf<(u32, u32)>;

/// What a comparison holds of an element of the first set: whether it is odd in the second, and the listed pairs of states
/// of its two contents, ascending.
#[derive(Drop)]
pub struct Side {
    pub odd: bool,
    pub pairs: Pairs,
}

/// Sides in order of declaration.
pub type Sides = ListOf<Side>;

fn kept(alloc: Global, found: &PairSet) -> Result<Pairs, NoMemory>
    ensures { IfOk result (λ pairs. pairs ≡ found.now) }
{
    let pairs = Vec::from_slice(alloc, found.as_slice())?;
    Ok(ListOf::from_vec(pairs))
}

/// The listed pairs of two contents, where they are at most so many.
fn pairs_of(
    alloc: Global,
    automaton: &Automaton,
    other: &Automaton,
    live: &LiveNames,
    left: u64,
) -> Result<Pairs, PairFault>
    ensures { ListsPairs live.now automaton.now other.now left result }
{
    match pairs_among(alloc, automaton, other, live, left) {
        Err(fault) => Err(fault),
        Ok(found) => Ok(kept(alloc, &found)?),
    }
}

/// What is held of an element, where it has at most so many pairs.
fn side_of(
    alloc: Global,
    first: &DeclSet,
    second: &DeclSet,
    name: &Name,
    automaton: &Automaton,
    live: &LiveNames,
    left: u64,
) -> Result<Side, TablesFault>
    requires live { AreLive first.now live.now }
    requires few { left ≤ 2000000 }
    ensures { FindsSide first.now second.now name.now automaton.now left result }
{
    let odd = is_odd(first, second, name);
    match second.automaton_of(name) {
        None => Ok(Side {
            odd,
            pairs: ListOf::new(alloc),
        }),
        Some(other) => match pairs_of(alloc, automaton, other, live, left) {
            Ok(pairs) => Ok(Side { odd, pairs }),
            Err(fault) => match fault {
                PairFault::PairsOver => Err(TablesFault::PairsOver(name.copy(alloc)?)),
                PairFault::NoMemory => Err(TablesFault::NoMemory),
            },
        },
    }
}

/// What is held of each element. `PairsOver` exactly where the sum of the listed pairs passes 2,000,000.
pub(crate) fn sides_of(
    alloc: Global,
    first: &DeclSet,
    second: &DeclSet,
    live: &LiveNames,
) -> Result<Sides, TablesFault>
    requires { AreLive first.now live.now }
    ensures { FindsSides first.now second.now result }
{
    let mut sides = Sides::new(alloc);
    let mut left = PAIRS;
    while let Some((name, automaton)) = element_at(first, sides.len()) {
        match side_of(alloc, first, second, name, automaton, live, left) {
            Err(fault) => return Err(fault),
            Ok(side) => {
                left -= side.pairs.len() as u64;
                sides.push(side)?;
            }
        }
    }
    Ok(sides)
}
