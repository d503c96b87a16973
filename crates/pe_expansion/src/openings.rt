//! References by themselves.

ghost use Rattle.std.specs.Prelude.{◌≤◌, IfOk, IsTrue};
ghost use Rattle.jats_chars.specs.Names.{is_name};
ghost use Rattle.pe_expansion.specs.Opening as spec;
ghost use Rattle.pe_expansion.specs.Opens.{Opens};

use crate::stack::{is_in_chain, load, name_of};
use crate::{Bindings, PeFault};
use jats_chars::NameList;
use jats_chars::limits::OPEN_ENTITIES;
use std::alloc::Global;

/// An entity that may open: its place among the bindings, counted from 0, and the count of included characters with its
/// text.
#[derive(Clone, Copy, Debug, PartialEq, Eq)]
pub struct Opened {
    pub number: usize,
    pub spent: u64,
}

/// The entity of a reference whose text is read by itself, where the names of the chain are open and so many characters were
/// included before (XML 1.0, 4.4.8). The entity at the number has this name, and its text is there.
///
/// A fault is the first test that fails, in the order `UndeclaredPe`, `RecursivePe`, `EntityTooDeep`, `NotLoaded`,
/// `ExpansionOver`, with this name.
#[tactic(auto, unfolding(crate::specs::Opening::opening))]
pub fn opening(
    alloc: Global,
    bound: &Bindings,
    chain: &NameList,
    name: &[char],
    spent: u64,
) -> Result<Opened, PeFault>
    requires { IsTrue (is_name name.now) }
    ensures opens { Opens bound.now name.now (spec.opening bound.now chain.now spent name.now) result }
    ensures rises { IfOk result (λ o. spent ≤ o.spent) }
{
    match bound.numbered(name) {
        None => Err(PeFault::UndeclaredPe(name_of(alloc, name)?)),
        Some((number, name, entity)) => {
            if is_in_chain(chain, name) {
                return Err(PeFault::RecursivePe(name.copy(alloc)?));
            }
            if chain.len() >= OPEN_ENTITIES {
                return Err(PeFault::EntityTooDeep(name.copy(alloc)?));
            }
            match load(alloc, number, name, entity, spent) {
                Err(fault) => Err(fault),
                Ok(entered) => Ok(Opened {
                    number,
                    spent: entered.spent,
                }),
            }
        }
    }
}
