//! What is found once of each element of the first set, so that no look at a step finds it again.

ghost use Rattle.std.specs.Prelude.{IfOk};
ghost use Rattle.comparison_tables.specs.Entries.{AreEntries};
ghost use Rattle.comparison_tables.specs.Sides.{AreSides};

use crate::held::element_at;
use crate::sides::{Side, Sides};
use decl_set::DeclSet;
use jats_chars::{Name, NoMemory};
use position_automata::Automaton;
use std::alloc::Global;

/// An element of the first set: its name, its automaton, that of the second where it declares the element, and its side.
#[derive(Clone, Copy)]
pub(crate) struct Entry<'a> {
    pub name: &'a Name,
    pub automaton: &'a Automaton,
    pub other: Option<&'a Automaton>,
    pub side: &'a Side,
}

/// An entry for each element, in order of declaration.
pub(crate) fn entries_of<'a>(
    alloc: Global,
    first: &'a DeclSet,
    second: &'a DeclSet,
    sides: &'a Sides,
) -> Result<Vec<Entry<'a>>, NoMemory>
    requires { AreSides first.now second.now sides.now }
    ensures { IfOk result (λ entries. AreEntries first.now second.now sides.now entries.items) }
{
    let mut entries = Vec::new(alloc);
    for (place, side) in sides.as_slice().iter().enumerate() {
        match element_at(first, place) {
            None => return Ok(entries),
            Some((name, automaton)) => entries.push(Entry {
                name,
                automaton,
                other: second.automaton_of(name),
                side,
            })?,
        }
    }
    Ok(entries)
}
