//! What values of attributes stand for.

ghost use Rattle.std.specs.Prelude.{IsTrue};
ghost use Rattle.attlist_merge.specs.Grammar.{is_value};
ghost use Rattle.decl_set.specs.Outcomes.{Values};
ghost use Rattle.decl_set.specs.Values as spec;

use crate::value_stack::{Work, go_on, step};
use crate::{DeclSet, EntityDef, ValueFault};
use indexmap::IndexMap;
use jats_chars::{Name, NameList, Text};
use pe_expansion::Budget;
use std::alloc::Global;

/// The value of `value_of`, over these general entities, of any text.
pub(crate) fn expanded_value(
    alloc: Global,
    entities: &IndexMap<Name, EntityDef>,
    chain: &NameList,
    raw: &Text,
    budget: &mut Budget,
) -> Result<Text, ValueFault>
    ensures { Values (spec.value_of entities.now.entries chain.now budget.old.spent raw.now) budget.old.spent budget.new.spent result }
{
    let mut work = Work {
        written: Text::new(alloc),
        spent: budget.spent,
        frames: Vec::new(alloc),
        text: raw.as_slice(),
        at: 0,
    };
    let mut more = true;
    while more {
        if work.at < work.text.len() {
            step(alloc, entities, chain, &mut work)?;
        } else {
            more = go_on(&mut work);
        }
    }
    budget.spent = work.spent;
    Ok(work.written)
}

/// The value that a text between quotes stands for, where the general entities of the chain are open (XML 1.0, 3.3.3, 4.4
/// and 4.6). White space characters become spaces, a character reference gives its character, `lt`, `gt`, `amp`, `apos` and
/// `quot` give theirs whatever is declared, and another general reference gives what the text of its entity stands for.
///
/// A fault is the first thing that stops it, from left to right: a `<` is `LessThan`; at a general reference the tests are,
/// in this order, `EntityUnknown`, `EntityExternal`, `RecursiveEntity`, `EntityTooDeep` and `ExpansionOver`; a `&` in an
/// included text that begins no reference is `Malformed`. With Ok the budget rises by the characters that were included, and
/// with a fault it stays.
pub fn value_of(
    alloc: Global,
    set: &DeclSet,
    chain: &NameList,
    raw: &Text,
    budget: &mut Budget,
) -> Result<Text, ValueFault>
    requires { IsTrue (is_value raw.now) }
    ensures { Values (spec.value_of set.now.entities chain.now budget.old.spent raw.now) budget.old.spent budget.new.spent result }
{
    expanded_value(alloc, &set.entities, chain, raw, budget)
}
