//! What entity values and bodies of declarations stand for.

ghost use Rattle.std.specs.Prelude.{◌≤◌};
ghost use Rattle.pe_expansion.specs.Expansion as spec;
ghost use Rattle.pe_expansion.specs.Outcomes.{Expands};

use crate::pieces::Manner;
use crate::{Bindings, Budget, PausedExpansion, PeFault, Progress};
use jats_chars::{NameList, Text};
use std::alloc::Global;

/// The expansion of a text, where the names of the chain are open.
fn expanded(
    alloc: Global,
    manner: Manner,
    bound: &Bindings,
    chain: &NameList,
    text: &[char],
    budget: &mut Budget,
) -> Result<Text, PeFault>
    ensures gives { Expands (spec.expansion_of manner bound.now chain.now budget.old.spent text.now) budget.old.spent budget.new.spent result }
    ensures rises { budget.old.spent ≤ budget.new.spent }
{
    let paused = PausedExpansion::new(alloc, manner, budget.spent);
    match paused.resume(alloc, bound, chain, text) {
        Err(fault) => Err(fault),
        Ok(Progress::Waits(name, _)) => Err(PeFault::NotLoaded(name)),
        Ok(Progress::Done(text, spent)) => {
            budget.spent = spent;
            Ok(text)
        }
    }
}

/// What an entity value stands for, where the names of the chain are open (XML 1.0, 4.4.5 and 4.5). A character reference
/// gives its character, a reference to a parameter entity what the entity's text stands for, in which quotes are plain
/// characters, and a general reference stays as it is.
///
/// A fault is the first thing that stops it: a `%` or `&` that begins no reference, or a character reference to no Char,
/// is `Malformed`; at a reference to a parameter entity the tests are, in this order, `UndeclaredPe`, `RecursivePe`,
/// `EntityTooDeep`, `NotLoaded` and `ExpansionOver`. `NotLoaded` says that an outer text is wanted: `set_outer` gives it,
/// and the call is made again. With Ok the budget rises by the characters that were included, and with a fault it stays.
pub fn literal(
    alloc: Global,
    bound: &Bindings,
    chain: &NameList,
    quoted: &Text,
    budget: &mut Budget,
) -> Result<Text, PeFault>
    ensures gives { Expands (spec.literal_of bound.now chain.now budget.old.spent quoted.now) budget.old.spent budget.new.spent result }
    ensures rises { budget.old.spent ≤ budget.new.spent }
{
    literal_in(alloc, bound, chain, quoted.as_slice(), budget)
}

/// The same for characters that are lent.
pub fn literal_in(
    alloc: Global,
    bound: &Bindings,
    chain: &NameList,
    quoted: &[char],
    budget: &mut Budget,
) -> Result<Text, PeFault>
    ensures gives { Expands (spec.literal_of bound.now chain.now budget.old.spent quoted.now) budget.old.spent budget.new.spent result }
    ensures rises { budget.old.spent ≤ budget.new.spent }
{
    expanded(alloc, Manner::Literal, bound, chain, quoted, budget)
}

/// The body of a declaration without its references to parameter entities, where the names of the chain are open (XML
/// 1.0, 4.4.8). A reference gives a space, the expanded text of the entity, and a space. Quoted parts stay as they are,
/// and so does all that follows a quote which nothing closes in its text. A `%` before anything but a NameStartChar stays.
///
/// The faults are those of `literal`, where `Malformed` is a `%` before a NameStartChar that begins no reference. An
/// expanded text that leaves a quote open, or holds `<` or `>` outside quotes, is `PeNesting` (2.8, Proper
/// Declaration/PE Nesting). The budget rises or stays as for `literal`.
pub fn plain_body(
    alloc: Global,
    bound: &Bindings,
    chain: &NameList,
    body: &Text,
    budget: &mut Budget,
) -> Result<Text, PeFault>
    ensures gives { Expands (spec.plain_body_of bound.now chain.now budget.old.spent body.now) budget.old.spent budget.new.spent result }
    ensures rises { budget.old.spent ≤ budget.new.spent }
{
    plain_body_in(alloc, bound, chain, body.as_slice(), budget)
}

/// The same for characters that are lent.
pub fn plain_body_in(
    alloc: Global,
    bound: &Bindings,
    chain: &NameList,
    body: &[char],
    budget: &mut Budget,
) -> Result<Text, PeFault>
    ensures gives { Expands (spec.plain_body_of bound.now chain.now budget.old.spent body.now) budget.old.spent budget.new.spent result }
    ensures rises { budget.old.spent ≤ budget.new.spent }
{
    expanded(alloc, Manner::Body, bound, chain, body, budget)
}
