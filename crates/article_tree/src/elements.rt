//! Start tags and end tags.

ghost use Rattle.std.specs.Prelude.{◌≡◌, [], IsTrue, List, None, OnOk};
ghost use Rattle.std.specs.List.{AllByRecursion};
ghost use Rattle.jats_chars.specs.Names.{is_name};
ghost use Rattle.article_tree.specs.Held.{EndsApart, state_of};
ghost use Rattle.article_tree.specs.InPlace.{ended_in};
ghost use Rattle.article_tree.specs.Outcomes.{IsRaw, Moves, TestsRepeated, standing_of};
ghost use Rattle.article_tree.specs.Reading.{entered, started, unrepeated};
ghost use Rattle.article_tree.specs.Taken.{tag_of};
ghost use Rattle.article_tree.specs.Tokens.{Raw};
ghost use Rattle.article_tree.specs.Words.{repeated};

use crate::held::{Held, close_element, open_element, put_empty};
use crate::repeats::first_repeated;
use crate::stops::{ArticleFault, Stand, malformed, refused_name, refused_names};
use crate::token::StartTag;
use crate::values::{name_of, read_values};
use decl_set::DeclSet;
use document_trees::AttValues;
use jats_chars::limits::OPEN_ELEMENTS;
use jats_chars::{Name, NameList, NoMemory};
use jats_fault::numbers;
use pe_expansion::Budget;
use std::alloc::Global;

/// Stops where an attribute has the name of an earlier one.
fn test_repeated(
    alloc: Global,
    stand: &Stand,
    at: usize,
    name: &Name,
    atts: &AttValues,
) -> Result<(), ArticleFault>
    ensures { TestsRepeated (standing_of stand.now) at name.now (repeated [] atts.now) result }
{
    match first_repeated(alloc, atts.as_slice())? {
        None => Ok(()),
        Some(again) => Err(refused_names(
            alloc,
            stand,
            at,
            numbers::REPEATED_ATTRIBUTE,
            name.text().as_slice(),
            again.text().as_slice(),
        )),
    }
}

/// Puts an empty element, or opens another.
fn put_element(
    alloc: Global,
    held: &mut Held,
    name: Name,
    atts: AttValues,
    spent: u64,
    closed: bool,
) -> Result<(), NoMemory>
    requires { EndsApart held.old.items.items }
    ensures state { OnOk result (state_of held.new ≡ entered (state_of held.old) name atts spent closed) }
    ensures apart { OnOk result (EndsApart held.new.items.items) }
{
    if closed {
        put_empty(alloc, held, name, atts, spent)
    } else {
        open_element(alloc, held, name, atts, spent)
    }
}

/// Puts an element whose attributes differ in name, unless too many are open.
fn enter_element(
    alloc: Global,
    stand: &Stand,
    at: usize,
    held: &mut Held,
    name: Name,
    atts: AttValues,
    spent: u64,
    closed: bool,
) -> Result<(), ArticleFault>
    requires { EndsApart held.old.items.items }
    ensures { (raws : List Raw) → Moves (unrepeated 0 (standing_of stand.now) at (state_of held.old) (record { name = name; atts = raws; closed = closed }) atts spent None) held.new result }
{
    if held.opens.len() >= OPEN_ELEMENTS {
        return Err(refused_name(
            alloc,
            stand,
            at,
            numbers::ELEMENT_TOO_DEEP,
            name.text().as_slice(),
        ));
    }
    put_element(alloc, held, name, atts, spent, closed)?;
    Ok(())
}

/// A start tag, or the tag of an empty element.
pub fn start_element(
    alloc: Global,
    set: &DeclSet,
    chain: &NameList,
    stand: &Stand,
    at: usize,
    held: &mut Held,
    tag: StartTag,
) -> Result<(), ArticleFault>
    requires apart { EndsApart held.old.items.items }
    requires named { IsTrue (is_name (tag_of tag).name) }
    requires raw { AllByRecursion IsRaw (tag_of tag).atts }
    ensures { Moves (started set.now.entities chain.now 0 (standing_of stand.now) at (state_of held.old) (tag_of tag.entry)) held.new result }
{
    let StartTag { name, atts, closed } = tag;
    let mut budget = Budget { spent: held.spent };
    let values = match read_values(alloc, set, chain, stand, at, atts.as_slice(), &mut budget) {
        Err(fault) => return Err(fault),
        Ok(values) => values,
    };
    let name = name_of(alloc, name)?;
    match test_repeated(alloc, stand, at, &name, &values) {
        Err(fault) => Err(fault),
        Ok(()) => enter_element(alloc, stand, at, held, name, values, budget.spent, closed),
    }
}

/// An end tag, where so many elements were open when its text began.
pub fn end_element(
    alloc: Global,
    stand: &Stand,
    at: usize,
    base: usize,
    held: &mut Held,
    name: &[char],
) -> Result<(), ArticleFault>
    requires { EndsApart held.old.items.items }
    ensures { Moves (ended_in base (standing_of stand.now) at (state_of held.old) name.now) held.new result }
{
    if held.opens.len() <= base {
        return Err(malformed(alloc, stand, at));
    }
    match held.opens.last() {
        None => Err(malformed(alloc, stand, at)),
        Some(open) => {
            if open.name.text().as_slice() != name {
                return Err(refused_names(
                    alloc,
                    stand,
                    at,
                    numbers::TAG_MISMATCH,
                    open.name.text().as_slice(),
                    name,
                ));
            }
            close_element(held)?;
            Ok(())
        }
    }
}
