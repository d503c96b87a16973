//! The values of attributes.

ghost use Rattle.std.specs.Prelude.{◌≡◌, [], IfOk, IsTrue, map};
ghost use Rattle.std.specs.List.{AllByRecursion, list_all};
ghost use Rattle.decl_set.specs.ValueEscaped.{stands_for_itself as for_itself};
ghost use Rattle.decl_set.specs.Values.{value_of as value};
ghost use Rattle.jats_chars.specs.Names.{is_name};
ghost use Rattle.article_tree.specs.Outcomes.{Answers, IsRaw, counted, counted_text, standing_of};
ghost use Rattle.article_tree.specs.Reading as spec;
ghost use Rattle.article_tree.specs.Stops.{stopped};
ghost use Rattle.article_tree.specs.Taken.{raw_of};

use crate::stops::{ArticleFault, Stand, value_stop};
use crate::token::TagAtt;
use decl_set::{DeclSet, value_of};
use document_trees::AttValues;
use jats_chars::{ListOf, Name, NameList, NoMemory, Text, is_space};
use pe_expansion::Budget;
use std::alloc::Global;

/// These characters, which are a Name, as a name.
pub fn name_of(alloc: Global, name: &[char]) -> Result<Name, NoMemory>
    requires { IsTrue (is_name name.now) }
    ensures { IfOk result (λ n. n ≡ name.now) }
{
    match Name::from_slice(alloc, name)? {
        Some(name) => Ok(name),
        None => unreachable!(),
    }
}

fn stands_for_itself(c: char) -> bool
    ensures { result ≡ for_itself c }
{
    c != '&' && c != '<' && (!is_space(c) || c == ' ')
}

/// Whether each character stands for itself in a value, so that the text is its own value.
fn is_itself(text: &[char]) -> bool
    ensures { result ≡ list_all for_itself text.now }
{
    text.iter().all(|c| stands_for_itself(*c))
}

/// The value of an attribute, whose text is copied where it is its own value.
#[tactic(auto, using(decl_set::proofs::ValueFacts::value_itself))]
fn read_value(
    alloc: Global,
    set: &DeclSet,
    chain: &NameList,
    stand: &Stand,
    at: usize,
    att: &TagAtt,
    budget: &mut Budget,
) -> Result<Text, ArticleFault>
    requires { IsRaw (raw_of att.now) }
    ensures { Answers (counted_text budget.new.spent) (stopped (standing_of stand.now) at (raw_of att.now).0 (value set.now.entities chain.now budget.old.spent (raw_of att.now).1)) result }
{
    let raw = Text::from_slice(alloc, att.value)?;
    if is_itself(att.value) {
        return Ok(raw);
    }
    match value_of(alloc, set, chain, &raw, budget) {
        Ok(text) => Ok(text),
        Err(fault) => Err(value_stop(alloc, stand, at, att.name, fault)),
    }
}

/// An attribute with its value.
fn read_attribute(
    alloc: Global,
    set: &DeclSet,
    chain: &NameList,
    stand: &Stand,
    at: usize,
    att: &TagAtt,
    budget: &mut Budget,
) -> Result<(Name, Text), ArticleFault>
    requires { IsRaw (raw_of att.now) }
    ensures value { Answers (λ p. counted_text budget.new.spent p.1) (stopped (standing_of stand.now) at (raw_of att.now).0 (value set.now.entities chain.now budget.old.spent (raw_of att.now).1)) result }
    ensures name { IfOk result (λ p. p.0 ≡ (raw_of att.now).0) }
{
    match read_value(alloc, set, chain, stand, at, att, budget) {
        Err(fault) => Err(fault),
        Ok(value) => {
            let name = name_of(alloc, att.name)?;
            Ok((name, value))
        }
    }
}

/// No attributes yet, with room for so many.
fn room_for(alloc: Global, count: usize) -> Result<Vec<(Name, Text)>, NoMemory>
    ensures { IfOk result (λ v. v.items ≡ []) }
{
    let atts = Vec::with_capacity(alloc, count)?;
    Ok(atts)
}

/// The attributes of a tag, each with its value.
pub fn read_values(
    alloc: Global,
    set: &DeclSet,
    chain: &NameList,
    stand: &Stand,
    at: usize,
    atts: &[TagAtt],
    budget: &mut Budget,
) -> Result<AttValues, ArticleFault>
    requires { AllByRecursion IsRaw (map raw_of atts.now) }
    ensures { Answers (counted budget.new.spent) (spec.values set.now.entities chain.now (standing_of stand.now) at budget.old.spent (map raw_of atts.now)) result }
{
    let mut list = room_for(alloc, atts.len())?;
    for att in atts {
        match read_attribute(alloc, set, chain, stand, at, att, budget) {
            Err(fault) => return Err(fault),
            Ok(pair) => list.push(pair)?,
        }
    }
    Ok(ListOf::from_vec(list))
}
