//! Pairs of small models.

ghost use Rattle.std.specs.Prelude.{IfOk, IfSome};
ghost use Rattle.content_models.specs.Proper.{IsProper};

use content_models::{Content, parse_content};
use jats_chars::{Name, NameList, NoMemory, Text};
use model_inclusion::{PairSet, pairs};
use position_automata::{Automaton, build};
use std::alloc::Global;
use std::test::Fail;

fn content_of(alloc: Global, text: &str) -> Result<Option<Content>, NoMemory>
    ensures { IfOk result (λ o. IfSome o IsProper) }
{
    let text = Text::from_str(alloc, text)?;
    match parse_content(alloc, &text) {
        Ok(content) => Ok(Some(content)),
        Err(_) => Ok(None),
    }
}

fn automaton_of(alloc: Global, model: &str) -> Result<Option<Automaton>, NoMemory> {
    match content_of(alloc, model)? {
        None => Ok(None),
        Some(content) => match build(alloc, &content) {
            Ok(automaton) => Ok(Some(automaton)),
            Err(_) => Ok(None),
        },
    }
}

fn names_of(alloc: Global, text: &str) -> Result<NameList, NoMemory> {
    let mut names = NameList::new(alloc);
    for word in text.split(' ') {
        let word = Text::from_str(alloc, word)?;
        if let Some(name) = Name::from_text(alloc, &word)? {
            names.push(name)?;
        }
    }
    Ok(names)
}

fn pairs_of(
    alloc: Global,
    first: &str,
    second: &str,
    live: &str,
    left: u64,
) -> Result<Option<PairSet>, NoMemory> {
    let live = names_of(alloc, live)?;
    match (automaton_of(alloc, first)?, automaton_of(alloc, second)?) {
        (Some(a), Some(b)) => match pairs(alloc, &a, &b, &live, left) {
            Ok(found) => Ok(Some(found)),
            Err(_) => Ok(None),
        },
        _ => Ok(None),
    }
}

#[test]
fn common_steps(rt: HostRuntime) -> Result<(), Fail> {
    let found = pairs_of(rt.alloc(), "(a|b)*", "(b|a)*", "a b", 3)?.ok_or("pairs")?;
    assert_eq!(rt; found.len(), 3);
    assert_eq!(rt; found.get(0), Some((0, 0)));
    assert_eq!(rt; found.get(1), Some((1, 2)));
    assert_eq!(rt; found.get(2), Some((2, 1)));
    assert_eq!(rt; found.get(3), None);
    let none = pairs_of(rt.alloc(), "(a|b)*", "(b|a)*", "a b", 2)?;
    assert!(rt; none.is_none());
    Ok(())
}

#[test]
fn any_and_live(rt: HostRuntime) -> Result<(), Fail> {
    let any = pairs_of(rt.alloc(), "ANY", "(a,b)", "a b", 9)?.ok_or("pairs")?;
    assert_eq!(rt; any.len(), 3);
    assert_eq!(rt; any.get(2), Some((0, 2)));
    let dead = pairs_of(rt.alloc(), "(a,b)", "(a,b)", "a", 9)?.ok_or("pairs")?;
    assert_eq!(rt; dead.len(), 2);
    Ok(())
}
