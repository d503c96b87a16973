//! An automaton of a small model.

ghost use Rattle.std.specs.Prelude.{IfOk, IfSome};
ghost use Rattle.content_models.specs.Proper.{IsProper};

use content_models::{Content, parse_content};
use jats_chars::{NameList, NoMemory, Text};
use position_automata::build;
use std::alloc::Global;
use std::test::Fail;

fn content_of(alloc: Global, text: &str) -> Result<Option<Content>, NoMemory>
    ensures { IfOk result (λ o. IfSome o IsProper) }
{
    let text = Text::from_str(alloc, text)?;
    match parse_content(alloc, &text) {
        Ok(content) => Ok(Some(content)),
        Err(_) => Ok(None),
    }
}

/// Whether the model derives nothing, where it is accepted.
fn derives_nothing(alloc: Global, model: &str) -> Result<Option<bool>, NoMemory> {
    let names = NameList::new(alloc);
    match content_of(alloc, model)? {
        None => Ok(None),
        Some(content) => match build(alloc, &content) {
            Ok(automaton) => Ok(Some(automaton.copy(alloc)?.run(&names))),
            Err(_) => Ok(None),
        },
    }
}

#[test]
fn derived(rt: HostRuntime) -> Result<(), Fail> {
    assert_eq!(rt; derives_nothing(rt.alloc(), "(a?,b*)")?, Some(true));
    assert_eq!(rt; derives_nothing(rt.alloc(), "(a?,b)")?, Some(false));
    assert_eq!(rt; derives_nothing(rt.alloc(), "((a,b)|(a,c))")?, None);
    Ok(())
}
