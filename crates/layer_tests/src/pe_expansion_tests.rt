use jats_chars::{Name, NameList, NoMemory, Text};
use pe_expansion::{Bindings, Budget, PeText, ignored_end, literal, plain_body};
use std::alloc::Global;
use std::test::Fail;

fn bind(alloc: Global, bound: &mut Bindings, name: &str, text: &str) -> Result<bool, NoMemory> {
    let name = Name::from_text(alloc, &Text::from_str(alloc, name)?)?.ok_or(NoMemory)?;
    bound.bind(name, PeText::Inner(Text::from_str(alloc, text)?))
}

#[test]
fn a_text_is_expanded(rt: HostRuntime) -> Result<(), Fail> {
    let mut bound = Bindings::new(rt.alloc());
    bind(rt.alloc(), &mut bound, "b", "|b")?;
    let chain = NameList::new(rt.alloc());
    let mut budget = Budget { spent: 0 };
    let text = Text::from_str(rt.alloc(), "a%b;")?;
    let value = literal(rt.alloc(), &bound, &chain, &text, &mut budget);
    assert!(rt; value.is_ok());
    let body = plain_body(rt.alloc(), &bound, &chain, &text, &mut budget);
    assert!(rt; body.is_ok());
    assert_eq!(rt; budget.spent, 4);
    assert_eq!(rt; ignored_end(&text, 0), None);
    Ok(())
}
