//! A catalog of one line, and names that are joined.

use entity_catalog::{collapse_public, join, read_catalog};
use jats_chars::{NoMemory, Text};

#[test]
fn a_catalog(rt: HostRuntime) -> Result<(), NoMemory> {
    let text = Text::from_str(rt.alloc(), "PUBLIC \"p\" \"f\"\n")?;
    let place = Text::from_str(rt.alloc(), "cat.txt")?;
    assert!(rt; read_catalog(rt.alloc(), &text, &place).is_ok());
    assert!(rt; read_catalog(rt.alloc(), &place, &place).is_err());
    Ok(())
}

#[test]
fn names_are_joined(rt: HostRuntime) -> Result<(), NoMemory> {
    let base = Text::from_str(rt.alloc(), "a/b.dtd")?;
    let inner = Text::from_str(rt.alloc(), "../c")?;
    let outer = Text::from_str(rt.alloc(), "../../c")?;
    assert!(rt; join(rt.alloc(), &base, &inner).is_ok());
    assert!(rt; join(rt.alloc(), &base, &outer).is_err());
    Ok(())
}

#[test]
fn white_space_collapses(rt: HostRuntime) -> Result<(), NoMemory> {
    let text = Text::from_str(rt.alloc(), "  a   b ")?;
    let wanted = Text::from_str(rt.alloc(), "a b")?;
    assert!(rt; collapse_public(rt.alloc(), &text)? == wanted);
    Ok(())
}
