//! Classes, names and the decoding of bytes.

use jats_chars::{
    Name, NoMemory, Text, decode, is_char, is_name_char, is_name_start, is_nmtoken, is_pubid_char,
    is_space,
};

#[test]
fn classes(rt: HostRuntime) {
    assert!(rt; is_char('\u{9}') && !is_char('\u{0}') && is_space(' ') && !is_space('\u{A0}'));
    assert!(rt;
        is_name_start(':') && !is_name_start('1') && is_name_char('1') && !is_name_char('/')
    );
    assert!(rt; is_pubid_char('(') && !is_pubid_char('<'));
}

#[test]
fn names(rt: HostRuntime) -> Result<(), NoMemory> {
    let text = Text::from_str(rt.alloc(), "a-1")?;
    let name = Name::from_text(rt.alloc(), &text)?;
    assert!(rt; name.is_some() && is_nmtoken(&text));
    Ok(())
}

#[test]
fn bytes(rt: HostRuntime) {
    assert!(rt; decode(rt.alloc(), b"\xEF\xBB\xBFa\r\nb").is_ok());
    assert!(rt; decode(rt.alloc(), b"\xFF").is_err());
}
