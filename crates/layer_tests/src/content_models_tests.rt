//! A content parsed and printed.

use content_models::{TextKind, parse_content, print_content, text_kind};
use jats_chars::{NoMemory, Text};

#[test]
fn a_content(rt: HostRuntime) -> Result<(), NoMemory> {
    let text = Text::from_str(rt.alloc(), "( a\t,\n(b|c )? ,\r d* )+")?;
    let flat = Text::from_str(rt.alloc(), "(a,(b|c)?,d*)+")?;
    match parse_content(rt.alloc(), &text) {
        Err(_) => assert!(rt; false),
        Ok(content) => {
            assert!(rt; print_content(rt.alloc(), &content)? == flat);
            assert!(rt; text_kind(&content) == TextKind::White);
        }
    }
    Ok(())
}
