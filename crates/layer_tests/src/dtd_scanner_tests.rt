//! An item of a DTD, and what is none.

use dtd_scanner::{Item, ItemKind, ScanFault, next_item};
use jats_chars::{NoMemory, Text};

#[test]
fn items(rt: HostRuntime) -> Result<(), NoMemory> {
    let text = Text::from_str(rt.alloc(), "<!ENTITY a '\">'>\">")?;
    let kind = ItemKind::EntityDecl;
    if 0 < text.len() {
        assert!(rt; next_item(&text, 0) == Ok(Item { kind, end: 16 }));
    }
    let text = Text::from_str(rt.alloc(), "<!-- a --->")?;
    if 0 < text.len() {
        assert!(rt; next_item(&text, 0) == Err(ScanFault::Unclosed));
    }
    Ok(())
}
