//! A list of attributes, with ample memory.

use attlist_merge::{AttList, attributes_cover, lists_cover, odd_att, parse_attlist};
use jats_chars::Text;
use std::test::Fail;

#[test]
fn a_body_is_parsed(rt: HostRuntime) -> Result<(), Fail> {
    let body = Text::from_str(rt.alloc(), " e a (x|y) 'x' b ID #IMPLIED")?;
    match parse_attlist(rt.alloc(), &body) {
        Ok(raw) => assert_eq!(rt; raw.atts.len(), 2),
        Err(_) => assert!(rt; false),
    }
    let list = AttList::new(rt.alloc());
    assert!(rt; lists_cover(&list, &list) && attributes_cover(None, Some(&list)));
    assert!(rt; odd_att(rt.alloc(), &list, &list)?.is_none());
    Ok(())
}
