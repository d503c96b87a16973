//! That each call succeeds with ample memory.

use attribute_types::{AttType, Preset, class_of, collapse, covers, in_class, sample, uncovered};
use jats_chars::Text;
use std::test::Fail;

#[test]
fn classes_of_fixed_values(rt: HostRuntime) -> Result<(), Fail> {
    let value = Text::from_str(rt.alloc(), " gif ")?;
    let preset = Preset::Fixed(Text::from_str(rt.alloc(), "gif")?);
    let class = class_of(rt.alloc(), &AttType::Cdata, &preset)?;
    assert!(rt; !in_class(&class, &value));
    let class = class_of(
        rt.alloc(),
        &AttType::Cdata.copy(rt.alloc())?,
        &Preset::Implied,
    )?;
    assert!(rt; in_class(&class, &value) && covers(&class, &class));
    assert!(rt; uncovered(rt.alloc(), &class, &class)?.is_none());
    assert_eq!(rt; sample(rt.alloc(), &class)?, Text::new(rt.alloc()));
    assert_eq!(rt;
        collapse(rt.alloc(), &value)?,
        Text::from_str(rt.alloc(), "gif")?
    );
    Ok(())
}
