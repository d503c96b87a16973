//! The line of a refusal.

use jats_chars::{NoMemory, Text};
use jats_fault::{Details, Fault, Place, fault_name, line, number_of_line};

#[test]
fn a_line(rt: HostRuntime) -> Result<(), NoMemory> {
    let module = Text::from_str(rt.alloc(), "m.dtd")?;
    let fault = Fault {
        number: 14,
        place: Place { module, offset: 18 },
        details: Details::new(rt.alloc()),
    };
    if fault_name(14) == Some("NotChar") {
        let bytes = line(rt.alloc(), &fault)?;
        assert!(rt; bytes.as_slice() == b"refused E14 NotChar m.dtd 18\n".as_slice());
        assert!(rt; number_of_line(bytes.as_slice()) == Some(14));
    }
    Ok(())
}
