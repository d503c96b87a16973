//! The lines of refusals.

ghost use Rattle.std.specs.Prelude.{◌≡◌, ◌++◌, IfOk, OnOk, string_bytes, encode_utf8_all};
ghost use Rattle.jats_fault.specs.Lines as spec;

use crate::{Fault, fault_name};
use jats_chars::{NoMemory, Text};
use std::alloc::Global;

/// The text in UTF-8.
fn shown(alloc: Global, text: &Text) -> Result<String, NoMemory>
    ensures { IfOk result (λ s. string_bytes s ≡ encode_utf8_all text.now) }
{
    let s: String = text.as_slice().iter().copied().collect(alloc)?;
    Ok(s)
}

/// Appends each text behind a space.
fn add_details(alloc: Global, line: &mut String, details: &[Text]) -> Result<(), NoMemory>
    ensures { OnOk result (string_bytes line.new ≡ string_bytes line.old ++ spec.spaced_all details.now) }
{
    for detail in details {
        let detail = shown(alloc, detail)?;
        line.push(' ')?;
        line.push_str(detail.as_str())?;
    }
    Ok(())
}

/// The line of a refusal: `refused E`, the number, the name, the module, the offset and each detail, parted by spaces, in
/// UTF-8. It ends with LF. A number that is not in the table has an empty name.
pub fn line(alloc: Global, fault: &Fault) -> Result<Vec<u8>, NoMemory>
    ensures { IfOk result (λ bytes. bytes.items ≡ spec.line_of fault.now) }
{
    let number = fault.number;
    let name = fault_name(number).unwrap_or("");
    let module = shown(alloc, &fault.place.module)?;
    let offset = fault.place.offset;
    let mut line = format!(in alloc; "refused E{number} {name} {module} {offset}")?;
    add_details(alloc, &mut line, fault.details.as_slice())?;
    line.push('\n')?;
    Ok(line.into_bytes())
}
