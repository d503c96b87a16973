//! Texts in lines of an output.

ghost use Rattle.std.specs.Prelude.{◌≡◌, IfOk, string_bytes, encode_utf8_all};

use jats_chars::{NoMemory, Text};
use std::alloc::Global;

/// The text in UTF-8.
pub fn shown(alloc: Global, text: &Text) -> Result<String, NoMemory>
    ensures { IfOk result (λ s. string_bytes s ≡ encode_utf8_all text.now) }
{
    let s: String = text.as_slice().iter().copied().collect(alloc)?;
    Ok(s)
}
