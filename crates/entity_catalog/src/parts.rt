//! Parts of texts.

ghost use Rattle.std.specs.Prelude.{◌≡◌, IfOk, map};
ghost use Rattle.std.specs.List.{join_with_byte};

use jats_chars::{NoMemory, Text};
use std::alloc::Global;

/// The parts with the separator between each two.
pub fn joined_with(alloc: Global, separator: char, parts: &[&[char]]) -> Result<Text, NoMemory>
    ensures { IfOk result (λ t. t ≡ join_with_byte separator (map (λ x. x.now) parts.now)) }
{
    let mut joined = Text::new(alloc);
    for (k, part) in parts.iter().enumerate() {
        if k > 0 {
            joined.push(separator)?;
        }
        joined.push_slice(part)?;
    }
    Ok(joined)
}
