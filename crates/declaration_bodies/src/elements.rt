//! The bodies of element declarations.

ghost use Rattle.std.specs.Prelude.{◌≡◌, IfOk};
ghost use Rattle.declaration_bodies.specs.Elements as spec;

use jats_chars::{Name, NoMemory, Text};
use std::alloc::Global;
use text_fronts::{read_space, spaced_name, trimmed_end};

fn with_content(alloc: Global, name: Name, rest: &[char]) -> Result<Option<(Name, Text)>, NoMemory>
    ensures { IfOk result (λ o. o ≡ spec.with_content (name, rest.now)) }
{
    match read_space(rest) {
        None => Ok(None),
        Some(content) => {
            let content = Text::from_slice(alloc, trimmed_end(content))?;
            Ok(Some((name, content)))
        }
    }
}

/// The name and the content of an element declaration, as it is written, or None exactly where the body has not that form.
#[tactic(auto, unfolding(crate::specs::Elements::element_of))]
pub fn read_element(alloc: Global, body: &[char]) -> Result<Option<(Name, Text)>, NoMemory>
    ensures { IfOk result (λ o. o ≡ spec.element_of body.now) }
{
    match spaced_name(alloc, body)? {
        None => Ok(None),
        Some((name, rest)) => with_content(alloc, name, rest),
    }
}
