//! Public identifiers.

ghost use Rattle.std.specs.Prelude.{◌≡◌, IfOk, map};
ghost use Rattle.entity_catalog.specs.Collapse as spec;

use crate::parts::joined_with;
use jats_chars::{NoMemory, Text};
use std::alloc::{AllocError, Global};

fn is_public_space(c: char) -> bool
    ensures { result ≡ spec.is_public_space c }
{
    matches!(c, ' ' | '\r' | '\n')
}

fn words(alloc: Global, text: &[char]) -> Result<Vec<&[char]>, AllocError>
    ensures { IfOk result (λ v. map (λ x. x.now) v.items ≡ spec.public_words text.now) }
{
    text.split(|c| is_public_space(*c))
        .filter(|word| !word.is_empty())
        .collect(alloc)
}

#[tactic(auto, unfolding(crate::specs::Collapse::collapse_public))]
pub fn collapsed(alloc: Global, text: &[char]) -> Result<Text, NoMemory>
    ensures { IfOk result (λ t. t ≡ spec.collapse_public text.now) }
{
    let words = words(alloc, text)?;
    joined_with(alloc, ' ', words.as_slice())
}

/// The public identifier with each run of #x20, #xD and #xA as one #x20, and none at the ends (XML 1.0, 4.2.2).
pub fn collapse_public(alloc: Global, text: &Text) -> Result<Text, NoMemory>
    ensures value { IfOk result (λ t. t ≡ spec.collapse_public text.now) }
    ensures collapsed { IfOk result (λ t. spec.collapse_public t ≡ t) }
{
    collapsed(alloc, text.as_slice())
}
