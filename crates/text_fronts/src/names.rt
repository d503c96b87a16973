//! Names (XML 1.0, production 5).

ghost use Rattle.std.specs.Prelude.{◌≡◌, ◌<◌, ◌≤◌, ◌+◌, length, option_map, IfOk, IfSome};
ghost use Rattle.std.specs.List.{prefix_len};
ghost use Rattle.jats_chars.specs.Classes.{is_name_char as name_char};
ghost use Rattle.text_fronts.specs.Fronts as spec;

use crate::space::read_space;
use jats_chars::{Name, NoMemory, is_name_char};
use std::alloc::Global;

fn name_chars(text: &[char]) -> usize
    ensures value { result ≡ prefix_len name_char text.now }
    ensures within { result ≤ length text.now }
{
    text.iter().take_while(|c| is_name_char(**c)).count()
}

/// The name characters at the front, and the rest.
#[tactic(auto, unfolding(crate::specs::Fronts::word, crate::specs::Fronts::after_word))]
pub fn word(text: &[char]) -> (&[char], &[char])
    ensures word { result.0.now ≡ spec.word text.now }
    ensures rest { result.1.now ≡ spec.after_word text.now }
    ensures within { length result.0.now + length result.1.now ≡ length text.now }
{
    text.split_at(name_chars(text))
}

/// A Name, and the rest, or None where the name characters at the front are no Name.
pub fn read_name(alloc: Global, text: &[char]) -> Result<Option<(Name, &[char])>, NoMemory>
    ensures value { IfOk result (λ o. option_map (λ x. (x.0, x.1.now)) o ≡ spec.read_name text.now) }
    ensures within { IfOk result (λ o. IfSome o (λ x. length x.1.now ≤ length text.now)) }
{
    let (word, rest) = word(text);
    match Name::from_slice(alloc, word)? {
        None => Ok(None),
        Some(name) => Ok(Some((name, rest))),
    }
}

/// S Name, and the rest.
pub fn spaced_name(alloc: Global, text: &[char]) -> Result<Option<(Name, &[char])>, NoMemory>
    ensures value { IfOk result (λ o. option_map (λ x. (x.0, x.1.now)) o ≡ spec.spaced_name text.now) }
    ensures within { IfOk result (λ o. IfSome o (λ x. length x.1.now < length text.now)) }
{
    match read_space(text) {
        None => Ok(None),
        Some(text) => read_name(alloc, text),
    }
}
