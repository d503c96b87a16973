//! White space (XML 1.0, production 3).

ghost use Rattle.std.specs.Prelude.{◌≡◌, ◌<◌, ◌≤◌, length, IfSome};
ghost use Rattle.std.specs.List.{prefix_len, suffix_len};
ghost use Rattle.std.specs.Option.{option_copied};
ghost use Rattle.jats_chars.specs.Classes.{is_space as space};
ghost use Rattle.text_fronts.specs.Fronts as spec;

use jats_chars::is_space;

/// The number of characters at the front that are white space.
fn spaces(text: &[char]) -> usize
    ensures value { result ≡ prefix_len space text.now }
    ensures within { result ≤ length text.now }
{
    text.iter().take_while(|c| is_space(**c)).count()
}

fn trailing_spaces(text: &[char]) -> usize
    ensures value { result ≡ suffix_len space text.now }
    ensures within { result ≤ length text.now }
{
    text.iter().rev().take_while(|c| is_space(**c)).count()
}

/// Whether there is white space alone, or nothing.
pub fn is_blank(text: &[char]) -> bool
    ensures { result ≡ spec.is_blank text.now }
{
    text.iter().all(|c| is_space(*c))
}

/// The text without the white space at its front.
#[tactic(auto, unfolding(crate::specs::Fronts::skipped))]
pub fn skipped(text: &[char]) -> &[char]
    ensures value { result.now ≡ spec.skipped text.now }
    ensures within { length result.now ≤ length text.now }
{
    text.split_at(spaces(text)).1
}

/// The text without the white space at its end.
pub fn trimmed_end(text: &[char]) -> &[char]
    ensures { result.now ≡ spec.trimmed_end text.now }
{
    text.split_at(text.len() - trailing_spaces(text)).0
}

/// The text without the white space at its ends.
pub fn trimmed(text: &[char]) -> &[char]
    ensures { result.now ≡ spec.trimmed text.now }
{
    trimmed_end(skipped(text))
}

/// The rest behind some white space, or None where the text does not begin with white space.
pub fn read_space(text: &[char]) -> Option<&[char]>
    ensures value { option_copied result ≡ spec.read_space text.now }
    ensures within { IfSome result (λ r. length r.now < length text.now) }
{
    match text.split_first() {
        Some((c, rest)) => {
            if is_space(*c) {
                Some(skipped(rest))
            } else {
                None
            }
        }
        None => None,
    }
}
