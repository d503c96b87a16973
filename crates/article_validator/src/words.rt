//! The words of a value.

ghost use Rattle.std.specs.Prelude.{◌≡◌, ◌<◌, ◌≤◌, [], ◌∷◌, ◌==◌, length, not, position, unwrap_or, MatchOption, IfSome};
ghost use Rattle.attribute_types.specs.Spacing.{words_in, BeginsWord};

fn first_filled(text: &[char]) -> Option<usize>
    ensures value { result ≡ position (λ c. not (c == 0x20)) text.now }
    ensures within { IfSome result (λ k. k < length text.now) }
{
    text.iter().position(|c| *c != ' ')
}

fn first_space(text: &[char]) -> Option<usize>
    ensures value { result ≡ position (λ c. c == 0x20) text.now }
    ensures within { IfSome result (λ k. k < length text.now) }
{
    text.iter().position(|c| *c == ' ')
}

/// How many spaces stand at the front.
fn spaces(text: &[char]) -> usize
    ensures value { result ≡ unwrap_or (position (λ c. not (c == 0x20)) text.now) (length text.now) }
    ensures within { result ≤ length text.now }
{
    first_filled(text).unwrap_or(text.len())
}

/// How many characters stand before the first space.
fn front_len(text: &[char]) -> usize
    ensures value { result ≡ unwrap_or (position (λ c. c == 0x20) text.now) (length text.now) }
    ensures within { result ≤ length text.now }
{
    first_space(text).unwrap_or(text.len())
}

/// The text from its first word on.
fn from_word(text: &[char]) -> &[char]
    ensures words { words_in result.now ≡ words_in text.now }
    ensures begins { BeginsWord result.now }
    ensures within { length result.now ≤ length text.now }
{
    text.split_at(spaces(text)).1
}

/// The first word, and the text after it, or None exactly where there is no word.
pub fn first_word(text: &[char]) -> Option<(&[char], &[char])>
    ensures { MatchOption result (words_in text.now ≡ []) (λ p. (words_in text.now ≡ p.0.now ∷ words_in p.1.now) × (length p.1.now < length text.now)) }
{
    let text = from_word(text);
    if text.is_empty() {
        return None;
    }
    Some(text.split_at(front_len(text)))
}
