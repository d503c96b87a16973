//! Literals: any characters between two quotes of a kind (XML 1.0, productions 11 and 12).

ghost use Rattle.std.specs.Prelude.{◌≡◌, ◌==◌, ◌<◌, ◌≤◌, length, option_map, position, IfSome};
ghost use Rattle.text_fronts.specs.Fronts as spec;

use crate::space::read_space;
use dtd_scanner::is_quote;

/// The place of the first character of this kind.
pub fn first_place(text: &[char], of: char) -> Option<usize>
    ensures value { result ≡ position (λ c. c == of) text.now }
    ensures within { IfSome result (λ k. k < length text.now) }
{
    text.iter().position(|c| *c == of)
}

/// What stands up to the quote, and the rest behind it.
fn literal_to(quote: char, text: &[char]) -> Option<(&[char], &[char])>
    ensures value { option_map (λ x. (x.0.now, x.1.now)) result ≡ option_map (spec.literal_end text.now) (position (λ c. c == quote) text.now) }
    ensures within { IfSome result (λ x. length x.1.now ≤ length text.now) }
{
    match first_place(text, quote) {
        None => None,
        Some(at) => {
            let (inside, _) = text.split_at(at);
            let (_, rest) = text.split_at(at + 1);
            Some((inside, rest))
        }
    }
}

/// What stands between two quotes of a kind, and the rest behind them, or None where no literal begins the text.
#[tactic(auto, unfolding(crate::specs::Fronts::read_literal))]
pub fn read_literal(text: &[char]) -> Option<(&[char], &[char])>
    ensures value { option_map (λ x. (x.0.now, x.1.now)) result ≡ spec.read_literal text.now }
    ensures within { IfSome result (λ x. length x.1.now ≤ length text.now) }
{
    match text.split_first() {
        None => None,
        Some((quote, rest)) => {
            if is_quote(*quote) {
                literal_to(*quote, rest)
            } else {
                None
            }
        }
    }
}

/// S and a literal, and the rest.
pub fn spaced_literal(text: &[char]) -> Option<(&[char], &[char])>
    ensures value { option_map (λ x. (x.0.now, x.1.now)) result ≡ spec.spaced_literal text.now }
    ensures within { IfSome result (λ x. length x.1.now < length text.now) }
{
    match read_space(text) {
        None => None,
        Some(text) => read_literal(text),
    }
}
