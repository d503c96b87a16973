//! What stands at the front of a text, lent, with the rest.

ghost use Rattle.std.specs.Prelude.{◌≡◌, ◌==◌, length, not, option_map, option_and_then, true};
ghost use Rattle.std.specs.List.{list_all};
ghost use Rattle.std.specs.Option.{option_copied};
ghost use Rattle.attlist_merge.specs.Grammar as grammar;
ghost use Rattle.jats_chars.specs.Classes.{is_name_char as name_char};
ghost use Rattle.jats_chars.specs.Names.{is_name};
ghost use Rattle.attlist_merge.specs.Reading as lists;
ghost use Rattle.text_fronts.specs.Fronts as front;
ghost use Rattle.article_tree.specs.Taking as spec;

use dtd_scanner::begins_reference;
use jats_chars::is_name_start;
use text_fronts::{read_literal, read_space, word};

/// Whether name characters are a Name, which their first one says.
#[tactic(auto, using(crate::proofs::FirstLetters::name_by_first))]
fn begins_name(word: &[char]) -> bool
    requires { list_all name_char word.now ≡ true }
    ensures { result ≡ is_name word.now }
{
    match word.split_first() {
        None => false,
        Some((c, _)) => is_name_start(*c),
    }
}

/// A Name, and the rest.
#[tactic(auto, using(crate::proofs::FirstLetters::word_chars))]
pub fn take_name(text: &[char]) -> Option<(&[char], &[char])>
    ensures { option_map (λ x. (x.0.now, x.1.now)) result ≡ front.read_name text.now }
{
    let (word, rest) = word(text);
    if begins_name(word) {
        Some((word, rest))
    } else {
        None
    }
}

/// S and a Name, and the rest.
pub fn spaced_name(text: &[char]) -> Option<(&[char], &[char])>
    ensures { option_map (λ x. (x.0.now, x.1.now)) result ≡ front.spaced_name text.now }
{
    match read_space(text) {
        None => None,
        Some(text) => take_name(text),
    }
}

/// Whether each `&` begins a reference.
#[tactic(auto, unfolding(attlist_merge::specs::Grammar::is_value))]
fn is_value(text: &[char]) -> bool
    ensures { result ≡ grammar.is_value text.now }
{
    let mut rest = text;
    while let Some((c, after)) = rest.split_first() {
        if *c == '&' && !begins_reference(rest) {
            return false;
        }
        rest = after;
    }
    true
}

/// What stands between quotes, and the rest behind them.
#[tactic(auto, unfolding(attlist_merge::specs::Reading::read_quoted))]
fn read_quoted(text: &[char]) -> Option<(&[char], &[char])>
    ensures { option_map (λ x. (x.0.now, x.1.now)) result ≡ lists.read_quoted text.now }
{
    match read_literal(text) {
        None => None,
        Some((value, rest)) => {
            if is_value(value) {
                Some((value, rest))
            } else {
                None
            }
        }
    }
}

fn is_direct(text: &[char]) -> bool
    ensures { result ≡ list_all (λ c. not (c == 60)) text.now }
{
    text.iter().all(|c| *c != '<')
}

/// The rest behind this mark, with which the text begins.
pub fn behind<'a>(mark: &[char], text: &'a [char]) -> Option<&'a [char]>
    ensures { option_copied result ≡ spec.behind mark.now text.now }
{
    if text.starts_with(mark) {
        Some(text.split_at(mark.len()).1)
    } else {
        None
    }
}

/// A value in quotes without `<`, and the rest.
pub fn direct_value(text: &[char]) -> Option<(&[char], &[char])>
    ensures { option_map (λ x. (x.0.now, x.1.now)) result ≡ option_and_then spec.direct (lists.read_quoted text.now) }
{
    match read_quoted(text) {
        None => None,
        Some((value, rest)) => {
            if is_direct(value) {
                Some((value, rest))
            } else {
                None
            }
        }
    }
}
