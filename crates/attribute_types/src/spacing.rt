//! Words of a value, and its collapse.

ghost use Rattle.std.specs.Prelude.{◌≡◌, ◌<◌, ◌≤◌, List, ℕ, [], ◌∷◌, ◌++◌, ◌==◌, ◌≢◌, length, not, position, unwrap_or, MatchOption, IfSome, IfOk, OnOk, bytes_eq};
ghost use Rattle.std.specs.List.{list_all};
ghost use Rattle.jats_chars.specs.Names.{is_name, is_nmtoken, is_names, is_nmtokens};
ghost use Rattle.attribute_types.specs.Spacing.{words_in, collapsed, BeginsWord, tailed};

use jats_chars::{NoMemory, Text, is_name_slice, is_nmtoken_slice};
use std::alloc::Global;

fn first_filled(text: &[char]) -> Option<usize>
    ensures value { result ≡ position (λ c. not (c == 0x20)) text.now }
    ensures within { IfSome result (λ k. k < length text.now) }
{
    text.iter().position(|c| *c != ' ')
}

fn first_space(text: &[char]) -> Option<usize>
    ensures value { result ≡ position (λ c. c == 0x20) text.now }
    ensures within { IfSome result (λ k. k < length text.now) }
{
    text.iter().position(|c| *c == ' ')
}

/// How many spaces stand at the front.
fn spaces(text: &[char]) -> usize
    ensures value { result ≡ unwrap_or (position (λ c. not (c == 0x20)) text.now) (length text.now) }
    ensures within { result ≤ length text.now }
{
    first_filled(text).unwrap_or(text.len())
}

/// How many characters stand before the first space.
fn front_len(text: &[char]) -> usize
    ensures value { result ≡ unwrap_or (position (λ c. c == 0x20) text.now) (length text.now) }
    ensures within { result ≤ length text.now }
{
    first_space(text).unwrap_or(text.len())
}

/// The text from its first word on.
fn from_word(text: &[char]) -> &[char]
    ensures words { words_in result.now ≡ words_in text.now }
    ensures begins { BeginsWord result.now }
    ensures within { length result.now ≤ length text.now }
{
    text.split_at(spaces(text)).1
}

/// The first word, and the text after it.
fn first_word(text: &[char]) -> Option<(&[char], &[char])>
    ensures { MatchOption result (words_in text.now ≡ []) (λ p. (words_in text.now ≡ p.0.now ∷ words_in p.1.now) × (length p.1.now < length text.now)) }
{
    let text = from_word(text);
    if text.is_empty() {
        return None;
    }
    Some(text.split_at(front_len(text)))
}

fn are_names(text: &[char]) -> bool
    ensures { result ≡ list_all is_name (words_in text.now) }
{
    let mut rest = text;
    while let Some((word, next)) = first_word(rest) {
        if !is_name_slice(word) {
            return false;
        }
        rest = next;
    }
    true
}

fn are_nmtokens(text: &[char]) -> bool
    ensures { result ≡ list_all is_nmtoken (words_in text.now) }
{
    let mut rest = text;
    while let Some((word, next)) = first_word(rest) {
        if !is_nmtoken_slice(word) {
            return false;
        }
        rest = next;
    }
    true
}

/// Whether the collapse is a Name.
#[tactic(auto, using(crate::proofs::Collapsing::name_by_words))]
pub fn is_name_collapsed(value: &[char]) -> bool
    ensures { result ≡ is_name (collapsed value.now) }
{
    match first_word(value) {
        None => false,
        Some((word, rest)) => first_word(rest).is_none() && is_name_slice(word),
    }
}

/// Whether the collapse is an Nmtoken.
#[tactic(auto, using(crate::proofs::Collapsing::nmtoken_by_words))]
pub fn is_nmtoken_collapsed(value: &[char]) -> bool
    ensures { result ≡ is_nmtoken (collapsed value.now) }
{
    match first_word(value) {
        None => false,
        Some((word, rest)) => first_word(rest).is_none() && is_nmtoken_slice(word),
    }
}

/// Whether the collapse is Names.
#[tactic(auto, using(crate::proofs::Collapsing::names_by_words))]
pub fn are_names_collapsed(value: &[char]) -> bool
    ensures { result ≡ is_names (collapsed value.now) }
{
    match first_word(value) {
        None => false,
        Some((word, rest)) => is_name_slice(word) && are_names(rest),
    }
}

/// Whether the collapse is Nmtokens.
#[tactic(auto, using(crate::proofs::Collapsing::nmtokens_by_words))]
pub fn are_nmtokens_collapsed(value: &[char]) -> bool
    ensures { result ≡ is_nmtokens (collapsed value.now) }
{
    match first_word(value) {
        None => false,
        Some((word, rest)) => is_nmtoken_slice(word) && are_nmtokens(rest),
    }
}

/// What follows the word in a text that begins with it.
fn after_word<'a>(text: &'a [char], word: &[char]) -> Option<&'a [char]>
    ensures { MatchOption result ((rest : List ℕ) → text.now ≢ word.now ++ rest) (λ rest. text.now ≡ word.now ++ rest.now) }
{
    text.strip_prefix(word)
}

/// What follows a space and the word in a text that begins with these.
fn after_space_and_word<'a>(text: &'a [char], word: &[char]) -> Option<&'a [char]>
    ensures { MatchOption result ((rest : List ℕ) → text.now ≢ 0x20 ∷ (word.now ++ rest)) (λ rest. text.now ≡ 0x20 ∷ (word.now ++ rest.now)) }
{
    match text.split_first() {
        Some((' ', rest)) => after_word(rest, word),
        _ => None,
    }
}

/// Whether the text is a space and a word for each word of the value.
fn goes_on(value: &[char], text: &[char]) -> bool
    ensures { result ≡ bytes_eq (tailed (words_in value.now)) text.now }
{
    let mut rest = value;
    let mut left = text;
    while let Some((word, next)) = first_word(rest) {
        match after_space_and_word(left, word) {
            None => return false,
            Some(after) => {
                rest = next;
                left = after;
            }
        }
    }
    left.is_empty()
}

/// Whether the collapse of the value is the text.
pub fn is_collapsed_to(value: &[char], text: &[char]) -> bool
    ensures { result ≡ bytes_eq (collapsed value.now) text.now }
{
    match first_word(value) {
        None => text.is_empty(),
        Some((word, rest)) => match after_word(text, word) {
            None => false,
            Some(left) => goes_on(rest, left),
        },
    }
}

/// Appends a space and the word for each word of the value.
fn push_words(out: &mut Text, value: &[char]) -> Result<(), NoMemory>
    ensures { OnOk result (out.new ≡ out.old ++ tailed (words_in value.now)) }
{
    let mut rest = value;
    while let Some((word, next)) = first_word(rest) {
        out.push(' ')?;
        out.push_slice(word)?;
        rest = next;
    }
    Ok(())
}

/// The collapse of a value: no space at its ends, and one between two words (XML 1.0, 3.3.3). #x20 alone parts words.
pub fn collapse(alloc: Global, value: &Text) -> Result<Text, NoMemory>
    ensures { IfOk result (λ t. t ≡ collapsed value.now) }
{
    match first_word(value.as_slice()) {
        None => Ok(Text::new(alloc)),
        Some((word, rest)) => {
            let mut out = Text::from_slice(alloc, word)?;
            push_words(&mut out, rest)?;
            Ok(out)
        }
    }
}
