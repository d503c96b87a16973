//! The forms of items. A call that is named for a kind takes a text that begins with the opening of that kind, and gives
//! the length of the item there, or None where it does not end. Each looks at a character a few times at most.

ghost use Rattle.std.specs.Prelude.{◌≡◌, ◌==◌, ◌&&◌, ◌+◌, ◌-◌, ◌<◌, ◌≤◌, IfSome, position, length, slice_index};
ghost use Rattle.std.specs.List.{prefix_len};
ghost use Rattle.jats_chars.specs.Classes as chars;
ghost use Rattle.dtd_scanner.specs.Items as items;
ghost use Rattle.dtd_scanner.specs.Scanning as spec;

use crate::references::{name_len, quote_after};
use jats_chars::is_space;

/// Whether the text begins with white space.
pub(crate) fn first_is_space(text: &[char]) -> bool
    ensures { result ≡ items.first_is chars.is_space text.now }
{
    match text.split_first() {
        None => false,
        Some((c, _)) => is_space(*c),
    }
}

/// How much white space the text begins with.
pub(crate) fn blank_len(text: &[char]) -> usize
    ensures value { result ≡ prefix_len chars.is_space text.now }
    ensures within { result ≤ length text.now }
{
    text.iter().take_while(|c| is_space(**c)).count()
}

/// Whether the first character stands before the place, and the second at it.
fn ends_pair(text: &[char], at: usize, first: char, second: char) -> bool
    requires after { 1 ≤ at }
    requires within { at < length text.now }
    ensures { result ≡ (slice_index text.now (at - 1) == first && slice_index text.now at == second) }
{
    text[at - 1] == first && text[at] == second
}

/// Where these two characters first stand side by side.
fn first_pair(text: &[char], first: char, second: char) -> Option<usize>
    ensures value { result ≡ spec.first_pair first second text.now }
    ensures within { IfSome result (λ k. k + 2 ≤ length text.now) }
{
    for at in 1..text.len() {
        if ends_pair(text, at, first, second) {
            return Some(at - 1);
        }
    }
    None
}

pub(crate) fn comment_len(text: &[char]) -> Option<usize>
    requires { 4 ≤ length text.now }
    ensures value { result ≡ spec.comment_len text.now }
    ensures within { IfSome result (λ n. n ≤ length text.now) }
{
    let (_, inside) = text.split_at(4);
    match first_pair(inside, '-', '-') {
        None => None,
        Some(at) => {
            let (_, end) = inside.split_at(at);
            if end.starts_with(&['-', '-', '>']) {
                Some(at + 7)
            } else {
                None
            }
        }
    }
}

/// Whether the characters are `xml` in any case of letters.
fn is_xml(name: &[char]) -> bool
    ensures { result ≡ items.is_xml name.now }
{
    match name {
        [x, m, l] => {
            (*x == 'X' || *x == 'x') && (*m == 'M' || *m == 'm') && (*l == 'L' || *l == 'l')
        }
        _ => false,
    }
}

/// Whether the first n characters may be the target of a processing instruction that goes on there.
fn leaves_target(n: usize, text: &[char]) -> bool
    requires { n ≤ length text.now }
    ensures { result ≡ spec.leaves_target n text.now }
{
    let (name, rest) = text.split_at(n);
    0 < n && !is_xml(name) && (first_is_space(rest) || rest.starts_with(&['?', '>']))
}

pub(crate) fn pi_len(text: &[char]) -> Option<usize>
    requires { 2 ≤ length text.now }
    ensures value { result ≡ spec.pi_len text.now }
    ensures within { IfSome result (λ n. n ≤ length text.now) }
{
    let (_, rest) = text.split_at(2);
    let length = name_len(rest);
    if !leaves_target(length, rest) {
        return None;
    }
    let (_, body) = rest.split_at(length);
    match first_pair(body, '?', '>') {
        None => None,
        Some(at) => Some(length + at + 4),
    }
}

/// Where the first `[` stands.
fn first_bracket(text: &[char]) -> Option<usize>
    ensures value { result ≡ position (λ c. c == 91) text.now }
    ensures within { IfSome result (λ k. k < length text.now) }
{
    text.iter().position(|c| *c == '[')
}

pub(crate) fn section_start_len(text: &[char]) -> Option<usize>
    requires { 3 ≤ length text.now }
    ensures value { result ≡ spec.section_start_len text.now }
    ensures within { IfSome result (λ n. n ≤ length text.now) }
{
    let (_, rest) = text.split_at(3);
    match first_bracket(rest) {
        None => None,
        Some(at) => Some(at + 4),
    }
}

/// Where the first `>` stands outside quotes.
fn body_len(text: &[char]) -> Option<usize>
    ensures value { result ≡ spec.body_len None text.now }
    ensures within { IfSome result (λ k. k < length text.now) }
{
    let mut quote = None;
    for (at, c) in text.iter().enumerate() {
        if quote.is_none() && *c == '>' {
            return Some(at);
        }
        quote = quote_after(quote, *c);
    }
    None
}

/// Whether a word may end before this text.
fn ends_word(rest: &[char]) -> bool
    ensures { result ≡ spec.ends_word rest.now }
{
    match rest.split_first() {
        None => false,
        Some((c, _)) => is_space(*c) || *c == '%' || *c == '>',
    }
}

/// The same for a declaration whose opening word has this length.
pub(crate) fn declaration_len(word: usize, text: &[char]) -> Option<usize>
    requires { word ≤ length text.now }
    ensures value { result ≡ spec.declaration_len word text.now }
    ensures within { IfSome result (λ n. n ≤ length text.now) }
{
    let (_, rest) = text.split_at(word);
    if !ends_word(rest) {
        return None;
    }
    match body_len(rest) {
        None => None,
        Some(at) => Some(word + at + 1),
    }
}
