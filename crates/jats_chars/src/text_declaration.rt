//! Text declarations (XML 1.0, 4.3.1) and XML declarations (2.8).

ghost use Rattle.std.specs.Prelude.{◌≡◌, ◌+◌, ◌≤◌, ◌<◌, ◌==◌, ◌||◌, length, drop, not, position, IfSome, IfOk, MatchResult, ◌-◌, Ok, Err, None, Some};
ghost use Rattle.std.specs.Char.{is_ascii_digit};
ghost use Rattle.std.specs.List.{list_all};
ghost use Rattle.std.specs.Option.{is_some, option_map, option_copied, unwrap_or};
ghost use Rattle.jats_chars.specs.Classes.{is_space as white};
ghost use Rattle.jats_chars.specs.TextDeclaration as spec;
ghost use Rattle.jats_chars.specs.Decoded.{without_declaration, IsOther};

use crate::{DecodeFault, is_space};

fn first_other(cs: &[char]) -> Option<usize>
    ensures value { result ≡ position (λ c. not (white c)) cs.now }
    ensures within { IfSome result (λ k. k < length cs.now) }
{
    cs.iter().position(|c| !is_space(*c))
}

fn spaces(cs: &[char]) -> usize
    ensures value { result ≡ unwrap_or (position (λ c. not (white c)) cs.now) (length cs.now) }
    ensures within { result ≤ length cs.now }
{
    first_other(cs).unwrap_or(cs.len())
}

#[tactic(auto, unfolding(crate::specs::TextDeclaration::after_space))]
fn after_space(cs: &[char]) -> &[char]
    ensures { result.now ≡ spec.after_space cs.now }
{
    let n = spaces(cs);
    &cs[n..]
}

fn begins_space(cs: &[char]) -> bool
    ensures { result ≡ spec.begins_space cs.now }
{
    match cs.first() {
        None => false,
        Some(c) => is_space(*c),
    }
}

#[tactic(auto, unfolding(crate::specs::TextDeclaration::after_some_space))]
fn after_some_space(cs: &[char]) -> Option<&[char]>
    ensures { option_copied result ≡ spec.after_some_space cs.now }
{
    if begins_space(cs) {
        Some(after_space(cs))
    } else {
        None
    }
}

#[tactic(auto, unfolding(crate::specs::TextDeclaration::after_word))]
fn after_word<'a>(word: &[char], cs: &'a [char]) -> Option<&'a [char]>
    ensures { option_copied result ≡ spec.after_word word.now cs.now }
{
    cs.strip_prefix(word)
}

#[tactic(auto, unfolding(crate::specs::TextDeclaration::after_eq))]
fn after_eq(cs: &[char]) -> Option<&[char]>
    ensures { option_copied result ≡ spec.after_eq cs.now }
{
    match after_word(&['='], after_space(cs)) {
        None => None,
        Some(rest) => Some(after_space(rest)),
    }
}

fn place_of(quote: char, cs: &[char]) -> Option<usize>
    ensures value { result ≡ position (λ c. c == quote) cs.now }
    ensures within { IfSome result (λ k. k < length cs.now) }
{
    cs.iter().position(|c| *c == quote)
}

fn before_quote(quote: char, cs: &[char]) -> Option<(&[char], &[char])>
    ensures { option_map (λ r. (r.0.now, r.1.now)) result ≡ spec.before_quote quote cs.now }
{
    match place_of(quote, cs) {
        None => None,
        Some(k) => Some((&cs[..k], &cs[k + 1..])),
    }
}

#[tactic(auto, unfolding(crate::specs::TextDeclaration::quoted))]
fn quoted(cs: &[char]) -> Option<(&[char], &[char])>
    ensures { option_map (λ r. (r.0.now, r.1.now)) result ≡ spec.quoted cs.now }
{
    match cs.split_first() {
        None => None,
        Some((quote, rest)) => {
            if *quote == '"' || *quote == '\'' {
                before_quote(*quote, rest)
            } else {
                None
            }
        }
    }
}

#[tactic(auto, unfolding(crate::specs::TextDeclaration::part))]
fn part<'a>(word: &[char], cs: &'a [char]) -> Option<(&'a [char], &'a [char])>
    ensures { option_map (λ r. (r.0.now, r.1.now)) result ≡ spec.part word.now cs.now }
{
    let cs = after_some_space(cs)?;
    let cs = after_word(word, cs)?;
    let cs = after_eq(cs)?;
    quoted(cs)
}

#[tactic(auto, unfolding(crate::specs::TextDeclaration::optional_part))]
fn optional_part<'a>(word: &[char], cs: &'a [char]) -> (Option<&'a [char]>, &'a [char])
    ensures value { option_copied result.0 ≡ (spec.optional_part word.now cs.now).0 }
    ensures rest { result.1.now ≡ (spec.optional_part word.now cs.now).1 }
{
    match part(word, cs) {
        None => (None, cs),
        Some((value, rest)) => (Some(value), rest),
    }
}

fn are_digits(cs: &[char]) -> bool
    ensures { result ≡ list_all is_ascii_digit cs.now }
{
    cs.iter().all(|c| c.is_ascii_digit())
}

#[tactic(auto, unfolding(crate::specs::TextDeclaration::is_version))]
fn is_version(value: &[char]) -> bool
    ensures { result ≡ spec.is_version value.now }
{
    match value.strip_prefix(&['1', '.']) {
        None => false,
        Some(digits) => !digits.is_empty() && are_digits(digits),
    }
}

fn are_encoding_chars(cs: &[char]) -> bool
    ensures { result ≡ list_all spec.is_encoding_char cs.now }
{
    cs.iter().all(|c| c.is_ascii_alphanumeric() || *c == '.' || *c == '_' || *c == '-')
}

#[tactic(auto, unfolding(crate::specs::TextDeclaration::is_encoding))]
fn is_encoding(value: &[char]) -> bool
    ensures { result ≡ spec.is_encoding value.now }
{
    match value.split_first() {
        None => false,
        Some((first, rest)) => first.is_ascii_alphabetic() && are_encoding_chars(rest),
    }
}

#[tactic(auto, unfolding(crate::specs::TextDeclaration::is_yes_or_no))]
fn is_yes_or_no(value: &[char]) -> bool
    ensures { result ≡ spec.is_yes_or_no value.now }
{
    value == ['y', 'e', 's'].as_slice() || value == ['n', 'o'].as_slice()
}

fn fits_version(value: Option<&[char]>) -> bool
    ensures { result ≡ spec.fits spec.is_version (option_copied value.entry) }
{
    match value {
        None => true,
        Some(value) => is_version(value),
    }
}

fn fits_encoding(value: Option<&[char]>) -> bool
    ensures { result ≡ spec.fits spec.is_encoding (option_copied value.entry) }
{
    match value {
        None => true,
        Some(value) => is_encoding(value),
    }
}

fn fits_yes_or_no(value: Option<&[char]>) -> bool
    ensures { result ≡ spec.fits spec.is_yes_or_no (option_copied value.entry) }
{
    match value {
        None => true,
        Some(value) => is_yes_or_no(value),
    }
}

fn is_some_of(a: Option<&[char]>, b: Option<&[char]>, c: Option<&[char]>) -> bool
    ensures { result ≡ (is_some a.entry || (is_some b.entry || is_some c.entry)) }
{
    a.is_some() || b.is_some() || c.is_some()
}

#[tactic(auto, unfolding(crate::specs::TextDeclaration::is_proper))]
fn is_proper(
    version: Option<&[char]>,
    encoding: Option<&[char]>,
    standalone: Option<&[char]>,
) -> bool
    ensures { result ≡ spec.is_proper (option_copied version.entry) (option_copied encoding.entry) (option_copied standalone.entry) }
{
    is_some_of(version, encoding, standalone)
        && fits_version(version)
        && fits_encoding(encoding)
        && fits_yes_or_no(standalone)
}

const VERSION: [char; 7] = ['v', 'e', 'r', 's', 'i', 'o', 'n'];

const ENCODING: [char; 8] = ['e', 'n', 'c', 'o', 'd', 'i', 'n', 'g'];

const STANDALONE: [char; 10] = ['s', 't', 'a', 'n', 'd', 'a', 'l', 'o', 'n', 'e'];

#[tactic(auto, unfolding(crate::specs::TextDeclaration::inside_declaration))]
fn inside_declaration(cs: &[char]) -> Option<(Option<&[char]>, &[char])>
    ensures { option_map (λ r. (option_copied r.0, r.1.now)) result ≡ spec.inside_declaration cs.now }
{
    let (version, cs) = optional_part(&VERSION, cs);
    let (encoding, cs) = optional_part(&ENCODING, cs);
    let (standalone, cs) = optional_part(&STANDALONE, cs);
    if !is_proper(version, encoding, standalone) {
        return None;
    }
    match after_word(&['?', '>'], after_space(cs)) {
        None => None,
        Some(rest) => Some((encoding, rest)),
    }
}

#[tactic(auto, unfolding(crate::specs::TextDeclaration::declaration))]
fn declaration(cs: &[char]) -> Option<(Option<&[char]>, &[char])>
    ensures { option_map (λ r. (option_copied r.0, r.1.now)) result ≡ spec.declaration cs.now }
{
    match after_word(&['<', '?', 'x', 'm', 'l'], cs) {
        None => None,
        Some(behind) => inside_declaration(behind),
    }
}

#[tactic(auto, unfolding(crate::specs::TextDeclaration::begins_declaration))]
fn begins_declaration(cs: &[char]) -> bool
    ensures { result ≡ spec.begins_declaration cs.now }
{
    match cs.strip_prefix(&['<', '?', 'x', 'm', 'l']) {
        None => false,
        Some(behind) => begins_space(behind),
    }
}

fn same_word(name: &[char], word: &[char]) -> bool
    ensures { result ≡ spec.is_word_in_any_case word.now name.now }
{
    if name.len() != word.len() {
        return false;
    }
    for (k, c) in name.iter().enumerate() {
        if !c.eq_ignore_ascii_case(&word[k]) {
            return false;
        }
    }
    true
}

#[tactic(auto, unfolding(crate::specs::TextDeclaration::is_utf8))]
fn is_utf8(encoding: Option<&[char]>) -> bool
    ensures { result ≡ spec.is_utf8 (option_copied encoding.entry) }
{
    match encoding {
        None => true,
        Some(name) => {
            same_word(name, &['U', 'T', 'F', '-', '8'])
                || same_word(name, &['U', 'S', '-', 'A', 'S', 'C', 'I', 'I'])
        }
    }
}

/// The text behind the declaration that it begins with, if it begins with `<?xml` and white space.
#[tactic(auto, unfolding(crate::specs::Decoded::without_declaration))]
fn behind(cs: &[char]) -> Result<&[char], DecodeFault>
    ensures { MatchResult result (λ rest. without_declaration cs.now ≡ Ok rest.now) (λ f. (without_declaration cs.now ≡ Err f) × IsOther f) }
{
    if !begins_declaration(cs) {
        return Ok(cs);
    }
    match declaration(cs) {
        None => Err(DecodeFault::BadTextDecl),
        Some((encoding, rest)) => {
            if is_utf8(encoding) {
                Ok(rest)
            } else {
                Err(DecodeFault::EncodingOther)
            }
        }
    }
}

/// How many characters stand behind the declaration.
#[tactic(auto, using(crate::proofs::Suffixes::left_of))]
pub fn len_behind(cs: &[char]) -> Result<usize, DecodeFault>
    ensures within { IfOk result (λ left. left ≤ length cs.now) }
    ensures told { MatchResult result (λ left. without_declaration cs.now ≡ Ok (drop (length cs.now - left) cs.now)) (λ f. (without_declaration cs.now ≡ Err f) × IsOther f) }
{
    match behind(cs) {
        Err(fault) => Err(fault),
        Ok(rest) => Ok(rest.len()),
    }
}
