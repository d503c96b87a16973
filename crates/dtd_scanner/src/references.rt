//! References, and quotes.

ghost use Rattle.std.specs.Prelude.{◌≡◌, ◌*◌, ◌+◌, ◌<◌, ◌≤◌, IfSome, IsTrue, length, min};
ghost use Rattle.std.specs.List.{prefix_len};
ghost use Rattle.jats_chars.specs.Classes as chars;
ghost use Rattle.jats_chars.specs.Names.{is_name};
ghost use Rattle.dtd_scanner.specs.Items as items;
ghost use Rattle.dtd_scanner.specs.Scanning as scanning;
ghost use Rattle.dtd_scanner.specs.References as spec;

use jats_chars::{is_char, is_name_char, is_name_start};

/// Above every character.
const NO_CHARACTER: u32 = 0x110000;

/// Whether the character is `"` or `'`.
pub fn is_quote(c: char) -> bool
    ensures { result ≡ items.is_quote c }
{
    c == '"' || c == '\''
}

/// The quote that is open behind a character, where `quote` is open before it: a quote opens where none is open, and the
/// same quote closes it.
pub fn quote_after(quote: Option<char>, c: char) -> Option<char>
    ensures { result ≡ scanning.quote_after quote c }
{
    match quote {
        None => { if is_quote(c) { Some(c) } else { None } }
        Some(quote) => { if c == quote { None } else { Some(quote) } }
    }
}

/// How many characters that may stand in a Name the text begins with.
fn name_chars(text: &[char]) -> usize
    ensures value { result ≡ prefix_len chars.is_name_char text.now }
    ensures within { result ≤ length text.now }
{
    text.iter().take_while(|c| is_name_char(**c)).count()
}

/// The length of the longest Name that the text begins with, or 0 exactly where it begins with none (XML 1.0, 2.3,
/// production 5).
pub fn name_len(text: &[char]) -> usize
    ensures value { result ≡ scanning.name_len text.now }
    ensures within { result ≤ length text.now }
{
    match text.split_first() {
        None => 0,
        Some((c, _)) => {
            if is_name_start(*c) {
                name_chars(text)
            } else {
                0
            }
        }
    }
}

/// The length of the reference that the text begins with: a mark of one character, which is not looked at, a Name and `;`
/// (XML 1.0, 4.1, productions 68 and 69). None comes exactly where no Name stands behind the mark, or no `;` behind the
/// Name.
pub fn reference_len(text: &[char]) -> Option<usize>
    requires { 1 ≤ length text.now }
    ensures value { result ≡ scanning.reference_len text.now }
    ensures within { IfSome result (λ n. (3 ≤ n) × (n ≤ length text.now)) }
    ensures name { IfSome result (λ n. IsTrue (is_name (spec.named n text.now))) }
{
    let (_, rest) = text.split_at(1);
    let length = name_len(rest);
    let (_, end) = rest.split_at(length);
    if 0 < length && end.starts_with(&[';']) {
        Some(length + 2)
    } else {
        None
    }
}

fn is_hex_digit(c: char) -> bool
    ensures { result ≡ spec.is_hex_digit c }
{
    c.is_ascii_digit() || ('A' <= c && c <= 'F') || ('a' <= c && c <= 'f')
}

fn digit_value(digit: char) -> u32
    ensures value { result ≡ spec.digit_value digit }
    ensures small { result < 0x110000 }
{
    let code = digit as u32;
    if digit <= '9' {
        code.saturating_sub(48)
    } else if digit <= 'F' {
        code.saturating_sub(55)
    } else {
        code.saturating_sub(87)
    }
}

/// The number with one more digit, as far as characters go.
fn with_digit(base: u32, number: u32, digit: char) -> u32
    requires base { (1 ≤ base) × (base ≤ 16) }
    requires number { number ≤ 0x110000 }
    ensures { result ≡ min (base * number + spec.digit_value digit) 0x110000 }
{
    let next = base * number + digit_value(digit);
    if next < NO_CHARACTER {
        next
    } else {
        NO_CHARACTER
    }
}

/// The number that digits write, or a number above every character where it is such a one.
#[tactic(auto, using(crate::proofs::Numerals::capped))]
fn number(base: u32, digits: &[char]) -> u32
    requires { (1 ≤ base) × (base ≤ 16) }
    ensures { result ≡ min (spec.number base digits.now) 0x110000 }
{
    let mut number = 0;
    for digit in digits {
        number = with_digit(base, number, *digit);
    }
    number
}

/// The character that digits name.
fn char_named(base: u32, digits: &[char]) -> Option<char>
    requires { (1 ≤ base) × (base ≤ 16) }
    ensures { result ≡ spec.char_of (spec.number base digits.now) }
{
    match char::from_u32(number(base, digits)) {
        None => None,
        Some(c) => { if is_char(c) { Some(c) } else { None } }
    }
}

/// The first n characters as digits with a `;`, behind an opening of a character reference.
fn numeral_end(base: u32, opening: usize, text: &[char], n: usize) -> Option<(char, usize)>
    requires base { (1 ≤ base) × (base ≤ 16) }
    requires opening { (2 ≤ opening) × (opening ≤ 3) }
    requires within { n ≤ length text.now }
    ensures value { result ≡ spec.numeral_end base opening text.now n }
    ensures within { IfSome result (λ r. (4 ≤ r.1) × (r.1 ≤ opening + length text.now)) }
{
    let (digits, end) = text.split_at(n);
    if 0 < n && end.starts_with(&[';']) {
        match char_named(base, digits) {
            None => None,
            Some(c) => Some((c, opening + n + 1)),
        }
    } else {
        None
    }
}

fn digits_len(text: &[char]) -> usize
    ensures value { result ≡ prefix_len spec.is_digit text.now }
    ensures within { result ≤ length text.now }
{
    text.iter().take_while(|c| c.is_ascii_digit()).count()
}

fn hex_digits_len(text: &[char]) -> usize
    ensures value { result ≡ prefix_len spec.is_hex_digit text.now }
    ensures within { result ≤ length text.now }
{
    text.iter().take_while(|c| is_hex_digit(**c)).count()
}

/// Of a text that begins with `&#`, the Char that the character reference there names, and its length: `&#` with decimal
/// digits or `&#x` with hexadecimal ones, and `;` (XML 1.0, 4.1, production 66). None comes exactly where the digits or the
/// `;` are missing, or the number is that of no Char (2.2). Digits may be of any number.
pub fn char_reference(text: &[char]) -> Option<(char, usize)>
    requires { 2 ≤ length text.now }
    ensures value { result ≡ spec.char_reference text.now }
    ensures within { IfSome result (λ r. (4 ≤ r.1) × (r.1 ≤ length text.now)) }
{
    if text.starts_with(&['&', '#', 'x']) {
        let (_, rest) = text.split_at(3);
        numeral_end(16, 3, rest, hex_digits_len(rest))
    } else {
        let (_, rest) = text.split_at(2);
        numeral_end(10, 2, rest, digits_len(rest))
    }
}

/// Of a text that begins with `&`, whether it begins with a reference: a character reference that names a Char, or a
/// reference to a general entity (XML 1.0, 4.1, productions 66 to 68).
pub fn begins_reference(text: &[char]) -> bool
    ensures { result ≡ spec.begins_reference text.now }
{
    match text.split_first() {
        None => false,
        Some((_, rest)) => {
            if rest.starts_with(&['#']) {
                char_reference(text).is_some()
            } else {
                reference_len(text).is_some()
            }
        }
    }
}
