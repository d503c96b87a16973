//! Words of a line in place.

ghost use Rattle.std.specs.Prelude.{◌≡◌, ◌≤◌, ◌<◌, ◌+◌, ◌*◌, ◌^◌, ◌==◌, ◌∷◌, [], option_map, MatchOption, IfSome, IsTrue, ◌↔◌, Some, position, length};
ghost use Rattle.std.specs.Option.{option_copied};
ghost use Rattle.std.specs.Fmt.{decimal};
ghost use Rattle.bound_checker.specs.Certificates as spec;
ghost use Rattle.bound_checker.specs.Spelled.{Writes, begins_number, short_number_in};

/// What stands behind a beginning.
pub fn after<'a>(word: &[u8], line: &'a [char]) -> Option<&'a [char]>
    ensures { option_copied result ≡ spec.after word.now line.now }
{
    let mut left = line;
    for byte in word {
        match left.split_first() {
            None => return None,
            Some((c, rest)) => {
                if *c != char::from(*byte) {
                    return None;
                }
                left = rest;
            }
        }
    }
    Some(left)
}

/// What stands behind a beginning.
pub fn after_name<'a>(name: &[char], line: &'a [char]) -> Option<&'a [char]>
    ensures { option_copied result ≡ spec.after name.now line.now }
{
    let mut left = line;
    for n in name {
        match left.split_first() {
            None => return None,
            Some((c, rest)) => {
                if *c != *n {
                    return None;
                }
                left = rest;
            }
        }
    }
    Some(left)
}

/// The words on both sides of the last space.
pub fn split(words: &[char]) -> Option<(&[char], &[char])>
    ensures { option_map (λ t. (t.0.now, t.1.now)) result ≡ spec.split words.now }
{
    let mut end = words.len();
    while end > 0 {
        end -= 1;
        if words[end] == ' ' {
            return Some((&words[..end], &words[end + 1..]));
        }
    }
    None
}

/// Whether there is a character, and no zero in front of more.
fn begins_number(digits: &[char]) -> bool
    ensures { result ≡ begins_number digits.now }
{
    match digits {
        [] => false,
        [_] => true,
        [first, ..] => *first != '0',
    }
}

/// The number with one more digit, where it stays below 2^32.
fn with_digit(number: u32, digit: u32) -> Option<u32>
    ensures { MatchOption result (2 ^ 32 ≤ number * 10 + digit) (λ n. (n ≡ number * 10 + digit) × (n < 2 ^ 32)) }
{
    number.checked_mul(10)?.checked_add(digit)
}

/// The number that digits write, where it is below 2^32. What stands behind the first digit that passes is not looked at.
fn value(digits: &[char]) -> Option<u32>
    ensures value { Writes digits.now result }
    ensures small { IfSome result (λ n. n < 2 ^ 32) }
{
    let mut value: u32 = 0;
    for c in digits {
        let digit = c.to_digit(10)?;
        match with_digit(value, digit) {
            None => return None,
            Some(longer) => value = longer,
        }
    }
    Some(value)
}

/// The number that digits write without leading zeros, where it is below 2^32, or None exactly where they write none.
pub fn number(digits: &[char]) -> Option<u32>
    ensures { result ≡ short_number_in digits.now }
{
    if begins_number(digits) {
        value(digits)
    } else {
        None
    }
}

/// The place of the first space.
fn space_in(words: &[char]) -> Option<usize>
    ensures value { result ≡ position (λ c. c == 0x20) words.now }
    ensures within { IfSome result (λ at. at < length words.now) }
{
    words.iter().position(|c| *c == ' ')
}

/// Whether the word is this number.
fn is_number(word: &[char], expected: u32) -> bool
    ensures { IsTrue result ↔ (short_number_in word.now ≡ Some expected) }
{
    number(word) == Some(expected)
}

/// What stands behind a number and a space.
pub fn after_number(expected: u32, words: &[char]) -> Option<&[char]>
    ensures { option_copied result ≡ spec.after (spec.spaced (decimal expected) []) words.now }
{
    match space_in(words) {
        None => None,
        Some(at) => {
            if is_number(&words[..at], expected) {
                Some(&words[at + 1..])
            } else {
                None
            }
        }
    }
}
