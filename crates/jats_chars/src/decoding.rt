//! Bytes as texts (XML 1.0, 2.2, 2.11, 4.3.1 and 4.3.3).

ghost use Rattle.std.specs.Prelude.{◌≡◌, ◌+◌, ◌≤◌, ◌<◌, ◌∷◌, [], ◌++◌, length, take, drop, false, true, Some, None, MatchResult, IfOk, vec_len, vec_capacity, ◌==◌, ◌&&◌, ◌^◌, if◌then◌else◌};
ghost use Rattle.std.specs.List.{All};
ghost use Rattle.bstr.specs.Utf8.{decoded, pieces};
ghost use Rattle.jats_chars.specs.Classes.{is_char as char_class};
ghost use Rattle.jats_chars.specs.Decoded as spec;
ghost use Rattle.jats_chars.specs.declared.decoding.DecodeFault.TheVariants as faults;

use crate::text_declaration::len_behind;
use crate::{NoMemory, Text, is_char};
use std::alloc::{AllocError, AllocFailed, Global};
use thiserror::Error;

/// Why bytes are no text.
#[derive(Clone, Copy, Debug, PartialEq, Eq, Error)]
pub enum DecodeFault {
    /// The bytes are not well-formed UTF-8 from this byte of the file on.
    #[error("no UTF-8 at byte {0}")]
    NotUtf8(u64),
    /// The character at this byte of the file is no Char (XML 1.0, 2.2).
    #[error("no character of XML at byte {0}")]
    NotChar(u64),
    /// The text begins with `<?xml` and white space, and not with a text declaration.
    #[error("a bad text declaration")]
    BadTextDecl,
    /// The text declaration names an encoding other than UTF-8 and US-ASCII.
    #[error("another encoding than UTF-8")]
    EncodingOther,
    /// Memory ran out.
    #[error("out of memory")]
    NoMemory,
}

impl From<NoMemory> for DecodeFault {
    ghost from_gives = { λ _ e. e ≡ faults.NoMemory };

    fn from(_error: NoMemory) -> DecodeFault {
        DecodeFault::NoMemory
    }
}

impl From<AllocError> for DecodeFault {
    ghost from_gives = { λ _ e. e ≡ faults.NoMemory };

    fn from(_error: AllocError) -> DecodeFault {
        DecodeFault::NoMemory
    }
}

impl<T: Drop> From<AllocFailed<T>> for DecodeFault {
    ghost from_gives = { λ _ e. e ≡ faults.NoMemory };

    fn from(_failed: AllocFailed<T>) -> DecodeFault {
        DecodeFault::NoMemory
    }
}

fn mark_len(file: &[u8]) -> usize
    ensures value { result ≡ spec.mark_len file.now }
    ensures within { result ≤ length file.now }
{
    if file.starts_with(&[0xEF, 0xBB, 0xBF]) {
        3
    } else {
        0
    }
}

/// The Char that the bytes begin with and how many bytes it takes, or what is wrong at this place.
#[inline(always)]
#[tactic(auto, using(crate::proofs::Pieces::piece_bounds, crate::proofs::Plain::plain_char, crate::proofs::Plain::plain_size, crate::proofs::Plain::line_feed_is_char))]
fn next_char(bytes: &[u8], place: usize) -> Result<(char, usize), DecodeFault>
    requires { 0 < length bytes.now }
    ensures size { IfOk result (λ r. (0 < r.1) × (r.1 ≤ length bytes.now)) }
    ensures found { MatchResult result (λ r. ((decoded bytes.now).char ≡ Some r.0) × ((decoded bytes.now).size ≡ r.1) × (char_class r.0 ≡ true)) (λ f. (f ≡ spec.fault_of (decoded bytes.now).char place) × (spec.spells_char (decoded bytes.now) ≡ false)) }
{
    let first = bytes[0];
    if first == b'\n' {
        return Ok((first as char, 1));
    }
    let (found, size) = bstr::decode_utf8(bytes);
    match found {
        None => Err(DecodeFault::NotUtf8(place as u64)),
        Some(c) => {
            if is_char(c) {
                Ok((c, size))
            } else {
                Err(DecodeFault::NotChar(place as u64))
            }
        }
    }
}

/// Appends a character behind a CR or not, where each line end becomes LF.
#[inline(always)]
fn put(chars: &mut Vec<char>, after_cr: bool, c: char)
    requires { vec_len chars.old < vec_capacity chars.old }
    ensures items { chars.new.items ≡ chars.old.items ++ (if c == 0xD then 0xA ∷ [] else (if c == 0xA && after_cr then [] else c ∷ [])) }
    ensures len { vec_len chars.new ≤ vec_len chars.old + 1 }
    ensures capacity { vec_capacity chars.new ≡ vec_capacity chars.old }
{
    if c == '\r' {
        chars.push_reserved('\n');
    } else if c != '\n' || !after_cr {
        chars.push_reserved(c);
    }
}

/// How many bytes from the first on are plain.
fn plain_len(bytes: &[u8]) -> usize
    ensures within { result ≤ length bytes.now }
    ensures plain { All spec.IsPlain (take result bytes.now) }
{
    let mut len = 0;
    while len < bytes.len() && 0x20 <= bytes[len] && bytes[len] < 0x80 {
        len += 1;
    }
    len
}

/// Appends plain bytes as characters. A loop of its own, so that it becomes vector code.
fn put_plain(chars: &mut Vec<char>, run: &[u8])
    requires { vec_len chars.old + length run.now ≤ vec_capacity chars.old }
    ensures items { chars.new.items ≡ chars.old.items ++ run.now }
    ensures len { vec_len chars.new ≡ vec_len chars.old + length run.now }
    ensures capacity { vec_capacity chars.new ≡ vec_capacity chars.old }
{
    for byte in run {
        chars.push_reserved(*byte as char);
    }
}

/// The bytes from a place on.
fn rest_of(bytes: &[u8], at: usize) -> &[u8]
    requires { at ≤ length bytes.now }
    ensures { result.now ≡ drop at bytes.now }
{
    &bytes[at..]
}

/// The characters of the bytes, of which the first stands at this place of a file, with LF as their line ends.
fn read_chars(alloc: Global, bytes: &[u8], start: usize) -> Result<Text, DecodeFault>
    requires { start + length bytes.now < 2 ^ 64 }
    ensures { spec.Answers (spec.lined (spec.chars_of start (pieces bytes.now))) result }
{
    let mut chars = Vec::with_capacity(alloc, bytes.len())?;
    let mut after_cr = false;
    let mut at = 0;
    while at < bytes.len() {
        let rest = rest_of(bytes, at);
        let run = plain_len(rest);
        if run > 0 {
            put_plain(&mut chars, &rest[..run]);
            after_cr = false;
            at += run;
            continue;
        }
        let (c, size) = match next_char(rest, start + at) {
            Err(fault) => return Err(fault),
            Ok(found) => found,
        };
        put(&mut chars, after_cr, c);
        after_cr = c == '\r';
        at += size;
    }
    Ok(Text::from_vec(chars))
}

/// The text of a file.
///
/// One byte order mark is dropped. The bytes are well-formed UTF-8 (Unicode Standard, Table 3-7) and spell Chars (XML
/// 1.0, 2.2): `NotUtf8` and `NotChar` give the first place where they are not, counted in bytes of the file with its
/// mark. CR LF and a lone CR become LF (2.11). A text that begins with `<?xml` and white space must begin with a text
/// declaration (4.3.1), or else with an XML declaration (2.8), which is dropped: without one the answer is
/// `BadTextDecl`. Its encoding, if any, is `UTF-8` or `US-ASCII` in any case of letters: any other is `EncodingOther`.
pub fn decode(alloc: Global, bytes: &[u8]) -> Result<Text, DecodeFault>
    ensures { spec.Decodes bytes.now result }
{
    let mark = mark_len(bytes);
    let mut text = read_chars(alloc, rest_of(bytes, mark), mark)?;
    let left = len_behind(text.as_slice())?;
    text.keep_last(left);
    Ok(text)
}
