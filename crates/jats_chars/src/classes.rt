//! Classes of characters (XML 1.0, 2.2 and 2.3).

ghost use Rattle.std.specs.Prelude.{◌≡◌, ◌<◌, IsTrue, MatchOption, false};
ghost use Rattle.jats_chars.specs.Classes as spec;

use std::marker::Model;

/// Rows of code points, each with its first and its last, which ascend and are disjoint. It is seen as the list of
/// its rows.
#[derive(Drop)]
pub struct Ranges<const N: usize> {
    rows: [(u32, u32); N],
}

impl<const N: usize> Model for Ranges<N> {
    ghost use Rattle.std.specs.Prelude.{IsTrue};
    ghost use Rattle.jats_chars.specs.Classes.{Rows, is_ascending};

    ghost Value = { Rows };

    ghost view = { λ r. r.rows };

    ghost invariant = { λ r. IsTrue (is_ascending r.rows) };
}

fn ascends(rows: &[(u32, u32)]) -> bool
    ensures { result ≡ spec.is_ascending rows.now }
{
    match rows.split_first() {
        None => true,
        Some((first, rest)) => first.0 <= first.1 && ascends_above(first.1, rest),
    }
}

fn ascends_above(low: u32, rows: &[(u32, u32)]) -> bool
    ensures { result ≡ spec.ascend_above low rows.now }
{
    let mut last = low;
    for row in rows {
        if !(last < row.0 && row.0 <= row.1) {
            return false;
        }
        last = row.1;
    }
    true
}

fn holds(rows: &[(u32, u32)], c: char) -> bool
    ensures { result ≡ spec.in_rows rows.now c }
{
    rows.iter()
        .any(|row| row.0 <= c as u32 && c as u32 <= row.1)
}

impl<const N: usize> Ranges<N> {
    /// The rows as ranges, or None exactly where they do not ascend or are not disjoint.
    pub fn sorted(rows: [(u32, u32); N]) -> Option<Ranges<N>>
        ensures { MatchOption result (spec.is_ascending rows.entry ≡ false) (λ r. (r ≡ rows.entry) × IsTrue (spec.is_ascending rows.entry)) }
    {
        if ascends(&rows) {
            Some(Ranges { rows })
        } else {
            None
        }
    }

    /// Whether a row holds the character.
    pub fn holds(&self, c: char) -> bool
        ensures { result ≡ spec.in_rows self.now c }
    {
        holds(&self.rows, c)
    }
}

/// Whether c is white space (production 3).
#[tactic(auto, unfolding(crate::specs::Classes::is_space))]
pub fn is_space(c: char) -> bool
    ensures { result ≡ spec.is_space c }
{
    const SPACE: Ranges<3> = Ranges {
        rows: [(0x9, 0xA), (0xD, 0xD), (0x20, 0x20)],
    };
    SPACE.holds(c)
}

/// Whether c is a Char (production 2).
#[tactic(auto, unfolding(crate::specs::Classes::is_char))]
pub fn is_char(c: char) -> bool
    ensures { result ≡ spec.is_char c }
{
    const CHAR: Ranges<5> = Ranges {
        rows: [
            (0x9, 0xA),
            (0xD, 0xD),
            (0x20, 0xD7FF),
            (0xE000, 0xFFFD),
            (0x10000, 0x10FFFF),
        ],
    };
    CHAR.holds(c)
}

const NAME_START: Ranges<16> = Ranges {
    rows: [
        (0x3A, 0x3A),
        (0x41, 0x5A),
        (0x5F, 0x5F),
        (0x61, 0x7A),
        (0xC0, 0xD6),
        (0xD8, 0xF6),
        (0xF8, 0x2FF),
        (0x370, 0x37D),
        (0x37F, 0x1FFF),
        (0x200C, 0x200D),
        (0x2070, 0x218F),
        (0x2C00, 0x2FEF),
        (0x3001, 0xD7FF),
        (0xF900, 0xFDCF),
        (0xFDF0, 0xFFFD),
        (0x10000, 0xEFFFF),
    ],
};

/// Whether c may begin a Name: NameStartChar (production 4).
#[tactic(auto, unfolding(crate::specs::Classes::is_name_start))]
pub fn is_name_start(c: char) -> bool
    ensures { result ≡ spec.is_name_start c }
{
    if c < '\u{80}' {
        return ('a' <= c && c <= 'z') || ('A' <= c && c <= 'Z') || c == '_' || c == ':';
    }
    NAME_START.holds(c)
}

/// Whether c may stand in a Name or an Nmtoken: NameChar (production 4a).
#[tactic(auto, unfolding(crate::specs::Classes::is_name_char))]
pub fn is_name_char(c: char) -> bool
    ensures { result ≡ spec.is_name_char c }
{
    if c < '\u{80}' {
        return ('a' <= c && c <= 'z')
            || ('A' <= c && c <= 'Z')
            || ('-' <= c && c <= ':' && c != '/')
            || c == '_';
    }
    const MORE: Ranges<5> = Ranges {
        rows: [
            (0x2D, 0x2E),
            (0x30, 0x39),
            (0xB7, 0xB7),
            (0x300, 0x36F),
            (0x203F, 0x2040),
        ],
    };
    NAME_START.holds(c) || MORE.holds(c)
}

/// Whether c may stand in a public identifier: PubidChar (production 13).
#[tactic(auto, unfolding(crate::specs::Classes::is_pubid_char))]
pub fn is_pubid_char(c: char) -> bool
    ensures { result ≡ spec.is_pubid_char c }
{
    const PUBID: Ranges<9> = Ranges {
        rows: [
            (0xA, 0xA),
            (0xD, 0xD),
            (0x20, 0x21),
            (0x23, 0x25),
            (0x27, 0x3B),
            (0x3D, 0x3D),
            (0x3F, 0x5A),
            (0x5F, 0x5F),
            (0x61, 0x7A),
        ],
    };
    PUBID.holds(c)
}
