//! The pieces of a value.

ghost use Rattle.std.specs.Prelude.{◌≡◌, ◌+◌, ◌≤◌, IfSome, IsTrue, length};
ghost use Rattle.jats_chars.specs.Names.{is_name};
ghost use Rattle.dtd_scanner.specs.References.{named};
ghost use Rattle.decl_set.specs.Values as spec;
ghost use Rattle.decl_set.specs.declared.pieces.Kind.TheVariants.{Named};

use dtd_scanner::{char_reference, reference_len};
use jats_chars::is_space;

/// What a piece of a value is.
#[derive(Clone, Copy, Debug, Drop, PartialEq, Eq)]
pub enum Kind {
    /// A character: itself, a space for white space, or what a character reference names.
    Char(char),
    /// A `<`.
    LessThan,
    /// A reference to a general entity.
    Named,
}

/// A piece and its length.
#[derive(Clone, Copy, Debug, Drop, PartialEq, Eq)]
pub struct Piece {
    pub kind: Kind,
    pub len: usize,
}

/// A reference, whose `&` stands there.
fn reference_piece(text: &[char], after: &[char]) -> Option<Piece>
    requires { length after.now + 1 ≡ length text.now }
    ensures value { result ≡ spec.reference_piece after.now text.now }
    ensures within { IfSome result (λ p. (1 ≤ p.len) × (p.len ≤ length text.now)) }
    ensures name { IfSome result (λ p. p.kind ≡ Named → (2 ≤ p.len) × IsTrue (is_name (named p.len text.now))) }
{
    if after.starts_with(&['#']) {
        match char_reference(text) {
            None => None,
            Some((c, len)) => Some(Piece {
                kind: Kind::Char(c),
                len,
            }),
        }
    } else {
        match reference_len(text) {
            None => None,
            Some(len) => Some(Piece {
                kind: Kind::Named,
                len,
            }),
        }
    }
}

/// The first piece of a value, or None exactly where there is none or a `&` begins no reference.
#[tactic(auto, unfolding(crate::specs::Values::value_piece))]
pub(crate) fn value_piece(text: &[char]) -> Option<Piece>
    ensures value { result ≡ spec.value_piece text.now }
    ensures within { IfSome result (λ p. (1 ≤ p.len) × (p.len ≤ length text.now)) }
    ensures name { IfSome result (λ p. p.kind ≡ Named → (2 ≤ p.len) × IsTrue (is_name (named p.len text.now))) }
{
    match text.split_first() {
        None => None,
        Some((c, rest)) => {
            if *c == '&' {
                reference_piece(text, rest)
            } else if is_space(*c) {
                Some(Piece {
                    kind: Kind::Char(' '),
                    len: 1,
                })
            } else if *c == '<' {
                Some(Piece {
                    kind: Kind::LessThan,
                    len: 1,
                })
            } else {
                Some(Piece {
                    kind: Kind::Char(*c),
                    len: 1,
                })
            }
        }
    }
}
