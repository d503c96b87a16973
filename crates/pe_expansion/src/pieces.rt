//! The pieces of a text that is expanded.

ghost use Rattle.std.specs.Prelude.{◌≡◌, ◌≢◌, ◌==◌, ◌+◌, ◌<◌, ◌≤◌, IfSome, IsTrue, position, length, option_map};
ghost use Rattle.std.specs.List.{prefix_len};
ghost use Rattle.jats_chars.specs.Classes as chars;
ghost use Rattle.jats_chars.specs.Names.{is_name as is_name_list};
ghost use Rattle.dtd_scanner.specs.Items as items;
ghost use Rattle.dtd_scanner.specs.References.{char_reference, named};
ghost use Rattle.pe_expansion.specs.Pieces as spec;
ghost use Rattle.pe_expansion.specs.declared.pieces.Kind.TheVariants.{Included};

use dtd_scanner::{char_reference, is_quote, reference_len};
use jats_chars::is_name_start;

/// How a text is expanded.
#[derive(Clone, Copy, Debug, Drop, PartialEq, Eq)]
pub enum Manner {
    /// As an entity value, in which quotes are plain characters.
    Literal,
    /// As the body of a declaration, in which quoted parts are kept.
    Body,
}

/// What a piece is.
#[derive(Clone, Copy, Debug, Drop, PartialEq, Eq)]
pub enum Kind {
    /// A character that stands for itself, or a reference to one.
    Char(char),
    /// A part that is copied.
    Kept,
    /// A reference to a parameter entity.
    Included,
}

/// A piece and its length.
#[derive(Clone, Copy, Debug, Drop, PartialEq, Eq)]
pub struct Piece {
    pub kind: Kind,
    pub len: usize,
}

fn reference(kind: Kind, text: &[char]) -> Option<Piece>
    requires { 1 ≤ length text.now }
    ensures value { result ≡ spec.reference kind text.now }
    ensures within { IfSome result (λ p. (2 ≤ p.len) × (p.len ≤ length text.now)) }
    ensures name { IfSome result (λ p. IsTrue (is_name_list (named p.len text.now))) }
{
    match reference_len(text) {
        None => None,
        Some(len) => Some(Piece { kind, len }),
    }
}

/// A reference to a character, whose `&#` stands there.
fn char_piece(text: &[char]) -> Option<Piece>
    requires { 2 ≤ length text.now }
    ensures value { result ≡ option_map spec.char_piece (char_reference text.now) }
    ensures within { IfSome result (λ p. (1 ≤ p.len) × (p.len ≤ length text.now)) }
    ensures kind { IfSome result (λ p. p.kind ≢ Included) }
{
    match char_reference(text) {
        None => None,
        Some((c, len)) => Some(Piece {
            kind: Kind::Char(c),
            len,
        }),
    }
}

/// The first piece of an entity value.
#[tactic(auto, unfolding(crate::specs::Pieces::literal_piece))]
fn literal_piece(text: &[char]) -> Option<Piece>
    ensures value { result ≡ spec.literal_piece text.now }
    ensures within { IfSome result (λ p. (1 ≤ p.len) × (p.len ≤ length text.now)) }
    ensures name { IfSome result (λ p. p.kind ≡ Included → (2 ≤ p.len) × IsTrue (is_name_list (named p.len text.now))) }
{
    match text.split_first() {
        None => None,
        Some((c, rest)) => {
            if *c == '%' {
                reference(Kind::Included, text)
            } else if *c == '&' {
                if rest.starts_with(&['#']) {
                    char_piece(text)
                } else {
                    reference(Kind::Kept, text)
                }
            } else {
                Some(Piece {
                    kind: Kind::Char(*c),
                    len: 1,
                })
            }
        }
    }
}

fn first_is_name_start(text: &[char]) -> bool
    ensures { result ≡ items.first_is chars.is_name_start text.now }
{
    match text.split_first() {
        None => false,
        Some((c, _)) => is_name_start(*c),
    }
}

fn first_quote(quote: char, text: &[char]) -> Option<usize>
    ensures value { result ≡ position (λ c. c == quote) text.now }
    ensures within { IfSome result (λ k. k < length text.now) }
{
    text.iter().position(|c| *c == quote)
}

/// The length of a quoted part whose quote stands before the text, or of all of it where nothing closes the quote.
fn quoted_len(quote: char, rest: &[char]) -> usize
    requires { length rest.now < usize.MAX }
    ensures value { result ≡ spec.quoted_len quote rest.now }
    ensures within { (1 ≤ result) × (result ≤ length rest.now + 1) }
{
    match first_quote(quote, rest) {
        None => rest.len() + 1,
        Some(at) => at + 2,
    }
}

/// The first piece of a body.
#[tactic(auto, unfolding(crate::specs::Pieces::body_piece))]
fn body_piece(text: &[char]) -> Option<Piece>
    ensures value { result ≡ spec.body_piece text.now }
    ensures within { IfSome result (λ p. (1 ≤ p.len) × (p.len ≤ length text.now)) }
    ensures name { IfSome result (λ p. p.kind ≡ Included → (2 ≤ p.len) × IsTrue (is_name_list (named p.len text.now))) }
{
    match text.split_first() {
        None => None,
        Some((c, rest)) => {
            if *c == '%' && first_is_name_start(rest) {
                reference(Kind::Included, text)
            } else if is_quote(*c) {
                Some(Piece {
                    kind: Kind::Kept,
                    len: quoted_len(*c, rest),
                })
            } else {
                Some(Piece {
                    kind: Kind::Char(*c),
                    len: 1,
                })
            }
        }
    }
}

/// The first piece of a text, or None where a `%` or `&` begins no reference.
pub(crate) fn first_piece(manner: Manner, text: &[char]) -> Option<Piece>
    ensures value { result ≡ spec.first_piece manner text.now }
    ensures within { IfSome result (λ p. (1 ≤ p.len) × (p.len ≤ length text.now)) }
    ensures name { IfSome result (λ p. p.kind ≡ Included → (2 ≤ p.len) × IsTrue (is_name_list (named p.len text.now))) }
{
    match manner {
        Manner::Literal => literal_piece(text),
        Manner::Body => body_piece(text),
    }
}

/// Whether a character stands for itself, and nesting is the same behind it.
fn is_plain(manner: Manner, c: char) -> bool
    ensures { result ≡ spec.is_plain manner c }
{
    match manner {
        Manner::Literal => c != '%' && c != '&',
        Manner::Body => !is_quote(c) && c != '%' && c != '<' && c != '>',
    }
}

/// How many such characters the text begins with.
pub(crate) fn plain_len(manner: Manner, text: &[char]) -> usize
    ensures value { result ≡ prefix_len (spec.is_plain manner) text.now }
    ensures within { result ≤ length text.now }
{
    text.iter().take_while(|c| is_plain(manner, **c)).count()
}
