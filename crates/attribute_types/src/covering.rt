//! Whether one class lies within another, and a value that shows that it does not.

ghost use Rattle.std.specs.Prelude.{◌≡◌, ◌↔◌, [], ◌∷◌, not, find, IfOk, IsTrue, Some, bytes_eq, is_none};
ghost use Rattle.std.specs.List.{list_all};
ghost use Rattle.jats_chars.specs.Names.{is_name as name};
ghost use Rattle.attribute_types.specs.Classes.{among, in_class as inside};
ghost use Rattle.attribute_types.specs.Covers.{Covers};
ghost use Rattle.attribute_types.specs.Proper.{IsProper, first_of};
ghost use Rattle.attribute_types.specs.Table as table;
ghost use Rattle.std.specs.Option.{option_copied};
ghost use Rattle.attribute_types.specs.declared.classes.ValueClass.TheVariants.{Tokens, Fixed, FixedToken};

use crate::classes::first_token;
use crate::{ValueClass, in_class};
use jats_chars::{NoMemory, Text, is_name};
use std::alloc::Global;

/// Whether the text is one of the tokens.
fn is_among(tokens: &[Text], text: &Text) -> bool
    ensures { result ≡ among tokens.now text.now }
{
    tokens.iter().any(|token| text == token)
}

fn are_all_names(tokens: &[Text]) -> bool
    ensures { result ≡ list_all name tokens.now }
{
    tokens.iter().all(|token| is_name(token))
}

fn are_all_among(tokens: &[Text], others: &[Text]) -> bool
    ensures { result ≡ list_all (among others.now) tokens.now }
{
    tokens.iter().all(|token| is_among(others, token))
}

fn are_all(tokens: &[Text], text: &Text) -> bool
    ensures { result ≡ list_all (λ token. bytes_eq token text.now) tokens.now }
{
    tokens.iter().all(|token| token == text)
}

fn is_covered_list(tokens: &[Text], second: &ValueClass) -> bool
    ensures { result ≡ is_none (table.uncovered (Tokens tokens.now) second.now) }
{
    match second {
        ValueClass::Any | ValueClass::Nmtoken | ValueClass::Nmtokens => true,
        ValueClass::Name => are_all_names(tokens),
        ValueClass::Names => are_all_names(tokens),
        ValueClass::Tokens(others) => are_all_among(tokens, others.as_slice()),
        ValueClass::Fixed(_) => false,
        ValueClass::FixedToken(text) => are_all(tokens, text),
    }
}

fn is_covered_text(text: &Text, second: &ValueClass) -> bool
    ensures { result ≡ is_none (table.uncovered (Fixed text.now) second.now) }
{
    in_class(second, text)
}

fn is_covered_token(text: &Text, second: &ValueClass) -> bool
    ensures { result ≡ is_none (table.uncovered (FixedToken text.now) second.now) }
{
    match second {
        ValueClass::Fixed(_) => false,
        _ => in_class(second, text),
    }
}

fn is_covered(first: &ValueClass, second: &ValueClass) -> bool
    ensures { result ≡ is_none (table.uncovered first.now second.now) }
{
    match first {
        ValueClass::Any => match second {
            ValueClass::Any => true,
            _ => false,
        },
        ValueClass::Name => match second {
            ValueClass::Tokens(_) | ValueClass::Fixed(_) | ValueClass::FixedToken(_) => false,
            _ => true,
        },
        ValueClass::Names => match second {
            ValueClass::Any | ValueClass::Names | ValueClass::Nmtokens => true,
            _ => false,
        },
        ValueClass::Nmtoken => match second {
            ValueClass::Any | ValueClass::Nmtoken | ValueClass::Nmtokens => true,
            _ => false,
        },
        ValueClass::Nmtokens => match second {
            ValueClass::Any | ValueClass::Nmtokens => true,
            _ => false,
        },
        ValueClass::Tokens(tokens) => is_covered_list(tokens.as_slice(), second),
        ValueClass::Fixed(text) => is_covered_text(text, second),
        ValueClass::FixedToken(text) => is_covered_token(text, second),
    }
}

/// Whether every value of the first class is in the second. Takes no memory.
pub fn covers(first: &ValueClass, second: &ValueClass) -> bool
    requires first { IsProper first.now }
    requires second { IsProper second.now }
    ensures { IsTrue result ↔ Covers first.now second.now }
{
    is_covered(first, second)
}

fn shown(alloc: Global, text: &[char]) -> Result<Option<Text>, NoMemory>
    ensures { IfOk result (λ o. o ≡ Some text.now) }
{
    Ok(Some(Text::from_slice(alloc, text)?))
}

/// The first of `a`, `aa`, `aaa` and so on that is none of the tokens.
fn free_word(alloc: Global, tokens: &[Text]) -> Result<Text, NoMemory>
    ensures { IfOk result (λ t. t ≡ table.free_of tokens.now) }
{
    let mut word = Text::from_slice(alloc, &['a'])?;
    for _ in 0..tokens.len() {
        if !is_among(tokens, &word) {
            return Ok(word);
        }
        word.push('a')?;
    }
    Ok(word)
}

fn free(alloc: Global, tokens: &[Text]) -> Result<Option<Text>, NoMemory>
    ensures { IfOk result (λ o. o ≡ Some (table.free_of tokens.now)) }
{
    Ok(Some(free_word(alloc, tokens)?))
}

#[tactic(auto, unfolding(crate::specs::Table::free_from))]
fn free_but(alloc: Global, text: &Text) -> Result<Option<Text>, NoMemory>
    ensures { IfOk result (λ o. o ≡ Some (table.free_of (text.now ∷ []))) }
{
    if ['a'].as_slice() == text.as_slice() {
        shown(alloc, &['a', 'a'])
    } else {
        shown(alloc, &['a'])
    }
}

fn out(alloc: Global, text: &Text, second: &ValueClass) -> Result<Option<Text>, NoMemory>
    ensures { IfOk result (λ o. o ≡ table.out_of second.now text.now) }
{
    if in_class(second, text) {
        Ok(None)
    } else {
        shown(alloc, text.as_slice())
    }
}

fn copied(alloc: Global, found: Option<&Text>) -> Result<Option<Text>, NoMemory>
    ensures { IfOk result (λ o. o ≡ option_copied found.entry) }
{
    match found {
        None => Ok(None),
        Some(text) => Ok(Some(text.copy(alloc)?)),
    }
}

fn first_nameless(tokens: &[Text]) -> Option<&Text>
    ensures { option_copied result ≡ table.nameless tokens.now }
{
    tokens.iter().find(|token| !is_name(token))
}

fn first_lacking<'a>(tokens: &'a [Text], others: &[Text]) -> Option<&'a Text>
    ensures { option_copied result ≡ table.lacking tokens.now others.now }
{
    tokens.iter().find(|token| !is_among(others, token))
}

fn first_other<'a>(tokens: &'a [Text], text: &Text) -> Option<&'a Text>
    ensures { option_copied result ≡ table.other_than tokens.now text.now }
{
    tokens.iter().find(|token| *token != text)
}

/// The token, with a space before it where it is the text.
fn spaced(alloc: Global, token: &Text, text: &Text) -> Result<Option<Text>, NoMemory>
    ensures { IfOk result (λ o. o ≡ Some (table.spaced token.now text.now)) }
{
    if token == text {
        let mut value = Text::from_slice(alloc, &[' '])?;
        value.push_slice(token.as_slice())?;
        Ok(Some(value))
    } else {
        shown(alloc, token.as_slice())
    }
}

fn first_spaced(alloc: Global, tokens: &[Text], text: &Text) -> Result<Option<Text>, NoMemory>
    ensures { IfOk result (λ o. o ≡ Some (table.spaced (first_of tokens.now) text.now)) }
{
    let token = first_token(alloc, tokens)?;
    spaced(alloc, &token, text)
}

fn empty_or_x(alloc: Global, text: &Text) -> Result<Option<Text>, NoMemory>
    ensures { IfOk result (λ o. o ≡ Some (table.empty_or_x text.now)) }
{
    if text.len() == 0 {
        shown(alloc, &['x'])
    } else {
        shown(alloc, &[])
    }
}

macro_rules! table {
    ($first:expr, $second:expr; $( $row:pat => { $( $column:pat => $cell:expr ),* } )*) => {
        match $first {
            $( $row => match $second { $( $column => $cell ),* }, )*
        }
    };
}

/// The cell of the table for two classes.
fn cell(alloc: Global, first: &ValueClass, second: &ValueClass) -> Result<Option<Text>, NoMemory>
    ensures { IfOk result (λ o. o ≡ table.uncovered first.now second.now) }
{
    table! { first, second;
        ValueClass::Any => {
            ValueClass::Any => Ok(None),
            ValueClass::Name => shown(alloc, &[]),
            ValueClass::Names => shown(alloc, &[]),
            ValueClass::Nmtoken => shown(alloc, &[]),
            ValueClass::Nmtokens => shown(alloc, &[]),
            ValueClass::Tokens(_) => shown(alloc, &[]),
            ValueClass::Fixed(u) => empty_or_x(alloc, u),
            ValueClass::FixedToken(_) => shown(alloc, &[])
        }
        ValueClass::Name => {
            ValueClass::Any => Ok(None),
            ValueClass::Name => Ok(None),
            ValueClass::Names => Ok(None),
            ValueClass::Nmtoken => Ok(None),
            ValueClass::Nmtokens => Ok(None),
            ValueClass::Tokens(m) => free(alloc, m.as_slice()),
            ValueClass::Fixed(u) => free_but(alloc, u),
            ValueClass::FixedToken(u) => free_but(alloc, u)
        }
        ValueClass::Names => {
            ValueClass::Any => Ok(None),
            ValueClass::Name => shown(alloc, &['a', ' ', 'a']),
            ValueClass::Names => Ok(None),
            ValueClass::Nmtoken => shown(alloc, &['a', ' ', 'a']),
            ValueClass::Nmtokens => Ok(None),
            ValueClass::Tokens(m) => free(alloc, m.as_slice()),
            ValueClass::Fixed(u) => free_but(alloc, u),
            ValueClass::FixedToken(u) => free_but(alloc, u)
        }
        ValueClass::Nmtoken => {
            ValueClass::Any => Ok(None),
            ValueClass::Name => shown(alloc, &['1']),
            ValueClass::Names => shown(alloc, &['1']),
            ValueClass::Nmtoken => Ok(None),
            ValueClass::Nmtokens => Ok(None),
            ValueClass::Tokens(m) => free(alloc, m.as_slice()),
            ValueClass::Fixed(u) => free_but(alloc, u),
            ValueClass::FixedToken(u) => free_but(alloc, u)
        }
        ValueClass::Nmtokens => {
            ValueClass::Any => Ok(None),
            ValueClass::Name => shown(alloc, &['1']),
            ValueClass::Names => shown(alloc, &['1']),
            ValueClass::Nmtoken => shown(alloc, &['a', ' ', 'a']),
            ValueClass::Nmtokens => Ok(None),
            ValueClass::Tokens(m) => free(alloc, m.as_slice()),
            ValueClass::Fixed(u) => free_but(alloc, u),
            ValueClass::FixedToken(u) => free_but(alloc, u)
        }
        ValueClass::Tokens(l) => {
            ValueClass::Any => Ok(None),
            ValueClass::Name => copied(alloc, first_nameless(l.as_slice())),
            ValueClass::Names => copied(alloc, first_nameless(l.as_slice())),
            ValueClass::Nmtoken => Ok(None),
            ValueClass::Nmtokens => Ok(None),
            ValueClass::Tokens(m) => copied(alloc, first_lacking(l.as_slice(), m.as_slice())),
            ValueClass::Fixed(u) => first_spaced(alloc, l.as_slice(), u),
            ValueClass::FixedToken(u) => copied(alloc, first_other(l.as_slice(), u))
        }
        ValueClass::Fixed(t) => {
            ValueClass::Any => Ok(None),
            ValueClass::Name => out(alloc, t, second),
            ValueClass::Names => out(alloc, t, second),
            ValueClass::Nmtoken => out(alloc, t, second),
            ValueClass::Nmtokens => out(alloc, t, second),
            ValueClass::Tokens(_) => out(alloc, t, second),
            ValueClass::Fixed(_) => out(alloc, t, second),
            ValueClass::FixedToken(_) => out(alloc, t, second)
        }
        ValueClass::FixedToken(t) => {
            ValueClass::Any => Ok(None),
            ValueClass::Name => out(alloc, t, second),
            ValueClass::Names => out(alloc, t, second),
            ValueClass::Nmtoken => out(alloc, t, second),
            ValueClass::Nmtokens => out(alloc, t, second),
            ValueClass::Tokens(_) => out(alloc, t, second),
            ValueClass::Fixed(u) => spaced(alloc, t, u),
            ValueClass::FixedToken(_) => out(alloc, t, second)
        }
    }
}

/// A value of the first class that is not in the second, or None exactly where the second covers the first. The value
/// is that of a table with a cell for each two classes.
pub fn uncovered(
    alloc: Global,
    first: &ValueClass,
    second: &ValueClass,
) -> Result<Option<Text>, NoMemory>
    requires first { IsProper first.now }
    requires second { IsProper second.now }
    ensures value { IfOk result (λ o. o ≡ table.uncovered first.now second.now) }
    ensures told { IfOk result (λ o. table.Tells first.now second.now o) }
    ensures none { IfOk result (λ o. IsTrue (is_none o) ↔ Covers first.now second.now) }
{
    cell(alloc, first, second)
}
