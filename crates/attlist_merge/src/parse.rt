//! The body of an attribute-list declaration.

ghost use Rattle.std.specs.Prelude.{◌≡◌, [], ◌<◌, ◌≤◌, length, option_map, option_and_then, IfOk, IfSome};
ghost use Rattle.text_fronts.specs.Fronts as front;
ghost use Rattle.attribute_types.specs.declared.types.AttType.TheVariants as variant;
ghost use Rattle.attlist_merge.specs.Reading as spec;

use crate::raw::{RawAtt, RawAttList, RawAtts, RawPreset};
use crate::value::is_value;
use attribute_types::AttType;
use jats_chars::{Name, NameList, NoMemory, Text, TextList, is_nmtoken_slice};
use std::alloc::Global;
use text_fronts::{is_blank, read_literal, read_space, skipped, spaced_name, word};
use thiserror::Error;

/// Why no declaration is given.
#[derive(Debug, Drop, Error)]
pub enum ListFault {
    /// The body is not of the form of a declaration.
    #[error("no attribute list")]
    Malformed,
    /// Memory ran out.
    #[error("out of memory")]
    NoMemory,
}

/// Nmtokens parted by `|` in parentheses, and the rest.
#[tactic(auto, unfolding(crate::specs::Reading::read_group))]
fn read_group(alloc: Global, text: &[char]) -> Result<Option<(TextList, &[char])>, NoMemory>
    ensures value { IfOk result (λ o. option_map (λ x. (x.0, x.1.now)) o ≡ spec.read_group text.now) }
    ensures within { IfOk result (λ o. IfSome o (λ x. length x.1.now ≤ length text.now)) }
{
    match text.split_first() {
        Some((c, rest)) => {
            if *c == '(' {
                read_tokens(alloc, rest)
            } else {
                Ok(None)
            }
        }
        None => Ok(None),
    }
}

/// Nmtokens parted by `|` up to `)`, and the rest.
#[tactic(auto, using(crate::proofs::Tokens::tokens))]
fn read_tokens(alloc: Global, text: &[char]) -> Result<Option<(TextList, &[char])>, NoMemory>
    ensures value { IfOk result (λ o. option_map (λ x. (x.0, x.1.now)) o ≡ spec.group (length text.now) [] text.now) }
    ensures within { IfOk result (λ o. IfSome o (λ x. length x.1.now ≤ length text.now)) }
{
    let mut tokens = TextList::new(alloc);
    let mut rest = text;
    loop {
        let (token, after) = word(skipped(rest));
        if !is_nmtoken_slice(token) {
            return Ok(None);
        }
        tokens.push(Text::from_slice(alloc, token)?)?;
        match skipped(after).split_first() {
            None => return Ok(None),
            Some((c, after)) => {
                if *c == ')' {
                    return Ok(Some((tokens, after)));
                }
                if *c != '|' {
                    return Ok(None);
                }
                rest = after;
            }
        }
    }
}

/// Names parted by `|` in parentheses, and the rest.
#[tactic(auto, unfolding(crate::specs::Reading::read_group))]
fn read_name_group(alloc: Global, text: &[char]) -> Result<Option<(NameList, &[char])>, NoMemory>
    ensures value { IfOk result (λ o. option_map (λ x. (variant.Notation x.0, x.1.now)) o ≡ option_and_then spec.as_notation (spec.read_group text.now)) }
    ensures within { IfOk result (λ o. IfSome o (λ x. length x.1.now ≤ length text.now)) }
{
    match text.split_first() {
        Some((c, rest)) => {
            if *c == '(' {
                read_names(alloc, rest)
            } else {
                Ok(None)
            }
        }
        None => Ok(None),
    }
}

/// Names parted by `|` up to `)`, and the rest. None of them is kept as a token too, since there may be millions.
fn read_names(alloc: Global, text: &[char]) -> Result<Option<(NameList, &[char])>, NoMemory>
    ensures value { IfOk result (λ o. option_map (λ x. (variant.Notation x.0, x.1.now)) o ≡ option_and_then spec.as_notation (spec.group (length text.now) [] text.now)) }
    ensures within { IfOk result (λ o. IfSome o (λ x. length x.1.now ≤ length text.now)) }
{
    let mut names = NameList::new(alloc);
    let mut rest = text;
    loop {
        let (token, after) = word(skipped(rest));
        let Some(name) = Name::from_slice(alloc, token)? else {
            return Ok(None);
        };
        names.push(name)?;
        match skipped(after).split_first() {
            None => return Ok(None),
            Some((c, after)) => {
                if *c == ')' {
                    return Ok(Some((names, after)));
                }
                if *c != '|' {
                    return Ok(None);
                }
                rest = after;
            }
        }
    }
}

/// The type that a keyword names alone.
#[tactic(auto, unfolding(crate::specs::Reading::keyword))]
fn keyword(name: &[char]) -> Option<AttType>
    ensures { result ≡ spec.keyword name.now }
{
    if name == ['C', 'D', 'A', 'T', 'A'].as_slice() {
        Some(AttType::Cdata)
    } else if name == ['I', 'D'].as_slice() {
        Some(AttType::Id)
    } else if name == ['I', 'D', 'R', 'E', 'F'].as_slice() {
        Some(AttType::Idref)
    } else if name == ['I', 'D', 'R', 'E', 'F', 'S'].as_slice() {
        Some(AttType::Idrefs)
    } else if name == ['E', 'N', 'T', 'I', 'T', 'Y'].as_slice() {
        Some(AttType::Entity)
    } else if name == ['E', 'N', 'T', 'I', 'T', 'I', 'E', 'S'].as_slice() {
        Some(AttType::Entities)
    } else if name == ['N', 'M', 'T', 'O', 'K', 'E', 'N'].as_slice() {
        Some(AttType::Nmtoken)
    } else if name == ['N', 'M', 'T', 'O', 'K', 'E', 'N', 'S'].as_slice() {
        Some(AttType::Nmtokens)
    } else {
        None
    }
}

/// The type of notations behind its keyword, and the rest.
#[tactic(auto, unfolding(crate::specs::Reading::read_notation))]
fn read_notation(alloc: Global, text: &[char]) -> Result<Option<(AttType, &[char])>, NoMemory>
    ensures value { IfOk result (λ o. option_map (λ x. (x.0, x.1.now)) o ≡ spec.read_notation text.now) }
    ensures within { IfOk result (λ o. IfSome o (λ x. length x.1.now ≤ length text.now)) }
{
    match read_space(text) {
        None => Ok(None),
        Some(text) => match read_name_group(alloc, text)? {
            None => Ok(None),
            Some((names, rest)) => Ok(Some((AttType::Notation(names), rest))),
        },
    }
}

fn read_named_type(alloc: Global, text: &[char]) -> Result<Option<(AttType, &[char])>, NoMemory>
    ensures value { IfOk result (λ o. option_map (λ x. (x.0, x.1.now)) o ≡ spec.named_type (spec.keyword (front.word text.now)) (front.word text.now) (front.after_word text.now)) }
    ensures within { IfOk result (λ o. IfSome o (λ x. length x.1.now ≤ length text.now)) }
{
    let (name, rest) = word(text);
    match keyword(name) {
        Some(kind) => Ok(Some((kind, rest))),
        None => {
            if name == ['N', 'O', 'T', 'A', 'T', 'I', 'O', 'N'].as_slice() {
                read_notation(alloc, rest)
            } else {
                Ok(None)
            }
        }
    }
}

/// A type, and the rest.
#[tactic(auto, unfolding(crate::specs::Reading::read_type))]
fn read_type(alloc: Global, text: &[char]) -> Result<Option<(AttType, &[char])>, NoMemory>
    ensures value { IfOk result (λ o. option_map (λ x. (x.0, x.1.now)) o ≡ spec.read_type text.now) }
    ensures within { IfOk result (λ o. IfSome o (λ x. length x.1.now ≤ length text.now)) }
{
    if text.starts_with(&['(']) {
        match read_group(alloc, text)? {
            None => Ok(None),
            Some((tokens, rest)) => Ok(Some((AttType::Enumeration(tokens), rest))),
        }
    } else {
        read_named_type(alloc, text)
    }
}

/// What stands between quotes, where each `&` begins a reference, and the rest behind them.
#[tactic(auto, unfolding(crate::specs::Reading::read_quoted))]
fn read_quoted(text: &[char]) -> Option<(&[char], &[char])>
    ensures value { option_map (λ x. (x.0.now, x.1.now)) result ≡ spec.read_quoted text.now }
    ensures within { IfSome result (λ x. length x.1.now ≤ length text.now) }
{
    match read_literal(text) {
        None => None,
        Some((value, rest)) => {
            if is_value(value) {
                Some((value, rest))
            } else {
                None
            }
        }
    }
}

/// A fixed value behind its keyword, and the rest.
fn read_fixed(alloc: Global, text: &[char]) -> Result<Option<(RawPreset, &[char])>, NoMemory>
    ensures value { IfOk result (λ o. option_map (λ x. (x.0, x.1.now)) o ≡ spec.read_fixed text.now) }
    ensures within { IfOk result (λ o. IfSome o (λ x. length x.1.now ≤ length text.now)) }
{
    match read_space(text) {
        None => Ok(None),
        Some(text) => match read_quoted(text) {
            None => Ok(None),
            Some((value, rest)) => Ok(Some((
                RawPreset::Fixed(Text::from_slice(alloc, value)?),
                rest,
            ))),
        },
    }
}

/// A preset behind its `#`, and the rest.
fn read_named_preset(alloc: Global, text: &[char]) -> Result<Option<(RawPreset, &[char])>, NoMemory>
    ensures value { IfOk result (λ o. option_map (λ x. (x.0, x.1.now)) o ≡ spec.named_preset (front.word text.now) (front.after_word text.now)) }
    ensures within { IfOk result (λ o. IfSome o (λ x. length x.1.now ≤ length text.now)) }
{
    let (name, rest) = word(text);
    if name == ['R', 'E', 'Q', 'U', 'I', 'R', 'E', 'D'].as_slice() {
        Ok(Some((RawPreset::Required, rest)))
    } else if name == ['I', 'M', 'P', 'L', 'I', 'E', 'D'].as_slice() {
        Ok(Some((RawPreset::Implied, rest)))
    } else if name == ['F', 'I', 'X', 'E', 'D'].as_slice() {
        read_fixed(alloc, rest)
    } else {
        Ok(None)
    }
}

/// A preset, and the rest.
#[tactic(auto, unfolding(crate::specs::Reading::read_preset))]
fn read_preset(alloc: Global, text: &[char]) -> Result<Option<(RawPreset, &[char])>, NoMemory>
    ensures value { IfOk result (λ o. option_map (λ x. (x.0, x.1.now)) o ≡ spec.read_preset text.now) }
    ensures within { IfOk result (λ o. IfSome o (λ x. length x.1.now ≤ length text.now)) }
{
    match text.split_first() {
        None => Ok(None),
        Some((c, rest)) => {
            if *c == '#' {
                return read_named_preset(alloc, rest);
            }
            match read_quoted(text) {
                None => Ok(None),
                Some((value, rest)) => Ok(Some((
                    RawPreset::Value(Text::from_slice(alloc, value)?),
                    rest,
                ))),
            }
        }
    }
}

/// S and a type, and the rest.
fn read_spaced_type(alloc: Global, text: &[char]) -> Result<Option<(AttType, &[char])>, NoMemory>
    ensures value { IfOk result (λ o. option_map (λ x. (x.0, x.1.now)) o ≡ spec.spaced_type text.now) }
    ensures within { IfOk result (λ o. IfSome o (λ x. length x.1.now ≤ length text.now)) }
{
    match read_space(text) {
        None => Ok(None),
        Some(text) => read_type(alloc, text),
    }
}

/// S and a preset, and the rest.
fn read_spaced_preset(
    alloc: Global,
    text: &[char],
) -> Result<Option<(RawPreset, &[char])>, NoMemory>
    ensures value { IfOk result (λ o. option_map (λ x. (x.0, x.1.now)) o ≡ spec.spaced_preset text.now) }
    ensures within { IfOk result (λ o. IfSome o (λ x. length x.1.now ≤ length text.now)) }
{
    match read_space(text) {
        None => Ok(None),
        Some(text) => read_preset(alloc, text),
    }
}

/// A definition, and the rest.
#[tactic(auto, unfolding(crate::specs::Reading::read_definition))]
fn read_definition(alloc: Global, text: &[char]) -> Result<Option<(RawAtt, &[char])>, NoMemory>
    ensures value { IfOk result (λ o. option_map (λ x. (x.0, x.1.now)) o ≡ spec.read_definition text.now) }
    ensures within { IfOk result (λ o. IfSome o (λ x. length x.1.now < length text.now)) }
{
    match spaced_name(alloc, text)? {
        None => Ok(None),
        Some((name, text)) => match read_spaced_type(alloc, text)? {
            None => Ok(None),
            Some((kind, text)) => match read_spaced_preset(alloc, text)? {
                None => Ok(None),
                Some((preset, rest)) => Ok(Some((RawAtt { name, kind, preset }, rest))),
            },
        },
    }
}

/// All definitions of a text.
#[tactic(auto, using(crate::proofs::Tokens::tokens))]
fn read_definitions(alloc: Global, text: &[char]) -> Result<Option<RawAtts>, NoMemory>
    ensures { IfOk result (λ o. o ≡ spec.definitions (length text.now) [] text.now) }
{
    let mut atts = RawAtts::new(alloc);
    let mut rest = text;
    while !is_blank(rest) {
        match read_definition(alloc, rest)? {
            None => return Ok(None),
            Some((att, after)) => {
                atts.push(att)?;
                rest = after;
            }
        }
    }
    Ok(Some(atts))
}

#[tactic(auto, unfolding(crate::specs::Reading::raw_list_of))]
fn read_body(alloc: Global, body: &[char]) -> Result<Option<RawAttList>, NoMemory>
    ensures { IfOk result (λ o. o ≡ spec.raw_list_of body.now) }
{
    match spaced_name(alloc, body)? {
        None => Ok(None),
        Some((element, rest)) => match read_definitions(alloc, rest)? {
            None => Ok(None),
            Some(atts) => Ok(Some(RawAttList { element, atts })),
        },
    }
}

/// The declaration that a body writes, which is what stands in a declaration behind `<!ATTLIST` and before `>`, without
/// references to parameter entities (XML 1.0, 3.3). Values are kept unread. It takes time linear in the body.
///
/// - Malformed exactly where the body is not of the form of a declaration.
pub fn parse_attlist(alloc: Global, body: &Text) -> Result<RawAttList, ListFault>
    ensures { spec.Parses (spec.raw_list_of body.now) result }
{
    match read_body(alloc, body.as_slice()) {
        Ok(Some(raw)) => Ok(raw),
        Ok(None) => Err(ListFault::Malformed),
        Err(_) => Err(ListFault::NoMemory),
    }
}
