//! Classes of values.

ghost use Rattle.std.specs.Prelude.{◌≡◌, IfOk, IsTrue};
ghost use Rattle.attribute_types.specs.Classes as spec;
ghost use Rattle.attribute_types.specs.Proper.{IsProper, first_of, sample_of};
ghost use Rattle.attribute_types.specs.Spacing.{collapsed};
ghost use Rattle.attribute_types.specs.Types as types;

use crate::spacing::{
    are_names_collapsed, are_nmtokens_collapsed, is_collapsed_to, is_name_collapsed,
    is_nmtoken_collapsed,
};
use crate::types::copy_texts;
use crate::{AttType, Preset};
use jats_chars::{Name, NoMemory, Text, TextList};
use std::alloc::Global;

/// A set of values.
#[derive(Debug, Drop)]
pub enum ValueClass {
    /// Every value.
    Any,
    /// The values whose collapse is a Name.
    Name,
    /// The values whose collapse is Names.
    Names,
    /// The values whose collapse is an Nmtoken.
    Nmtoken,
    /// The values whose collapse is Nmtokens.
    Nmtokens,
    /// The values whose collapse is one of these.
    Tokens(TextList),
    /// This value alone.
    Fixed(Text),
    /// The values whose collapse is this text.
    FixedToken(Text),
}

impl ValueClass {
    /// A class with the same variant and the same tokens or text.
    pub fn copy(&self, alloc: Global) -> Result<ValueClass, NoMemory>
        ensures { IfOk result (λ class. class ≡ self.now) }
    {
        Ok(match self {
            ValueClass::Any => ValueClass::Any,
            ValueClass::Name => ValueClass::Name,
            ValueClass::Names => ValueClass::Names,
            ValueClass::Nmtoken => ValueClass::Nmtoken,
            ValueClass::Nmtokens => ValueClass::Nmtokens,
            ValueClass::Tokens(tokens) => ValueClass::Tokens(copy_texts(alloc, tokens.as_slice())?),
            ValueClass::Fixed(text) => ValueClass::Fixed(text.copy(alloc)?),
            ValueClass::FixedToken(text) => ValueClass::FixedToken(text.copy(alloc)?),
        })
    }
}

fn is_token(tokens: &[Text], value: &[char]) -> bool
    ensures { result ≡ spec.among tokens.now (collapsed value.now) }
{
    tokens
        .iter()
        .any(|token| is_collapsed_to(value, token.as_slice()))
}

/// Whether the value is in the class (XML 1.0, 3.3.1). Takes no memory.
pub fn in_class(class: &ValueClass, value: &Text) -> bool
    ensures { result ≡ spec.in_class class.now value.now }
{
    let value = value.as_slice();
    match class {
        ValueClass::Any => true,
        ValueClass::Name => is_name_collapsed(value),
        ValueClass::Names => are_names_collapsed(value),
        ValueClass::Nmtoken => is_nmtoken_collapsed(value),
        ValueClass::Nmtokens => are_nmtokens_collapsed(value),
        ValueClass::Tokens(tokens) => is_token(tokens.as_slice(), value),
        ValueClass::Fixed(text) => value == text.as_slice(),
        ValueClass::FixedToken(text) => is_collapsed_to(value, text.as_slice()),
    }
}

fn tokens_of_names(alloc: Global, names: &[Name]) -> Result<TextList, NoMemory>
    ensures { IfOk result (λ tokens. tokens ≡ names.now) }
{
    let mut tokens = TextList::new(alloc);
    for name in names {
        tokens.push(name.text().copy(alloc)?)?;
    }
    Ok(tokens)
}

fn class_of_type(alloc: Global, kind: &AttType) -> Result<ValueClass, NoMemory>
    ensures { IfOk result (λ class. class ≡ types.class_of_type kind.now) }
{
    Ok(match kind {
        AttType::Cdata => ValueClass::Any,
        AttType::Id | AttType::Idref | AttType::Entity => ValueClass::Name,
        AttType::Idrefs | AttType::Entities => ValueClass::Names,
        AttType::Nmtoken => ValueClass::Nmtoken,
        AttType::Nmtokens => ValueClass::Nmtokens,
        AttType::Notation(names) => ValueClass::Tokens(tokens_of_names(alloc, names.as_slice())?),
        AttType::Enumeration(tokens) => ValueClass::Tokens(copy_texts(alloc, tokens.as_slice())?),
    })
}

fn class_of_fixed(alloc: Global, kind: &AttType, text: &Text) -> Result<ValueClass, NoMemory>
    ensures { IfOk result (λ class. class ≡ types.class_of_fixed kind.now text.now) }
{
    let text = text.copy(alloc)?;
    Ok(match kind {
        AttType::Cdata => ValueClass::Fixed(text),
        _ => ValueClass::FixedToken(text),
    })
}

/// The class of the values that an attribute of this type and preset may have (XML 1.0, 3.3.1 and 3.3.2).
pub fn class_of(alloc: Global, kind: &AttType, preset: &Preset) -> Result<ValueClass, NoMemory>
    ensures { IfOk result (λ class. class ≡ types.class_of kind.now preset.now) }
{
    match preset {
        Preset::Fixed(text) => class_of_fixed(alloc, kind, text),
        Preset::Required | Preset::Implied | Preset::Value(_) => class_of_type(alloc, kind),
    }
}

fn sample_value(alloc: Global, class: &ValueClass) -> Result<Text, NoMemory>
    ensures { IfOk result (λ t. t ≡ sample_of class.now) }
{
    match class {
        ValueClass::Any => Ok(Text::new(alloc)),
        ValueClass::Name | ValueClass::Names | ValueClass::Nmtoken | ValueClass::Nmtokens => {
            Text::from_slice(alloc, &['a'])
        }
        ValueClass::Tokens(tokens) => first_token(alloc, tokens.as_slice()),
        ValueClass::Fixed(text) | ValueClass::FixedToken(text) => text.copy(alloc),
    }
}

/// A value of the class: the empty text for `Any`, `a` for names and name tokens, the first of the tokens, or the text.
pub fn sample(alloc: Global, class: &ValueClass) -> Result<Text, NoMemory>
    requires { IsProper class.now }
    ensures value { IfOk result (λ t. t ≡ sample_of class.now) }
    ensures inside { IfOk result (λ t. IsTrue (spec.in_class class.now t)) }
{
    sample_value(alloc, class)
}

/// The first of the tokens, or the empty text where there is none.
pub fn first_token(alloc: Global, tokens: &[Text]) -> Result<Text, NoMemory>
    ensures { IfOk result (λ t. t ≡ first_of tokens.now) }
{
    match tokens.first() {
        None => Ok(Text::new(alloc)),
        Some(token) => token.copy(alloc),
    }
}
