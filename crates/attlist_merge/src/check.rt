//! The constraints of one attribute.

ghost use Rattle.std.specs.Prelude.{◌≡◌, [], IfOk};
ghost use Rattle.std.specs.Option.{option_copied};
ghost use Rattle.attlist_merge.specs.Lists as spec;

use attribute_types::{AttType, Preset, class_of, in_class};
use indexmap::IndexSet;
use jats_chars::{Name, NoMemory, Text};
use std::alloc::Global;

fn doubled_token(alloc: Global, tokens: &[Text]) -> Result<Option<Text>, NoMemory>
    ensures { IfOk result (λ o. o ≡ spec.again [] tokens.now) }
{
    let mut seen = IndexSet::new(alloc);
    for token in tokens {
        if seen.contains(&token) {
            return Ok(Some(token.copy(alloc)?));
        }
        seen.insert(token)?;
    }
    Ok(None)
}

fn doubled_name(alloc: Global, names: &[Name]) -> Result<Option<Text>, NoMemory>
    ensures { IfOk result (λ o. o ≡ spec.again [] names.now) }
{
    let mut seen = IndexSet::new(alloc);
    for name in names {
        if seen.contains(&name) {
            return Ok(Some(name.text().copy(alloc)?));
        }
        seen.insert(name)?;
    }
    Ok(None)
}

/// The first token of the type that stands twice.
pub fn doubled(alloc: Global, kind: &AttType) -> Result<Option<Text>, NoMemory>
    ensures { IfOk result (λ o. o ≡ spec.doubled kind.now) }
{
    match kind {
        AttType::Notation(names) => doubled_name(alloc, names.as_slice()),
        AttType::Enumeration(tokens) => doubled_token(alloc, tokens.as_slice()),
        _ => Ok(None),
    }
}

fn value_in(preset: &Preset) -> Option<&Text>
    ensures { option_copied result ≡ spec.value_in preset.now }
{
    match preset {
        Preset::Required | Preset::Implied => None,
        Preset::Value(text) | Preset::Fixed(text) => Some(text),
    }
}

pub fn is_id(kind: &AttType) -> bool
    ensures { result ≡ spec.is_id kind.now }
{
    match kind {
        AttType::Id => true,
        _ => false,
    }
}

pub fn is_notation(kind: &AttType) -> bool
    ensures { result ≡ spec.is_notation kind.now }
{
    match kind {
        AttType::Notation(_) => true,
        _ => false,
    }
}

/// Whether an ID has a value.
pub fn has_id_value(kind: &AttType, preset: &Preset) -> bool
    ensures { result ≡ spec.has_id_value kind.now preset.now }
{
    is_id(kind) && value_in(preset).is_some()
}

/// Whether the value is outside the class of the type.
pub fn is_outside(alloc: Global, kind: &AttType, preset: &Preset) -> Result<bool, NoMemory>
    ensures { IfOk result (λ b. b ≡ spec.is_outside kind.now preset.now) }
{
    match value_in(preset) {
        None => Ok(false),
        Some(text) => {
            let class = class_of(alloc, kind, &Preset::Implied)?;
            Ok(!in_class(&class, text))
        }
    }
}

/// Whether the attribute has to be specified.
pub fn is_required(preset: &Preset) -> bool
    ensures { result ≡ spec.is_required preset.now }
{
    match preset {
        Preset::Required => true,
        _ => false,
    }
}
