//! Types and presets of attributes (XML 1.0, 3.3.1 and 3.3.2).

ghost use Rattle.std.specs.Prelude.{◌≡◌, ◌++◌, OnOk};
ghost use Rattle.content_models.specs.Spelling.{behind, joined};
ghost use Rattle.dtd_flattener.specs.Flat as spec;

use crate::texts::put_value;
use attribute_types::{AttType, Preset};
use jats_chars::{Name, NoMemory, Text};

/// Appends names, each behind a bar.
fn put_more_names(out: &mut Text, names: &[Name]) -> Result<(), NoMemory>
    ensures { OnOk result (out.new ≡ out.old ++ behind 124 names.now) }
{
    for name in names {
        out.push('|')?;
        out.push_slice(name.text().as_slice())?;
    }
    Ok(())
}

fn put_names(out: &mut Text, names: &[Name]) -> Result<(), NoMemory>
    ensures { OnOk result (out.new ≡ out.old ++ joined 124 names.now) }
{
    match names.split_first() {
        None => Ok(()),
        Some((first, rest)) => {
            out.push_slice(first.text().as_slice())?;
            put_more_names(out, rest)
        }
    }
}

/// Appends tokens, each behind a bar.
fn put_more_tokens(out: &mut Text, tokens: &[Text]) -> Result<(), NoMemory>
    ensures { OnOk result (out.new ≡ out.old ++ behind 124 tokens.now) }
{
    for token in tokens {
        out.push('|')?;
        out.push_slice(token.as_slice())?;
    }
    Ok(())
}

fn put_tokens(out: &mut Text, tokens: &[Text]) -> Result<(), NoMemory>
    ensures { OnOk result (out.new ≡ out.old ++ joined 124 tokens.now) }
{
    match tokens.split_first() {
        None => Ok(()),
        Some((first, rest)) => {
            out.push_slice(first.as_slice())?;
            put_more_tokens(out, rest)
        }
    }
}

/// Appends names of notations in parentheses.
fn put_notations(out: &mut Text, names: &[Name]) -> Result<(), NoMemory>
    ensures { OnOk result (out.new ≡ out.old ++ spec.group_text names.now) }
{
    out.push('(')?;
    put_names(out, names)?;
    out.push(')')
}

/// Appends tokens in parentheses.
fn put_enumeration(out: &mut Text, tokens: &[Text]) -> Result<(), NoMemory>
    ensures { OnOk result (out.new ≡ out.old ++ spec.group_text tokens.now) }
{
    out.push('(')?;
    put_tokens(out, tokens)?;
    out.push(')')
}

/// Appends the type of an attribute.
pub(crate) fn put_type(out: &mut Text, kind: &AttType) -> Result<(), NoMemory>
    ensures { OnOk result (out.new ≡ out.old ++ spec.type_text kind.now) }
{
    match kind {
        AttType::Cdata => out.push_slice(&['C', 'D', 'A', 'T', 'A']),
        AttType::Id => out.push_slice(&['I', 'D']),
        AttType::Idref => out.push_slice(&['I', 'D', 'R', 'E', 'F']),
        AttType::Idrefs => out.push_slice(&['I', 'D', 'R', 'E', 'F', 'S']),
        AttType::Entity => out.push_slice(&['E', 'N', 'T', 'I', 'T', 'Y']),
        AttType::Entities => out.push_slice(&['E', 'N', 'T', 'I', 'T', 'I', 'E', 'S']),
        AttType::Nmtoken => out.push_slice(&['N', 'M', 'T', 'O', 'K', 'E', 'N']),
        AttType::Nmtokens => out.push_slice(&['N', 'M', 'T', 'O', 'K', 'E', 'N', 'S']),
        AttType::Notation(names) => {
            out.push_slice(&['N', 'O', 'T', 'A', 'T', 'I', 'O', 'N', ' '])?;
            put_notations(out, names.as_slice())
        }
        AttType::Enumeration(tokens) => put_enumeration(out, tokens.as_slice()),
    }
}

/// Appends what is said of an attribute that is left out.
pub(crate) fn put_preset(out: &mut Text, preset: &Preset) -> Result<(), NoMemory>
    ensures { OnOk result (out.new ≡ out.old ++ spec.preset_text preset.now) }
{
    match preset {
        Preset::Required => out.push_slice(&['#', 'R', 'E', 'Q', 'U', 'I', 'R', 'E', 'D']),
        Preset::Implied => out.push_slice(&['#', 'I', 'M', 'P', 'L', 'I', 'E', 'D']),
        Preset::Value(text) => put_value(out, text),
        Preset::Fixed(text) => {
            out.push_slice(&['#', 'F', 'I', 'X', 'E', 'D', ' '])?;
            put_value(out, text)
        }
    }
}
