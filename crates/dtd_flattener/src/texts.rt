//! Texts between quotes, and external identifiers (XML 1.0, 2.3, 4.1 and 4.2.2).

ghost use Rattle.std.specs.Prelude.{◌≡◌, ◌++◌, ◌∷◌, [], ◌==◌, OnOk, if◌then◌else◌};
ghost use Rattle.std.specs.List.{list_any};
ghost use Rattle.entity_catalog.specs.declared.ids.Ids.TheVariants.{PublicOnly};
ghost use Rattle.dtd_flattener.specs.Flat as spec;

use entity_catalog::Ids;
use jats_chars::{NoMemory, Text};

/// Appends a character of an entity's text.
fn put_special(out: &mut Text, c: char) -> Result<(), NoMemory>
    ensures { OnOk result (out.new ≡ out.old ++ (if spec.is_special c then spec.reference_to c else c ∷ [])) }
{
    match c {
        '&' => out.push_slice(&['&', '#', '3', '8', ';']),
        '<' => out.push_slice(&['&', '#', '6', '0', ';']),
        '%' => out.push_slice(&['&', '#', '3', '7', ';']),
        '"' => out.push_slice(&['&', '#', '3', '4', ';']),
        '\r' => out.push_slice(&['&', '#', '1', '3', ';']),
        _ => out.push(c),
    }
}

/// Appends a character of an attribute's value.
fn put_special_value(out: &mut Text, c: char) -> Result<(), NoMemory>
    ensures { OnOk result (out.new ≡ out.old ++ (if spec.is_special_value c then spec.reference_to c else c ∷ [])) }
{
    match c {
        '\t' => out.push_slice(&['&', '#', '9', ';']),
        '\n' => out.push_slice(&['&', '#', '1', '0', ';']),
        _ => put_special(out, c),
    }
}

fn put_escaped(out: &mut Text, text: &[char]) -> Result<(), NoMemory>
    ensures { OnOk result (out.new ≡ out.old ++ spec.escaped spec.is_special text.now) }
{
    for c in text {
        put_special(out, *c)?;
    }
    Ok(())
}

fn put_escaped_value(out: &mut Text, text: &[char]) -> Result<(), NoMemory>
    ensures { OnOk result (out.new ≡ out.old ++ spec.escaped spec.is_special_value text.now) }
{
    for c in text {
        put_special_value(out, *c)?;
    }
    Ok(())
}

/// Appends what an entity stands for, between quotes.
pub(crate) fn put_entity_text(out: &mut Text, text: &Text) -> Result<(), NoMemory>
    ensures { OnOk result (out.new ≡ out.old ++ spec.quoted (spec.escaped spec.is_special text.now)) }
{
    out.push('"')?;
    put_escaped(out, text.as_slice())?;
    out.push('"')
}

/// Appends the value of an attribute, between quotes.
pub(crate) fn put_value(out: &mut Text, text: &Text) -> Result<(), NoMemory>
    ensures { OnOk result (out.new ≡ out.old ++ spec.quoted (spec.escaped spec.is_special_value text.now)) }
{
    out.push('"')?;
    put_escaped_value(out, text.as_slice())?;
    out.push('"')
}

fn put_quoted(out: &mut Text, text: &Text) -> Result<(), NoMemory>
    ensures { OnOk result (out.new ≡ out.old ++ spec.quoted text.now) }
{
    out.push('"')?;
    out.push_slice(text.as_slice())?;
    out.push('"')
}

fn has_quote(text: &Text) -> bool
    ensures { result ≡ list_any (λ c. c == 34) text.now }
{
    text.as_slice().iter().any(|c| *c == '"')
}

fn put_system_literal(out: &mut Text, text: &Text) -> Result<(), NoMemory>
    ensures { OnOk result (out.new ≡ out.old ++ spec.system_literal text.now) }
{
    let quote = if has_quote(text) { '\'' } else { '"' };
    out.push(quote)?;
    out.push_slice(text.as_slice())?;
    out.push(quote)
}

fn put_public(out: &mut Text, public: &Text) -> Result<(), NoMemory>
    ensures { OnOk result (out.new ≡ out.old ++ spec.ids_text (PublicOnly public.now)) }
{
    out.push_slice(&['P', 'U', 'B', 'L', 'I', 'C', ' '])?;
    put_quoted(out, public)
}

/// Appends external identifiers.
pub(crate) fn put_ids(out: &mut Text, ids: &Ids) -> Result<(), NoMemory>
    ensures { OnOk result (out.new ≡ out.old ++ spec.ids_text ids.now) }
{
    match ids {
        Ids::System(system) => {
            out.push_slice(&['S', 'Y', 'S', 'T', 'E', 'M', ' '])?;
            put_system_literal(out, system)
        }
        Ids::Public(public, system) => {
            put_public(out, public)?;
            out.push(' ')?;
            put_system_literal(out, system)
        }
        Ids::PublicOnly(public) => put_public(out, public),
    }
}
