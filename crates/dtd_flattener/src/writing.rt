//! The flat text of a set.

ghost use Rattle.std.specs.Prelude.{◌≡◌, ◌++◌, [], map, IfOk, OnOk, encode_utf8_all, string_bytes};
ghost use Rattle.std.specs.List.{concat};
ghost use Rattle.std.specs.Option.{option_map_or};
ghost use Rattle.dtd_scanner.specs.declared.item.ItemKind.TheVariants.{ElementDecl, AttlistDecl, EntityDecl, NotationDecl};
ghost use Rattle.decl_set.specs.Asked.{IsKept};
ghost use Rattle.decl_set.specs.Declarations.{content_in};
ghost use Rattle.dtd_flattener.specs.Flat as spec;

use crate::rows::{put_attribute, put_element, put_entity, put_notation};
use attlist_merge::{AttList, Definition};
use decl_set::{DeclSet, EntityDef};
use entity_catalog::Ids;
use jats_chars::{Name, NoMemory, Text};
use std::alloc::Global;

/// Appends characters in UTF-8.
fn put_chars(out: &mut String, text: &[char]) -> Result<(), NoMemory>
    ensures { OnOk result (string_bytes out.new ≡ string_bytes out.old ++ encode_utf8_all text.now) }
{
    for c in text {
        out.push(*c)?;
    }
    Ok(())
}

/// Appends a line in UTF-8.
fn put_line(out: &mut String, line: &Text) -> Result<(), NoMemory>
    ensures { OnOk result (string_bytes out.new ≡ string_bytes out.old ++ encode_utf8_all line.now) }
{
    put_chars(out, line.as_slice())
}

/// Appends the bytes of the line of a notation.
fn put_notation_line(
    alloc: Global,
    out: &mut String,
    name: &Name,
    ids: &Ids,
) -> Result<(), NoMemory>
    ensures { OnOk result (string_bytes out.new ≡ string_bytes out.old ++ encode_utf8_all (spec.written (NotationDecl, spec.notation_body (name.now, ids.now)))) }
{
    let mut line = Text::new(alloc);
    put_notation(&mut line, name, ids)?;
    put_line(out, &line)
}

/// Appends the bytes of the line of a general entity.
fn put_entity_line(
    alloc: Global,
    out: &mut String,
    name: &Name,
    def: &EntityDef,
) -> Result<(), NoMemory>
    ensures { OnOk result (string_bytes out.new ≡ string_bytes out.old ++ encode_utf8_all (spec.written (EntityDecl, spec.entity_body (name.now, def.now)))) }
{
    let mut line = Text::new(alloc);
    put_entity(&mut line, name, def)?;
    put_line(out, &line)
}

/// Appends a line for each notation.
fn put_notations(alloc: Global, out: &mut String, set: &DeclSet) -> Result<(), NoMemory>
    ensures { OnOk result (string_bytes out.new ≡ string_bytes out.old ++ encode_utf8_all (concat (map (λ n. spec.written (NotationDecl, spec.notation_body n)) set.now.notations))) }
{
    for at in 0..set.notation_count() {
        match set.notation_at(at) {
            None => return Ok(()),
            Some((name, ids)) => put_notation_line(alloc, out, name, ids)?,
        }
    }
    Ok(())
}

/// Appends a line for each general entity.
fn put_entities(alloc: Global, out: &mut String, set: &DeclSet) -> Result<(), NoMemory>
    ensures { OnOk result (string_bytes out.new ≡ string_bytes out.old ++ encode_utf8_all (concat (map (λ e. spec.written (EntityDecl, spec.entity_body e)) set.now.entities))) }
{
    for at in 0..set.entity_count() {
        match set.entity_at(at) {
            None => return Ok(()),
            Some((name, def)) => put_entity_line(alloc, out, name, def)?,
        }
    }
    Ok(())
}

/// Appends the line of an element that is declared.
pub(crate) fn put_declared(
    alloc: Global,
    out: &mut Text,
    set: &DeclSet,
    name: &Name,
) -> Result<(), NoMemory>
    requires { IsKept set.now }
    ensures { OnOk result (out.new ≡ out.old ++ option_map_or (λ c. spec.written (ElementDecl, spec.element_body (name.now, c))) (content_in set.now name.now) []) }
{
    match set.content_of(name) {
        None => Ok(()),
        Some(content) => put_element(alloc, out, name, content),
    }
}

/// Appends the bytes of the line of an element that is declared.
fn put_element_line(
    alloc: Global,
    out: &mut String,
    set: &DeclSet,
    name: &Name,
) -> Result<(), NoMemory>
    requires { IsKept set.now }
    ensures { OnOk result (string_bytes out.new ≡ string_bytes out.old ++ encode_utf8_all (option_map_or (λ c. spec.written (ElementDecl, spec.element_body (name.now, c))) (content_in set.now name.now) [])) }
{
    let mut line = Text::new(alloc);
    put_declared(alloc, &mut line, set, name)?;
    put_line(out, &line)
}

/// Appends a line for each element.
fn put_elements(alloc: Global, out: &mut String, set: &DeclSet) -> Result<(), NoMemory>
    ensures { OnOk result (string_bytes out.new ≡ string_bytes out.old ++ encode_utf8_all (concat (map (λ e. spec.written (ElementDecl, spec.element_body e)) set.now.elements))) }
{
    for at in 0..set.count() {
        match set.name_at(at) {
            None => return Ok(()),
            Some(name) => put_element_line(alloc, out, set, name)?,
        }
    }
    Ok(())
}

/// Appends the bytes of the line of an attribute.
fn put_attribute_line(
    alloc: Global,
    out: &mut String,
    element: &Name,
    name: &Name,
    definition: &Definition,
) -> Result<(), NoMemory>
    ensures { OnOk result (string_bytes out.new ≡ string_bytes out.old ++ encode_utf8_all (spec.written (AttlistDecl, spec.attribute_body element.now (name.now, definition.now)))) }
{
    let mut line = Text::new(alloc);
    put_attribute(&mut line, element, name, definition)?;
    put_line(out, &line)
}

/// Appends a line for each attribute of an element.
fn put_attributes(
    alloc: Global,
    out: &mut String,
    element: &Name,
    list: &AttList,
) -> Result<(), NoMemory>
    ensures { OnOk result (string_bytes out.new ≡ string_bytes out.old ++ encode_utf8_all (concat (map (λ e. spec.written (AttlistDecl, spec.attribute_body element.now e)) list.now))) }
{
    for at in 0..list.len() {
        match list.get(at) {
            None => return Ok(()),
            Some((name, definition)) => put_attribute_line(alloc, out, element, name, definition)?,
        }
    }
    Ok(())
}

/// Appends a line for each attribute of each element.
fn put_lists(alloc: Global, out: &mut String, set: &DeclSet) -> Result<(), NoMemory>
    ensures { OnOk result (string_bytes out.new ≡ string_bytes out.old ++ encode_utf8_all (concat (map (λ l. concat (map (λ e. spec.written (AttlistDecl, spec.attribute_body l.0 e)) l.1)) set.now.lists))) }
{
    for at in 0..set.list_count() {
        match set.list_at(at) {
            None => return Ok(()),
            Some((element, list)) => put_attributes(alloc, out, element, list)?,
        }
    }
    Ok(())
}

/// The bytes of the flat text, written line by line.
fn flat_bytes(alloc: Global, set: &DeclSet) -> Result<String, NoMemory>
    ensures { IfOk result (λ bytes. string_bytes bytes ≡ encode_utf8_all (spec.flat_text set.now)) }
{
    let mut out = String::new(alloc);
    put_notations(alloc, &mut out, set)?;
    put_entities(alloc, &mut out, set)?;
    put_elements(alloc, &mut out, set)?;
    put_lists(alloc, &mut out, set)?;
    Ok(out)
}

/// The flat text of a set, in UTF-8: one declaration a line, without references to parameter entities, comments and
/// sections. Notations come first, then general entities, elements and attributes, each list in order of declaration.
pub fn flatten(alloc: Global, set: &DeclSet) -> Result<Vec<u8>, NoMemory>
    ensures { IfOk result (λ bytes. bytes.items ≡ encode_utf8_all (spec.flat_text set.now)) }
{
    let bytes = flat_bytes(alloc, set)?;
    Ok(bytes.into_bytes())
}
