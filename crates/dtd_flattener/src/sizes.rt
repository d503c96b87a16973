//! How many bytes a flat text takes, line by line.

ghost use Rattle.std.specs.Prelude.{◌≡◌, [], map, min, ◌-◌, ◌^◌, length, IfOk, encode_utf8_all};
ghost use Rattle.std.specs.List.{concat};
ghost use Rattle.std.specs.Option.{option_map_or};
ghost use Rattle.dtd_scanner.specs.declared.item.ItemKind.TheVariants.{ElementDecl, AttlistDecl, EntityDecl, NotationDecl};
ghost use Rattle.decl_set.specs.Asked.{IsKept};
ghost use Rattle.decl_set.specs.Declarations.{content_in};
ghost use Rattle.dtd_flattener.specs.Flat as spec;
ghost use Rattle.dtd_flattener.specs.Sizes.{size_of, capped};

use crate::rows::{put_attribute_tail, put_entity, put_notation};
use crate::writing::put_declared;
use attlist_merge::{AttList, Definition};
use decl_set::{DeclSet, EntityDef};
use entity_catalog::Ids;
use jats_chars::{Name, NoMemory, Text};
use std::alloc::Global;

/// How many bytes the characters take in UTF-8.
fn utf8_len(text: &[char]) -> u64
    ensures { result ≡ capped (size_of text.now) }
{
    let mut total: u64 = 0;
    for c in text {
        total = total.saturating_add(c.len_utf8() as u64);
    }
    total
}

/// The bytes of the line of a notation.
fn notation_size(alloc: Global, name: &Name, ids: &Ids) -> Result<u64, NoMemory>
    ensures { IfOk result (λ n. n ≡ capped (size_of (spec.written (NotationDecl, spec.notation_body (name.now, ids.now))))) }
{
    let mut line = Text::new(alloc);
    put_notation(&mut line, name, ids)?;
    Ok(utf8_len(line.as_slice()))
}

/// The bytes of the lines of all notations.
fn notations_size(alloc: Global, set: &DeclSet) -> Result<u64, NoMemory>
    ensures { IfOk result (λ n. n ≡ capped (size_of (concat (map (λ n. spec.written (NotationDecl, spec.notation_body n)) set.now.notations)))) }
{
    let mut total: u64 = 0;
    for at in 0..set.notation_count() {
        match set.notation_at(at) {
            None => return Ok(total),
            Some((name, ids)) => {
                let more = notation_size(alloc, name, ids)?;
                total = total.saturating_add(more);
            }
        }
    }
    Ok(total)
}

/// The bytes of the line of a general entity.
fn entity_size(alloc: Global, name: &Name, def: &EntityDef) -> Result<u64, NoMemory>
    ensures { IfOk result (λ n. n ≡ capped (size_of (spec.written (EntityDecl, spec.entity_body (name.now, def.now))))) }
{
    let mut line = Text::new(alloc);
    put_entity(&mut line, name, def)?;
    Ok(utf8_len(line.as_slice()))
}

/// The bytes of the lines of all general entities.
fn entities_size(alloc: Global, set: &DeclSet) -> Result<u64, NoMemory>
    ensures { IfOk result (λ n. n ≡ capped (size_of (concat (map (λ e. spec.written (EntityDecl, spec.entity_body e)) set.now.entities)))) }
{
    let mut total: u64 = 0;
    for at in 0..set.entity_count() {
        match set.entity_at(at) {
            None => return Ok(total),
            Some((name, def)) => {
                let more = entity_size(alloc, name, def)?;
                total = total.saturating_add(more);
            }
        }
    }
    Ok(total)
}

/// The bytes of the line of an element that is declared.
fn element_size(alloc: Global, set: &DeclSet, name: &Name) -> Result<u64, NoMemory>
    requires { IsKept set.now }
    ensures { IfOk result (λ n. n ≡ capped (size_of (option_map_or (λ c. spec.written (ElementDecl, spec.element_body (name.now, c))) (content_in set.now name.now) []))) }
{
    let mut line = Text::new(alloc);
    put_declared(alloc, &mut line, set, name)?;
    Ok(utf8_len(line.as_slice()))
}

/// The bytes of the lines of all elements.
fn elements_size(alloc: Global, set: &DeclSet) -> Result<u64, NoMemory>
    ensures { IfOk result (λ n. n ≡ capped (size_of (concat (map (λ e. spec.written (ElementDecl, spec.element_body e)) set.now.elements)))) }
{
    let mut total: u64 = 0;
    for at in 0..set.count() {
        match set.name_at(at) {
            None => return Ok(total),
            Some(name) => {
                let more = element_size(alloc, set, name)?;
                total = total.saturating_add(more);
            }
        }
    }
    Ok(total)
}

/// The bytes of what is written of an attribute behind its element.
fn tail_size(alloc: Global, name: &Name, definition: &Definition) -> Result<u64, NoMemory>
    ensures { IfOk result (λ n. n ≡ capped (size_of (spec.attribute_tail (name.now, definition.now)))) }
{
    let mut tail = Text::new(alloc);
    put_attribute_tail(&mut tail, name, definition)?;
    Ok(utf8_len(tail.as_slice()))
}

/// The bytes of the line of an attribute, whose element's name takes this many: the line has 13 characters more than the
/// name and what is written behind it.
fn attribute_size(
    alloc: Global,
    _element: &Name,
    front: u64,
    name: &Name,
    definition: &Definition,
) -> Result<u64, NoMemory>
    requires { front ≡ capped (size_of _element.now) }
    ensures { IfOk result (λ n. n ≡ capped (size_of (spec.written (AttlistDecl, spec.attribute_body _element.now (name.now, definition.now))))) }
{
    let rest = tail_size(alloc, name, definition)?;
    Ok(front.saturating_add(rest).saturating_add(13))
}

/// The bytes of the lines of the attributes of an element.
fn attributes_size(alloc: Global, element: &Name, list: &AttList) -> Result<u64, NoMemory>
    ensures { IfOk result (λ n. n ≡ capped (size_of (concat (map (λ e. spec.written (AttlistDecl, spec.attribute_body element.now e)) list.now)))) }
{
    let front = utf8_len(element.text().as_slice());
    let mut total: u64 = 0;
    for at in 0..list.len() {
        match list.get(at) {
            None => return Ok(total),
            Some((name, definition)) => {
                let more = attribute_size(alloc, element, front, name, definition)?;
                total = total.saturating_add(more);
            }
        }
    }
    Ok(total)
}

/// The bytes of the lines of all attributes.
fn lists_size(alloc: Global, set: &DeclSet) -> Result<u64, NoMemory>
    ensures { IfOk result (λ n. n ≡ capped (size_of (concat (map (λ l. concat (map (λ e. spec.written (AttlistDecl, spec.attribute_body l.0 e)) l.1)) set.now.lists)))) }
{
    let mut total: u64 = 0;
    for at in 0..set.list_count() {
        match set.list_at(at) {
            None => return Ok(total),
            Some((element, list)) => {
                let more = attributes_size(alloc, element, list)?;
                total = total.saturating_add(more);
            }
        }
    }
    Ok(total)
}

/// How many bytes the flat text of a set takes, or the last u64 where there are more. It is not made for that: no more than
/// one line is held at a time, and the name of an element is gone over once for all of its attributes.
pub fn flat_size(alloc: Global, set: &DeclSet) -> Result<u64, NoMemory>
    ensures { IfOk result (λ n. n ≡ min (length (encode_utf8_all (spec.flat_text set.now))) (2 ^ 64 - 1)) }
{
    let notations = notations_size(alloc, set)?;
    let entities = entities_size(alloc, set)?;
    let elements = elements_size(alloc, set)?;
    let lists = lists_size(alloc, set)?;
    let rest = elements.saturating_add(lists);
    Ok(notations.saturating_add(entities.saturating_add(rest)))
}
