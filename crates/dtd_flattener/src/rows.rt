//! Declarations, each on a line of its own (XML 1.0, 3.2, 3.3, 4.2 and 4.7).

ghost use Rattle.std.specs.Prelude.{◌≡◌, ◌++◌, ◌∷◌, [], OnOk, codes};
ghost use Rattle.content_models.specs.Proper.{IsProper};
ghost use Rattle.dtd_scanner.specs.declared.item.ItemKind.TheVariants.{ElementDecl, AttlistDecl, EntityDecl, NotationDecl};
ghost use Rattle.dtd_flattener.specs.Flat as spec;

use crate::parts::{put_preset, put_type};
use crate::texts::{put_entity_text, put_ids};
use attlist_merge::Definition;
use content_models::{Content, print_content};
use decl_set::EntityDef;
use entity_catalog::Ids;
use jats_chars::{Name, NoMemory, Text};
use std::alloc::Global;

/// Appends a name between spaces.
fn put_name(out: &mut Text, name: &Name) -> Result<(), NoMemory>
    ensures { OnOk result (out.new ≡ out.old ++ 32 ∷ (name.now ++ 32 ∷ [])) }
{
    out.push(' ')?;
    out.push_slice(name.text().as_slice())?;
    out.push(' ')
}

/// Appends the end of a line.
fn put_end(out: &mut Text) -> Result<(), NoMemory>
    ensures { OnOk result (out.new ≡ out.old ++ codes ">\n") }
{
    out.push_slice(&['>', '\n'])
}

fn put_notation_body(out: &mut Text, name: &Name, ids: &Ids) -> Result<(), NoMemory>
    ensures { OnOk result (out.new ≡ out.old ++ spec.notation_body (name.now, ids.now)) }
{
    put_name(out, name)?;
    put_ids(out, ids)
}

/// Appends the line of a notation.
pub(crate) fn put_notation(out: &mut Text, name: &Name, ids: &Ids) -> Result<(), NoMemory>
    ensures { OnOk result (out.new ≡ out.old ++ spec.written (NotationDecl, spec.notation_body (name.now, ids.now))) }
{
    out.push_slice(&['<', '!', 'N', 'O', 'T', 'A', 'T', 'I', 'O', 'N'])?;
    put_notation_body(out, name, ids)?;
    put_end(out)
}

/// Appends what an entity stands for.
fn put_def(out: &mut Text, def: &EntityDef) -> Result<(), NoMemory>
    ensures { OnOk result (out.new ≡ out.old ++ spec.def_text def.now) }
{
    match def {
        EntityDef::Internal(text) => put_entity_text(out, text),
        EntityDef::External(ids) => put_ids(out, ids),
        EntityDef::Unparsed(ids, notation) => {
            put_ids(out, ids)?;
            out.push_slice(&[' ', 'N', 'D', 'A', 'T', 'A', ' '])?;
            out.push_slice(notation.text().as_slice())
        }
    }
}

fn put_entity_body(out: &mut Text, name: &Name, def: &EntityDef) -> Result<(), NoMemory>
    ensures { OnOk result (out.new ≡ out.old ++ spec.entity_body (name.now, def.now)) }
{
    put_name(out, name)?;
    put_def(out, def)
}

/// Appends the line of a general entity.
pub(crate) fn put_entity(out: &mut Text, name: &Name, def: &EntityDef) -> Result<(), NoMemory>
    ensures { OnOk result (out.new ≡ out.old ++ spec.written (EntityDecl, spec.entity_body (name.now, def.now))) }
{
    out.push_slice(&['<', '!', 'E', 'N', 'T', 'I', 'T', 'Y'])?;
    put_entity_body(out, name, def)?;
    put_end(out)
}

fn put_element_body(
    alloc: Global,
    out: &mut Text,
    name: &Name,
    content: &Content,
) -> Result<(), NoMemory>
    requires { IsProper content.now }
    ensures { OnOk result (out.new ≡ out.old ++ spec.element_body (name.now, content.now)) }
{
    let content = print_content(alloc, content)?;
    put_name(out, name)?;
    out.push_slice(content.as_slice())
}

/// Appends the line of an element.
pub(crate) fn put_element(
    alloc: Global,
    out: &mut Text,
    name: &Name,
    content: &Content,
) -> Result<(), NoMemory>
    requires { IsProper content.now }
    ensures { OnOk result (out.new ≡ out.old ++ spec.written (ElementDecl, spec.element_body (name.now, content.now))) }
{
    out.push_slice(&['<', '!', 'E', 'L', 'E', 'M', 'E', 'N', 'T'])?;
    put_element_body(alloc, out, name, content)?;
    put_end(out)
}

/// Appends what is written of an attribute behind its element.
pub(crate) fn put_attribute_tail(
    out: &mut Text,
    name: &Name,
    definition: &Definition,
) -> Result<(), NoMemory>
    ensures { OnOk result (out.new ≡ out.old ++ spec.attribute_tail (name.now, definition.now)) }
{
    out.push_slice(name.text().as_slice())?;
    out.push(' ')?;
    put_type(out, &definition.kind)?;
    out.push(' ')?;
    put_preset(out, &definition.preset)
}

fn put_attribute_body(
    out: &mut Text,
    element: &Name,
    name: &Name,
    definition: &Definition,
) -> Result<(), NoMemory>
    ensures { OnOk result (out.new ≡ out.old ++ spec.attribute_body element.now (name.now, definition.now)) }
{
    put_name(out, element)?;
    put_attribute_tail(out, name, definition)
}

/// Appends the line of an attribute.
pub(crate) fn put_attribute(
    out: &mut Text,
    element: &Name,
    name: &Name,
    definition: &Definition,
) -> Result<(), NoMemory>
    ensures { OnOk result (out.new ≡ out.old ++ spec.written (AttlistDecl, spec.attribute_body element.now (name.now, definition.now))) }
{
    out.push_slice(&['<', '!', 'A', 'T', 'T', 'L', 'I', 'S', 'T'])?;
    put_attribute_body(out, element, name, definition)?;
    put_end(out)
}
