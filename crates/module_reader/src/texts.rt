//! The text that is read, and what stands at its place.

ghost use Rattle.std.specs.Prelude.{◌≡◌, ◌+◌, ◌-◌, ◌<◌, ◌≤◌, IfOk, IsTrue, drop, length, option_map, true};
ghost use Rattle.std.specs.Bool.{OnTrue};
ghost use Rattle.std.specs.Option.{option_copied};
ghost use Rattle.decl_set.specs.Asked.{are_chars};
ghost use Rattle.dtd_scanner.specs.Items.{shortest};
ghost use Rattle.dtd_scanner.specs.Parts as parts;
ghost use Rattle.dtd_scanner.specs.References.{named};
ghost use Rattle.dtd_scanner.specs.Scanning.{item_at};
ghost use Rattle.dtd_scanner.specs.declared.item.ItemKind.TheVariants.{Reference};
ghost use Rattle.jats_chars.specs.Names.{is_name};
ghost use Rattle.pe_expansion.specs.Bound.{text_in};
ghost use Rattle.pe_expansion.specs.Ignored.{closes};
ghost use Rattle.module_reader.specs.Frames.{IsSound, Stands, current, found, rest_of};
ghost use Rattle.module_reader.specs.Reading as spec;

use crate::frames::Work;
use crate::state::State;
use dtd_scanner::{Item, ItemKind, ScanFault, next_item};
use jats_chars::{Name, NoMemory, Text};
use pe_expansion::PeText;
use std::alloc::Global;

/// The text of an entity, where it is inner or loaded.
fn text_of(entity: &PeText) -> Option<&Text>
    ensures { option_copied result ≡ text_in entity.now }
{
    match entity {
        PeText::Inner(text) => Some(text),
        PeText::Outer { text, .. } => text.as_ref(),
    }
}

/// The text of an entity by its number, or of the entry.
fn text_at(state: &State, number: Option<usize>) -> Option<&Text>
    ensures { option_copied result ≡ option_map (λ e. e.1) (found state.now number) }
{
    match number {
        None => state.modules.text_at(0),
        Some(number) => match state.bound.entity_at(number) {
            None => None,
            Some((_, entity)) => text_of(entity),
        },
    }
}

/// The text that is read.
pub fn text_read(work: &Work) -> &Text
    requires { IsSound work.now }
    ensures { result.now ≡ (current work.now).text }
{
    match text_at(&work.state, work.frame.text) {
        Some(text) => text,
        None => unreachable!(),
    }
}

/// Whether the end of a section stands at a place.
fn begins_end(text: &Text, at: usize) -> bool
    requires { at < length text.now }
    ensures value { result ≡ closes (drop at text.now) }
    ensures within { OnTrue result ((at + 3 ≤ length text.now) × (at + 3 < 9223372036854775808)) }
{
    let (_, rest) = text.as_slice().split_at(at);
    rest.starts_with(&[']', ']', '>'])
}

/// Whether an open section ends at the place.
pub fn ends_section(work: &Work) -> bool
    requires sound { IsSound work.now }
    requires here { work.now.frame.at < length (current work.now).text }
    ensures value { result ≡ spec.ends_section (current work.now).sections (rest_of (current work.now)) }
    ensures within { OnTrue result ((work.now.frame.at + 3 ≤ length (current work.now).text) × (work.now.frame.at + 3 < 9223372036854775808)) }
{
    !work.frame.sections.is_empty() && begins_end(text_read(work), work.frame.at)
}

/// The item at the place.
pub fn item_here(work: &Work) -> Result<Item, ScanFault>
    requires sound { IsSound work.now }
    requires here { work.now.frame.at < length (current work.now).text }
    ensures value { result ≡ item_at (current work.now).text (current work.now).at }
    ensures far { IfOk result (λ item. (work.now.frame.at + shortest item.kind ≤ item.end) × (item.end ≤ length (current work.now).text)) }
{
    next_item(text_read(work), work.frame.at)
}

/// These characters, which are a Name, as a name.
fn name_of(alloc: Global, name: &[char]) -> Result<Name, NoMemory>
    requires { IsTrue (is_name name.now) }
    ensures { IfOk result (λ n. n ≡ name.now) }
{
    match Name::from_slice(alloc, name)? {
        Some(name) => Ok(name),
        None => unreachable!(),
    }
}

/// The name in the reference at the place.
pub fn name_here(alloc: Global, work: &Work, next: usize) -> Result<Name, NoMemory>
    requires sound { IsSound work.now }
    requires stands { Stands (current work.now) Reference next }
    requires long { work.now.frame.at + 3 ≤ next }
    ensures { IfOk result (λ n. n ≡ named (next - work.now.frame.at) (rest_of (current work.now))) }
{
    let text = text_read(work).as_slice();
    name_of(alloc, &text[work.frame.at + 1..next - 1])
}

/// How many characters the opening of an item has.
fn opening_len(kind: ItemKind) -> usize
    ensures value { result ≡ parts.opening_len kind }
    ensures short { result + 1 ≤ shortest kind }
{
    match kind {
        ItemKind::Blank => 0,
        ItemKind::Comment => 4,
        ItemKind::Pi => 2,
        ItemKind::Reference => 1,
        ItemKind::SectionStart => 3,
        ItemKind::ElementDecl => 9,
        ItemKind::AttlistDecl => 9,
        ItemKind::EntityDecl => 8,
        ItemKind::NotationDecl => 10,
    }
}

/// What the item at the place holds between its opening and its last character.
pub fn contents_here(
    alloc: Global,
    work: &Work,
    kind: ItemKind,
    next: usize,
) -> Result<Text, NoMemory>
    requires sound { IsSound work.now }
    requires long { (work.now.frame.at + shortest kind ≤ next) × (next ≤ length (current work.now).text) }
    ensures value { IfOk result (λ t. t ≡ parts.contents_of (rest_of (current work.now)) 0 kind (next - work.now.frame.at)) }
    ensures chars { IfOk result (λ t. IsTrue (are_chars t)) }
{
    let text = text_read(work).as_slice();
    Text::from_slice(alloc, &text[work.frame.at + opening_len(kind)..next - 1])
}
