//! What the declarations of elements, attributes and notations do to a reading, once their bodies are expanded.

ghost use Rattle.std.specs.Prelude.{◌≡◌, ◌∷◌, [], ℕ, nat_lt, false, OnOk, IsTrue};
ghost use Rattle.content_models.specs.Parses.{most_open};
ghost use Rattle.content_models.specs.Proper.{IsProper};
ghost use Rattle.content_models.specs.Reading.{content_of};
ghost use Rattle.jats_fault.specs.Table.{has_number, table};
ghost use Rattle.decl_set.specs.Asked.{IsRead, are_chars, are_ids};
ghost use Rattle.decl_set.specs.Declaring.{with_element, with_attributes, with_notation};
ghost use Rattle.module_reader.specs.ContentRead.{ReadsContent, ContentStops};
ghost use Rattle.module_reader.specs.Moves.{Moves, GoesOn};
ghost use Rattle.module_reader.specs.Endings.{LoadFailed, IsAbsence, Refuses};
ghost use Rattle.module_reader.specs.Reading as spec;
ghost use Rattle.module_reader.specs.Stops as stops;
ghost use Rattle.jats_fault.specs.declared.numbers.TheConstants as number;

use crate::refusals::Stop;
use crate::standing::Standing;
use crate::state::State;
use crate::stops::{decl_stop, refused};
use attlist_merge::{ListFault, RawAttList, parse_attlist};
use content_models::{Content, ContentFault, is_too_deep, parse_content};
use decl_set::DeclFault;
use declaration_bodies::{read_element, read_notation};
use entity_catalog::Ids;
use jats_chars::{Name, Text};
use jats_fault::{Details, numbers};
use pe_expansion::Budget;
use std::alloc::Global;

/// The content that a text spells, where no more than 64 parentheses are open.
#[tactic(auto, using(crate::proofs::Contents::read_content))]
fn read_content(alloc: Global, text: &Text) -> Result<Content, ContentFault>
    requires { nat_lt 64 (most_open 0 text.now) ≡ false }
    ensures { ReadsContent text.now result }
{
    parse_content(alloc, text)
}

fn no_details(alloc: Global, standing: &Standing, at: usize, number: u16) -> Stop
    requires { IsTrue (has_number table number) }
    ensures { Refuses (stops.refused standing.now at number []) result }
{
    refused(alloc, standing, at, number, Details::new(alloc))
}

/// A refusal that names an element.
fn naming(alloc: Global, standing: &Standing, at: usize, number: u16, name: &Name) -> Stop
    requires { IsTrue (has_number table number) }
    ensures { Refuses (stops.refused standing.now at number (name.now ∷ [])) result }
{
    match name.text().copy(alloc) {
        Err(_) => Stop::NoMemory,
        Ok(name) => {
            let mut details = Details::new(alloc);
            details.add(name);
            refused(alloc, standing, at, number, details)
        }
    }
}

/// The refusal of a name that stands twice in the content of an element.
fn repeating(alloc: Global, standing: &Standing, at: usize, name: &Name, again: &Name) -> Stop
    ensures { Refuses (stops.refused standing.now at number.DUPLICATE_MIXED_NAME (name.now ∷ again.now ∷ [])) result }
{
    let Ok(name) = name.text().copy(alloc) else {
        return Stop::NoMemory;
    };
    let Ok(again) = again.text().copy(alloc) else {
        return Stop::NoMemory;
    };
    let mut details = Details::new(alloc);
    details.add(name);
    details.add(again);
    refused(alloc, standing, at, numbers::DUPLICATE_MIXED_NAME, details)
}

/// Why the content of an element is none that may be declared.
fn content_stop(
    alloc: Global,
    standing: &Standing,
    at: usize,
    name: &Name,
    fault: ContentFault,
) -> Stop
    ensures { ContentStops standing.now at name.now fault result }
{
    match fault {
        ContentFault::GroupTooDeep => no_details(alloc, standing, at, numbers::GROUP_TOO_DEEP),
        ContentFault::Malformed => no_details(alloc, standing, at, numbers::MALFORMED),
        ContentFault::PositionsOver => naming(alloc, standing, at, numbers::POSITIONS_OVER, name),
        ContentFault::DuplicateMixedName(again) => repeating(alloc, standing, at, name, &again),
        ContentFault::NoMemory => Stop::NoMemory,
    }
}

/// Declares an element whose name and content are read.
fn declare_read(
    alloc: Global,
    standing: &Standing,
    at: usize,
    state: &mut State,
    name: Name,
    text: &Text,
) -> Result<(), Stop>
    requires { nat_lt 64 (most_open 0 text.now) ≡ false }
    ensures told { Moves (spec.element_spelled standing.now at state.old name (content_of text.now)) state.new result }
    ensures load { LoadFailed result → ⊥ }
    ensures absence { IsAbsence result → ⊥ }
    ensures goes_on { OnOk result (GoesOn state.old state.new) }
    ensures modules { state.new.modules ≡ state.old.modules }
{
    match read_content(alloc, text) {
        Err(fault) => Err(content_stop(alloc, standing, at, &name, fault)),
        Ok(content) => put_element(alloc, standing, at, state, name, content),
    }
}

/// Puts an element into the set.
#[tactic(auto, using(crate::proofs::Declared::declares_stop, crate::proofs::Declared::decl_present))]
fn put_element(
    alloc: Global,
    standing: &Standing,
    at: usize,
    state: &mut State,
    name: Name,
    content: Content,
) -> Result<(), Stop>
    requires { IsProper content }
    ensures told { Moves (spec.declares standing.now at state.old (with_element state.old.set name content)) state.new result }
    ensures load { LoadFailed result → ⊥ }
    ensures absence { IsAbsence result → ⊥ }
    ensures goes_on { OnOk result (GoesOn state.old state.new) }
    ensures modules { state.new.modules ≡ state.old.modules }
{
    match state.set.declare_element(name, content) {
        Ok(()) => Ok(()),
        Err(DeclFault::NoMemory) => Err(Stop::NoMemory),
        Err(fault) => Err(decl_stop(alloc, standing, at, fault)),
    }
}

/// Declares an element by its body: no more than 64 parentheses are open in it (E44), it has its form (E20), at most 1,024
/// names occur (E42), and a mixed content names none twice (E31); then come the tests of the set (E30, E41, E32, E43).
#[tactic(auto, unfolding(crate::specs::Reading::element_declared), using(crate::proofs::Peaks::element_within))]
pub fn declare_element(
    alloc: Global,
    standing: &Standing,
    at: usize,
    state: &mut State,
    body: &Text,
) -> Result<(), Stop>
    ensures told { Moves (spec.element_declared standing.now at state.old body.now) state.new result }
    ensures load { LoadFailed result → ⊥ }
    ensures absence { IsAbsence result → ⊥ }
    ensures goes_on { OnOk result (GoesOn state.old state.new) }
    ensures modules { state.new.modules ≡ state.old.modules }
{
    if is_too_deep(body.as_slice()) {
        return Err(no_details(alloc, standing, at, numbers::GROUP_TOO_DEEP));
    }
    match read_element(alloc, body.as_slice())? {
        None => Err(no_details(alloc, standing, at, numbers::MALFORMED)),
        Some((name, content)) => declare_read(alloc, standing, at, state, name, &content),
    }
}

/// Declares attributes that are read.
#[tactic(auto, using(crate::proofs::Declared::counting_stop, crate::proofs::Declared::decl_present, crate::proofs::Growing::counted_on))]
fn put_attributes(
    alloc: Global,
    standing: &Standing,
    at: usize,
    state: &mut State,
    raw: &RawAttList,
) -> Result<(), Stop>
    requires { IsRead raw.now }
    ensures told { Moves (spec.counting standing.now at state.old (with_attributes state.old.set state.old.spent raw.now)) state.new result }
    ensures load { LoadFailed result → ⊥ }
    ensures absence { IsAbsence result → ⊥ }
    ensures goes_on { OnOk result (GoesOn state.old state.new) }
    ensures modules { state.new.modules ≡ state.old.modules }
{
    let mut budget = Budget { spent: state.spent };
    match state.set.declare_attributes(raw, &mut budget) {
        Ok(()) => {
            state.spent = budget.spent;
            Ok(())
        }
        Err(DeclFault::NoMemory) => Err(Stop::NoMemory),
        Err(fault) => Err(decl_stop(alloc, standing, at, fault)),
    }
}

/// Declares the attributes of an element by the body of their declaration, which is of Chars: it has its form (E20); then
/// come the tests of each definition, in order.
#[tactic(auto, unfolding(crate::specs::Reading::attributes_declared))]
pub fn declare_attributes(
    alloc: Global,
    standing: &Standing,
    at: usize,
    state: &mut State,
    body: &Text,
) -> Result<(), Stop>
    requires { IsTrue (are_chars body.now) }
    ensures told { Moves (spec.attributes_declared standing.now at state.old body.now) state.new result }
    ensures load { LoadFailed result → ⊥ }
    ensures absence { IsAbsence result → ⊥ }
    ensures goes_on { OnOk result (GoesOn state.old state.new) }
    ensures modules { state.new.modules ≡ state.old.modules }
{
    match parse_attlist(alloc, body) {
        Err(ListFault::NoMemory) => Err(Stop::NoMemory),
        Err(ListFault::Malformed) => Err(no_details(alloc, standing, at, numbers::MALFORMED)),
        Ok(raw) => put_attributes(alloc, standing, at, state, &raw),
    }
}

/// Declares a notation that is read.
#[tactic(auto, using(crate::proofs::Declared::declares_stop, crate::proofs::Declared::decl_present))]
fn put_notation(
    alloc: Global,
    standing: &Standing,
    at: usize,
    state: &mut State,
    name: Name,
    ids: Ids,
) -> Result<(), Stop>
    requires { IsTrue (are_ids ids) }
    ensures told { Moves (spec.declares standing.now at state.old (with_notation state.old.set name ids)) state.new result }
    ensures load { LoadFailed result → ⊥ }
    ensures absence { IsAbsence result → ⊥ }
    ensures goes_on { OnOk result (GoesOn state.old state.new) }
    ensures modules { state.new.modules ≡ state.old.modules }
{
    match state.set.declare_notation(name, ids) {
        Ok(()) => Ok(()),
        Err(DeclFault::NoMemory) => Err(Stop::NoMemory),
        Err(fault) => Err(decl_stop(alloc, standing, at, fault)),
    }
}

/// Declares a notation by its body, which is of Chars: it has its form (E20), and its name is new (E29).
#[tactic(auto, unfolding(crate::specs::Reading::notation_declared), using(crate::proofs::Identifiers::notation_ids_are))]
pub fn declare_notation(
    alloc: Global,
    standing: &Standing,
    at: usize,
    state: &mut State,
    body: &Text,
) -> Result<(), Stop>
    requires { IsTrue (are_chars body.now) }
    ensures told { Moves (spec.notation_declared standing.now at state.old body.now) state.new result }
    ensures load { LoadFailed result → ⊥ }
    ensures absence { IsAbsence result → ⊥ }
    ensures goes_on { OnOk result (GoesOn state.old state.new) }
    ensures modules { state.new.modules ≡ state.old.modules }
{
    match read_notation(alloc, body.as_slice())? {
        None => Err(no_details(alloc, standing, at, numbers::MALFORMED)),
        Some((name, ids)) => put_notation(alloc, standing, at, state, name, ids),
    }
}
