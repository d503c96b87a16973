//! Declarations by their kind, whose bodies are expanded first.

ghost use Rattle.std.specs.Prelude.{◌≡◌, IfSome, IsTrue, OnOk};
ghost use Rattle.decl_set.specs.Asked.{are_chars};
ghost use Rattle.jats_io.specs.Causes.{HasCause};
ghost use Rattle.module_reader.specs.AskedFor.{Asks};
ghost use Rattle.module_reader.specs.Moves.{AreChars, GoesOn, Moves};
ghost use Rattle.module_reader.specs.Endings.{LoadFailed, IsAbsence};
ghost use Rattle.module_reader.specs.Reading as spec;

use crate::asking::expand_body;
use crate::declaring::{declare_attributes, declare_element, declare_notation};
use crate::entities::declare_entity;
use crate::refusals::Stop;
use crate::standing::Standing;
use crate::state::State;
use dtd_scanner::ItemKind;
use entity_catalog::Catalog;
use jats_chars::{NameList, Text};
use jats_io::Store;
use std::alloc::Global;

/// Declares what an expanded body says, by the kind of its declaration.
fn declare<S: Store>(
    alloc: Global,
    store: &mut S,
    catalog: &Catalog,
    chain: &NameList,
    standing: &Standing,
    at: usize,
    kind: ItemKind,
    state: &mut State,
    body: &Text,
) -> Result<(), Stop>
    requires chars { IsTrue (are_chars body.now) }
    requires kept { AreChars state.old }
    ensures keeps { S.holds store.new ≡ S.holds store.old }
    ensures faults { HasCause (S.faults store.old) (S.faults store.new) (LoadFailed result) }
    ensures absences { HasCause (S.absences store.old) (S.absences store.new) (IsAbsence result) }
    ensures told { IfSome (S.holds store.old) (λ files. Moves (spec.declared (record { files = files; catalog = catalog.now }) chain.now standing.now at kind state.old body.now) state.new result) }
    ensures goes_on { OnOk result (GoesOn state.old state.new) }
    ensures asks { Asks state.old.modules state.new.modules (S.asked store.old) (S.asked store.new) result }
{
    match kind {
        ItemKind::ElementDecl => declare_element(alloc, standing, at, state, body),
        ItemKind::AttlistDecl => declare_attributes(alloc, standing, at, state, body),
        ItemKind::EntityDecl => declare_entity(
            alloc, store, catalog, chain, standing, at, state, body,
        ),
        ItemKind::NotationDecl => declare_notation(alloc, standing, at, state, body),
        ItemKind::Blank => Ok(()),
        ItemKind::Comment => Ok(()),
        ItemKind::Pi => Ok(()),
        ItemKind::Reference => Ok(()),
        ItemKind::SectionStart => Ok(()),
    }
}

/// Declares what a body says, by the kind of its declaration, once its references are expanded.
pub fn declare_expanded<S: Store>(
    alloc: Global,
    store: &mut S,
    catalog: &Catalog,
    chain: &NameList,
    standing: &Standing,
    at: usize,
    kind: ItemKind,
    state: &mut State,
    body: &[char],
) -> Result<(), Stop>
    requires chars { IsTrue (are_chars body.now) }
    requires kept { AreChars state.old }
    ensures keeps { S.holds store.new ≡ S.holds store.old }
    ensures faults { HasCause (S.faults store.old) (S.faults store.new) (LoadFailed result) }
    ensures absences { HasCause (S.absences store.old) (S.absences store.new) (IsAbsence result) }
    ensures told { IfSome (S.holds store.old) (λ files. Moves (spec.declaration (record { files = files; catalog = catalog.now }) chain.now standing.now at kind state.old body.now) state.new result) }
    ensures goes_on { OnOk result (GoesOn state.old state.new) }
    ensures asks { Asks state.old.modules state.new.modules (S.asked store.old) (S.asked store.new) result }
{
    match expand_body(alloc, store, catalog, chain, standing, at, state, body) {
        Err(fault) => Err(fault),
        Ok(body) => declare(
            alloc, store, catalog, chain, standing, at, kind, state, &body,
        ),
    }
}
