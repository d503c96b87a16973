//! What the declarations of entities do to a reading, once their bodies are expanded.

ghost use Rattle.std.specs.Prelude.{◌≡◌, IfSome, OnOk, Ok, IsTrue, None, Some, true, false, is_some};
ghost use Rattle.decl_set.specs.Asked.{are_chars, are_entity_ids, is_entity};
ghost use Rattle.decl_set.specs.Declarations.{entity_in};
ghost use Rattle.jats_io.specs.Causes.{HasCause};
ghost use Rattle.pe_expansion.specs.Bound.{text_bound, text_in};
ghost use Rattle.module_reader.specs.AskedFor.{Asks};
ghost use Rattle.module_reader.specs.Moves.{AreChars, Moves, GoesOn, has_chars};
ghost use Rattle.module_reader.specs.OfChars.{IsOfChars};
ghost use Rattle.module_reader.specs.Endings.{LoadFailed, IsAbsence};
ghost use Rattle.module_reader.specs.Reading as spec;

use crate::asking::expand_literal;
use crate::refusals::Stop;
use crate::standing::Standing;
use crate::state::State;
use crate::stops::refused;
use decl_set::EntityDef;
use declaration_bodies::{RawDef, RawEntity, read_entity};
use entity_catalog::{Catalog, Ids};
use jats_chars::{Name, NameList, Text};
use jats_fault::{Details, numbers};
use jats_io::Store;
use pe_expansion::PeText;
use std::alloc::Global;

/// Binds a name that is new. The first declaration binds.
#[tactic(auto, using(crate::proofs::Growing::binds_on))]
fn bind(state: &mut State, name: Name, text: PeText) -> Result<(), Stop>
    requires chars { IsTrue (has_chars (text_in text)) }
    ensures told { Moves (Ok (spec.bound_as state.old name text)) state.new result }
    ensures load { LoadFailed result → ⊥ }
    ensures absence { IsAbsence result → ⊥ }
    ensures goes_on { OnOk result (GoesOn state.old state.new) }
    ensures modules { state.new.modules ≡ state.old.modules }
{
    match state.bound.bind(name, text) {
        Ok(_) => Ok(()),
        Err(_) => Err(Stop::NoMemory),
    }
}

/// Binds a parameter entity that is new to what a value stands for.
fn bind_value<S: Store>(
    alloc: Global,
    store: &mut S,
    catalog: &Catalog,
    chain: &NameList,
    standing: &Standing,
    at: usize,
    state: &mut State,
    name: Name,
    raw: &Text,
) -> Result<(), Stop>
    requires chars { IsTrue (are_chars raw.now) }
    requires kept { AreChars state.old }
    ensures keeps { S.holds store.new ≡ S.holds store.old }
    ensures faults { HasCause (S.faults store.old) (S.faults store.new) (LoadFailed result) }
    ensures absences { HasCause (S.absences store.old) (S.absences store.new) (IsAbsence result) }
    ensures told { IfSome (S.holds store.old) (λ files. Moves (spec.bound_by (record { files = files; catalog = catalog.now }) chain.now standing.now at state.old name (RawDef.Value raw.now)) state.new result) }
    ensures goes_on { OnOk result (GoesOn state.old state.new) }
    ensures asks { Asks state.old.modules state.new.modules (S.asked store.old) (S.asked store.new) result }
{
    match expand_literal(
        alloc,
        store,
        catalog,
        chain,
        standing,
        at,
        state,
        raw.as_slice(),
    ) {
        Err(fault) => Err(fault),
        Ok(text) => bind(state, name, PeText::Inner(text)),
    }
}

/// Binds an outer parameter entity that is new, with the module in whose reading it is declared.
fn bind_outer(
    alloc: Global,
    standing: &Standing,
    state: &mut State,
    name: Name,
    ids: Ids,
) -> Result<(), Stop>
    ensures told { Moves (Ok (spec.bound_as state.old name (PeText.Outer ids standing.now.inmost None))) state.new result }
    ensures load { LoadFailed result → ⊥ }
    ensures absence { IsAbsence result → ⊥ }
    ensures goes_on { OnOk result (GoesOn state.old state.new) }
    ensures modules { state.new.modules ≡ state.old.modules }
{
    let base = standing.inmost.copy(alloc)?;
    bind(
        state,
        name,
        PeText::Outer {
            ids,
            base,
            text: None,
        },
    )
}

/// Binds a parameter entity that is new.
fn bind_entity<S: Store>(
    alloc: Global,
    store: &mut S,
    catalog: &Catalog,
    chain: &NameList,
    standing: &Standing,
    at: usize,
    state: &mut State,
    name: Name,
    def: RawDef,
) -> Result<(), Stop>
    requires chars { IsOfChars def }
    requires kept { AreChars state.old }
    ensures keeps { S.holds store.new ≡ S.holds store.old }
    ensures faults { HasCause (S.faults store.old) (S.faults store.new) (LoadFailed result) }
    ensures absences { HasCause (S.absences store.old) (S.absences store.new) (IsAbsence result) }
    ensures told { IfSome (S.holds store.old) (λ files. Moves (spec.bound_by (record { files = files; catalog = catalog.now }) chain.now standing.now at state.old name def) state.new result) }
    ensures goes_on { OnOk result (GoesOn state.old state.new) }
    ensures asks { Asks state.old.modules state.new.modules (S.asked store.old) (S.asked store.new) result }
{
    match def {
        RawDef::Value(raw) => bind_value(
            alloc, store, catalog, chain, standing, at, state, name, &raw,
        ),
        RawDef::External(ids) => bind_outer(alloc, standing, state, name, ids),
        RawDef::Unparsed(_, _) => Ok(()),
    }
}

/// Declares a general entity.
#[tactic(auto, using(crate::proofs::Growing::set_on))]
fn put(state: &mut State, name: Name, def: EntityDef) -> Result<(), Stop>
    requires { IsTrue (is_entity def) }
    ensures told { Moves (Ok (spec.declared_as state.old name def)) state.new result }
    ensures load { LoadFailed result → ⊥ }
    ensures absence { IsAbsence result → ⊥ }
    ensures goes_on { OnOk result (GoesOn state.old state.new) }
    ensures modules { state.new.modules ≡ state.old.modules }
{
    match state.set.declare_entity(name, def) {
        Ok(_) => Ok(()),
        Err(_) => Err(Stop::NoMemory),
    }
}

/// Declares a general entity as what a value stands for.
fn put_value<S: Store>(
    alloc: Global,
    store: &mut S,
    catalog: &Catalog,
    chain: &NameList,
    standing: &Standing,
    at: usize,
    state: &mut State,
    name: Name,
    raw: &Text,
) -> Result<(), Stop>
    requires chars { IsTrue (are_chars raw.now) }
    requires kept { AreChars state.old }
    ensures keeps { S.holds store.new ≡ S.holds store.old }
    ensures faults { HasCause (S.faults store.old) (S.faults store.new) (LoadFailed result) }
    ensures absences { HasCause (S.absences store.old) (S.absences store.new) (IsAbsence result) }
    ensures told { IfSome (S.holds store.old) (λ files. Moves (spec.declared_by (record { files = files; catalog = catalog.now }) chain.now standing.now at state.old name (RawDef.Value raw.now)) state.new result) }
    ensures goes_on { OnOk result (GoesOn state.old state.new) }
    ensures asks { Asks state.old.modules state.new.modules (S.asked store.old) (S.asked store.new) result }
{
    match expand_literal(
        alloc,
        store,
        catalog,
        chain,
        standing,
        at,
        state,
        raw.as_slice(),
    ) {
        Err(fault) => Err(fault),
        Ok(text) => put(state, name, EntityDef::Internal(text)),
    }
}

/// Declares a general entity that is new.
fn put_entity<S: Store>(
    alloc: Global,
    store: &mut S,
    catalog: &Catalog,
    chain: &NameList,
    standing: &Standing,
    at: usize,
    state: &mut State,
    name: Name,
    def: RawDef,
) -> Result<(), Stop>
    requires chars { IsOfChars def }
    requires kept { AreChars state.old }
    ensures keeps { S.holds store.new ≡ S.holds store.old }
    ensures faults { HasCause (S.faults store.old) (S.faults store.new) (LoadFailed result) }
    ensures absences { HasCause (S.absences store.old) (S.absences store.new) (IsAbsence result) }
    ensures told { IfSome (S.holds store.old) (λ files. Moves (spec.declared_by (record { files = files; catalog = catalog.now }) chain.now standing.now at state.old name def) state.new result) }
    ensures goes_on { OnOk result (GoesOn state.old state.new) }
    ensures asks { Asks state.old.modules state.new.modules (S.asked store.old) (S.asked store.new) result }
{
    match def {
        RawDef::Value(raw) => put_value(
            alloc, store, catalog, chain, standing, at, state, name, &raw,
        ),
        RawDef::External(ids) => put(state, name, EntityDef::External(ids)),
        RawDef::Unparsed(ids, notation) => put(state, name, EntityDef::Unparsed(ids, notation)),
    }
}

fn is_bound(state: &State, name: &Name) -> bool
    ensures { result ≡ is_some (text_bound state.now.bound name.now) }
{
    state.bound.text_of(name).is_some()
}

fn is_declared(state: &State, name: &Name) -> bool
    ensures { result ≡ is_some (entity_in state.now.set name.now) }
{
    state.set.entity_of(name).is_some()
}

/// Binds or declares an entity that is read, where its name is new.
fn declare_read<S: Store>(
    alloc: Global,
    store: &mut S,
    catalog: &Catalog,
    chain: &NameList,
    standing: &Standing,
    at: usize,
    state: &mut State,
    entity: RawEntity,
) -> Result<(), Stop>
    requires chars { IsOfChars entity.def }
    requires kept { AreChars state.old }
    ensures keeps { S.holds store.new ≡ S.holds store.old }
    ensures faults { HasCause (S.faults store.old) (S.faults store.new) (LoadFailed result) }
    ensures absences { HasCause (S.absences store.old) (S.absences store.new) (IsAbsence result) }
    ensures told { IfSome (S.holds store.old) (λ files. Moves (spec.entity_new (record { files = files; catalog = catalog.now }) chain.now standing.now at state.old entity entity.parameter) state.new result) }
    ensures goes_on { OnOk result (GoesOn state.old state.new) }
    ensures asks { Asks state.old.modules state.new.modules (S.asked store.old) (S.asked store.new) result }
{
    let RawEntity {
        parameter,
        name,
        def,
    } = entity;
    if parameter {
        if is_bound(state, &name) {
            return Ok(());
        }
        return bind_entity(alloc, store, catalog, chain, standing, at, state, name, def);
    }
    if is_declared(state, &name) {
        return Ok(());
    }
    put_entity(alloc, store, catalog, chain, standing, at, state, name, def)
}

/// Declares an entity by its body, which is of Chars: it has its form (E20); a name that is there is passed over, since the
/// first declaration binds (XML 1.0, 4.2); else its value is expanded.
#[tactic(auto, unfolding(crate::specs::Reading::entity_declared), using(crate::proofs::Identifiers::entity_read_is))]
pub fn declare_entity<S: Store>(
    alloc: Global,
    store: &mut S,
    catalog: &Catalog,
    chain: &NameList,
    standing: &Standing,
    at: usize,
    state: &mut State,
    body: &Text,
) -> Result<(), Stop>
    requires chars { IsTrue (are_chars body.now) }
    requires kept { AreChars state.old }
    ensures keeps { S.holds store.new ≡ S.holds store.old }
    ensures faults { HasCause (S.faults store.old) (S.faults store.new) (LoadFailed result) }
    ensures absences { HasCause (S.absences store.old) (S.absences store.new) (IsAbsence result) }
    ensures told { IfSome (S.holds store.old) (λ files. Moves (spec.entity_declared (record { files = files; catalog = catalog.now }) chain.now standing.now at state.old body.now) state.new result) }
    ensures goes_on { OnOk result (GoesOn state.old state.new) }
    ensures asks { Asks state.old.modules state.new.modules (S.asked store.old) (S.asked store.new) result }
{
    match read_entity(alloc, body.as_slice())? {
        None => Err(refused(alloc, standing, at, numbers::MALFORMED, Details::new(alloc))),
        Some(entity) => declare_read(alloc, store, catalog, chain, standing, at, state, entity),
    }
}
