//! Sets from a store.

ghost use Rattle.std.specs.Prelude.{◌≡◌, [], IfOk, OnOk, Ok, IfSome, IsSome, None, slice_get};
ghost use Rattle.jats_io.specs.Causes.{HasCause};
ghost use Rattle.decl_set.specs.Asked.{IsKept};
ghost use Rattle.decl_set.specs.Declaring.{end_fault};
ghost use Rattle.module_reader.specs.AskedFor.{AsksAll, AsksFor, AsksFrom, AsksSome};
ghost use Rattle.module_reader.specs.Moves.{AreChars};
ghost use Rattle.module_reader.specs.Reading.{module_read};
ghost use Rattle.module_reader.specs.declared.state.State.{State};
ghost use Rattle.module_reader.specs.Endings.{LoadFailed, IsAbsence, Reads, Refuses};
ghost use Rattle.module_reader.specs.Outcomes as outcome;
ghost use Rattle.module_reader.specs.Sets as spec;
ghost use Rattle.module_reader.specs.Sources.{started};
ghost use Rattle.module_reader.specs.Stops.{decl_stop as stop_of, module_text};
ghost use Rattle.module_reader.specs.Frames.{from, text_found};
ghost use Rattle.module_reader.specs.declared.refusals.Stop.TheVariants as stop;
ghost use Rattle.decl_set.specs.declared.faults.DeclFault.TheVariants as decl;

use crate::ReadFault;
use crate::loading::load_module;
use crate::machine::read_text;
use crate::refusals::{Stop, handed_out};
use crate::standing::Standing;
use crate::state::{Modules, State};
use crate::stops::decl_stop;
use decl_set::{DeclFault, DeclSet};
use entity_catalog::Catalog;
use jats_chars::{NoMemory, Text};
use jats_io::Store;
use pe_expansion::Bindings;
use std::alloc::Global;

/// A reading before its first module is loaded.
fn begun(alloc: Global) -> State
    ensures { result ≡ started }
{
    State {
        bound: Bindings::new(alloc),
        set: DeclSet::new(alloc),
        spent: 0,
        modules: Modules::new(alloc),
        bytes: 0,
    }
}

/// The standing of the text of a module.
fn module_standing(alloc: Global, name: &Text) -> Result<Standing, NoMemory>
    ensures { IfOk result (λ c. c ≡ module_text name.now) }
{
    let inmost = name.copy(alloc)?;
    Ok(Standing {
        inmost,
        inner: None,
    })
}

/// Why the set that is read is none.
fn end_stop(alloc: Global, entry: &Text, fault: DeclFault) -> Stop
    ensures refuses { Refuses (stop_of (module_text entry.now) 0 fault) result }
    ensures memory { fault ≡ decl.NoMemory → result ≡ stop.NoMemory }
{
    match module_standing(alloc, entry) {
        Err(_) => Stop::NoMemory,
        Ok(standing) => decl_stop(alloc, &standing, 0, fault),
    }
}

/// A set that is whole, which keeps its constraints. The elements that its contents name are looked up once, for those who go
/// over steps; where there is no memory for that, the set answers the same by names.
fn kept(mut set: DeclSet) -> DeclSet
    ensures same { result ≡ set }
    ensures kept { IsKept result }
{
    let _ = set.number_children();
    let _count = set.count();
    set
}

/// The set, where the tests after the last declaration find no fault.
fn finished(alloc: Global, entry: &Text, set: DeclSet) -> Result<DeclSet, Stop>
    ensures told { Reads (spec.finished_by entry.now set (end_fault set)) result }
    ensures load { LoadFailed result → ⊥ }
    ensures absence { IsAbsence result → ⊥ }
    ensures sound { IfOk result (λ set. IsKept set × (end_fault set ≡ None)) }
{
    match set.finish() {
        Ok(()) => Ok(kept(set)),
        Err(fault) => Err(end_stop(alloc, entry, fault)),
    }
}

/// The set that the entry stands for, which is loaded.
fn read_entry<S: Store>(
    alloc: Global,
    store: &mut S,
    catalog: &Catalog,
    entry: &Text,
    state: State,
) -> Result<DeclSet, Stop>
    requires entry { IsSome (slice_get state.modules 0) }
    requires chars { AreChars state }
    ensures keeps { S.holds store.new ≡ S.holds store.old }
    ensures faults { HasCause (S.faults store.old) (S.faults store.new) (LoadFailed result) }
    ensures absences { HasCause (S.absences store.old) (S.absences store.new) (IsAbsence result) }
    ensures told { IfSome (S.holds store.old) (λ files. Reads (spec.entry_read (record { files = files; catalog = catalog.now }) entry.now (state, text_found (slice_get state.modules 0))) result) }
    ensures sound { IfOk result (λ set. IsKept set × (end_fault set ≡ None)) }
    ensures asks { AsksSome state.modules (S.asked store.old) (S.asked store.new) result }
    ensures all { IfSome (S.holds store.old) (λ files. OnOk result ((t : State) × (module_read (record { files = files; catalog = catalog.now }) entry.now state (text_found (slice_get state.modules 0)) ≡ Ok t) × AsksFor state.modules t.modules (S.asked store.old) (S.asked store.new))) }
{
    let standing = module_standing(alloc, entry)?;
    match read_text(alloc, store, catalog, state, standing) {
        Err(fault) => Err(fault),
        Ok(state) => finished(alloc, entry, state.set),
    }
}

/// The set that the entry stands for.
fn set_of_entry<S: Store>(
    alloc: Global,
    store: &mut S,
    catalog: &Catalog,
    entry: &Text,
) -> Result<DeclSet, Stop>
    ensures keeps { S.holds store.new ≡ S.holds store.old }
    ensures faults { HasCause (S.faults store.old) (S.faults store.new) (LoadFailed result) }
    ensures absences { HasCause (S.absences store.old) (S.absences store.new) (IsAbsence result) }
    ensures told { IfSome (S.holds store.old) (λ files. Reads (spec.set_from (record { files = files; catalog = catalog.now }) entry.now) result) }
    ensures sound { IfOk result (λ set. IsKept set × (end_fault set ≡ None)) }
    ensures asks { AsksFrom (S.asked store.old) (S.asked store.new) entry.now result }
    ensures all { IfSome (S.holds store.old) (λ files. OnOk result (AsksAll (spec.read_from (record { files = files; catalog = catalog.now }) entry.now) (S.asked store.old) (S.asked store.new))) }
{
    let mut state = begun(alloc);
    match load_module(alloc, store, &mut state, entry) {
        Err(fault) => Err(fault),
        Ok(_) => read_entry(alloc, store, catalog, entry, state),
    }
}

/// The set that the modules of the store stand for, from the entry on, with a catalog.
///
/// `Refused` has the first fault in reading order, with the module and the place that it is at: see `specs/Stops.antt` for
/// its number, which stands in the table, and its details. `LoadFailed` comes only where the store's faults rose in this
/// call, and E10 only where its absences did. A set that is given keeps its constraints, and has no fault after its last
/// declaration, whether the store tells what it holds or not.
pub fn read_set<S: Store>(
    alloc: Global,
    store: &mut S,
    catalog: &Catalog,
    entry: &Text,
) -> Result<DeclSet, ReadFault>
    ensures keeps { S.holds store.new ≡ S.holds store.old }
    ensures faults { HasCause (S.faults store.old) (S.faults store.new) (outcome.LoadFailed result) }
    ensures absences { HasCause (S.absences store.old) (S.absences store.new) (outcome.IsAbsence result) }
    ensures told { IfSome (S.holds store.old) (λ files. outcome.Reads (spec.set_from (record { files = files; catalog = catalog.now }) entry.now) result) }
    ensures sound { IfOk result (λ set. IsKept set × (end_fault set ≡ None)) }
    ensures numbered { outcome.IsNumbered result }
    ensures asks { outcome.AsksFrom (S.asked store.old) (S.asked store.new) entry.now result }
    ensures all { IfSome (S.holds store.old) (λ files. OnOk result (AsksAll (spec.read_from (record { files = files; catalog = catalog.now }) entry.now) (S.asked store.old) (S.asked store.new))) }
{
    match set_of_entry(alloc, store, catalog, entry) {
        Ok(set) => Ok(set),
        Err(stop) => Err(handed_out(stop)),
    }
}
