//! Modules, each loaded once, and the texts of outer entities.

ghost use Rattle.std.specs.Prelude.{◌≡◌, ◌+◌, ◌≤◌, ◌<◌, ◌^◌, ◌∷◌, ◌++◌, [], Ok, IfOk, IfSome, IsSome, IsTrue, OnOk, None, Some, ℕ, List, nat_lt, length, option_map, option_and_then, slice_get, bytes_eq};
ghost use Rattle.std.specs.Map.{lookup};
ghost use Rattle.std.specs.Option.{option_copied};
ghost use Rattle.decl_set.specs.Asked.{are_chars};
ghost use Rattle.entity_catalog.specs.Named.{Named};
ghost use Rattle.entity_catalog.specs.Resolution as resolution;
ghost use Rattle.jats_chars.specs.Decoded.{text_of};
ghost use Rattle.jats_io.specs.Causes.{HasCause};
ghost use Rattle.pe_expansion.specs.Bound.{IsOuter, text_bound, text_in};
ghost use Rattle.module_reader.specs.AskedFor.{Asks, AsksOne};
ghost use Rattle.module_reader.specs.Loading.{Adds, FindsModule, LoadsModule, IsModule, NamesFile, giving};
ghost use Rattle.module_reader.specs.Moves.{GoesOn, LoadsOnly, Moves};
ghost use Rattle.module_reader.specs.Endings.{LoadFailed, IsAbsence, Reads, Refuses};
ghost use Rattle.module_reader.specs.Sources as spec;
ghost use Rattle.module_reader.specs.Stops.{refused as refused_at};
ghost use Rattle.jats_fault.specs.declared.numbers.TheConstants as number;

use crate::refusals::Stop;
use crate::standing::Standing;
use crate::state::{Modules, State};
use crate::stops::{decode_stop, refusal, refused};
use entity_catalog::{Catalog, Ids, ResolveFault, resolve};
use jats_chars::limits::{MODULE_BYTES, MODULES, SET_BYTES};
use jats_chars::{Name, NoMemory, Text, decode};
use jats_fault::{Details, numbers};
use jats_io::{LoadFault, Loaded, Store};
use pe_expansion::PeText;
use std::alloc::Global;

impl Modules {
    /// The text of the module at a place counted from 0, or None exactly where the place is the length or more.
    pub fn text_at(&self, number: usize) -> Option<&Text>
        ensures { option_copied result ≡ option_map (λ m. m.1) (slice_get self.now number) }
    {
        match self.texts.get_index(number) {
            None => None,
            Some((_, text)) => Some(text),
        }
    }

    /// How many modules are loaded.
    pub fn len(&self) -> usize
        ensures { result ≡ length self.now }
    {
        self.texts.len()
    }

    /// The place of a module, or None exactly where none has this name.
    fn number_of(&self, name: &Text) -> Option<usize>
        ensures { FindsModule self.now name.now result }
    {
        match self.texts.get_full(name) {
            None => None,
            Some((number, _, _)) => Some(number),
        }
    }

    /// Appends a module, whose name none has.
    fn add(&mut self, name: Text, text: Text) -> Result<(), NoMemory>
        requires { lookup (bytes_eq name) self.old ≡ None }
        ensures { OnOk result (self.new ≡ self.old ++ (name, text) ∷ []) }
    {
        self.texts.insert(name, text)?;
        Ok(())
    }
}

/// The text of the bytes of a file.
#[tactic(auto, using(crate::proofs::DecodedChars::decoded_chars))]
pub fn decoded(alloc: Global, name: &Text, bytes: &[u8]) -> Result<Text, Stop>
    ensures told { Reads (spec.decoded_by name.now (λ t. Ok t) (text_of bytes.now)) result }
    ensures chars { IfOk result (λ t. IsTrue (are_chars t)) }
    ensures load { LoadFailed result → ⊥ }
    ensures absence { IsAbsence result → ⊥ }
{
    match decode(alloc, bytes) {
        Ok(text) => Ok(text),
        Err(fault) => Err(decode_stop(alloc, name, fault)),
    }
}

/// Whether modules of so many bytes, and one more, are too many bytes together.
fn is_over(bytes: u64, more: usize) -> bool
    ensures { result ≡ nat_lt 33554432 (bytes + more) }
{
    bytes > SET_BYTES || more as u64 > SET_BYTES - bytes
}

/// Appends a module to the state, with the count of its bytes.
fn keep_module(
    alloc: Global,
    state: &mut State,
    name: &Text,
    size: usize,
    text: Text,
) -> Result<usize, NoMemory>
    requires new { lookup (bytes_eq name.now) state.old.modules ≡ None }
    requires room { state.old.bytes + size < 2 ^ 64 }
    ensures number { IfOk result (λ k. k ≡ length state.old.modules) }
    ensures keeps { OnOk result (state.new ≡ record state.old { modules = state.old.modules ++ (name.now, text) ∷ []; bytes = state.old.bytes + size }) }
{
    let number = state.modules.len();
    state.modules.add(name.copy(alloc)?, text)?;
    state.bytes += size as u64;
    Ok(number)
}

/// Appends the module of these bytes.
fn add_module(alloc: Global, state: &mut State, name: &Text, bytes: &[u8]) -> Result<usize, Stop>
    requires new { lookup (bytes_eq name.now) state.old.modules ≡ None }
    ensures told { LoadsModule (spec.measured state.old name.now bytes.now) state.new name.now result }
    ensures adds { IfOk result (λ k. Adds state.old state.new name.now k) }
    ensures load { LoadFailed result → ⊥ }
    ensures absence { IsAbsence result → ⊥ }
{
    if bytes.len() > MODULE_BYTES {
        return Err(refusal(alloc, numbers::MODULE_LONG, name, 0, Details::new(alloc)));
    }
    if is_over(state.bytes, bytes.len()) {
        return Err(refusal(alloc, numbers::SET_OVER, name, 0, Details::new(alloc)));
    }
    match decoded(alloc, name, bytes) {
        Err(fault) => Err(fault),
        Ok(text) => match keep_module(alloc, state, name, bytes.len(), text) {
            Err(_) => Err(Stop::NoMemory),
            Ok(number) => Ok(number),
        },
    }
}

/// Loads a module that is not loaded yet.
#[tactic(auto, unfolding(crate::specs::Sources::new_module))]
fn load_new<S: Store>(
    alloc: Global,
    store: &mut S,
    state: &mut State,
    name: &Text,
) -> Result<usize, Stop>
    requires new { lookup (bytes_eq name.now) state.old.modules ≡ None }
    ensures keeps { S.holds store.new ≡ S.holds store.old }
    ensures faults { HasCause (S.faults store.old) (S.faults store.new) (LoadFailed result) }
    ensures absences { HasCause (S.absences store.old) (S.absences store.new) (IsAbsence result) }
    ensures told { IfSome (S.holds store.old) (λ files. (named : Named) → LoadsModule (spec.new_module (record { files = files; catalog = named }) state.old name.now) state.new name.now result) }
    ensures adds { IfOk result (λ k. Adds state.old state.new name.now k) }
    ensures one { AsksOne state.old.modules (S.asked store.old) (S.asked store.new) name.now result }
    ensures asks { Asks state.old.modules state.new.modules (S.asked store.old) (S.asked store.new) result }
{
    if state.modules.len() >= MODULES {
        return Err(refusal(alloc, numbers::SET_OVER, name, 0, Details::new(alloc)));
    }
    match store.load(alloc, name, MODULE_BYTES) {
        Err(LoadFault::Failed) => Err(Stop::LoadFailed),
        Err(LoadFault::NoMemory) => Err(Stop::NoMemory),
        Ok(Loaded::Absent) => Err(refusal(
            alloc,
            numbers::MODULE_ABSENT,
            name,
            0,
            Details::new(alloc),
        )),
        Ok(Loaded::Bytes(bytes)) => add_module(alloc, state, name, bytes.as_slice()),
    }
}

/// The place of the module of this name, which is loaded, or is loaded now.
pub fn load_module<S: Store>(
    alloc: Global,
    store: &mut S,
    state: &mut State,
    name: &Text,
) -> Result<usize, Stop>
    ensures keeps { S.holds store.new ≡ S.holds store.old }
    ensures faults { HasCause (S.faults store.old) (S.faults store.new) (LoadFailed result) }
    ensures absences { HasCause (S.absences store.old) (S.absences store.new) (IsAbsence result) }
    ensures told { IfSome (S.holds store.old) (λ files. (named : Named) → LoadsModule (spec.module_of (record { files = files; catalog = named }) state.old name.now) state.new name.now result) }
    ensures found { IfOk result (λ k. IsModule state.new.modules k name.now) }
    ensures within { IfOk result (λ k. k ≤ length state.old.modules) }
    ensures bound { OnOk result (state.new.bound ≡ state.old.bound) }
    ensures spent { OnOk result (state.new.spent ≡ state.old.spent) }
    ensures goes_on { OnOk result (GoesOn state.old state.new) }
    ensures one { AsksOne state.old.modules (S.asked store.old) (S.asked store.new) name.now result }
    ensures asks { Asks state.old.modules state.new.modules (S.asked store.old) (S.asked store.new) result }
{
    match state.modules.number_of(name) {
        Some(number) => Ok(number),
        None => load_new(alloc, store, state, name),
    }
}

/// The system identifier.
fn system_of(alloc: Global, ids: &Ids) -> Result<Text, NoMemory>
    ensures { IfOk result (λ t. t ≡ spec.system_of ids.now) }
{
    match ids {
        Ids::System(system) => system.copy(alloc),
        Ids::Public(_, system) => system.copy(alloc),
        Ids::PublicOnly(_) => Ok(Text::new(alloc)),
    }
}

/// The refusal of an identifier that leaves the folder.
fn escapes(alloc: Global, standing: &Standing, at: usize, ids: &Ids) -> Stop
    ensures { Refuses (refused_at standing.now at number.PATH_ESCAPES (spec.system_of ids.now ∷ [])) result }
{
    match system_of(alloc, ids) {
        Err(_) => Stop::NoMemory,
        Ok(system) => {
            let mut details = Details::new(alloc);
            details.add(system);
            refused(alloc, standing, at, numbers::PATH_ESCAPES, details)
        }
    }
}

/// The file that an external identifier names.
fn file_of(
    alloc: Global,
    catalog: &Catalog,
    base: &Text,
    ids: &Ids,
) -> Result<Option<Text>, NoMemory>
    ensures { IfOk result (λ o. o ≡ resolution.resolve catalog.now base.now ids.now) }
{
    if let Ids::PublicOnly(_) = ids {
        return Ok(None);
    }
    match resolve(alloc, catalog, base, ids) {
        Ok(file) => Ok(Some(file)),
        Err(ResolveFault::PathEscapes) => Ok(None),
        Err(ResolveFault::NoMemory) => Err(NoMemory),
    }
}

/// The file whose text an outer entity is to be given, or None where the name is that of no outer entity.
#[tactic(auto, unfolding(crate::specs::Sources::loaded))]
fn file_wanted(
    alloc: Global,
    catalog: &Catalog,
    standing: &Standing,
    at: usize,
    state: &State,
    name: &Name,
) -> Result<Option<Text>, Stop>
    ensures told { (files : spec.Files) → NamesFile (record { files = files; catalog = catalog.now }) (spec.loaded (record { files = files; catalog = catalog.now }) standing.now at state.now name.now) state.now name.now result }
    ensures load { LoadFailed result → ⊥ }
    ensures absence { IsAbsence result → ⊥ }
{
    match state.bound.text_of(name) {
        None => Ok(None),
        Some(PeText::Inner(_)) => Ok(None),
        Some(PeText::Outer { ids, base, .. }) => match file_of(alloc, catalog, base, ids) {
            Err(_) => Err(Stop::NoMemory),
            Ok(None) => Err(escapes(alloc, standing, at, ids)),
            Ok(Some(file)) => Ok(Some(file)),
        },
    }
}

/// Gives an outer entity the text of a module.
fn give_text(alloc: Global, state: &mut State, number: usize, name: &Name) -> Result<(), NoMemory>
    requires outer { IsOuter (text_bound state.old.bound name.now) }
    requires there { IsSome (slice_get state.old.modules number) }
    ensures { OnOk result ((file text : List ℕ) → slice_get state.old.modules number ≡ Some (file, text) → state.new ≡ spec.given name.now (state.old, text)) }
{
    match state.modules.text_at(number) {
        None => unreachable!(),
        Some(text) => {
            let text = text.copy(alloc)?;
            state.bound.set_outer(name, text);
            Ok(())
        }
    }
}

/// Loads a module, and gives an outer entity its text.
fn load_file<S: Store>(
    alloc: Global,
    store: &mut S,
    state: &mut State,
    file: &Text,
    name: &Name,
) -> Result<(), Stop>
    requires outer { IsOuter (text_bound state.old.bound name.now) }
    requires wanted { option_and_then text_in (text_bound state.old.bound name.now) ≡ None }
    ensures keeps { S.holds store.new ≡ S.holds store.old }
    ensures faults { HasCause (S.faults store.old) (S.faults store.new) (LoadFailed result) }
    ensures absences { HasCause (S.absences store.old) (S.absences store.new) (IsAbsence result) }
    ensures told { IfSome (S.holds store.old) (λ files. (named : Named) → Moves (giving (record { files = files; catalog = named }) state.old file.now name.now) state.new result) }
    ensures goes_on { OnOk result (GoesOn state.old state.new) }
    ensures loads { OnOk result (LoadsOnly state.old state.new) }
    ensures asks { Asks state.old.modules state.new.modules (S.asked store.old) (S.asked store.new) result }
{
    match load_module(alloc, store, state, file) {
        Err(fault) => Err(fault),
        Ok(number) => match give_text(alloc, state, number, name) {
            Err(_) => Err(Stop::NoMemory),
            Ok(()) => Ok(()),
        },
    }
}

/// Loads the text of an outer entity that has none: its identifier names a file, which is a module that is loaded, or is
/// loaded now.
pub fn load_outer<S: Store>(
    alloc: Global,
    store: &mut S,
    catalog: &Catalog,
    standing: &Standing,
    at: usize,
    state: &mut State,
    name: &Name,
) -> Result<(), Stop>
    requires wanted { option_and_then text_in (text_bound state.old.bound name.now) ≡ None }
    ensures keeps { S.holds store.new ≡ S.holds store.old }
    ensures faults { HasCause (S.faults store.old) (S.faults store.new) (LoadFailed result) }
    ensures absences { HasCause (S.absences store.old) (S.absences store.new) (IsAbsence result) }
    ensures told { IfSome (S.holds store.old) (λ files. Moves (spec.loaded (record { files = files; catalog = catalog.now }) standing.now at state.old name.now) state.new result) }
    ensures goes_on { OnOk result (GoesOn state.old state.new) }
    ensures loads { OnOk result (LoadsOnly state.old state.new) }
    ensures asks { Asks state.old.modules state.new.modules (S.asked store.old) (S.asked store.new) result }
{
    match file_wanted(alloc, catalog, standing, at, state, name) {
        Err(fault) => Err(fault),
        Ok(None) => Ok(()),
        Ok(Some(file)) => load_file(alloc, store, state, &file, name),
    }
}
