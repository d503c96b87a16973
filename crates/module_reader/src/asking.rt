//! What the bindings are asked, once the texts that are wanted are loaded.

ghost use Rattle.std.specs.Prelude.{◌≡◌, ◌≤◌, Err, IfNone, IfOk, IfSome, IsTrue, OnErr, OnOk};
ghost use Rattle.jats_chars.specs.Names.{is_name};
ghost use Rattle.jats_io.specs.Causes.{HasCause};
ghost use Rattle.pe_expansion.specs.Opening as opening;
ghost use Rattle.pe_expansion.specs.declared.faults.PeFault.TheVariants as pe;
ghost use Rattle.module_reader.specs.AskedFor.{Asks};
ghost use Rattle.module_reader.specs.declared.refusals.Stop.TheVariants as memory;
ghost use Rattle.module_reader.specs.Asking.{HasText, IsOn, IsOpened, IsWanted, IsWritten, OpensIn, OpensOnce, Turns, WritesOnce, stopped, written};
ghost use Rattle.module_reader.specs.Counting.{Counts};
ghost use Rattle.module_reader.specs.Moves.{GoesOn, Gives, LoadsOnly, Moves, StaysOfChars, counted};
ghost use Rattle.module_reader.specs.Endings.{LoadFailed, IsAbsence};
ghost use Rattle.module_reader.specs.Reading as reading;
ghost use Rattle.module_reader.specs.Sources.{asking};

use crate::loading::load_outer;
use crate::refusals::Stop;
use crate::standing::Standing;
use crate::state::State;
use crate::stops::{pe_stop, refused};
use entity_catalog::Catalog;
use jats_chars::{NameList, Text};
use jats_fault::{Details, numbers};
use jats_io::Store;
use pe_expansion::{Manner, Opened, PausedExpansion, PeFault, Progress, opening};
use std::alloc::Global;
use std::mem;

/// What stopped a question: the text that is wanted is loaded, or the reading stops.
fn want<S: Store>(
    alloc: Global,
    store: &mut S,
    catalog: &Catalog,
    standing: &Standing,
    at: usize,
    state: &mut State,
    fault: PeFault,
) -> Result<(), Stop>
    requires wanted { IsWanted state.old.bound fault }
    ensures keeps { S.holds store.new ≡ S.holds store.old }
    ensures faults { HasCause (S.faults store.old) (S.faults store.new) (LoadFailed result) }
    ensures absences { HasCause (S.absences store.old) (S.absences store.new) (IsAbsence result) }
    ensures memory { fault ≡ pe.NoMemory → result ≡ Err memory.NoMemory }
    ensures told { IfSome (S.holds store.old) (λ files. Moves (stopped (record { files = files; catalog = catalog.now }) standing.now at state.old fault) state.new result) }
    ensures goes_on { OnOk result (GoesOn state.old state.new) }
    ensures loads { OnOk result (LoadsOnly state.old state.new) }
    ensures asks { Asks state.old.modules state.new.modules (S.asked store.old) (S.asked store.new) result }
{
    match fault {
        PeFault::NotLoaded(name) => {
            load_outer(alloc, store, catalog, standing, at, state, &name)
        }
        fault => Err(pe_stop(alloc, standing, at, fault)),
    }
}

/// What a text stands for, by the texts that are loaded: its expansion goes on.
fn write_once(
    alloc: Global,
    manner: Manner,
    chain: &NameList,
    state: &mut State,
    paused: &mut PausedExpansion,
    text: &[char],
) -> Result<Text, PeFault>
    requires { IsOn manner chain.now text.now state.old paused.old }
    ensures writes { WritesOnce (written manner state.old.bound chain.now state.old.spent text.now) state.old state.new result }
    ensures on { OnErr result (IsOn manner chain.now text.now state.new paused.new) }
{
    let again = PausedExpansion::new(alloc, manner, state.spent);
    let before = mem::replace(paused, again);
    match before.resume(alloc, &state.bound, chain, text) {
        Err(fault) => Err(fault),
        Ok(Progress::Waits(name, rest)) => {
            *paused = rest;
            Err(PeFault::NotLoaded(name))
        }
        Ok(Progress::Done(text, spent)) => {
            state.spent = spent;
            Ok(text)
        }
    }
}

/// What a text stands for, or None where a text that is wanted was loaded.
fn write_turn<S: Store>(
    alloc: Global,
    store: &mut S,
    catalog: &Catalog,
    chain: &NameList,
    standing: &Standing,
    at: usize,
    state: &mut State,
    manner: Manner,
    paused: &mut PausedExpansion,
    text: &[char],
) -> Result<Option<Text>, Stop>
    requires { IsOn manner chain.now text.now state.old paused.old }
    ensures keeps { S.holds store.new ≡ S.holds store.old }
    ensures faults { HasCause (S.faults store.old) (S.faults store.new) (LoadFailed result) }
    ensures absences { HasCause (S.absences store.old) (S.absences store.new) (IsAbsence result) }
    ensures answer { IfOk result (λ o. IfSome o (λ t. IsWritten (written manner state.old.bound chain.now state.old.spent text.now) state.old state.new t)) }
    ensures told { IfSome (S.holds store.old) (λ files. Turns (record { files = files; catalog = catalog.now }) standing.now at (written manner state.old.bound chain.now state.old.spent text.now) state.old state.new result) }
    ensures goes_on { OnOk result (GoesOn state.old state.new) }
    ensures on { IfOk result (λ o. IfNone o (IsOn manner chain.now text.now state.new paused.new)) }
    ensures asks { Asks state.old.modules state.new.modules (S.asked store.old) (S.asked store.new) result }
{
    match write_once(alloc, manner, chain, state, paused, text) {
        Ok(text) => Ok(Some(text)),
        Err(fault) => match want(alloc, store, catalog, standing, at, state, fault) {
            Err(fault) => Err(fault),
            Ok(()) => Ok(None),
        },
    }
}

/// What a text stands for. The texts of outer entities are loaded where they are wanted.
fn write<S: Store>(
    alloc: Global,
    store: &mut S,
    catalog: &Catalog,
    chain: &NameList,
    standing: &Standing,
    at: usize,
    state: &mut State,
    manner: Manner,
    text: &[char],
) -> Result<Text, Stop>
    ensures keeps { S.holds store.new ≡ S.holds store.old }
    ensures faults { HasCause (S.faults store.old) (S.faults store.new) (LoadFailed result) }
    ensures absences { HasCause (S.absences store.old) (S.absences store.new) (IsAbsence result) }
    ensures told { IfSome (S.holds store.old) (λ files. Gives (counted (asking (record { files = files; catalog = catalog.now }) standing.now at (λ t. written manner t.bound chain.now t.spent text.now) state.old)) state.new result) }
    ensures goes_on { OnOk result (GoesOn state.old state.new) }
    ensures chars { StaysOfChars state.old text.now result }
    ensures asks { Asks state.old.modules state.new.modules (S.asked store.old) (S.asked store.new) result }
{
    let mut paused = PausedExpansion::new(alloc, manner, state.spent);
    let mut left = state.bound.len();
    'questions: loop {
        match write_turn(
            alloc,
            store,
            catalog,
            chain,
            standing,
            at,
            state,
            manner,
            &mut paused,
            text,
        ) {
            Err(fault) => return Err(fault),
            Ok(Some(text)) => return Ok(text),
            Ok(None) => {}
        }
        if left == 0 {
            return Err(refused(alloc, standing, at, numbers::MALFORMED, Details::new(alloc)));
        }
        left -= 1;
    }
}

/// The entity of a reference, by the texts that are loaded.
fn open_once(
    alloc: Global,
    chain: &NameList,
    state: &mut State,
    name: &[char],
) -> Result<Opened, PeFault>
    requires { IsTrue (is_name name.now) }
    ensures { OpensOnce (opening.opening state.old.bound chain.now state.old.spent name.now) state.old state.new name.now result }
{
    match opening(alloc, &state.bound, chain, name, state.spent) {
        Err(fault) => Err(fault),
        Ok(opened) => {
            state.spent = opened.spent;
            Ok(opened)
        }
    }
}

/// The entity of a reference, or None where a text that is wanted was loaded.
fn open_turn<S: Store>(
    alloc: Global,
    store: &mut S,
    catalog: &Catalog,
    chain: &NameList,
    standing: &Standing,
    at: usize,
    state: &mut State,
    name: &[char],
) -> Result<Option<Opened>, Stop>
    requires { IsTrue (is_name name.now) }
    ensures keeps { S.holds store.new ≡ S.holds store.old }
    ensures faults { HasCause (S.faults store.old) (S.faults store.new) (LoadFailed result) }
    ensures absences { HasCause (S.absences store.old) (S.absences store.new) (IsAbsence result) }
    ensures answer { IfOk result (λ o. IfSome o (λ x. IsOpened (opening.opening state.old.bound chain.now state.old.spent name.now) state.old state.new name.now x)) }
    ensures told { IfSome (S.holds store.old) (λ files. Turns (record { files = files; catalog = catalog.now }) standing.now at (opening.opening state.old.bound chain.now state.old.spent name.now) state.old state.new result) }
    ensures goes_on { OnOk result (GoesOn state.old state.new) }
    ensures asks { Asks state.old.modules state.new.modules (S.asked store.old) (S.asked store.new) result }
{
    match open_once(alloc, chain, state, name) {
        Ok(opened) => Ok(Some(opened)),
        Err(fault) => match want(alloc, store, catalog, standing, at, state, fault) {
            Err(fault) => Err(fault),
            Ok(()) => Ok(None),
        },
    }
}

/// The body of a declaration without its references to parameter entities, where the names of the chain are open. The texts
/// of outer entities are loaded where they are wanted. The count of included characters is that of the state.
pub fn expand_body<S: Store>(
    alloc: Global,
    store: &mut S,
    catalog: &Catalog,
    chain: &NameList,
    standing: &Standing,
    at: usize,
    state: &mut State,
    body: &[char],
) -> Result<Text, Stop>
    ensures keeps { S.holds store.new ≡ S.holds store.old }
    ensures faults { HasCause (S.faults store.old) (S.faults store.new) (LoadFailed result) }
    ensures absences { HasCause (S.absences store.old) (S.absences store.new) (IsAbsence result) }
    ensures told { IfSome (S.holds store.old) (λ files. Gives (counted (reading.expanded (record { files = files; catalog = catalog.now }) chain.now standing.now at state.old body.now)) state.new result) }
    ensures goes_on { OnOk result (GoesOn state.old state.new) }
    ensures chars { StaysOfChars state.old body.now result }
    ensures asks { Asks state.old.modules state.new.modules (S.asked store.old) (S.asked store.new) result }
{
    write(
        alloc,
        store,
        catalog,
        chain,
        standing,
        at,
        state,
        Manner::Body,
        body,
    )
}

/// What an entity value stands for, where the names of the chain are open. The texts of outer entities are loaded where they
/// are wanted. The count of included characters is that of the state.
pub fn expand_literal<S: Store>(
    alloc: Global,
    store: &mut S,
    catalog: &Catalog,
    chain: &NameList,
    standing: &Standing,
    at: usize,
    state: &mut State,
    quoted: &[char],
) -> Result<Text, Stop>
    ensures keeps { S.holds store.new ≡ S.holds store.old }
    ensures faults { HasCause (S.faults store.old) (S.faults store.new) (LoadFailed result) }
    ensures absences { HasCause (S.absences store.old) (S.absences store.new) (IsAbsence result) }
    ensures told { IfSome (S.holds store.old) (λ files. Gives (counted (reading.valued (record { files = files; catalog = catalog.now }) chain.now standing.now at state.old quoted.now)) state.new result) }
    ensures goes_on { OnOk result (GoesOn state.old state.new) }
    ensures chars { StaysOfChars state.old quoted.now result }
    ensures asks { Asks state.old.modules state.new.modules (S.asked store.old) (S.asked store.new) result }
{
    write(
        alloc,
        store,
        catalog,
        chain,
        standing,
        at,
        state,
        Manner::Literal,
        quoted,
    )
}

/// The entity of a reference whose text is read by itself, where the names of the chain are open. Its text is loaded where it
/// is wanted. The count of included characters is that of the state.
pub fn open_entity<S: Store>(
    alloc: Global,
    store: &mut S,
    catalog: &Catalog,
    chain: &NameList,
    standing: &Standing,
    at: usize,
    state: &mut State,
    name: &[char],
) -> Result<Opened, Stop>
    requires { IsTrue (is_name name.now) }
    ensures keeps { S.holds store.new ≡ S.holds store.old }
    ensures faults { HasCause (S.faults store.old) (S.faults store.new) (LoadFailed result) }
    ensures absences { HasCause (S.absences store.old) (S.absences store.new) (IsAbsence result) }
    ensures told { IfSome (S.holds store.old) (λ files. OpensIn (asking (record { files = files; catalog = catalog.now }) standing.now at (λ t. opening.opening t.bound chain.now t.spent name.now) state.old) state.new name.now result) }
    ensures found { IfOk result (λ o. HasText state.new.bound o.number name.now) }
    ensures counts { IfOk result (λ o. Counts chain.now state.old.spent state.new o.number) }
    ensures goes_on { OnOk result (GoesOn state.old state.new) }
    ensures asks { Asks state.old.modules state.new.modules (S.asked store.old) (S.asked store.new) result }
{
    let mut left = state.bound.len();
    'questions: loop {
        match open_turn(alloc, store, catalog, chain, standing, at, state, name) {
            Err(fault) => return Err(fault),
            Ok(Some(opened)) => return Ok(opened),
            Ok(None) => {}
        }
        if left == 0 {
            return Err(refused(alloc, standing, at, numbers::MALFORMED, Details::new(alloc)));
        }
        left -= 1;
    }
}
