//! The reading of a text with all that it includes.

ghost use Rattle.std.specs.Prelude.{◌≡◌, ◌+◌, ◌<◌, ◌≤◌, [], IfSome, IsSome, None, OnOk, length, slice_get};
ghost use Rattle.dtd_scanner.specs.Items.{shortest};
ghost use Rattle.jats_io.specs.Causes.{HasCause};
ghost use Rattle.module_reader.specs.AskedFor.{Asks, AsksTo};
ghost use Rattle.module_reader.specs.Frames.{Advances, Ends, IsSound, Nears, Stands, Stepped, Turns, current, from, text_found};
ghost use Rattle.module_reader.specs.Moves.{AreChars};
ghost use Rattle.module_reader.specs.Endings.{LoadFailed, IsAbsence, Reads, Refuses};
ghost use Rattle.module_reader.specs.Reading as spec;

use crate::frames::{Frame, Work};
use crate::passing::{pass_declaration, pass_reference, pass_section};
use crate::refusals::Stop;
use crate::standing::Standing;
use crate::state::State;
use crate::steps::{close_section, finish_text, skip};
use crate::stops::{not_ended, refused};
use crate::texts::{ends_section, item_here, text_read};
use dtd_scanner::{Item, ItemKind, ScanFault};
use entity_catalog::Catalog;
use jats_chars::NameList;
use jats_fault::{Details, numbers};
use jats_io::Store;
use std::alloc::Global;

/// Why no item stands at a place of a text.
fn scan_stop(alloc: Global, standing: &Standing, at: usize, fault: ScanFault) -> Stop
    ensures { Refuses (spec.scan_stop standing.now at fault) result }
{
    match fault {
        ScanFault::Malformed => refused(
            alloc,
            standing,
            at,
            numbers::MALFORMED,
            Details::new(alloc),
        ),
        ScanFault::Unclosed => not_ended(alloc, standing, at),
    }
}

/// Goes over the item at the place.
fn pass<S: Store>(
    alloc: Global,
    store: &mut S,
    catalog: &Catalog,
    work: &mut Work,
    kind: ItemKind,
    next: usize,
) -> Result<(), Stop>
    requires sound { IsSound work.old }
    requires stands { Stands (current work.old) kind next }
    requires long { work.old.frame.at + shortest kind ≤ next }
    ensures keeps { S.holds store.new ≡ S.holds store.old }
    ensures faults { HasCause (S.faults store.old) (S.faults store.new) (LoadFailed result) }
    ensures absences { HasCause (S.absences store.old) (S.absences store.new) (IsAbsence result) }
    ensures told { IfSome (S.holds store.old) (λ files. Stepped (record { files = files; catalog = catalog.now }) work.old work.new result) }
    ensures advances { OnOk result (Advances work.old work.new) }
    ensures asks { Asks work.old.state.modules work.new.state.modules (S.asked store.old) (S.asked store.new) result }
{
    match kind {
        ItemKind::Reference => pass_reference(alloc, store, catalog, work, next),
        ItemKind::SectionStart => pass_section(alloc, store, catalog, work, next),
        ItemKind::ElementDecl => pass_declaration(alloc, store, catalog, work, kind, next),
        ItemKind::AttlistDecl => pass_declaration(alloc, store, catalog, work, kind, next),
        ItemKind::EntityDecl => pass_declaration(alloc, store, catalog, work, kind, next),
        ItemKind::NotationDecl => pass_declaration(alloc, store, catalog, work, kind, next),
        ItemKind::Blank => Ok(skip(work, kind, next)),
        ItemKind::Comment => Ok(skip(work, kind, next)),
        ItemKind::Pi => Ok(skip(work, kind, next)),
    }
}

/// Goes over the item at the place, or ends a section there.
fn step<S: Store>(
    alloc: Global,
    store: &mut S,
    catalog: &Catalog,
    work: &mut Work,
) -> Result<(), Stop>
    requires sound { IsSound work.old }
    requires here { work.old.frame.at < length (current work.old).text }
    ensures keeps { S.holds store.new ≡ S.holds store.old }
    ensures faults { HasCause (S.faults store.old) (S.faults store.new) (LoadFailed result) }
    ensures absences { HasCause (S.absences store.old) (S.absences store.new) (IsAbsence result) }
    ensures told { IfSome (S.holds store.old) (λ files. Stepped (record { files = files; catalog = catalog.now }) work.old work.new result) }
    ensures advances { OnOk result (Advances work.old work.new) }
    ensures asks { Asks work.old.state.modules work.new.state.modules (S.asked store.old) (S.asked store.new) result }
{
    if ends_section(work) {
        close_section(work);
        return Ok(());
    }
    match item_here(work) {
        Err(fault) => Err(scan_stop(alloc, &work.frame.standing, work.frame.at, fault)),
        Ok(Item { kind, end }) => pass(alloc, store, catalog, work, kind, end),
    }
}

/// One step, or the end of a text; false where all is done.
fn turn<S: Store>(
    alloc: Global,
    store: &mut S,
    catalog: &Catalog,
    work: &mut Work,
) -> Result<bool, Stop>
    requires { IsSound work.old }
    ensures keeps { S.holds store.new ≡ S.holds store.old }
    ensures faults { HasCause (S.faults store.old) (S.faults store.new) (LoadFailed result) }
    ensures absences { HasCause (S.absences store.old) (S.absences store.new) (IsAbsence result) }
    ensures told { IfSome (S.holds store.old) (λ files. Turns (record { files = files; catalog = catalog.now }) work.old work.new result) }
    ensures nears { Nears work.old work.new result }
    ensures asks { Asks work.old.state.modules work.new.state.modules (S.asked store.old) (S.asked store.new) result }
{
    if work.frame.at < text_read(work).len() {
        match step(alloc, store, catalog, work) {
            Err(fault) => Err(fault),
            Ok(()) => Ok(true),
        }
    } else {
        finish_text(alloc, work)
    }
}

/// Goes on until all is done.
fn run<S: Store>(
    alloc: Global,
    store: &mut S,
    catalog: &Catalog,
    work: &mut Work,
) -> Result<(), Stop>
    requires { IsSound work.old }
    ensures keeps { S.holds store.new ≡ S.holds store.old }
    ensures faults { HasCause (S.faults store.old) (S.faults store.new) (LoadFailed result) }
    ensures absences { HasCause (S.absences store.old) (S.absences store.new) (IsAbsence result) }
    ensures told { IfSome (S.holds store.old) (λ files. Ends (record { files = files; catalog = catalog.now }) work.old work.new result) }
    ensures asks { Asks work.old.state.modules work.new.state.modules (S.asked store.old) (S.asked store.new) result }
{
    let mut more = true;
    while more {
        match turn(alloc, store, catalog, work) {
            Err(fault) => return Err(fault),
            Ok(goes_on) => more = goes_on,
        }
    }
    Ok(())
}

/// What the text of the first module does to a reading, which stands there, with all that it includes.
pub fn read_text<S: Store>(
    alloc: Global,
    store: &mut S,
    catalog: &Catalog,
    state: State,
    standing: Standing,
) -> Result<State, Stop>
    requires entry { IsSome (slice_get state.modules 0) }
    requires chars { AreChars state }
    ensures keeps { S.holds store.new ≡ S.holds store.old }
    ensures faults { HasCause (S.faults store.old) (S.faults store.new) (LoadFailed result) }
    ensures absences { HasCause (S.absences store.old) (S.absences store.new) (IsAbsence result) }
    ensures told { IfSome (S.holds store.old) (λ files. Reads (from (record { files = files; catalog = catalog.now }) (record { text = text_found (slice_get state.modules 0); names = []; standing = standing; at = 0; sections = [] }) state) result) }
    ensures asks { AsksTo state.modules (S.asked store.old) (S.asked store.new) result }
{
    let frame = Frame {
        text: None,
        standing,
        at: 0,
        sections: Vec::new(alloc),
    };
    let mut work = Work {
        state,
        frame,
        waiting: Vec::new(alloc),
        names: NameList::new(alloc),
    };
    match run(alloc, store, catalog, &mut work) {
        Err(fault) => Err(fault),
        Ok(()) => Ok(work.state),
    }
}
