//! Steps of a reading at declarations, references and sections, which may load modules.

ghost use Rattle.std.specs.Prelude.{◌≡◌, ◌∷◌, ◌++◌, ◌+◌, ◌<◌, ◌≤◌, [], IfSome, OnOk, Some, length, true};
ghost use Rattle.dtd_scanner.specs.Items.{shortest};
ghost use Rattle.dtd_scanner.specs.declared.item.ItemKind.TheVariants.{Reference, SectionStart};
ghost use Rattle.jats_io.specs.Causes.{HasCause};
ghost use Rattle.module_reader.specs.AskedFor.{Asks};
ghost use Rattle.module_reader.specs.Frames.{Advances, IsSound, Stands, Stepped, current, is_declaration};
ghost use Rattle.module_reader.specs.Endings.{LoadFailed, IsAbsence};

use crate::asking::{expand_body, open_entity};
use crate::frames::Work;
use crate::kinds::declare_expanded;
use crate::openings::enter;
use crate::refusals::Stop;
use crate::sections::begin_section;
use crate::texts::{contents_here, name_here};
use dtd_scanner::ItemKind;
use entity_catalog::Catalog;
use jats_io::Store;
use std::alloc::Global;

/// Reads a declaration.
pub fn pass_declaration<S: Store>(
    alloc: Global,
    store: &mut S,
    catalog: &Catalog,
    work: &mut Work,
    kind: ItemKind,
    next: usize,
) -> Result<(), Stop>
    requires sound { IsSound work.old }
    requires declares { is_declaration kind ≡ true }
    requires stands { Stands (current work.old) kind next }
    requires long { work.old.frame.at + shortest kind ≤ next }
    ensures keeps { S.holds store.new ≡ S.holds store.old }
    ensures faults { HasCause (S.faults store.old) (S.faults store.new) (LoadFailed result) }
    ensures absences { HasCause (S.absences store.old) (S.absences store.new) (IsAbsence result) }
    ensures told { IfSome (S.holds store.old) (λ files. Stepped (record { files = files; catalog = catalog.now }) work.old work.new result) }
    ensures advances { OnOk result (Advances work.old work.new) }
    ensures asks { Asks work.old.state.modules work.new.state.modules (S.asked store.old) (S.asked store.new) result }
{
    let body = contents_here(alloc, work, kind, next)?;
    let at = work.frame.at;
    match declare_expanded(
        alloc,
        store,
        catalog,
        &work.names,
        &work.frame.standing,
        at,
        kind,
        &mut work.state,
        body.as_slice(),
    ) {
        Err(fault) => Err(fault),
        Ok(()) => {
            work.frame.at = next;
            Ok(())
        }
    }
}

/// Begins a section, or passes over an ignored one.
pub fn pass_section<S: Store>(
    alloc: Global,
    store: &mut S,
    catalog: &Catalog,
    work: &mut Work,
    next: usize,
) -> Result<(), Stop>
    requires sound { IsSound work.old }
    requires stands { Stands (current work.old) SectionStart next }
    requires long { work.old.frame.at + 4 ≤ next }
    ensures keeps { S.holds store.new ≡ S.holds store.old }
    ensures faults { HasCause (S.faults store.old) (S.faults store.new) (LoadFailed result) }
    ensures absences { HasCause (S.absences store.old) (S.absences store.new) (IsAbsence result) }
    ensures told { IfSome (S.holds store.old) (λ files. Stepped (record { files = files; catalog = catalog.now }) work.old work.new result) }
    ensures advances { OnOk result (Advances work.old work.new) }
    ensures asks { Asks work.old.state.modules work.new.state.modules (S.asked store.old) (S.asked store.new) result }
{
    let keyword = contents_here(alloc, work, ItemKind::SectionStart, next)?;
    let at = work.frame.at;
    match expand_body(
        alloc,
        store,
        catalog,
        &work.names,
        &work.frame.standing,
        at,
        &mut work.state,
        keyword.as_slice(),
    ) {
        Err(fault) => Err(fault),
        Ok(word) => begin_section(alloc, work, next, &word),
    }
}

/// Reads the text of a reference; the text that is read waits.
pub fn pass_reference<S: Store>(
    alloc: Global,
    store: &mut S,
    catalog: &Catalog,
    work: &mut Work,
    next: usize,
) -> Result<(), Stop>
    requires sound { IsSound work.old }
    requires stands { Stands (current work.old) Reference next }
    requires long { work.old.frame.at + 3 ≤ next }
    ensures keeps { S.holds store.new ≡ S.holds store.old }
    ensures faults { HasCause (S.faults store.old) (S.faults store.new) (LoadFailed result) }
    ensures absences { HasCause (S.absences store.old) (S.absences store.new) (IsAbsence result) }
    ensures told { IfSome (S.holds store.old) (λ files. Stepped (record { files = files; catalog = catalog.now }) work.old work.new result) }
    ensures advances { OnOk result (Advances work.old work.new) }
    ensures asks { Asks work.old.state.modules work.new.state.modules (S.asked store.old) (S.asked store.new) result }
{
    let name = name_here(alloc, work, next)?;
    let at = work.frame.at;
    match open_entity(
        alloc,
        store,
        catalog,
        &work.names,
        &work.frame.standing,
        at,
        &mut work.state,
        name.text().as_slice(),
    ) {
        Err(fault) => Err(fault),
        Ok(opened) => match enter(alloc, catalog, work, next, name, opened.number) {
            Err(_) => Err(Stop::NoMemory),
            Ok(()) => Ok(()),
        },
    }
}
