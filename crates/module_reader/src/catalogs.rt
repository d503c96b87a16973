//! Catalogs from a store.

ghost use Rattle.std.specs.Prelude.{◌≡◌, IfSome, Some};
ghost use Rattle.std.specs.Option.{option_copied};
ghost use Rattle.entity_catalog.specs.Catalogs.{catalog_of};
ghost use Rattle.jats_io.specs.Causes.{HasCause};
ghost use Rattle.module_reader.specs.Endings.{LoadFailed, IsAbsence, Reads};
ghost use Rattle.module_reader.specs.Outcomes as outcome;
ghost use Rattle.module_reader.specs.Sets as spec;

use crate::ReadFault;
use crate::files::text_loaded;
use crate::refusals::{Stop, handed_out};
use crate::stops::catalog_stop;
use entity_catalog::{Catalog, read_catalog};
use jats_chars::Text;
use jats_chars::limits::MODULE_BYTES;
use jats_io::Store;
use std::alloc::Global;

/// The catalog that a text is.
fn catalog_of_text(alloc: Global, name: &Text, text: &Text) -> Result<Catalog, Stop>
    ensures told { Reads (spec.named_by name.now (catalog_of name.now text.now)) result }
    ensures load { LoadFailed result → ⊥ }
    ensures absence { IsAbsence result → ⊥ }
{
    match read_catalog(alloc, text, name) {
        Ok(catalog) => Ok(catalog),
        Err(fault) => Err(catalog_stop(alloc, name, fault)),
    }
}

/// The catalog of a file of the store.
#[tactic(auto, unfolding(crate::specs::Sets::catalog_from))]
fn load_named<S: Store>(alloc: Global, store: &mut S, name: &Text) -> Result<Catalog, Stop>
    ensures keeps { S.holds store.new ≡ S.holds store.old }
    ensures faults { HasCause (S.faults store.old) (S.faults store.new) (LoadFailed result) }
    ensures absences { HasCause (S.absences store.old) (S.absences store.new) (IsAbsence result) }
    ensures told { IfSome (S.holds store.old) (λ files. Reads (spec.catalog_from files (Some name.now)) result) }
{
    match text_loaded(alloc, store, name, MODULE_BYTES) {
        Err(stop) => Err(stop),
        Ok(text) => catalog_of_text(alloc, name, &text),
    }
}

/// The catalog of a file of the store, or the empty catalog where none is named.
#[tactic(auto, unfolding(crate::specs::Sets::catalog_from))]
fn catalog_named<S: Store>(
    alloc: Global,
    store: &mut S,
    name: Option<&Text>,
) -> Result<Catalog, Stop>
    ensures keeps { S.holds store.new ≡ S.holds store.old }
    ensures faults { HasCause (S.faults store.old) (S.faults store.new) (LoadFailed result) }
    ensures absences { HasCause (S.absences store.old) (S.absences store.new) (IsAbsence result) }
    ensures told { IfSome (S.holds store.old) (λ files. Reads (spec.catalog_from files (option_copied name.entry)) result) }
{
    match name {
        None => Ok(Catalog::empty(alloc)),
        Some(name) => load_named(alloc, store, name),
    }
}

/// The catalog of a file of the store, or the empty catalog where none is named.
///
/// `Refused` has the first fault, by a number of the table: of the file's load (E10 where it is absent, E11 where it has more than 4,194,304 bytes), of
/// its decoding (E13 to E16) or of its lines (E50 and E51, with the line's number from 1), at the catalog's name.
/// `LoadFailed` comes only where the store's faults rose in this call, and E10 only where its absences did.
pub fn load_catalog<S: Store>(
    alloc: Global,
    store: &mut S,
    name: Option<&Text>,
) -> Result<Catalog, ReadFault>
    ensures keeps { S.holds store.new ≡ S.holds store.old }
    ensures faults { HasCause (S.faults store.old) (S.faults store.new) (outcome.LoadFailed result) }
    ensures absences { HasCause (S.absences store.old) (S.absences store.new) (outcome.IsAbsence result) }
    ensures told { IfSome (S.holds store.old) (λ files. outcome.Reads (spec.catalog_from files (option_copied name.entry)) result) }
    ensures numbered { outcome.IsNumbered result }
{
    match catalog_named(alloc, store, name) {
        Ok(catalog) => Ok(catalog),
        Err(stop) => Err(handed_out(stop)),
    }
}
