//! Texts of files from a store.

ghost use Rattle.std.specs.Prelude.{◌≡◌, ◌+◌, ◌<◌, ◌^◌, IfOk, IfSome, IsTrue, Some, take};
ghost use Rattle.decl_set.specs.Asked.{are_chars};
ghost use Rattle.jats_io.specs.Causes.{HasCause};
ghost use Rattle.module_reader.specs.Endings.{LoadFailed, IsAbsence, Reads};
ghost use Rattle.module_reader.specs.Outcomes as outcome;
ghost use Rattle.module_reader.specs.Sources as spec;

use crate::ReadFault;
use crate::loading::decoded;
use crate::refusals::{Stop, handed_out};
use crate::stops::refusal;
use jats_chars::Text;
use jats_fault::{Details, numbers};
use jats_io::{LoadFault, Loaded, Store};
use std::alloc::Global;

/// The text of the bytes of a file, which are no more than the limit.
fn text_of_bytes(alloc: Global, name: &Text, limit: usize, bytes: &[u8]) -> Result<Text, Stop>
    ensures told { Reads (spec.text_held limit name.now (Some bytes.now)) result }
    ensures chars { IfOk result (λ t. IsTrue (are_chars t)) }
    ensures load { LoadFailed result → ⊥ }
    ensures absence { IsAbsence result → ⊥ }
{
    if bytes.len() > limit {
        return Err(refusal(alloc, numbers::MODULE_LONG, name, 0, Details::new(alloc)));
    }
    decoded(alloc, name, bytes)
}

/// The text of a file of the store.
#[tactic(auto, unfolding(crate::specs::Sources::file_text))]
pub fn text_loaded<S: Store>(
    alloc: Global,
    store: &mut S,
    name: &Text,
    limit: usize,
) -> Result<Text, Stop>
    requires { limit < 2 ^ 31 }
    ensures keeps { S.holds store.new ≡ S.holds store.old }
    ensures faults { HasCause (S.faults store.old) (S.faults store.new) (LoadFailed result) }
    ensures absences { HasCause (S.absences store.old) (S.absences store.new) (IsAbsence result) }
    ensures told { IfSome (S.holds store.old) (λ files. Reads (spec.file_text limit files name.now) result) }
    ensures chars { IfOk result (λ t. IsTrue (are_chars t)) }
{
    match store.load(alloc, name, limit) {
        Err(LoadFault::Failed) => Err(Stop::LoadFailed),
        Err(LoadFault::NoMemory) => Err(Stop::NoMemory),
        Ok(Loaded::Absent) => Err(refusal(
            alloc,
            numbers::MODULE_ABSENT,
            name,
            0,
            Details::new(alloc),
        )),
        Ok(Loaded::Bytes(bytes)) => text_of_bytes(alloc, name, limit, bytes.as_slice()),
    }
}

/// The text of a file of the store, of Chars, whose bytes are no more than a limit below 2^31.
///
/// `Refused` has the first fault of the load (E10 where the file is absent, E11 where it has more bytes than the limit) or of
/// the decoding (E13 to E16), at the file's name. `LoadFailed` comes only where the store's faults rose in this call, and E10
/// only where its absences did.
pub fn load_text<S: Store>(
    alloc: Global,
    store: &mut S,
    name: &Text,
    limit: usize,
) -> Result<Text, ReadFault>
    requires { limit < 2 ^ 31 }
    ensures keeps { S.holds store.new ≡ S.holds store.old }
    ensures faults { HasCause (S.faults store.old) (S.faults store.new) (outcome.LoadFailed result) }
    ensures absences { HasCause (S.absences store.old) (S.absences store.new) (outcome.IsAbsence result) }
    ensures told { IfSome (S.holds store.old) (λ files. outcome.Reads (spec.file_text limit files name.now) result) }
    ensures chars { IfOk result (λ t. IsTrue (are_chars t)) }
    ensures numbered { outcome.IsNumbered result }
{
    match text_loaded(alloc, store, name, limit) {
        Ok(text) => Ok(text),
        Err(stop) => Err(handed_out(stop)),
    }
}
