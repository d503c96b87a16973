//! Bytes of files of a store.

ghost use Rattle.std.specs.Prelude.{◌<◌, ◌^◌, ◌≡◌, [], IfSome, IsTrue, Some};
ghost use Rattle.jats_fault.specs.Table.{has_number, table};
ghost use Rattle.jats_io.specs.Causes.{HasCause};
ghost use Rattle.module_reader.specs.Outcomes.{IsAbsence, IsNumbered, LoadFailed, StandsInTable};
ghost use Rattle.module_reader.specs.Stops as stops;
ghost use Rattle.article_files.specs.Answers.{ReadsAs, Refuses};
ghost use Rattle.article_files.specs.Bytes as spec;

use jats_chars::Text;
use jats_fault::{Details, Fault, Place, numbers};
use jats_io::{LoadFault, Loaded, Store};
use module_reader::ReadFault;
use std::alloc::Global;

/// The refusal of a file.
fn refusal(alloc: Global, number: u16, name: &Text) -> ReadFault
    requires { IsTrue (has_number table number) }
    ensures said { Refuses (stops.refusal number name.now 0 []) result }
    ensures numbered { StandsInTable result }
{
    match name.copy(alloc) {
        Ok(module) => ReadFault::Refused(Fault {
            number,
            place: Place { module, offset: 0 },
            details: Details::new(alloc),
        }),
        Err(_) => ReadFault::NoMemory,
    }
}

/// The bytes of a file, where they are no more than the limit.
fn within(alloc: Global, name: &Text, limit: usize, bytes: Vec<u8>) -> Result<Vec<u8>, ReadFault>
    ensures told { ReadsAs (λ v. v.items) (spec.bytes_held limit name.now (Some bytes.items)) result }
    ensures load { LoadFailed result → ⊥ }
    ensures absence { IsAbsence result → ⊥ }
    ensures numbered { IsNumbered result }
{
    if bytes.len() > limit {
        Err(refusal(alloc, numbers::MODULE_LONG, name))
    } else {
        Ok(bytes)
    }
}

/// The bytes of a file of the store, no more than a limit below 2^31.
///
/// `Refused` is E10 where the file is absent and E11 where it has more bytes than the limit, at the file's name. `LoadFailed`
/// comes only where the store's faults rose in this call, and E10 only where its absences did.
#[tactic(auto, unfolding(crate::specs::Bytes::file_bytes))]
pub fn load_bytes<S: Store>(
    alloc: Global,
    store: &mut S,
    name: &Text,
    limit: usize,
) -> Result<Vec<u8>, ReadFault>
    requires { limit < 2 ^ 31 }
    ensures keeps { S.holds store.new ≡ S.holds store.old }
    ensures faults { HasCause (S.faults store.old) (S.faults store.new) (LoadFailed result) }
    ensures absences { HasCause (S.absences store.old) (S.absences store.new) (IsAbsence result) }
    ensures told { IfSome (S.holds store.old) (λ files. ReadsAs (λ v. v.items) (spec.file_bytes limit files name.now) result) }
    ensures numbered { IsNumbered result }
{
    match store.load(alloc, name, limit) {
        Err(LoadFault::Failed) => Err(ReadFault::LoadFailed),
        Err(LoadFault::NoMemory) => Err(ReadFault::NoMemory),
        Ok(Loaded::Absent) => Err(refusal(alloc, numbers::MODULE_ABSENT, name)),
        Ok(Loaded::Bytes(bytes)) => within(alloc, name, limit, bytes),
    }
}
