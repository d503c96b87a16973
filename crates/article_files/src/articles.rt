//! Articles of files of a store.

ghost use Rattle.std.specs.Prelude.{◌≡◌, IfSome};
ghost use Rattle.jats_io.specs.Causes.{HasCause};
ghost use Rattle.module_reader.specs.Outcomes.{IsAbsence, IsNumbered, LoadFailed, Reads};
ghost use Rattle.article_tree.specs.Decoding.{article_from};
ghost use Rattle.article_files.specs.Answers.{as_read};
ghost use Rattle.article_files.specs.Bytes as spec;

use crate::bytes::load_bytes;
use article_tree::{ArticleFault, Node, read_article};
use decl_set::DeclSet;
use jats_chars::Text;
use jats_chars::limits::ARTICLE_BYTES;
use jats_io::Store;
use module_reader::ReadFault;
use std::alloc::Global;

fn handed_out(fault: ArticleFault) -> ReadFault
    ensures { result ≡ as_read fault }
{
    match fault {
        ArticleFault::Refused(refusal) => ReadFault::Refused(refusal),
        ArticleFault::NoMemory => ReadFault::NoMemory,
    }
}

/// The node of the article of these bytes.
fn article_of(alloc: Global, set: &DeclSet, name: &Text, bytes: &[u8]) -> Result<Node, ReadFault>
    ensures told { Reads (article_from set.now.entities name.now bytes.now) result }
    ensures load { LoadFailed result → ⊥ }
    ensures absence { IsAbsence result → ⊥ }
    ensures numbered { IsNumbered result }
{
    let _ = set.count();
    match read_article(alloc, set, bytes, name) {
        Ok(node) => Ok(node),
        Err(fault) => Err(handed_out(fault)),
    }
}

/// The node of the article of a file of the store, with the general entities of the set.
///
/// `Refused` is E10 where the file is absent and E11 where it has more than 33,554,432 bytes, at the file's name, else the
/// first fault of `read_article`. `LoadFailed` comes only where the store's faults rose in this call, and E10 only where its
/// absences did.
pub fn load_article<S: Store>(
    alloc: Global,
    store: &mut S,
    set: &DeclSet,
    name: &Text,
) -> Result<Node, ReadFault>
    ensures keeps { S.holds store.new ≡ S.holds store.old }
    ensures faults { HasCause (S.faults store.old) (S.faults store.new) (LoadFailed result) }
    ensures absences { HasCause (S.absences store.old) (S.absences store.new) (IsAbsence result) }
    ensures told { IfSome (S.holds store.old) (λ files. Reads (spec.article_in files set.now.entities name.now) result) }
    ensures numbered { IsNumbered result }
{
    let _ = set.count();
    match load_bytes(alloc, store, name, ARTICLE_BYTES) {
        Err(fault) => Err(fault),
        Ok(bytes) => article_of(alloc, set, name, bytes.as_slice()),
    }
}
