//! `flatten`: the flat text of a set.

ghost use Rattle.std.specs.Prelude.{◌≡◌, ◌≤◌, IfOk, IfSome, IsTrue, encode_utf8_all};
ghost use Rattle.dtd_flattener.specs.Flat.{flat_text};
ghost use Rattle.jats_io.specs.Causes.{HasCause};
ghost use Rattle.tagset_tool.specs.Outcomes.{fitting};
ghost use Rattle.tagset_tool.specs.Runs.{IsLoadFailed, AnswersAbsence, Says};
ghost use Rattle.tagset_tool.specs.Words as asked;
ghost use Rattle.tagset_tool.specs.commands.Flatten.{flattens};

use crate::answer::{Answer, Stop, refused, stop_of};
use crate::refusals::output_over;
use crate::words::read_words;
use decl_set::DeclSet;
use dtd_flattener::{flat_size, flatten};
use jats_chars::limits::OUTPUT_BYTES;
use jats_chars::{NoMemory, Text};
use jats_io::Store;
use std::alloc::Global;

/// The flat text of a set, unless it is too long, which is known before it is written.
fn flattened(alloc: Global, set: &DeclSet) -> Result<Answer, NoMemory>
    ensures fits { IfOk result (λ a. fitting 0 (encode_utf8_all (flat_text set.now)) a.status a.bytes.items) }
    ensures says { IfOk result (λ a. Says a.status a.bytes.items) }
{
    if flat_size(alloc, set)? > OUTPUT_BYTES {
        let refusal = output_over(alloc)?;
        refused(alloc, &refusal)
    } else {
        let bytes = flatten(alloc, set)?;
        Ok(Answer { status: 0, bytes })
    }
}

/// The answer to `flatten`.
pub fn flatten_words<S: Store>(alloc: Global, words: &[Text], store: &mut S) -> Result<Answer, Stop>
    requires { IsTrue (asked.is_flatten words.now) }
    ensures keeps { S.holds store.new ≡ S.holds store.old }
    ensures faults { HasCause (S.faults store.old) (S.faults store.new) (IsLoadFailed result) }
    ensures absences { HasCause (S.absences store.old) (S.absences store.new) (AnswersAbsence result) }
    ensures says { IfOk result (λ a. Says a.status a.bytes.items) }
    ensures status { IfOk result (λ a. a.status ≤ 2) }
    ensures told { IfSome (S.holds store.old) (λ files. IfOk result (λ a. flattens files (asked.set_words words.now 1) a.status a.bytes.items)) }
{
    let set = match read_words(alloc, store, words, 1) {
        Ok(set) => set,
        Err(fault) => return stop_of(alloc, &fault),
    };
    match flattened(alloc, &set) {
        Ok(answer) => Ok(answer),
        Err(_) => Err(Stop::NoMemory),
    }
}
