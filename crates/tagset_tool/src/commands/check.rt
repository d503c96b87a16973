//! `check`: how much a set declares.

ghost use Rattle.std.specs.Prelude.{◌≡◌, ◌≤◌, IfOk, IfSome, IsTrue};
ghost use Rattle.jats_io.specs.Causes.{HasCause};
ghost use Rattle.tagset_tool.specs.Counts as count;
ghost use Rattle.tagset_tool.specs.Outcomes.{answering};
ghost use Rattle.tagset_tool.specs.Runs.{IsLoadFailed, AnswersAbsence, Says};
ghost use Rattle.tagset_tool.specs.Words as asked;
ghost use Rattle.tagset_tool.specs.commands.Check.{checks};

use crate::answer::{Answer, Stop, stop_of};
use crate::counts::count_lines;
use crate::words::read_words;
use decl_set::DeclSet;
use jats_chars::{NoMemory, Text};
use jats_io::Store;
use std::alloc::Global;

/// How much a set declares.
fn checked(alloc: Global, set: &DeclSet) -> Result<Answer, NoMemory>
    ensures { IfOk result (λ a. answering 0 (count.count_lines set.now) a.status a.bytes.items) }
{
    let bytes = count_lines(alloc, set)?;
    Ok(Answer { status: 0, bytes })
}

/// The answer to `check`.
pub fn check_words<S: Store>(alloc: Global, words: &[Text], store: &mut S) -> Result<Answer, Stop>
    requires { IsTrue (asked.is_check words.now) }
    ensures keeps { S.holds store.new ≡ S.holds store.old }
    ensures faults { HasCause (S.faults store.old) (S.faults store.new) (IsLoadFailed result) }
    ensures absences { HasCause (S.absences store.old) (S.absences store.new) (AnswersAbsence result) }
    ensures says { IfOk result (λ a. Says a.status a.bytes.items) }
    ensures status { IfOk result (λ a. a.status ≤ 2) }
    ensures told { IfSome (S.holds store.old) (λ files. IfOk result (λ a. checks files (asked.set_words words.now 1) a.status a.bytes.items)) }
{
    let set = match read_words(alloc, store, words, 1) {
        Ok(set) => set,
        Err(fault) => return stop_of(alloc, &fault),
    };
    match checked(alloc, &set) {
        Ok(answer) => Ok(answer),
        Err(_) => Err(Stop::NoMemory),
    }
}
