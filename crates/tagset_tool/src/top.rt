//! The top call.

ghost use Rattle.std.specs.Prelude.{◌≡◌, ◌≤◌, ◌↔◌, ◌⊎◌, MatchResult, None, IfOk, IfSome};
ghost use Rattle.jats_io.specs.Causes.{HasCause, Rose};
ghost use Rattle.tagset_tool.specs.Output as spec;
ghost use Rattle.tagset_tool.specs.Runs.{IsAnswered, IsLoadFailed, AnswersAbsence, WritesAbsence, Leaves, Runs, Says};
ghost use Rattle.tagset_tool.specs.Words.{asked};

use crate::answer::{Answer, Stop};
use crate::commands::check::check_words;
use crate::commands::compare::compare_words;
use crate::commands::fill::fill_words;
use crate::commands::flatten::flatten_words;
use crate::commands::least::least_words;
use crate::commands::report::report_words;
use crate::commands::validate::validate_words;
use crate::commands::verify::verify_words;
use crate::commands::work::work_words;
use crate::words::{
    is_check, is_compare, is_fill, is_flatten, is_least, is_report, is_validate, is_verify, is_work,
};
use jats_chars::Text;
use jats_io::{Sink, Store, write_all};
use std::alloc::Global;

/// The line for words of no form.
fn usage(alloc: Global) -> Result<Answer, Stop>
    ensures { MatchResult result (λ a. (a.status ≡ 3) × (a.bytes.items ≡ spec.usage_line)) (λ stop. stop ≡ Stop.NoMemory) }
{
    match Vec::from_slice(alloc, b"usage\n") {
        Ok(bytes) => Ok(Answer { status: 3, bytes }),
        Err(_) => Err(Stop::NoMemory),
    }
}

/// The answer to the words.
fn answer_to<S: Store>(alloc: Global, words: &[Text], store: &mut S) -> Result<Answer, Stop>
    ensures keeps { S.holds store.new ≡ S.holds store.old }
    ensures faults { HasCause (S.faults store.old) (S.faults store.new) (IsLoadFailed result) }
    ensures absences { HasCause (S.absences store.old) (S.absences store.new) (AnswersAbsence result) }
    ensures says { IfOk result (λ a. Says a.status a.bytes.items) }
    ensures usage { IfOk result (λ a. (a.status ≡ 3) ↔ (asked words.now ≡ None)) }
    ensures status { IfOk result (λ a. a.status ≤ 3) }
    ensures told { IfSome (S.holds store.old) (λ files. IfOk result (λ a. spec.IsOutput words.now files a.status a.bytes.items)) }
{
    if is_check(words) {
        check_words(alloc, words, store)
    } else if is_flatten(words) {
        flatten_words(alloc, words, store)
    } else if is_validate(words) {
        validate_words(alloc, words, store)
    } else if is_fill(words) {
        fill_words(alloc, words, store)
    } else if is_compare(words) {
        compare_words(alloc, words, store)
    } else if is_report(words) {
        report_words(alloc, words, store)
    } else if is_least(words) {
        least_words(alloc, words, store)
    } else if is_verify(words) {
        verify_words(alloc, words, store)
    } else if is_work(words) {
        work_words(alloc, words)
    } else {
        usage(alloc)
    }
}

/// Does what the words ask for, and answers the status.
pub fn run<S: Store, K: Sink>(alloc: Global, words: &[Text], store: &mut S, sink: &mut K) -> u8
    ensures status { result ≤ 6 }
    ensures holds { S.holds store.new ≡ S.holds store.old }
    ensures made { K.made sink.new ≡ K.made sink.old }
    ensures load { HasCause (S.faults store.old) (S.faults store.new) (result ≡ 4) }
    ensures absent { HasCause (S.absences store.old) (S.absences store.new) (WritesAbsence (K.written sink.old) (K.written sink.new)) }
    ensures write { HasCause (K.faults sink.old) (K.faults sink.new) (result ≡ 5) }
    ensures usage { result ≤ 3 → (result ≡ 3) ↔ (asked words.now ≡ None) }
    ensures complete { IsAnswered words.now (Rose (S.faults store.old) (S.faults store.new)) (Rose (K.faults sink.old) (K.faults sink.new)) result }
    ensures told { IfSome (S.holds store.old) (λ files. Runs words.now files (K.written sink.old) (K.written sink.new) result) }
    ensures leaves { Leaves (K.written sink.old) (K.written sink.new) result }
    ensures nothing { (result ≡ 4) ⊎ (result ≡ 6) → K.written sink.new ≡ K.written sink.old }
{
    match answer_to(alloc, words, store) {
        Err(Stop::LoadFailed) => 4,
        Err(Stop::NoMemory) => 6,
        Ok(answer) => match write_all(sink, answer.bytes.as_slice()) {
            Ok(()) => answer.status,
            Err(_) => 5,
        },
    }
}
