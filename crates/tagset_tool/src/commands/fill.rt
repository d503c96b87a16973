//! `fill`: an article with its defaults.

ghost use Rattle.std.specs.Prelude.{◌≡◌, ◌≤◌, ◌++◌, ◌∷◌, [], IfOk, IfSome, IsTrue, encode_utf8_all};
ghost use Rattle.article_tree.specs.Writing.{write};
ghost use Rattle.jats_io.specs.Causes.{HasCause};
ghost use Rattle.tagset_tool.specs.Outcomes.{fitting as fits};
ghost use Rattle.tagset_tool.specs.Runs.{IsLoadFailed, AnswersAbsence, Says};
ghost use Rattle.tagset_tool.specs.Words as asked;
ghost use Rattle.tagset_tool.specs.commands.Fill as spec;

use crate::answer::{Answer, Stop, fitting, refused, stop_of};
use crate::refusals::output_over;
use crate::words::read_words;
use article_files::load_article;
use article_tree::{Node, write_article, written_size};
use article_validator::fill;
use decl_set::DeclSet;
use jats_chars::limits::OUTPUT_BYTES;
use jats_chars::{NoMemory, Text};
use jats_io::Store;
use std::alloc::Global;

/// The text of an article, and LF.
fn ended_text(alloc: Global, node: &Node) -> Result<Vec<u8>, NoMemory>
    ensures { IfOk result (λ v. v.items ≡ encode_utf8_all (write node.now) ++ 10 ∷ []) }
{
    let mut bytes = write_article(alloc, node)?;
    bytes.push(10)?;
    Ok(bytes)
}

/// The text of an article, and LF, unless it is too long, which is known before it is made.
fn written(alloc: Global, node: &Node) -> Result<Answer, NoMemory>
    ensures fits { IfOk result (λ a. fits 0 (encode_utf8_all (write node.now) ++ 10 ∷ []) a.status a.bytes.items) }
    ensures says { IfOk result (λ a. Says a.status a.bytes.items) }
{
    if written_size(alloc, node)? >= OUTPUT_BYTES {
        let refusal = output_over(alloc)?;
        refused(alloc, &refusal)
    } else {
        let bytes = ended_text(alloc, node)?;
        fitting(alloc, 0, bytes)
    }
}

/// The article with its defaults, unless it is too long.
fn filled(alloc: Global, set: &DeclSet, node: &Node) -> Result<Answer, NoMemory>
    ensures fits { IfOk result (λ a. fits 0 (spec.filled_text set.now node.now) a.status a.bytes.items) }
    ensures says { IfOk result (λ a. Says a.status a.bytes.items) }
{
    let node = fill(alloc, set, node)?;
    written(alloc, &node)
}

/// The answer to `fill`.
pub fn fill_words<S: Store>(alloc: Global, words: &[Text], store: &mut S) -> Result<Answer, Stop>
    requires { IsTrue (asked.is_fill words.now) }
    ensures keeps { S.holds store.new ≡ S.holds store.old }
    ensures faults { HasCause (S.faults store.old) (S.faults store.new) (IsLoadFailed result) }
    ensures absences { HasCause (S.absences store.old) (S.absences store.new) (AnswersAbsence result) }
    ensures says { IfOk result (λ a. Says a.status a.bytes.items) }
    ensures status { IfOk result (λ a. a.status ≤ 2) }
    ensures told { IfSome (S.holds store.old) (λ files. IfOk result (λ a. spec.fills files (asked.set_words words.now 1) (asked.word words.now 3) a.status a.bytes.items)) }
{
    let set = match read_words(alloc, store, words, 1) {
        Ok(set) => set,
        Err(fault) => return stop_of(alloc, &fault),
    };
    let node = match load_article(alloc, store, &set, &words[3]) {
        Ok(node) => node,
        Err(fault) => return stop_of(alloc, &fault),
    };
    match filled(alloc, &set, &node) {
        Ok(answer) => Ok(answer),
        Err(_) => Err(Stop::NoMemory),
    }
}
