//! `validate`: all that is wrong in an article.

ghost use Rattle.std.specs.Prelude.{◌≡◌, ◌≤◌, ◌++◌, IfOk, IfSome, IsTrue, OnOk, string_bytes};
ghost use Rattle.article_validator.specs.Faults.{fault_list};
ghost use Rattle.jats_io.specs.Causes.{HasCause};
ghost use Rattle.tagset_tool.specs.Outcomes.{fitting as fits};
ghost use Rattle.tagset_tool.specs.Runs.{IsLoadFailed, AnswersAbsence, Says};
ghost use Rattle.tagset_tool.specs.Words as asked;
ghost use Rattle.tagset_tool.specs.commands.Validate as spec;

use crate::answer::{Answer, Stop, fitting, stop_of};
use crate::shown::shown;
use crate::words::read_words;
use article_files::load_article;
use article_tree::Node;
use article_validator::{Invalid, InvalidCause, faults};
use decl_set::DeclSet;
use jats_chars::{Name, NoMemory, Text};
use jats_io::Store;
use std::alloc::Global;

/// The word of a cause at an attribute, and its name.
fn at_attribute(alloc: Global, word: &str, name: &Name) -> Result<String, NoMemory>
    ensures { IfOk result (λ s. string_bytes s ≡ spec.at_attribute word.now name.now) }
{
    let name = shown(alloc, name.text())?;
    let words = format!(in alloc; "{word}{name}")?;
    Ok(words)
}

/// The word of a cause at an attribute, its name, and a name in its value.
fn at_value(alloc: Global, word: &str, name: &Name, value: &Text) -> Result<String, NoMemory>
    ensures { IfOk result (λ s. string_bytes s ≡ spec.at_value word.now name.now value.now) }
{
    let name = shown(alloc, name.text())?;
    let value = shown(alloc, value)?;
    let words = format!(in alloc; "{word}{name} {value}")?;
    Ok(words)
}

fn cause_words(alloc: Global, cause: &InvalidCause) -> Result<String, NoMemory>
    ensures { IfOk result (λ s. string_bytes s ≡ spec.cause_words cause.now) }
{
    let words = match cause {
        InvalidCause::Root => "root".to_string(alloc)?,
        InvalidCause::Undeclared => "undeclared".to_string(alloc)?,
        InvalidCause::Content => "content".to_string(alloc)?,
        InvalidCause::Text => "text".to_string(alloc)?,
        InvalidCause::AttUndeclared(name) => at_attribute(alloc, "attribute ", name)?,
        InvalidCause::Value(name) => at_attribute(alloc, "value ", name)?,
        InvalidCause::Missing(name) => at_attribute(alloc, "missing ", name)?,
        InvalidCause::RepeatedId(name, value) => at_value(alloc, "id ", name, value)?,
        InvalidCause::NoTarget(name, value) => at_value(alloc, "idref ", name, value)?,
        InvalidCause::NoEntity(name, value) => at_value(alloc, "entity ", name, value)?,
    };
    Ok(words)
}

fn put_line(alloc: Global, out: &mut Vec<u8>, invalid: &Invalid) -> Result<(), NoMemory>
    ensures { OnOk result (out.new.items ≡ out.old.items ++ spec.fault_line invalid.now) }
{
    let node = invalid.node;
    let element = shown(alloc, invalid.element.text())?;
    let cause = cause_words(alloc, &invalid.cause)?;
    let line = format!(in alloc; "invalid {node} {element} {cause}\n")?;
    out.extend_from_slice(line.as_bytes())?;
    Ok(())
}

/// Appends the lines.
fn put_lines(alloc: Global, out: &mut Vec<u8>, list: &[Invalid]) -> Result<(), NoMemory>
    ensures { OnOk result (out.new.items ≡ out.old.items ++ spec.fault_lines list.now) }
{
    for invalid in list {
        put_line(alloc, out, invalid)?;
    }
    Ok(())
}

/// The lines, unless they are too long.
fn lines(alloc: Global, list: &[Invalid]) -> Result<Answer, NoMemory>
    ensures fits { IfOk result (λ a. fits 1 (spec.fault_lines list.now) a.status a.bytes.items) }
    ensures says { IfOk result (λ a. Says a.status a.bytes.items) }
{
    let mut bytes = Vec::new(alloc);
    put_lines(alloc, &mut bytes, list)?;
    fitting(alloc, 1, bytes)
}

/// The answer over what is wrong.
fn judged(alloc: Global, list: &[Invalid]) -> Result<Answer, NoMemory>
    ensures judged { IfOk result (λ a. spec.judged list.now a.status a.bytes.items) }
    ensures says { IfOk result (λ a. Says a.status a.bytes.items) }
{
    match list.split_first() {
        None => {
            let bytes = Vec::from_slice(alloc, b"valid\n")?;
            Ok(Answer { status: 0, bytes })
        }
        Some(_) => lines(alloc, list),
    }
}

/// The answer over an article.
fn validated(alloc: Global, set: &DeclSet, root: &Text, node: &Node) -> Result<Answer, NoMemory>
    ensures judged { IfOk result (λ a. spec.judged (fault_list set.now root.now node.now) a.status a.bytes.items) }
    ensures says { IfOk result (λ a. Says a.status a.bytes.items) }
{
    let list = faults(alloc, set, root, node)?;
    judged(alloc, list.as_slice())
}

/// The answer to `validate`.
pub fn validate_words<S: Store>(
    alloc: Global,
    words: &[Text],
    store: &mut S,
) -> Result<Answer, Stop>
    requires { IsTrue (asked.is_validate words.now) }
    ensures keeps { S.holds store.new ≡ S.holds store.old }
    ensures faults { HasCause (S.faults store.old) (S.faults store.new) (IsLoadFailed result) }
    ensures absences { HasCause (S.absences store.old) (S.absences store.new) (AnswersAbsence result) }
    ensures says { IfOk result (λ a. Says a.status a.bytes.items) }
    ensures status { IfOk result (λ a. a.status ≤ 2) }
    ensures told { IfSome (S.holds store.old) (λ files. IfOk result (λ a. spec.validates files (asked.set_words words.now 1) (asked.word words.now 3) (asked.word words.now 4) a.status a.bytes.items)) }
{
    let set = match read_words(alloc, store, words, 1) {
        Ok(set) => set,
        Err(fault) => return stop_of(alloc, &fault),
    };
    let node = match load_article(alloc, store, &set, &words[4]) {
        Ok(node) => node,
        Err(fault) => return stop_of(alloc, &fault),
    };
    match validated(alloc, &set, &words[3], &node) {
        Ok(answer) => Ok(answer),
        Err(_) => Err(Stop::NoMemory),
    }
}
