//! `least`: the smallest article that a set allows from a root.

ghost use Rattle.std.specs.Prelude.{◌≡◌, ◌≤◌, IfOk, IfSome, IsTrue, true};
ghost use Rattle.jats_io.specs.Causes.{HasCause};
ghost use Rattle.tree_costs.specs.Leasts.{IsExact, m_of};
ghost use Rattle.tree_costs.specs.declared.cost.Cost.TheVariants.{Fin};
ghost use Rattle.tagset_tool.specs.Runs.{IsLoadFailed, AnswersAbsence, Says};
ghost use Rattle.tagset_tool.specs.Words as asked;
ghost use Rattle.tagset_tool.specs.commands.Least as spec;

use crate::answer::{Answer, Stop, fitting, refused, stop_of};
use crate::refusals::{output_over, root_undeclared};
use crate::words::{cap_or_0, read_words};
use article_tree::{Node, write_article};
use decl_set::DeclSet;
use jats_chars::limits::OUTPUT_BYTES;
use jats_chars::{Name, NoMemory, Text};
use jats_io::Store;
use least_trees::least;
use separating_article::{BuildOver, least_article};
use std::alloc::Global;
use tree_costs::{Cost, Least};

/// The number of elements, and the article.
fn least_text(alloc: Global, size: u32, node: &Node) -> Result<Vec<u8>, NoMemory>
    ensures { IfOk result (λ v. v.items ≡ spec.least_text size node.now) }
{
    let line = format!(in alloc; "least {size}\n")?;
    let mut bytes = line.into_bytes();
    let article = write_article(alloc, node)?;
    bytes.extend_from_slice(article.as_slice())?;
    bytes.push(10)?;
    Ok(bytes)
}

/// The least article, whose size is within the cap, unless it is too long.
fn built(
    alloc: Global,
    set: &DeclSet,
    root: &Name,
    least: &Least,
    size: u32,
) -> Result<Answer, NoMemory>
    requires exact { IsExact set.now least.now }
    requires cap { least.now.cap ≤ 100000 }
    requires size { m_of set.now least.now root.now ≡ Fin size }
    requires within { size ≤ least.now.cap }
    ensures answer { IfOk result (λ a. spec.sized set.now least.now root.now size true a.status a.bytes.items) }
    ensures says { IfOk result (λ a. Says a.status a.bytes.items) }
{
    match least_article(alloc, set, root, least, OUTPUT_BYTES) {
        Ok(node) => {
            let bytes = least_text(alloc, size, &node)?;
            fitting(alloc, 0, bytes)
        }
        Err(BuildOver::TextOver) => {
            let refusal = output_over(alloc)?;
            refused(alloc, &refusal)
        }
        Err(BuildOver::NoMemory) => Err(NoMemory),
    }
}

/// The least size of the documents of an element: none where it has no row.
fn size_of(set: &DeclSet, root: &Name, least: &Least) -> Cost
    ensures { result ≡ m_of set.now least.now root.now }
{
    match set.index_of(root) {
        None => Cost::Inf,
        Some(place) => match least.rows.get(place) {
            None => Cost::Inf,
            Some(row) => row.m,
        },
    }
}

fn above(alloc: Global, cap: u32) -> Result<Answer, NoMemory>
    ensures value { IfOk result (λ a. (a.status ≡ 0) × (a.bytes.items ≡ spec.above_line cap)) }
    ensures says { IfOk result (λ a. Says a.status a.bytes.items) }
{
    let line = format!(in alloc; "above {cap}\n")?;
    Ok(Answer {
        status: 0,
        bytes: line.into_bytes(),
    })
}

/// The answer by least costs.
fn by_costs(alloc: Global, set: &DeclSet, root: &Name, least: &Least) -> Result<Answer, NoMemory>
    requires exact { IsExact set.now least.now }
    requires cap { least.now.cap ≤ 100000 }
    ensures answer { IfOk result (λ a. spec.by_size set.now least.now root.now (m_of set.now least.now root.now) a.status a.bytes.items) }
    ensures says { IfOk result (λ a. Says a.status a.bytes.items) }
{
    match size_of(set, root, least) {
        Cost::Inf => {
            let bytes = Vec::from_slice(alloc, b"none\n")?;
            Ok(Answer { status: 1, bytes })
        }
        Cost::Fin(size) => {
            if size <= least.cap {
                built(alloc, set, root, least, size)
            } else {
                above(alloc, least.cap)
            }
        }
    }
}

/// The answer from a root that the set declares.
fn from_declared(alloc: Global, set: &DeclSet, root: &Name, cap: u32) -> Result<Answer, NoMemory>
    requires { cap ≤ 100000 }
    ensures answer { IfOk result (λ a. spec.by_costs set.now root.now cap a.status a.bytes.items) }
    ensures says { IfOk result (λ a. Says a.status a.bytes.items) }
{
    let least = least(alloc, set, cap)?;
    by_costs(alloc, set, root, &least)
}

/// The answer over a set.
fn least_in(alloc: Global, set: &DeclSet, root: &Text, cap: u32) -> Result<Answer, NoMemory>
    requires { cap ≤ 100000 }
    ensures answer { IfOk result (λ a. spec.least_in root.now cap set.now a.status a.bytes.items) }
    ensures says { IfOk result (λ a. Says a.status a.bytes.items) }
{
    let _ = set.count();
    match Name::from_text(alloc, root)? {
        None => {
            let refusal = root_undeclared(alloc, root)?;
            refused(alloc, &refusal)
        }
        Some(name) => match set.content_of(&name) {
            None => {
                let refusal = root_undeclared(alloc, root)?;
                refused(alloc, &refusal)
            }
            Some(_) => from_declared(alloc, set, &name, cap),
        },
    }
}

/// The answer to `least`.
pub fn least_words<S: Store>(alloc: Global, words: &[Text], store: &mut S) -> Result<Answer, Stop>
    requires { IsTrue (asked.is_least words.now) }
    ensures keeps { S.holds store.new ≡ S.holds store.old }
    ensures faults { HasCause (S.faults store.old) (S.faults store.new) (IsLoadFailed result) }
    ensures absences { HasCause (S.absences store.old) (S.absences store.new) (AnswersAbsence result) }
    ensures says { IfOk result (λ a. Says a.status a.bytes.items) }
    ensures status { IfOk result (λ a. a.status ≤ 2) }
    ensures told { IfSome (S.holds store.old) (λ files. IfOk result (λ a. spec.leasts files (asked.set_words words.now 1) (asked.word words.now 3) (asked.cap_or_0 (asked.word words.now 4)) a.status a.bytes.items)) }
{
    let cap = cap_or_0(&words[4]);
    let set = match read_words(alloc, store, words, 1) {
        Ok(set) => set,
        Err(fault) => return stop_of(alloc, &fault),
    };
    match least_in(alloc, &set, &words[3], cap) {
        Ok(answer) => Ok(answer),
        Err(_) => Err(Stop::NoMemory),
    }
}
