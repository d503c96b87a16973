//! `compare`: whether each document of the first set is one of the second, with a certificate.

ghost use Rattle.std.specs.Prelude.{◌≡◌, ◌≤◌, ◌++◌, IsTrue, IfOk, IfSome, OnOk, string_bytes};
ghost use Rattle.bound_checker.specs.Tabled.{costs_of};
ghost use Rattle.document_trees.specs.Trees.{size};
ghost use Rattle.jats_io.specs.Causes.{HasCause};
ghost use Rattle.tree_costs.specs.declared.cost.Cost.TheVariants.{Fin};
ghost use Rattle.tagset_compare.specs.Compared.{Compares};
ghost use Rattle.tagset_compare.specs.Verdicts.{bound_in, tables_in};
ghost use Rattle.tagset_tool.specs.Outcomes.{fitting as fits, most_written};
ghost use Rattle.tagset_tool.specs.Runs.{IsLoadFailed, AnswersAbsence, Says};
ghost use Rattle.tagset_tool.specs.Words as asked;
ghost use Rattle.tagset_tool.specs.commands.Compare as spec;
ghost use Rattle.tagset_tool.specs.commands.Least.{least_line};

use crate::answer::{Answer, Stop, fitting, refused, stop_of};
use crate::refusals::{output_over, pairs_over, root_undeclared};
use crate::shown::shown;
use crate::words::{cap_or_0, read_both};
use article_tree::{Node, write_article};
use bound_checker::{Cost, Tables, print_cert};
use decl_set::{BrokenDecl, Cause, DeclSet};
use jats_chars::limits::OUTPUT_BYTES;
use jats_chars::{Name, NoMemory, Text};
use jats_io::Store;
use std::alloc::Global;
use tagset_compare::{CompareFault, Verdict, bound_of, compare};

/// The word of a cause; an attribute is named behind it.
pub fn cause_name(alloc: Global, cause: &Cause) -> Result<String, NoMemory>
    ensures { IfOk result (λ s. string_bytes s ≡ spec.cause_name cause.now) }
{
    let word = match cause {
        Cause::Undeclared => "undeclared".to_string(alloc)?,
        Cause::Content => "content".to_string(alloc)?,
        Cause::Text => "text".to_string(alloc)?,
        Cause::Attribute(name) => {
            let name = shown(alloc, name.text())?;
            format!(in alloc; "attribute {name}")?
        }
    };
    Ok(word)
}

fn broken_line(alloc: Global, broken: &BrokenDecl) -> Result<String, NoMemory>
    ensures { IfOk result (λ s. string_bytes s ≡ spec.broken_line broken.now) }
{
    let element = shown(alloc, broken.element.text())?;
    let cause = cause_name(alloc, &broken.cause)?;
    let line = format!(in alloc; "broken {element} {cause}\n")?;
    Ok(line)
}

/// Appends the certificate of the tables.
fn put_cert(
    alloc: Global,
    out: &mut Vec<u8>,
    first: &DeclSet,
    tables: &Tables,
) -> Result<(), NoMemory>
    ensures { OnOk result (out.new.items ≡ out.old.items ++ spec.cert_text first.now tables.now) }
{
    let cert = print_cert(alloc, first, tables)?;
    out.extend_from_slice(cert.as_slice())?;
    Ok(())
}

/// Appends an article behind a line that tells of it.
fn put_article(alloc: Global, out: &mut Vec<u8>, article: &Node) -> Result<(), NoMemory>
    ensures { OnOk result (out.new.items ≡ out.old.items ++ spec.article_text article.now) }
{
    let text = write_article(alloc, article)?;
    out.extend_from_slice(b"article\n")?;
    out.extend_from_slice(text.as_slice())?;
    out.push(10)?;
    Ok(())
}

/// Whether the root has documents.
fn has_documents(first: &DeclSet, tables: &Tables) -> bool
    ensures { result ≡ spec.has_size ((costs_of first.now tables.now).m tables.now.root) }
{
    match first.index_of(&tables.root) {
        None => false,
        Some(place) => match tables.rows.get(place) {
            None => false,
            Some(row) => row.m != Cost::Inf,
        },
    }
}

fn subset_lines(alloc: Global, first: &DeclSet, tables: &Tables) -> Result<Vec<u8>, NoMemory>
    ensures { IfOk result (λ v. v.items ≡ spec.subset_lines first.now tables.now) }
{
    let mut lines = if has_documents(first, tables) {
        Vec::from_slice(alloc, b"subset\ndocuments some\n")?
    } else {
        Vec::from_slice(alloc, b"subset\ndocuments none\n")?
    };
    put_cert(alloc, &mut lines, first, tables)?;
    Ok(lines)
}

/// The lines in front of the certificate where there is an article of this size.
fn article_head(alloc: Global, size: u32, broken: &BrokenDecl) -> Result<Vec<u8>, NoMemory>
    ensures { IfOk result (λ v. v.items ≡ spec.not_subset_line ++ (least_line size ++ spec.broken_line broken.now)) }
{
    let broken = broken_line(alloc, broken)?;
    let lines = format!(in alloc; "not subset\nleast {size}\n{broken}")?;
    Ok(lines.into_bytes())
}

fn article_lines(
    alloc: Global,
    first: &DeclSet,
    count: u32,
    article: &Node,
    broken: &BrokenDecl,
    tables: &Tables,
) -> Result<Vec<u8>, NoMemory>
    requires { count ≡ size article.now }
    ensures { IfOk result (λ v. v.items ≡ spec.article_lines first.now article.now broken.now tables.now) }
{
    let mut lines = article_head(alloc, count, broken)?;
    put_cert(alloc, &mut lines, first, tables)?;
    put_article(alloc, &mut lines, article)?;
    Ok(lines)
}

/// The same, with the size that the tables tell.
fn told_lines(
    alloc: Global,
    first: &DeclSet,
    article: &Node,
    broken: &BrokenDecl,
    tables: &Tables,
) -> Result<Vec<u8>, NoMemory>
    requires { (costs_of first.now tables.now).v tables.now.root ≡ Fin (size article.now) }
    ensures { IfOk result (λ v. v.items ≡ spec.article_lines first.now article.now broken.now tables.now) }
{
    match bound_of(first, tables) {
        Cost::Fin(count) => article_lines(alloc, first, count, article, broken, tables),
        Cost::Inf => unreachable!(),
    }
}

fn above_lines(
    alloc: Global,
    first: &DeclSet,
    cap: u32,
    broken: &BrokenDecl,
    tables: &Tables,
) -> Result<Vec<u8>, NoMemory>
    ensures { IfOk result (λ v. v.items ≡ spec.above_lines first.now cap broken.now tables.now) }
{
    let broken = broken_line(alloc, broken)?;
    let lines = format!(in alloc; "not subset\nabove {cap}\n{broken}")?;
    let mut bytes = lines.into_bytes();
    put_cert(alloc, &mut bytes, first, tables)?;
    Ok(bytes)
}

fn verdict_lines(
    alloc: Global,
    first: &DeclSet,
    cap: u32,
    verdict: &Verdict,
) -> Result<Vec<u8>, NoMemory>
    requires { (costs_of first.now (tables_in verdict.now)).v (tables_in verdict.now).root ≡ bound_in cap verdict.now }
    ensures { IfOk result (λ v. v.items ≡ spec.verdict_lines first.now cap verdict.now) }
{
    match verdict {
        Verdict::Subset { tables } => subset_lines(alloc, first, tables),
        Verdict::Not {
            article,
            broken,
            tables,
        } => told_lines(alloc, first, article, broken, tables),
        Verdict::Over { broken, tables } => above_lines(alloc, first, cap, broken, tables),
    }
}

fn verdict_status(verdict: &Verdict) -> u8
    ensures value { result ≡ spec.verdict_status verdict.now }
    ensures small { result ≤ 1 }
{
    match verdict {
        Verdict::Subset { .. } => 0,
        _ => 1,
    }
}

/// The answer of a verdict, unless it is too long.
fn verdict_answer(
    alloc: Global,
    first: &DeclSet,
    cap: u32,
    verdict: &Verdict,
) -> Result<Answer, NoMemory>
    requires { (costs_of first.now (tables_in verdict.now)).v (tables_in verdict.now).root ≡ bound_in cap verdict.now }
    ensures fits { IfOk result (λ a. fits (spec.verdict_status verdict.now) (spec.verdict_lines first.now cap verdict.now) a.status a.bytes.items) }
    ensures says { IfOk result (λ a. Says a.status a.bytes.items) }
{
    let lines = verdict_lines(alloc, first, cap, verdict)?;
    fitting(alloc, verdict_status(verdict), lines)
}

/// The refusal where there is no verdict.
fn uncompared(alloc: Global, root: &Text, fault: &CompareFault) -> Result<Answer, NoMemory>
    ensures refuses { IfOk result (λ a. spec.uncompared root.now fault.now a.status a.bytes.items) }
    ensures says { IfOk result (λ a. Says a.status a.bytes.items) }
{
    match fault {
        CompareFault::RootUndeclared => {
            let refusal = root_undeclared(alloc, root)?;
            refused(alloc, &refusal)
        }
        CompareFault::PairsOver(name) => {
            let refusal = pairs_over(alloc, name)?;
            refused(alloc, &refusal)
        }
        CompareFault::TextOver => {
            let refusal = output_over(alloc)?;
            refused(alloc, &refusal)
        }
        CompareFault::NoMemory => Err(NoMemory),
    }
}

/// The comparison from the word of a root; what is no Name is not declared.
fn compare_from(
    alloc: Global,
    first: &DeclSet,
    second: &DeclSet,
    root: &Text,
    cap: u32,
) -> Result<Verdict, CompareFault>
    requires { cap ≤ 100000 }
    ensures { Compares first.now second.now root.now cap most_written result }
{
    let _ = first.count();
    match Name::from_text(alloc, root)? {
        None => Err(CompareFault::RootUndeclared),
        Some(name) => compare(alloc, first, second, &name, cap, OUTPUT_BYTES),
    }
}

/// The answer over two sets.
fn compared(
    alloc: Global,
    first: &DeclSet,
    second: &DeclSet,
    root: &Text,
    cap: u32,
) -> Result<Answer, NoMemory>
    requires { cap ≤ 100000 }
    ensures answer { IfOk result (λ a. spec.over_sets first.now second.now root.now cap a.status a.bytes.items) }
    ensures says { IfOk result (λ a. Says a.status a.bytes.items) }
{
    let _ = first.count();
    let _ = second.count();
    match compare_from(alloc, first, second, root, cap) {
        Ok(verdict) => verdict_answer(alloc, first, cap, &verdict),
        Err(fault) => uncompared(alloc, root, &fault),
    }
}

/// The answer to `compare`.
pub fn compare_words<S: Store>(alloc: Global, words: &[Text], store: &mut S) -> Result<Answer, Stop>
    requires { IsTrue (asked.is_compare words.now) }
    ensures keeps { S.holds store.new ≡ S.holds store.old }
    ensures faults { HasCause (S.faults store.old) (S.faults store.new) (IsLoadFailed result) }
    ensures absences { HasCause (S.absences store.old) (S.absences store.new) (AnswersAbsence result) }
    ensures says { IfOk result (λ a. Says a.status a.bytes.items) }
    ensures status { IfOk result (λ a. a.status ≤ 2) }
    ensures told { IfSome (S.holds store.old) (λ files. IfOk result (λ a. spec.compares files (asked.set_words words.now 1) (asked.set_words words.now 3) (asked.word words.now 5) (asked.cap_or_0 (asked.word words.now 6)) a.status a.bytes.items)) }
{
    let cap = cap_or_0(&words[6]);
    let sets = match read_both(alloc, store, words, 1, 3) {
        Ok(sets) => sets,
        Err(fault) => return stop_of(alloc, &fault),
    };
    match compared(alloc, &sets.0, &sets.1, &words[5], cap) {
        Ok(answer) => Ok(answer),
        Err(_) => Err(Stop::NoMemory),
    }
}
