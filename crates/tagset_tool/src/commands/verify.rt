//! `verify`: whether the bounds of a certificate hold for two sets.

ghost use Rattle.std.specs.Prelude.{◌≡◌, ◌≤◌, IfOk, IfSome, IsTrue, encode_utf8_all, string_bytes};
ghost use Rattle.bound_checker.specs.Certificates.{cost_text, read_lines};
ghost use Rattle.bound_checker.specs.Lines.{lines_of};
ghost use Rattle.bound_checker.specs.Tabled.{Fits, costs_of};
ghost use Rattle.bound_checker.specs.Tests.{first_broken};
ghost use Rattle.jats_io.specs.Causes.{HasCause};
ghost use Rattle.tagset_tool.specs.Runs.{IsLoadFailed, AnswersAbsence, Says};
ghost use Rattle.tagset_tool.specs.Words as asked;
ghost use Rattle.tagset_tool.specs.commands.Verify as spec;

use crate::answer::{Answer, Stop, refused, stop_of};
use crate::refusals::cert_malformed;
use crate::shown::shown;
use crate::words::read_both;
use bound_checker::{Broken, CertFault, Cost, Tables, check_tables, read_cert};
use decl_set::DeclSet;
use jats_chars::limits::CERTIFICATE_BYTES;
use jats_chars::{NoMemory, Text};
use jats_io::Store;
use module_reader::load_text;
use std::alloc::Global;
use tagset_compare::bound_of;

fn cost_word(alloc: Global, cost: Cost) -> Result<String, NoMemory>
    ensures { IfOk result (λ s. string_bytes s ≡ cost_text cost) }
{
    let word = match cost {
        Cost::Fin(n) => format!(in alloc; "{n}")?,
        Cost::Inf => "inf".to_string(alloc)?,
    };
    Ok(word)
}

fn state_word(alloc: Global, broken: &Broken) -> Result<String, NoMemory>
    ensures { IfOk result (λ s. string_bytes s ≡ spec.state_word broken.now) }
{
    let i = broken.i;
    let word = if broken.kind <= 7 {
        format!(in alloc; " {i}")?
    } else {
        String::new(alloc)
    };
    Ok(word)
}

fn other_word(alloc: Global, broken: &Broken) -> Result<String, NoMemory>
    ensures { IfOk result (λ s. string_bytes s ≡ spec.other_word broken.now) }
{
    let j = broken.j;
    let word = if 5 <= broken.kind && broken.kind <= 7 {
        format!(in alloc; " {j}")?
    } else {
        String::new(alloc)
    };
    Ok(word)
}

fn element_name(alloc: Global, first: &DeclSet, broken: &Broken) -> Result<String, NoMemory>
    ensures { IfOk result (λ s. string_bytes s ≡ encode_utf8_all (spec.element_name first.now broken.now)) }
{
    match first.name_at(broken.element) {
        None => Ok(String::new(alloc)),
        Some(name) => shown(alloc, name.text()),
    }
}

fn step_name(alloc: Global, first: &DeclSet, broken: &Broken) -> Result<String, NoMemory>
    ensures { IfOk result (λ s. string_bytes s ≡ encode_utf8_all (spec.step_name first.now broken.now)) }
{
    match first.step_at(broken.element, broken.i, broken.step) {
        None => Ok(String::new(alloc)),
        Some((name, _)) => shown(alloc, name.text()),
    }
}

fn step_word(alloc: Global, first: &DeclSet, broken: &Broken) -> Result<String, NoMemory>
    ensures { IfOk result (λ s. string_bytes s ≡ spec.step_word first.now broken.now) }
{
    let kind = broken.kind;
    if kind <= 1 {
        Ok(String::new(alloc))
    } else if 5 <= kind && kind <= 5 {
        Ok(String::new(alloc))
    } else if kind <= 7 {
        let name = step_name(alloc, first, broken)?;
        let word = format!(in alloc; " {name}")?;
        Ok(word)
    } else {
        Ok(String::new(alloc))
    }
}

/// The line of the first inequality that fails.
fn broken_words(alloc: Global, first: &DeclSet, broken: &Broken) -> Result<Vec<u8>, NoMemory>
    ensures { IfOk result (λ v. v.items ≡ spec.broken_words first.now broken.now) }
{
    let kind = broken.kind;
    let element = element_name(alloc, first, broken)?;
    let state = state_word(alloc, broken)?;
    let other = other_word(alloc, broken)?;
    let step = step_word(alloc, first, broken)?;
    let left = cost_word(alloc, broken.left)?;
    let right = cost_word(alloc, broken.right)?;
    let line = format!(in alloc;
        "not certified {kind} {element}{state}{other}{step} {left} {right}\n"
    )?;
    Ok(line.into_bytes())
}

fn claim(alloc: Global, bound: Cost) -> Result<Vec<u8>, NoMemory>
    ensures { IfOk result (λ v. v.items ≡ spec.claim bound) }
{
    let line = match bound {
        Cost::Inf => "certified subset\n".to_string(alloc)?,
        Cost::Fin(n) => format!(in alloc; "certified at least {n}\n")?,
    };
    Ok(line.into_bytes())
}

/// The answer over tables that fit.
fn checked(
    alloc: Global,
    first: &DeclSet,
    second: &DeclSet,
    tables: &Tables,
) -> Result<Answer, NoMemory>
    requires { Fits first.now second.now tables.now }
    ensures answer { IfOk result (λ a. spec.checked first.now tables.now (first_broken first.now second.now tables.now) a.status a.bytes.items) }
    ensures says { IfOk result (λ a. Says a.status a.bytes.items) }
{
    let _ = first.count();
    let _ = second.count();
    match check_tables(first, second, tables) {
        Ok(()) => {
            let bytes = claim(alloc, bound_of(first, tables))?;
            Ok(Answer { status: 0, bytes })
        }
        Err(broken) => {
            let bytes = broken_words(alloc, first, &broken)?;
            Ok(Answer { status: 1, bytes })
        }
    }
}

/// The answer over a certificate.
fn certified(
    alloc: Global,
    first: &DeclSet,
    second: &DeclSet,
    name: &Text,
    text: &Text,
) -> Result<Answer, NoMemory>
    ensures answer { IfOk result (λ a. spec.certified first.now second.now name.now (read_lines first.now second.now (lines_of text.now)) a.status a.bytes.items) }
    ensures says { IfOk result (λ a. Says a.status a.bytes.items) }
{
    match read_cert(alloc, first, second, text) {
        Ok(tables) => checked(alloc, first, second, &tables),
        Err(CertFault::Malformed(line)) => {
            let refusal = cert_malformed(alloc, name, line)?;
            refused(alloc, &refusal)
        }
        Err(CertFault::NoMemory) => Err(NoMemory),
    }
}

/// The answer over two sets that were read.
fn verified_over<S: Store>(
    alloc: Global,
    store: &mut S,
    first: &DeclSet,
    second: &DeclSet,
    name: &Text,
) -> Result<Answer, Stop>
    ensures keeps { S.holds store.new ≡ S.holds store.old }
    ensures faults { HasCause (S.faults store.old) (S.faults store.new) (IsLoadFailed result) }
    ensures absences { HasCause (S.absences store.old) (S.absences store.new) (AnswersAbsence result) }
    ensures says { IfOk result (λ a. Says a.status a.bytes.items) }
    ensures status { IfOk result (λ a. a.status ≤ 2) }
    ensures told { IfSome (S.holds store.old) (λ files. IfOk result (λ a. spec.verifies_by files name.now first.now second.now a.status a.bytes.items)) }
{
    let text = match load_text(alloc, store, name, CERTIFICATE_BYTES) {
        Ok(text) => text,
        Err(fault) => return stop_of(alloc, &fault),
    };
    match certified(alloc, first, second, name, &text) {
        Ok(answer) => Ok(answer),
        Err(_) => Err(Stop::NoMemory),
    }
}

/// The answer to `verify`.
pub fn verify_words<S: Store>(alloc: Global, words: &[Text], store: &mut S) -> Result<Answer, Stop>
    requires { IsTrue (asked.is_verify words.now) }
    ensures keeps { S.holds store.new ≡ S.holds store.old }
    ensures faults { HasCause (S.faults store.old) (S.faults store.new) (IsLoadFailed result) }
    ensures absences { HasCause (S.absences store.old) (S.absences store.new) (AnswersAbsence result) }
    ensures says { IfOk result (λ a. Says a.status a.bytes.items) }
    ensures status { IfOk result (λ a. a.status ≤ 2) }
    ensures told { IfSome (S.holds store.old) (λ files. IfOk result (λ a. spec.verifies files (asked.word words.now 1) (asked.set_words words.now 2) (asked.set_words words.now 4) a.status a.bytes.items)) }
{
    match read_both(alloc, store, words, 2, 4) {
        Err(fault) => stop_of(alloc, &fault),
        Ok(sets) => verified_over(alloc, store, &sets.0, &sets.1, &words[1]),
    }
}
