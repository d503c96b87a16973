//! `work`: a self test of a build, and a measure of its speed.
//!
//! A set of so many elements is generated, read and compared with itself, and a variant of it is read and compared with it.
//! What these comparisons come to is a short formula of the number of elements, so the lines are known beforehand: the work
//! is done for its own sake. The lines are written only where it came to them. No text that is generated has a fault, so a
//! build that works writes them unless memory runs out, and one that does not stops as where memory runs out.

ghost use Rattle.std.specs.Prelude.{◌≡◌, ◌≤◌, IfOk, IsTrue};
ghost use Rattle.tagset_tool.specs.Outcomes.{answering};
ghost use Rattle.tagset_tool.specs.Runs.{IsLoadFailed, AnswersAbsence, Says};
ghost use Rattle.tagset_tool.specs.Words as asked;
ghost use Rattle.tagset_tool.specs.commands.Work as spec;

use crate::answer::{Answer, Stop};
use crate::words::count_or_1;
use bound_checker::Tables;
use decl_set::DeclSet;
use document_trees::{Node, elements};
use entity_catalog::Catalog;
use jats_chars::limits::{CAP, OUTPUT_BYTES};
use jats_chars::{Name, NoMemory, Text};
use jats_io::SoundStore;
use module_reader::read_set;
use std::alloc::Global;
use tagset_compare::{Verdict, compare};

/// The declaration of the k-th of so many elements, from 0: in it stand the next, and the one after that or nothing; the last
/// has its own content.
fn declaration(alloc: Global, k: u32, count: u32, last: &str) -> Result<String, NoMemory> {
    let next = k.saturating_add(1);
    let second = k.saturating_add(2);
    let line = if second < count {
        format!(in alloc; "<!ELEMENT e{k} (e{next},e{second}?)>\n")?
    } else if next < count {
        format!(in alloc; "<!ELEMENT e{k} (e{next})>\n")?
    } else {
        format!(in alloc; "<!ELEMENT e{k} {last}>\n")?
    };
    Ok(line)
}

/// The module of a generated set.
fn generated(alloc: Global, count: u32, last: &str) -> Result<Vec<u8>, NoMemory> {
    let mut bytes = Vec::new(alloc);
    for k in 0..count {
        let line = declaration(alloc, k, count, last)?;
        bytes.extend_from_slice(line.as_bytes())?;
    }
    Ok(bytes)
}

/// The generated set, read from a store of its own.
fn read_generated(alloc: Global, count: u32, last: &str) -> Result<DeclSet, NoMemory> {
    let entry = Text::from_str(alloc, "work.dtd")?;
    let bytes = generated(alloc, count, last)?;
    let mut store = SoundStore::new(alloc);
    store.put(entry.copy(alloc)?, bytes)?;
    match read_set(alloc, &mut store, &Catalog::empty(alloc), &entry) {
        Ok(set) => Ok(set),
        Err(_) => Err(NoMemory),
    }
}

/// Two sets compared from the first element of the generated ones.
fn compared(alloc: Global, first: &DeclSet, second: &DeclSet) -> Result<Verdict, NoMemory> {
    let text = Text::from_str(alloc, "e0")?;
    match Name::from_text(alloc, &text)? {
        None => Err(NoMemory),
        Some(root) => match compare(alloc, first, second, &root, CAP, OUTPUT_BYTES) {
            Ok(verdict) => Ok(verdict),
            Err(_) => Err(NoMemory),
        },
    }
}

/// How many pairs tables list.
fn pair_count(tables: &Tables) -> usize {
    let mut count: usize = 0;
    for row in tables.rows.as_slice() {
        count = count.saturating_add(row.pairs.len());
    }
    count
}

/// Whether the set is a subset of itself, by so many listed pairs.
fn is_subset_by(alloc: Global, set: &DeclSet, pairs: u32) -> Result<bool, NoMemory> {
    match compared(alloc, set, set)? {
        Verdict::Subset { tables } => Ok(pair_count(&tables) == pairs as usize),
        _ => Ok(false),
    }
}

/// Whether an article has so many elements.
fn has_size(alloc: Global, article: &Node, size: u32) -> Result<bool, NoMemory> {
    let found = elements(alloc, article)?;
    Ok(found == size as u64)
}

/// Whether the least article of the variant that the set does not allow has so many elements.
fn is_least(alloc: Global, variant: &DeclSet, set: &DeclSet, size: u32) -> Result<bool, NoMemory> {
    match compared(alloc, variant, set)? {
        Verdict::Not { article, .. } => has_size(alloc, &article, size),
        _ => Ok(false),
    }
}

fn listed_pairs(count: u32) -> u32
    requires { count ≤ 1000 }
    ensures { result ≡ spec.listed_pairs count }
{
    if count <= 1 { 1 } else { 3 * count - 3 }
}

/// Whether the comparisons come to what the lines say.
fn agrees(
    alloc: Global,
    set: &DeclSet,
    variant: &DeclSet,
    count: u32,
    pairs: u32,
) -> Result<bool, NoMemory> {
    let subset = is_subset_by(alloc, set, pairs)?;
    let least = is_least(alloc, variant, set, count)?;
    Ok(subset && least)
}

/// The same, where the variant is not read yet.
fn agrees_with(alloc: Global, set: &DeclSet, count: u32, pairs: u32) -> Result<bool, NoMemory> {
    let variant = read_generated(alloc, count, "(#PCDATA)")?;
    agrees(alloc, set, &variant, count, pairs)
}

/// The same from nothing: both texts are read.
fn works(alloc: Global, count: u32, pairs: u32) -> Result<bool, NoMemory> {
    let set = read_generated(alloc, count, "EMPTY")?;
    agrees_with(alloc, &set, count, pairs)
}

/// The lines.
fn lines(alloc: Global, count: u32, pairs: u32) -> Result<Vec<u8>, NoMemory>
    requires { pairs ≡ spec.listed_pairs count }
    ensures { IfOk result (λ v. v.items ≡ spec.work_lines count) }
{
    let lines = format!(in alloc;
        "elements {count}\nself subset\npairs {pairs}\nvariant least {count}\n"
    )?;
    Ok(lines.into_bytes())
}

/// The lines, once the work is done.
fn worked(alloc: Global, count: u32) -> Result<Vec<u8>, NoMemory>
    requires { count ≤ 1000 }
    ensures { IfOk result (λ v. v.items ≡ spec.work_lines count) }
{
    let pairs = listed_pairs(count);
    if works(alloc, count, pairs)? {
        lines(alloc, count, pairs)
    } else {
        Err(NoMemory)
    }
}

/// The answer to `work`, which asks for no file.
pub fn work_words(alloc: Global, words: &[Text]) -> Result<Answer, Stop>
    requires { IsTrue (asked.is_work words.now) }
    ensures faults { IsLoadFailed result → ⊥ }
    ensures absences { AnswersAbsence result → ⊥ }
    ensures says { IfOk result (λ a. Says a.status a.bytes.items) }
    ensures status { IfOk result (λ a. a.status ≤ 2) }
    ensures told { IfOk result (λ a. answering 0 (spec.work_lines (asked.count_or_1 (asked.word words.now 1))) a.status a.bytes.items) }
{
    match worked(alloc, count_or_1(&words[1])) {
        Ok(bytes) => Ok(Answer { status: 0, bytes }),
        Err(_) => Err(Stop::NoMemory),
    }
}
