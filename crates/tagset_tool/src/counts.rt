//! How much a set declares.

ghost use Rattle.std.specs.Prelude.{◌≡◌, ◌+◌, IfOk};
ghost use Rattle.tagset_tool.specs.Counts as spec;

use decl_set::DeclSet;
use jats_chars::NoMemory;
use std::alloc::Global;

/// A sum with one number more, where it is below 2^64.
fn plus(sum: u64, len: usize) -> Result<u64, NoMemory>
    ensures { IfOk result (λ n. n ≡ sum + len) }
{
    match sum.checked_add(len as u64) {
        Some(sum) => Ok(sum),
        None => Err(NoMemory),
    }
}

/// How many attributes all lists have together.
fn attribute_count(set: &DeclSet) -> Result<u64, NoMemory>
    ensures { IfOk result (λ n. n ≡ spec.attribute_count set.now) }
{
    let mut sum: u64 = 0;
    for k in 0..set.list_count() {
        match set.list_at(k) {
            None => return Ok(sum),
            Some((_, list)) => sum = plus(sum, list.len())?,
        }
    }
    Ok(sum)
}

/// How much a set declares: `ok`, and a line for each list.
#[tactic(auto, unfolding(crate::specs::Counts::count_lines))]
pub fn count_lines(alloc: Global, set: &DeclSet) -> Result<Vec<u8>, NoMemory>
    ensures { IfOk result (λ v. v.items ≡ spec.count_lines set.now) }
{
    let elements = set.count();
    let attributes = attribute_count(set)?;
    let entities = set.entity_count();
    let notations = set.notation_count();
    let lines = format!(in alloc;
        "ok\nelements {elements}\nattributes {attributes}\nentities {entities}\nnotations {notations}\n"
    )?;
    Ok(lines.into_bytes())
}
