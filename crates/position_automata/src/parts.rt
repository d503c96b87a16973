//! The parts of an automaton, built from a model.

ghost use Rattle.std.specs.Prelude.{◌≡◌, ◌≤◌, ◌<◌, ◌+◌, ◌==◌, ◌&&◌, ◌||◌, ℕ, IfOk, false, nat_eq, length, slice_index_or};
ghost use Rattle.std.specs.List.{list_any};
ghost use Rattle.content_models.specs.Model.{model};
ghost use Rattle.position_automata.specs.Marked.{count};
ghost use Rattle.position_automata.specs.Owed.{SamePairs};
ghost use Rattle.position_automata.specs.Places.{letters as letters_of, pairs, IsEnds};
ghost use Rattle.position_automata.specs.Tables.{AreKeys, ModelRows};

use crate::BuildFault;
use crate::names::numbers;
use crate::owed::{push_beside, push_owed};
use crate::rows::{Row, bucket, rows};
use crate::walk::{Ends, walk};
use content_models::Particle;
use indexmap::IndexSet;
use jats_chars::{ListOf, Name, NoMemory};
use std::alloc::Global;

/// Where the lists of a model begin and end, and the pairs of a state and a position that may come next.
pub fn model_pairs(alloc: Global, part: &Particle) -> Result<(Ends, Vec<(u32, u32)>), NoMemory>
    requires { count (model part.now) ≤ 1024 }
    ensures { IfOk result (λ t. IsEnds 1 (model part.now) t.0 × SamePairs t.1.items (pairs (model part.now))) }
{
    let mut found = Vec::new(alloc);
    let (ends, _) = walk(alloc, part, 1, &mut found)?;
    push_owed(&mut found, ends.owed.as_slice())?;
    push_beside(&mut found, 0, ends.first.as_slice())?;
    Ok((ends, found))
}

/// The rows of a model, or the two positions for which it is not deterministic.
pub fn model_rows(
    alloc: Global,
    part: &Particle,
    letters: &[Name],
    names: &IndexSet<Name>,
    found: &[(u32, u32)],
) -> Result<ListOf<Row>, BuildFault>
    requires small { count (model part.now) ≤ 1024 }
    requires letters { letters.now ≡ letters_of (model part.now) }
    requires names { AreKeys letters.now names.now.keys }
    requires found { SamePairs found.now (pairs (model part.now)) }
    ensures { ModelRows part.now names.now.keys result }
{
    let numbers = numbers(alloc, names, letters)?;
    let found = bucket(alloc, letters.len() + 1, found)?;
    rows(alloc, found.as_slice(), numbers.as_slice())
}

/// As many flags as there are states, the first of them set as told.
pub fn flags(alloc: Global, states: usize, nullable: bool) -> Result<Vec<bool>, NoMemory>
    ensures len { IfOk result (λ v. length v.items ≡ states) }
    ensures flags { IfOk result (λ v. (i : ℕ) → i < states → slice_index_or v.items i false ≡ ((i == 0) && nullable)) }
{
    let mut flags = Vec::new(alloc);
    for state in 0..states {
        flags.push(state == 0 && nullable)?;
    }
    Ok(flags)
}

/// Whether each state accepts: the start where the model may be empty, and those at which a list may end.
pub fn accepting(
    alloc: Global,
    states: usize,
    nullable: bool,
    last: &[u32],
) -> Result<Vec<bool>, NoMemory>
    ensures { IfOk result (λ v. (i : ℕ) → i < states → slice_index_or v.items i false ≡ (((i == 0) && nullable) || list_any (nat_eq i) last.now)) }
{
    let mut flags = flags(alloc, states, nullable)?;
    for state in last {
        let at = *state as usize;
        if at < flags.len() {
            flags[at] = true;
        }
    }
    Ok(flags)
}
