//! Sets of pairs.

ghost use Rattle.std.specs.Prelude.{◌≡◌, ◌<◌, ◌≤◌, ◌*◌, ◌^◌, length, slice_get, IfOk};
ghost use Rattle.model_inclusion.specs.Reaching.{pairs_from};

use jats_chars::NoMemory;
use std::alloc::Global;
use std::marker::Model;

/// Pairs of states in order, seen as the list of them.
#[derive(Drop)]
pub struct PairSet {
    pairs: Vec<(u32, u32)>,
}

impl Model for PairSet {
    ghost use Rattle.std.specs.Prelude.{List, ℕ};

    ghost Value = { List (ℕ × ℕ) };

    ghost view = { λ s. s.pairs.items };
}

/// The pairs whose numbers are marked.
pub fn collect(alloc: Global, seen: &[bool], width: u32) -> Result<PairSet, NoMemory>
    requires some { 0 < width }
    requires small { length seen.now ≤ 2 ^ 32 * width }
    ensures { IfOk result (λ pairs. pairs ≡ pairs_from 0 width seen.now) }
{
    let mut pairs = Vec::new(alloc);
    let width = width as usize;
    for (pair, flag) in seen.iter().enumerate() {
        if *flag {
            pairs.push(((pair / width) as u32, (pair % width) as u32))?;
        }
    }
    Ok(PairSet { pairs })
}

impl PairSet {
    /// How many pairs there are.
    pub fn len(&self) -> usize
        ensures { result ≡ length self.now }
    {
        self.pairs.len()
    }

    /// The pairs, lent.
    pub fn as_slice(&self) -> &[(u32, u32)]
        ensures { result.now ≡ self.now }
    {
        self.pairs.as_slice()
    }

    /// The pair at a place counted from 0, or None exactly where the place is the length or more.
    pub fn get(&self, k: usize) -> Option<(u32, u32)>
        ensures { result ≡ slice_get self.now k }
    {
        match self.pairs.get(k) {
            Some(pair) => Some(*pair),
            None => None,
        }
    }
}
