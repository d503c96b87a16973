//! Names counted and compared.

ghost use Rattle.std.specs.Prelude.{◌≡◌, ◌≤◌, nat_lt, map, IfOk};
ghost use Rattle.content_models.specs.Proper.{names_in, total, repeated, checked_less};

use crate::Particle;
use indexmap::IndexSet;
use jats_chars::{Name, NoMemory};
use std::alloc::Global;

/// How many of `left` names are left after those that occur in a part, or None where more occur.
#[cycle(count)]
#[tactic(auto, using(crate::proofs::Counts::counts, crate::specs::declared::content::Particle::the_lemmas))]
fn left_after(part: &Particle, left: usize) -> Option<usize>
    ensures { result ≡ checked_less left (names_in part.now) }
{
    match part {
        Particle::One(_, _) => left.checked_sub(1),
        Particle::Seq(parts, _) => left_after_all(parts.as_slice(), left),
        Particle::Choice(parts, _) => left_after_all(parts.as_slice(), left),
    }
}

#[cycle(count)]
#[tactic(auto, using(crate::proofs::Counts::counts, crate::specs::declared::content::Particle::the_lemmas))]
fn left_after_all(parts: &[Particle], left: usize) -> Option<usize>
    ensures { result ≡ checked_less left (total (map names_in parts.now)) }
{
    let mut rest = left;
    for part in parts {
        match left_after(part, rest) {
            None => return None,
            Some(now) => rest = now,
        }
    }
    Some(rest)
}

/// Whether more names than these occur in a part.
pub fn has_more_names(part: &Particle, most: usize) -> bool
    ensures { result ≡ nat_lt most (names_in part.now) }
{
    left_after(part, most).is_none()
}

/// The first name that equals an earlier one.
pub fn first_repeated(alloc: Global, names: &[Name]) -> Result<Option<Name>, NoMemory>
    ensures { IfOk result (λ o. o ≡ repeated names.now) }
{
    let mut seen = IndexSet::new(alloc);
    for name in names {
        if !seen.insert(name)? {
            return Ok(Some(name.copy(alloc)?));
        }
    }
    Ok(None)
}
