//! The walk over a model that finds its places.

ghost use Rattle.std.specs.Prelude.{◌≡◌, ◌+◌, ◌++◌, ◌<◌, ◌^◌, IfOk, OnOk, [], ◌&&◌, ◌||◌, if◌then◌else◌, ◌∷◌, false};
ghost use Rattle.content_models.specs.Model.{model, in_order, choice_of};
ghost use Rattle.content_models.specs.Re.{Eps};
ghost use Rattle.position_automata.specs.Marked.{count};
ghost use Rattle.position_automata.specs.Owed.{kept, settled, owing as owing_of, IsListed};
ghost use Rattle.position_automata.specs.Places.{allows_none, IsEnds, models, edges as edges_of};

use crate::owed::{Product, between, keep_if, owing};
use content_models::{Occurs, Particle};
use jats_chars::NoMemory;
use std::alloc::Global;

/// Where the lists of a model begin and end, and which pairs of a last and a first place may stand side by side but are
/// not listed yet.
#[derive(Drop)]
pub struct Ends {
    pub nullable: bool,
    pub first: Vec<u32>,
    pub last: Vec<u32>,
    pub owed: Vec<Product>,
}

/// The ends of one model after another.
fn join(alloc: Global, a: Ends, b: Ends, edges: &mut Vec<(u32, u32)>) -> Result<Ends, NoMemory>
    ensures ends { IfOk result (λ e. (e.nullable ≡ (a.nullable && b.nullable))
        × (e.first.items ≡ a.first.items ++ (if a.nullable then b.first.items else []))
        × (e.last.items ≡ b.last.items ++ (if b.nullable then a.last.items else []))) }
    ensures kept { IfOk result (λ e. e.owed.items ≡ kept a b) }
    ensures listed { OnOk result (edges.new.items ≡ edges.old.items ++ settled a b) }
{
    let Ends {
        nullable: a_null,
        first: a_first,
        last: a_last,
        owed: a_owed,
    } = a;
    let Ends {
        nullable: b_null,
        first: b_first,
        last: b_last,
        owed: b_owed,
    } = b;
    let left = keep_if(alloc, b_null, a_owed, edges)?;
    let right = keep_if(alloc, a_null, b_owed, edges)?;
    let middle = between(
        alloc,
        a_null && b_null,
        a_last.as_slice(),
        b_first.as_slice(),
        edges,
    )?;
    Ok(Ends {
        nullable: a_null && b_null,
        first: append_if(a_null, a_first, b_first)?,
        last: append_if(b_null, b_last, a_last)?,
        owed: append(append(left, right)?, middle)?,
    })
}

fn append_if(wanted: bool, to: Vec<u32>, more: Vec<u32>) -> Result<Vec<u32>, NoMemory>
    ensures { IfOk result (λ v. v.items ≡ to.items ++ (if wanted then more.items else [])) }
{
    if wanted { append(to, more) } else { Ok(to) }
}

/// The ends of either of two models.
fn either(a: Ends, b: Ends) -> Result<Ends, NoMemory>
    ensures ends { IfOk result (λ e. (e.nullable ≡ (a.nullable || b.nullable))
        × (e.first.items ≡ a.first.items ++ b.first.items)
        × (e.last.items ≡ a.last.items ++ b.last.items)) }
    ensures owed { IfOk result (λ e. e.owed.items ≡ a.owed.items ++ b.owed.items) }
{
    Ok(Ends {
        nullable: a.nullable || b.nullable,
        first: append(a.first, b.first)?,
        last: append(a.last, b.last)?,
        owed: append(a.owed, b.owed)?,
    })
}

fn append<T: Drop>(mut to: Vec<T>, mut more: Vec<T>) -> Result<Vec<T>, NoMemory>
    ensures { IfOk result (λ v. v.items ≡ to.items ++ more.items) }
{
    if to.is_empty() {
        return Ok(more);
    }
    match to.append(&mut more) {
        Ok(()) => Ok(to),
        Err(_) => Err(NoMemory),
    }
}

fn repeat(alloc: Global, mut e: Ends, occurs: Occurs) -> Result<Ends, NoMemory>
    ensures ends { IfOk result (λ f. (f.nullable ≡ (allows_none occurs || e.nullable)) × (f.first.items ≡ e.first.items) × (f.last.items ≡ e.last.items)) }
    ensures owed { IfOk result (λ f. f.owed.items ≡ owing_of occurs e.last.items e.first.items e.owed.items) }
{
    match occurs {
        Occurs::Once => Ok(e),
        Occurs::Opt => {
            e.nullable = true;
            Ok(e)
        }
        Occurs::Star => {
            e.owed = owing(alloc, e.last.as_slice(), e.first.as_slice())?;
            e.nullable = true;
            Ok(e)
        }
        Occurs::Plus => {
            e.owed = owing(alloc, e.last.as_slice(), e.first.as_slice())?;
            Ok(e)
        }
    }
}

fn one(alloc: Global, k: u32) -> Result<Ends, NoMemory>
    ensures ends { IfOk result (λ e. (e.nullable ≡ false) × (e.first.items ≡ k ∷ []) × (e.last.items ≡ k ∷ [])) }
    ensures owed { IfOk result (λ e. e.owed.items ≡ []) }
{
    Ok(Ends {
        nullable: false,
        first: single(alloc, k)?,
        last: single(alloc, k)?,
        owed: Vec::new(alloc),
    })
}

fn single(alloc: Global, k: u32) -> Result<Vec<u32>, NoMemory>
    ensures { IfOk result (λ v. v.items ≡ k ∷ []) }
{
    match Vec::from_slice(alloc, &[k]) {
        Ok(v) => Ok(v),
        Err(_) => Err(NoMemory),
    }
}

fn empty(alloc: Global) -> Ends
    ensures ends { IsEnds 1 Eps result }
    ensures owed { result.owed.items ≡ [] }
{
    Ends {
        nullable: true,
        first: Vec::new(alloc),
        last: Vec::new(alloc),
        owed: Vec::new(alloc),
    }
}

/// The ends of a particle whose names are numbered from k, and the number after its last. The pairs that may stand side
/// by side are appended, but for those that the ends owe.
#[cycle(walk)]
pub fn walk(
    alloc: Global,
    particle: &Particle,
    k: u32,
    edges: &mut Vec<(u32, u32)>,
) -> Result<(Ends, u32), NoMemory>
    requires { k + count (model particle.now) < 2 ^ 31 }
    ensures ends { IfOk result (λ e. IsEnds k (model particle.now) e.0 × (e.1 ≡ k + count (model particle.now))) }
    ensures listed { IfOk result (λ e. IsListed (edges_of k (model particle.now)) edges.old.items edges.new.items e.0) }
{
    match particle {
        Particle::One(_, occurs) => Ok((repeat(alloc, one(alloc, k)?, *occurs)?, k + 1)),
        Particle::Seq(parts, occurs) => {
            let (ends, next) = walk_seq(alloc, parts.as_slice(), k, edges)?;
            Ok((repeat(alloc, ends, *occurs)?, next))
        }
        Particle::Choice(parts, occurs) => {
            let (ends, next) = walk_choice(alloc, parts.as_slice(), k, edges)?;
            Ok((repeat(alloc, ends, *occurs)?, next))
        }
    }
}

#[cycle(walk)]
fn walk_seq(
    alloc: Global,
    parts: &[Particle],
    k: u32,
    edges: &mut Vec<(u32, u32)>,
) -> Result<(Ends, u32), NoMemory>
    requires { k + count (in_order Eps (models parts.now)) < 2 ^ 31 }
    ensures ends { IfOk result (λ e. IsEnds k (in_order Eps (models parts.now)) e.0 × (e.1 ≡ k + count (in_order Eps (models parts.now)))) }
    ensures listed { IfOk result (λ e. IsListed (edges_of k (in_order Eps (models parts.now))) edges.old.items edges.new.items e.0) }
{
    let mut acc = empty(alloc);
    let mut next = k;
    for part in parts {
        let (ends, after) = walk(alloc, part, next, edges)?;
        acc = join(alloc, acc, ends, edges)?;
        next = after;
    }
    Ok((acc, next))
}

#[cycle(walk)]
fn walk_choice(
    alloc: Global,
    parts: &[Particle],
    k: u32,
    edges: &mut Vec<(u32, u32)>,
) -> Result<(Ends, u32), NoMemory>
    requires { k + count (choice_of (models parts.now)) < 2 ^ 31 }
    ensures ends { IfOk result (λ e. IsEnds k (choice_of (models parts.now)) e.0 × (e.1 ≡ k + count (choice_of (models parts.now)))) }
    ensures listed { IfOk result (λ e. IsListed (edges_of k (choice_of (models parts.now))) edges.old.items edges.new.items e.0) }
{
    let mut acc = empty(alloc);
    acc.nullable = parts.is_empty();
    let mut next = k;
    for part in parts {
        let (ends, after) = walk(alloc, part, next, edges)?;
        acc = either(acc, ends)?;
        next = after;
    }
    Ok((acc, next))
}
