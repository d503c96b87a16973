//! Pairs of places, listed or owed.
//!
//! A loop owes the pairs of its last places and its first ones, and so does a sequence of parts that may all be empty for
//! the places between its parts. What is owed is listed only where no loop around it holds these pairs too.

ghost use Rattle.std.specs.Prelude.{◌≡◌, ◌++◌, ◌∷◌, IfOk, OnOk, [], if◌then◌else◌};
ghost use Rattle.position_automata.specs.Owed.{spread, between as between_of};
ghost use Rattle.position_automata.specs.Places.{beside, product};

use jats_chars::NoMemory;
use std::alloc::Global;
use std::marker::Model;

/// The pairs of each of some last places and each of some first ones, seen as these two lists.
#[derive(Drop)]
pub struct Product {
    last: Vec<u32>,
    first: Vec<u32>,
}

impl Model for Product {
    ghost use Rattle.std.specs.Prelude.{List, ℕ};

    ghost Value = { List ℕ × List ℕ };

    ghost view = { λ p. (p.last.items, p.first.items) };
}

impl Product {
    fn new(alloc: Global, last: &[u32], first: &[u32]) -> Result<Product, NoMemory>
        ensures { IfOk result (λ p. p ≡ (last.now, first.now)) }
    {
        Ok(Product {
            last: copied(alloc, last)?,
            first: copied(alloc, first)?,
        })
    }

    fn push_to(&self, edges: &mut Vec<(u32, u32)>) -> Result<(), NoMemory>
        ensures { OnOk result (edges.new.items ≡ edges.old.items ++ product self.now.0 self.now.1) }
    {
        push_product(edges, self.last.as_slice(), self.first.as_slice())
    }
}

fn copied(alloc: Global, places: &[u32]) -> Result<Vec<u32>, NoMemory>
    ensures { IfOk result (λ v. v.items ≡ places.now) }
{
    match Vec::from_slice(alloc, places) {
        Ok(v) => Ok(v),
        Err(_) => Err(NoMemory),
    }
}

/// Appends the pairs of x and each of ys.
pub fn push_beside(edges: &mut Vec<(u32, u32)>, x: u32, ys: &[u32]) -> Result<(), NoMemory>
    ensures { OnOk result (edges.new.items ≡ edges.old.items ++ beside x ys.now) }
{
    for y in ys {
        if edges.push((x, *y)).is_err() {
            return Err(NoMemory);
        }
    }
    Ok(())
}

fn push_product(edges: &mut Vec<(u32, u32)>, xs: &[u32], ys: &[u32]) -> Result<(), NoMemory>
    ensures { OnOk result (edges.new.items ≡ edges.old.items ++ product xs.now ys.now) }
{
    for x in xs {
        push_beside(edges, *x, ys)?;
    }
    Ok(())
}

/// Appends the pairs of these products.
pub fn push_owed(edges: &mut Vec<(u32, u32)>, owed: &[Product]) -> Result<(), NoMemory>
    ensures { OnOk result (edges.new.items ≡ edges.old.items ++ spread owed.now) }
{
    for one in owed {
        one.push_to(edges)?;
    }
    Ok(())
}

/// What is owed if it is kept; else its pairs are appended.
pub fn keep_if(
    alloc: Global,
    kept: bool,
    owed: Vec<Product>,
    edges: &mut Vec<(u32, u32)>,
) -> Result<Vec<Product>, NoMemory>
    ensures kept { IfOk result (λ v. v.items ≡ (if kept then owed.items else [])) }
    ensures listed { OnOk result (edges.new.items ≡ edges.old.items ++ (if kept then [] else spread owed.items)) }
{
    if kept {
        Ok(owed)
    } else {
        push_owed(edges, owed.as_slice())?;
        Ok(Vec::new(alloc))
    }
}

/// The product of these places as the only one that is owed.
pub fn owing(alloc: Global, last: &[u32], first: &[u32]) -> Result<Vec<Product>, NoMemory>
    ensures { IfOk result (λ v. v.items ≡ (last.now, first.now) ∷ []) }
{
    let mut owed = Vec::new(alloc);
    owed.push(Product::new(alloc, last, first)?)?;
    Ok(owed)
}

/// The product of the places between two parts if it is kept; else its pairs are appended.
pub fn between(
    alloc: Global,
    kept: bool,
    last: &[u32],
    first: &[u32],
    edges: &mut Vec<(u32, u32)>,
) -> Result<Vec<Product>, NoMemory>
    ensures kept { IfOk result (λ v. v.items ≡ between_of kept last.now first.now) }
    ensures listed { OnOk result (edges.new.items ≡ edges.old.items ++ (if kept then [] else product last.now first.now)) }
{
    if !kept {
        push_product(edges, last, first)?;
        Ok(Vec::new(alloc))
    } else if last.is_empty() {
        Ok(Vec::new(alloc))
    } else {
        owing(alloc, last, first)
    }
}
