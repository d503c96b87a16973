//! The least article of an element that may be empty.

ghost use Rattle.std.specs.Prelude.{◌≡◌};
ghost use Rattle.tree_costs.specs.Leasts.{m_of};

use content_models::Content;
use decl_set::{DeclFault, DeclSet};
use document_trees::Node;
use jats_chars::{Name, NoMemory, Text};
use least_trees::least;
use separating_article::{BuildOver, least_article};
use std::alloc::Global;
use std::test::Fail;
use tree_costs::{Cost, Least};

/// The name `e`.
fn name(alloc: Global) -> Result<Name, NoMemory> {
    let text = Text::from_slice(alloc, &['e'])?;
    Name::from_text(alloc, &text)?.ok_or(NoMemory)
}

#[tactic(auto, unfolding(content_models::specs::Proper::is_proper))]
fn declare(alloc: Global, set: &mut DeclSet) -> Result<(), DeclFault> {
    set.declare_element(name(alloc)?, Content::Empty)
}

/// The least size of an element.
fn size_of(set: &DeclSet, root: &Name, least: &Least) -> Cost
    ensures { result ≡ m_of set.now least.now root.now }
{
    match set.index_of(root) {
        None => Cost::Inf,
        Some(place) => match least.rows.get(place) {
            None => Cost::Inf,
            Some(row) => row.m,
        },
    }
}

/// What is built of `e` with so many bytes, where it has a least size.
fn built(alloc: Global, set: &DeclSet, limit: u64) -> Result<Option<Node>, BuildOver> {
    let root = name(alloc)?;
    let least = least(alloc, set, 10)?;
    match size_of(set, &root, &least) {
        Cost::Inf => Ok(None),
        Cost::Fin(size) => {
            if size > least.cap {
                return Ok(None);
            }
            match least_article(alloc, set, &root, &least, limit) {
                Err(over) => Err(over),
                Ok(node) => Ok(Some(node)),
            }
        }
    }
}

#[test]
fn an_empty_element_has_four_bytes(rt: HostRuntime) -> Result<(), Fail> {
    let mut set = DeclSet::new(rt.alloc());
    let answer = declare(rt.alloc(), &mut set);
    assert!(rt; answer.is_ok());
    let short = built(rt.alloc(), &set, 3);
    assert!(rt; matches!(&short, Err(BuildOver::TextOver)));
    let enough = built(rt.alloc(), &set, 4);
    assert!(rt; matches!(&enough, Ok(Some(_))));
    Ok(())
}
