//! An article of one element, declared and not.

use article_validator::{faults, first_broken};
use content_models::Content;
use decl_set::{DeclFault, DeclSet};
use document_trees::{AttValues, ItemList, Node};
use jats_chars::{Name, NoMemory, Text};
use std::alloc::Global;

fn named(alloc: Global, c: char) -> Result<Name, NoMemory> {
    let text = Text::from_slice(alloc, &[c])?;
    Name::from_text(alloc, &text)?.ok_or(NoMemory)
}

/// The name `e`.
fn name(alloc: Global) -> Result<Name, NoMemory> {
    named(alloc, 'e')
}

/// The element `e` without attributes and items.
fn leaf(alloc: Global) -> Result<Node, NoMemory> {
    let name = name(alloc)?;
    Ok(Node::new(name, AttValues::new(alloc), ItemList::new(alloc)))
}

/// How much is wrong in that element, where this is the root, and whether it is broken.
fn judged(alloc: Global, set: &DeclSet, root: char) -> Result<(usize, bool), NoMemory> {
    let node = leaf(alloc)?;
    let root = Text::from_slice(alloc, &[root])?;
    let list = faults(alloc, set, &root, &node)?;
    let broken = first_broken(alloc, set, &node)?;
    Ok((list.len(), broken.is_some()))
}

#[test]
fn an_undeclared_element_of_another_name(rt: HostRuntime) -> Result<(), NoMemory> {
    let set = DeclSet::new(rt.alloc());
    let (count, broken) = judged(rt.alloc(), &set, 'r')?;
    assert!(rt; count == 2 && broken);
    Ok(())
}

#[tactic(auto, unfolding(content_models::specs::Proper::is_proper))]
fn declare(alloc: Global, set: &mut DeclSet) -> Result<(), DeclFault> {
    set.declare_element(name(alloc)?, Content::Empty)
}

#[test]
fn a_valid_element(rt: HostRuntime) -> Result<(), NoMemory> {
    let mut set = DeclSet::new(rt.alloc());
    let answer = declare(rt.alloc(), &mut set);
    let (count, broken) = judged(rt.alloc(), &set, 'e')?;
    assert!(rt; answer.is_ok() && count == 0 && !broken);
    Ok(())
}
