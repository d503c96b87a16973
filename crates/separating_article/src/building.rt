//! A chosen tree is built.

ghost use Rattle.separating_article.specs.Building as spec;
ghost use Rattle.separating_article.specs.Guides.{IsGuide};

use crate::BuildOver;
use crate::chosen_steps::ChosenSteps;
use crate::growing::{Growing, Started, chosen_at, grow, start};
use crate::guide::Guide;
use document_trees::Node;
use jats_chars::Name;
use std::alloc::Global;

/// Starts the tree of an element.
fn begun(
    alloc: Global,
    guide: &Guide,
    root: &Name,
    separates: bool,
    limit: u64,
) -> Result<Growing, BuildOver>
    requires guide { IsGuide guide.now }
    requires tree { spec.HasTree guide.now separates root.now }
    ensures { spec.Begins guide.now separates root.now limit result }
{
    match guide.first.index_of(root) {
        None => unreachable!(),
        Some(place) => {
            let mut steps = ChosenSteps::new(alloc);
            let chosen = chosen_at(guide, &mut steps, place, separates);
            match start(alloc, guide, chosen, limit) {
                Err(over) => Err(over),
                Ok((inner, left)) => Ok(Growing {
                    left,
                    inner,
                    outer: Vec::new(alloc),
                    steps,
                }),
            }
        }
    }
}

/// The tree of an element that is chosen by exact costs, by whether it separates. `TextOver` exactly where its text has more
/// bytes than the limit.
pub fn build(
    alloc: Global,
    guide: &Guide,
    root: &Name,
    separates: bool,
    limit: u64,
) -> Result<Node, BuildOver>
    requires guide { IsGuide guide.now }
    requires tree { spec.HasTree guide.now separates root.now }
    ensures { spec.Tells guide.now separates root.now limit result }
{
    let mut work = match begun(alloc, guide, root, separates, limit) {
        Err(over) => return Err(over),
        Ok(work) => work,
    };
    match grow(alloc, guide, &mut work) {
        Err(over) => return Err(over),
        Ok(()) => {}
    }
    let Growing { inner, .. } = work;
    let Started { node, .. } = inner;
    Ok(node)
}
