//! The least article of an element.

ghost use Rattle.std.specs.Prelude.{◌≡◌, ◌≤◌};
ghost use Rattle.tree_costs.specs.Leasts.{IsExact};
ghost use Rattle.separating_article.specs.Articles as spec;

use crate::BuildOver;
use crate::building::build;
use crate::guide::{Book, Guide};
use decl_set::DeclSet;
use document_trees::Node;
use jats_chars::Name;
use std::alloc::Global;
use tree_costs::Least;

/// The least tree of an element, by the exact least costs of the set: from the start of each content it ends where the
/// state accepts, else takes the first step that attains the least sum, with a least tree in it; required attributes stand
/// with their samples, in order of declaration. The tree is a document, valid from the element, and as large as the costs
/// say.
///
/// `TextOver` is answered exactly where the text that `write_article` gives of that tree has more than `limit` bytes. Each
/// element is counted before it is put into the tree.
pub fn least_article(
    alloc: Global,
    set: &DeclSet,
    root: &Name,
    least: &Least,
    limit: u64,
) -> Result<Node, BuildOver>
    requires exact { IsExact set.now least.now }
    requires cap { least.now.cap ≤ 100000 }
    requires least { spec.HasLeast set.now least.now root.now }
    ensures { spec.Builds set.now least.now root.now limit result }
{
    let _ = set.count();
    let guide = Guide {
        first: set,
        second: set,
        cap: least.cap,
        book: Book::One(least),
    };
    build(alloc, &guide, root, false, limit)
}
