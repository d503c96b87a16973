//! The chosen separating article of two sets.

ghost use Rattle.std.specs.Prelude.{◌≡◌};
ghost use Rattle.bound_checker.specs.Tabled.{Fits};
ghost use Rattle.separating_article.specs.Separating as spec;

use crate::BuildOver;
use crate::building::build;
use crate::guide::{Book, Guide};
use bound_checker::Tables;
use decl_set::DeclSet;
use document_trees::Node;
use std::alloc::Global;

/// The chosen separating tree of the root of exact tables: valid in the first set and not in the second, with as few
/// elements as can be. `exact_tables` has the rule that chooses it. It is a document, and as large as the tables say.
///
/// `TextOver` is answered exactly where the text that `write_article` gives of that tree has more than `limit` bytes. Each
/// element is counted before it is put into the tree.
pub fn separating(
    alloc: Global,
    first: &DeclSet,
    second: &DeclSet,
    tables: &Tables,
    limit: u64,
) -> Result<Node, BuildOver>
    requires fits { Fits first.now second.now tables.now }
    requires exact { spec.AreExact first.now second.now tables.now }
    requires least { spec.HasSeparating first.now tables.now }
    ensures { spec.Separates first.now second.now tables.now limit result }
{
    let _ = first.count();
    let _ = second.count();
    let guide = Guide {
        first,
        second,
        cap: tables.cap,
        book: Book::Two(tables),
    };
    build(alloc, &guide, &tables.root, true, limit)
}
