//! What a comparison comes to.

use bound_checker::Tables;
use decl_set::BrokenDecl;
use document_trees::Node;

/// What a comparison comes to, with the exact tables that certify it.
#[derive(Debug, Drop)]
pub enum Verdict {
    /// Every document of the first set from the root is one of the second.
    Subset {
        tables: Tables,
    },
    /// The article is valid in the first and not in the second, and no such article has fewer elements; it has at most as
    /// many as the cap. With it comes the first of its nodes, in document order, that does not meet the second, and why.
    Not {
        article: Node,
        broken: BrokenDecl,
        tables: Tables,
    },
    /// There are articles that are valid in the first and not in the second, and each has more elements than the cap. With
    /// it comes the first useful element of the first, in order of declaration, that breaks in the second, and why.
    Over {
        broken: BrokenDecl,
        tables: Tables,
    },
}
