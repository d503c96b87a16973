//! The exact tables of a comparison.

ghost use Rattle.std.specs.Prelude.{◌≤◌, is_some, IfOk, IsTrue};
ghost use Rattle.decl_set.specs.Declarations.{content_in};
ghost use Rattle.comparison_tables.specs.Finding.{FindsSides};
ghost use Rattle.comparison_tables.specs.Sides.{AreSides};
ghost use Rattle.comparison_tables.specs.Outcome.{HaveExactCosts, Tabulates};

use crate::fault::TablesFault;
use crate::graph::ComparisonGraph;
use crate::rows::rows_of;
use crate::sides::{Sides, sides_of};
use bound_checker::{Rows, Tables};
use decl_set::DeclSet;
use jats_chars::{Name, NoMemory};
use least_trees::{least, least_counted};
use std::alloc::Global;
use tagset_report::live_names;

/// What is held of each element, with the names that have documents found first.
fn found(alloc: Global, first: &DeclSet, second: &DeclSet, cap: u32) -> Result<Sides, TablesFault>
    requires { cap ≤ 100000 }
    ensures { FindsSides first.now second.now result }
{
    let least = least(alloc, first, cap)?;
    let live = live_names(alloc, first, &least)?;
    sides_of(alloc, first, second, &live)
}

/// The rows of all elements, by the solved graph.
fn solved_rows(
    alloc: Global,
    first: &DeclSet,
    second: &DeclSet,
    sides: &Sides,
    cap: u32,
) -> Result<Rows, NoMemory>
    requires cap { cap ≤ 100000 }
    requires sides { AreSides first.now second.now sides.now }
    ensures { IfOk result (HaveExactCosts first.now second.now cap) }
{
    let _ = first.count();
    let _ = second.count();
    let mut graph = ComparisonGraph::new(alloc, first, second, sides, cap)?;
    let settled = least_counted(alloc, &mut graph)?;
    rows_of(alloc, first, second, sides, settled.rows.as_slice())
}

/// The exact tables of two sets from a root, with costs cut at one above a cap: for each element of the first set the least
/// sizes of documents and of those that separate, and for each state of its content and each listed pair of states the
/// least sums along names. `PairsOver` exactly where in order of declaration the sum of the listed pairs passes 2,000,000,
/// with the element at which it does, and `NoMemory` where memory runs out.
pub fn exact_tables(
    alloc: Global,
    first: &DeclSet,
    second: &DeclSet,
    root: &Name,
    cap: u32,
) -> Result<Tables, TablesFault>
    requires cap { cap ≤ 100000 }
    requires root { IsTrue (is_some (content_in first.now root.now)) }
    ensures { Tabulates first.now second.now root.now cap result }
{
    match found(alloc, first, second, cap) {
        Err(fault) => Err(fault),
        Ok(sides) => {
            let rows = solved_rows(alloc, first, second, &sides, cap)?;
            let root = root.copy(alloc)?;
            Ok(Tables { root, cap, rows })
        }
    }
}
