//! The least costs of a set.

ghost use Rattle.std.specs.Prelude.{◌≡◌, ◌≤◌, ◌+◌, ◌^◌, ◌<◌, IfOk, map};
ghost use Rattle.tree_costs.specs.Leasts.{IsExact};
ghost use Rattle.least_trees.specs.SetRows.{least_row};

use crate::decl_graph::DeclGraph;
use crate::rows::least_counted;
use crate::settled::SettledRow;
use decl_set::DeclSet;
use jats_chars::{ListOf, NoMemory};
use std::alloc::Global;
use tree_costs::{Cost, Least, LeastRow, LeastRows};

fn copy_row(alloc: Global, row: &SettledRow<Cost>) -> Result<LeastRow, NoMemory>
    ensures { IfOk result (λ it. it ≡ least_row row.now) }
{
    let p = Vec::from_slice(alloc, row.p.as_slice())?;
    Ok(LeastRow {
        m: row.m,
        p: ListOf::from_vec(p),
    })
}

/// The same rows as those of a set.
fn least_rows(alloc: Global, settled: &[SettledRow<Cost>]) -> Result<LeastRows, NoMemory>
    ensures { IfOk result (λ rows. rows ≡ map least_row settled.now) }
{
    let mut rows = LeastRows::new(alloc);
    for row in settled {
        rows.push(copy_row(alloc, row)?)?;
    }
    Ok(rows)
}

/// The least sizes of the documents of a set, and the least sums along its contents, cut at one above a cap.
pub fn least(alloc: Global, set: &DeclSet, cap: u32) -> Result<Least, NoMemory>
    requires { cap ≤ 100000 }
    ensures cap { IfOk result (λ it. it.cap ≡ cap) }
    ensures exact { IfOk result (λ it. IsExact set.now it) }
{
    let _ = set.count();
    let mut graph = DeclGraph::new(set, cap);
    let settled = least_counted(alloc, &mut graph)?;
    let rows = least_rows(alloc, settled.rows.as_slice())?;
    Ok(Least { cap, rows })
}
