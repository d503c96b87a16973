//! The bound that tables have for their root.

ghost use Rattle.std.specs.Prelude.{◌≡◌};
ghost use Rattle.bound_checker.specs.Tabled.{costs_of};

use bound_checker::Tables;
use decl_set::DeclSet;
use tree_costs::Cost;

/// What v says of the root of tables: none where it has no row.
pub fn bound_of(first: &DeclSet, tables: &Tables) -> Cost
    ensures { result ≡ (costs_of first.now tables.now).v tables.now.root }
{
    match first.index_of(&tables.root) {
        None => Cost::Inf,
        Some(place) => match tables.rows.get(place) {
            None => Cost::Inf,
            Some(row) => row.v,
        },
    }
}
