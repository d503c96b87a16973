//! Costs.

ghost use Rattle.std.specs.Prelude.{◌≡◌, ◌≤◌, ◌+◌};
ghost use Rattle.tree_costs.specs.Costs as spec;

use jats_chars::ListOf;

/// A number up to one above a cap, or none at all.
#[derive(Clone, Copy, Debug, PartialEq, Eq)]
pub enum Cost {
    /// A number. One above the cap stands for each number above the cap.
    Fin(u32),
    /// None: above every number.
    Inf,
}

/// Costs in order.
pub type CostList = ListOf<Cost>;

/// The sum of two numbers, cut at one above the cap.
fn cut_sum(left: u32, right: u32, cap: u32) -> u32
    requires { cap ≤ 100000 }
    ensures { result ≡ spec.cut_at cap (left + right) }
{
    let all = left as u64 + right as u64;
    if all <= cap as u64 + 1 {
        all as u32
    } else {
        cap + 1
    }
}

/// The sum of two costs, cut at one above the cap; none where one of them is none.
pub fn sum(left: Cost, right: Cost, cap: u32) -> Cost
    requires { cap ≤ 100000 }
    ensures { result ≡ spec.sum cap left right }
{
    match (left, right) {
        (Cost::Fin(a), Cost::Fin(b)) => Cost::Fin(cut_sum(a, b, cap)),
        _ => Cost::Inf,
    }
}

/// Whether the one cost is at most the other.
pub fn at_most(left: Cost, right: Cost) -> bool
    ensures { result ≡ spec.at_most left right }
{
    match (left, right) {
        (Cost::Fin(a), Cost::Fin(b)) => a <= b,
        (Cost::Inf, Cost::Fin(_)) => false,
        _ => true,
    }
}
