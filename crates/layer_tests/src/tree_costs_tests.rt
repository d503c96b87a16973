//! Costs are added and compared.

use tree_costs::{Cost, at_most, sum};

#[test]
fn costs_are_added(rt: HostRuntime) {
    assert_eq!(rt; sum(Cost::Fin(2), Cost::Fin(3), 10), Cost::Fin(5));
    assert_eq!(rt; sum(Cost::Fin(8), Cost::Fin(9), 10), Cost::Fin(11));
    assert_eq!(rt; sum(Cost::Inf, Cost::Fin(0), 10), Cost::Inf);
}

#[test]
fn costs_are_compared(rt: HostRuntime) {
    assert!(rt; at_most(Cost::Fin(3), Cost::Inf));
    assert!(rt; !at_most(Cost::Inf, Cost::Fin(3)));
    assert!(rt; at_most(Cost::Fin(3), Cost::Fin(3)));
}
