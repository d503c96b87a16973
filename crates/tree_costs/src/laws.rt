//! Laws of the definitions.

ghost use Rattle.tree_costs.specs.Laws.{DocumentsTold, NumberedIsExact, OneLeast, OrderByTest, SolvedIsExact};

/// The test of costs tells their order.
pub fn costs_law()
    ensures { OrderByTest }
{}

/// A set has one table of least costs for a cap, and an element has no document exactly where its least size is none.
pub fn least_law()
    ensures one { OneLeast }
    ensures documents { DocumentsTold }
{}

/// The solved costs of a set's own graph of steps are its least costs.
pub fn graph_law()
    ensures { SolvedIsExact }
{}

/// The solved costs of a set's own graph in numbers are its least costs, each name by its place.
pub fn numbered_law()
    ensures { NumberedIsExact }
{}
