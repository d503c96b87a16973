//! Laws of the definitions.

ghost use Rattle.comparison_tables.specs.Exact.{OneTables, TablesAreAccepted, TablesAreShort};
ghost use Rattle.comparison_tables.specs.Laws.{CostsAreCarried, NumbersStand};

/// The numbered graph of a comparison stands for its graph, so that its solved costs are the exact tables.
pub fn graph_law()
    ensures stands { NumbersStand }
    ensures carried { CostsAreCarried }
{}

/// Two sets have one table of exact costs for a root and a cap. It is accepted, since none of its inequalities fails,
/// and it can be printed, since the states of its pairs are of 32 bits.
pub fn tables_law()
    ensures one { OneTables }
    ensures accepted { TablesAreAccepted }
    ensures short { TablesAreShort }
{}
