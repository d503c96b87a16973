//! Laws of the definitions.

ghost use Rattle.exact_tables.specs.Chosen.{ChosenExists, ChosenIsBuilt, LeastExists, LeastIsBuilt, OneChosen, OneLeast};
ghost use Rattle.exact_tables.specs.Comparing.{SolvedIsExact};
ghost use Rattle.exact_tables.specs.Laws.{AgreeingIsExact, AttainedIsExact, ExactIsFeasible, ExactIsOwn, OneExact, ReachedIsExact};
ghost use Rattle.exact_tables.specs.LeastTrees.{LeastTreeExists, LeastTreeIsBuilt, OneLeastTree};
ghost use Rattle.exact_tables.specs.Lowering.{EachGives};
ghost use Rattle.exact_tables.specs.Numbered.{NumberedIsExact};
ghost use Rattle.exact_tables.specs.Verdicts.{ContentTold, DocumentsTold, VerdictTold};

/// Two sets have one table of exact costs. It is exact for the first alone and feasible, and costs that are feasible and
/// attained are exact.
pub fn exact_law()
    ensures one { OneExact }
    ensures own { ExactIsOwn }
    ensures feasible { ExactIsFeasible }
    ensures reached { ReachedIsExact }
    ensures attained { AttainedIsExact }
    ensures agreeing { AgreeingIsExact }
{}

/// A cost that a kind of inequality gives from costs of documents is one of documents, so that a solver that lowers by
/// the kinds keeps its costs attained.
pub fn lowering_law()
    ensures { EachGives }
{}

/// The solved graph of a comparison gives the exact tables, and so does a solved graph of numbers that stands for it.
pub fn comparing_law()
    ensures solved { SolvedIsExact }
    ensures numbered { NumberedIsExact }
{}

/// What exact costs say: whether there are documents, which verdict holds, and where a content breaks.
pub fn verdict_law()
    ensures documents { DocumentsTold }
    ensures verdict { VerdictTold }
    ensures content { ContentTold }
{}

/// By the exact costs of a set an element whose least size is a number up to the cap has one least tree. It is valid, of
/// that size, and can be written, with at most 1,024 elements open.
pub fn tree_law()
    ensures one { OneLeastTree }
    ensures built { LeastTreeIsBuilt }
    ensures exists { LeastTreeExists }
{}

/// An element has one least tree and one chosen separating tree.
pub fn chosen_law()
    ensures least { OneLeast }
    ensures chosen { OneChosen }
{}

/// By exact tables a least tree is valid, as large as m says, and can be written.
pub fn least_law()
    ensures built { LeastIsBuilt }
    ensures exists { LeastExists }
{}

/// A chosen tree separates, is as large as v says, and can be written.
pub fn separating_law()
    ensures built { ChosenIsBuilt }
    ensures exists { ChosenExists }
{}
