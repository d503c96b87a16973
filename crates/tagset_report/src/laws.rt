//! Laws of the definitions.

ghost use Rattle.tagset_report.specs.Chains.{UsefulByChains};
ghost use Rattle.tagset_report.specs.Finite.{DocumentsByCosts, EndsByCosts};
ghost use Rattle.tagset_report.specs.Firsts.{DocumentsByUseful, FirstListed, SeparatedByBreaks};
ghost use Rattle.tagset_report.specs.Laws.{SubsetByBreaks};
ghost use Rattle.tagset_report.specs.Reported.{NoneListed, OneBroken, OneReport};

/// Every document of the first set is one of the second exactly where no useful element breaks; and useful are the elements
/// that chains of live children reach from a root that has a document. Round a useful element that breaks there is a
/// separating document.
pub fn subset_law()
    ensures subset { SubsetByBreaks }
    ensures useful { UsefulByChains }
    ensures separated { SeparatedByBreaks }
{}

/// What a report lists is one list, and it is empty exactly where every document of the first is one of the second. The
/// first that is listed is the first useful element that breaks, and some element is useful exactly where the root has a
/// document. For two sets and a root one answer is right at most, but for want of memory.
pub fn report_law()
    ensures none { NoneListed }
    ensures one { OneBroken }
    ensures first { FirstListed }
    ensures documents { DocumentsByUseful }
    ensures report { OneReport }
{}

/// Least costs tell which names have documents, and from which states such names lead to acceptance: those that have a
/// number.
pub fn live_law()
    ensures documents { DocumentsByCosts }
    ensures ends { EndsByCosts }
{}
