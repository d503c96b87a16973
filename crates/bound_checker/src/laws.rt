//! Laws of the definitions.

ghost use Rattle.bound_checker.specs.Beside.{OddTells};
ghost use Rattle.bound_checker.specs.Certificates.{PrintedIsFound, PrintedReadsBack, ReadFits};
ghost use Rattle.bound_checker.specs.Laws.{FeasibleBounds};
ghost use Rattle.bound_checker.specs.Lines.{TextIsFound, TextReadsBack};
ghost use Rattle.bound_checker.specs.Reads.{FaultIsLine};
ghost use Rattle.bound_checker.specs.Tests.{NoneIsBroken};

/// Where an element is not odd, what suits the first suits the second; where it is, something is right in the first and
/// wrong in the second.
pub fn odd_law()
    ensures { OddTells }
{}

/// Feasible tables bound every document and every separating document; where v is none, no document separates.
pub fn sound_law()
    ensures { FeasibleBounds }
{}

/// No inequality fails exactly where the tables are feasible.
pub fn tests_law()
    ensures { NoneIsBroken }
{}

/// What is printed as a certificate reads back, as lines and as the text that `print_cert` gives, also between others;
/// what is read fits; and where nothing is read, a line is told that is one of the lines or missing behind the last.
pub fn certificate_law()
    ensures printed { PrintedReadsBack }
    ensures text { TextReadsBack }
    ensures found { PrintedIsFound }
    ensures between { TextIsFound }
    ensures read { ReadFits }
    ensures fault { FaultIsLine }
{}
