//! Laws of the definitions.

ghost use Rattle.tagset_compare.specs.Verdicts.{BoundIsTold, OneVerdict, VerdictIsTrue};

/// What a verdict says of all documents of two sets is true, and the bound that its tables have for the root is the one that
/// it tells: none, the size of the article, or one above the cap.
pub fn verdict_law()
    ensures says { VerdictIsTrue }
    ensures bound { BoundIsTold }
{}

/// For two sets, a root, a cap and a limit one answer is right at most, but for want of memory.
pub fn one_law()
    ensures { OneVerdict }
{}
