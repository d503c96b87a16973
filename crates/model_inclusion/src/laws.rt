//! Laws of the definitions.

ghost use Rattle.model_inclusion.specs.Included.{SeparatesAtPairs};
ghost use Rattle.model_inclusion.specs.Laws.{ListedByClosure, OneList};

/// A pair is listed exactly where common steps on live names reach it from the two starts, and the listed pairs of two
/// contents, ascending, are one list.
pub fn pairs_law()
    ensures closure { ListedByClosure }
    ensures one { OneList }
{}

/// Some list of live names is derived by the first content and not by the second exactly where, at a listed pair, the first
/// accepts and the second does not, or the first has a live step to a state from which acceptance can be reached and the
/// second has none on that name.
pub fn inclusion_law()
    ensures { SeparatesAtPairs }
{}
