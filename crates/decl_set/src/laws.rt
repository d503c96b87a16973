//! What the definitions say together.

ghost use Rattle.decl_set.specs.Laws.{TurnByTurn};

/// An element breaks by a cause exactly where the tests in turn say so: undeclared in the second, then its content, then
/// its text, then an attribute.
pub fn breaks_law()
    ensures { TurnByTurn }
{}
