//! Laws of samples.

ghost use Rattle.attlist_merge.specs.Shown.{RequiredRight, RequiredHasChars, RequiredNamed, OddHasChars, ShownHasChars, ShownNamed};

/// The required attributes of a list with their samples, in order of declaration: they are right by the list, their names
/// differ and are names of the list, and the samples are of Chars where the classes are.
pub fn required_law()
    ensures right { RequiredRight }
    ensures chars { RequiredHasChars }
    ensures named { RequiredNamed }
{}

/// The value of an odd attribute is of Chars where the classes of the first list are, and so are the values that show it,
/// whose names are names of the list.
pub fn shown_law()
    ensures odd { OddHasChars }
    ensures chars { ShownHasChars }
    ensures named { ShownNamed }
{}
