//! Laws of the definitions.

ghost use Rattle.article_validator.specs.Laws.{DerivedByStates, ValidWithoutFaults, NoneBroken, FilledOnce, FilledValid};

/// Going through the states of a deterministic content tells what it derives.
pub fn deriving_law()
    ensures { DerivedByStates }
{}

/// Nothing is wrong exactly where the document is valid from the root, no ID repeats, each IDREF has its ID and each ENTITY
/// names an unparsed entity.
pub fn validity_law()
    ensures { ValidWithoutFaults }
{}

/// No node is broken exactly where every node meets its declaration.
pub fn first_law()
    ensures { NoneBroken }
{}

/// A document with its defaults has no further ones: filling again changes nothing. One that is valid from a root is so with
/// its defaults.
pub fn filling_law()
    ensures once { FilledOnce }
    ensures valid { FilledValid }
{}
