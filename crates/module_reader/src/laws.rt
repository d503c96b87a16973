//! Laws of the definitions.

ghost use Rattle.module_reader.specs.Laws.{ContentsRead, SetsAreKept};

/// A set that an entry stands for keeps what a set keeps at every moment, and has no fault after its last declaration,
/// whatever the files and the catalog are.
pub fn kept_law()
    ensures { SetsAreKept }
{}

/// The content of an element that is read from a text is the one that it spells (XML 1.0, productions 46 to 51).
pub fn content_law()
    ensures { ContentsRead }
{}
