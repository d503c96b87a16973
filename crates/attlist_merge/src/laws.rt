//! Laws of the definitions.

ghost use Rattle.attlist_merge.specs.Laws.{ReadIsWritten, WrittenIsRead};

/// `parse_attlist` gives a declaration exactly where the body is of that form (XML 1.0, productions 52 to 60), so a body
/// writes one declaration at most.
pub fn attlist_law()
    ensures read { ReadIsWritten }
    ensures written { WrittenIsRead }
{}
