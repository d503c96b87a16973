//! Laws of the definitions.

ghost use Rattle.declaration_bodies.specs.Laws.{ElementsRead, EntitiesRead, NotationsRead};

/// What is read from the body of an ELEMENT, ENTITY or NOTATION declaration is what it writes, in the words of the standard
/// (XML 1.0, productions 9, 11, 12, 45, 70 to 76, 82 and 83; the content of an element is looked into by `content_models`).
pub fn bodies_law()
    ensures elements { ElementsRead }
    ensures entities { EntitiesRead }
    ensures notations { NotationsRead }
{}
