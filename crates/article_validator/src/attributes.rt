//! The attributes of a node against the definitions of its element.

ghost use Rattle.std.specs.Prelude.{◌≡◌, [], unwrap_or};
ghost use Rattle.std.specs.Option.{option_copied};
ghost use Rattle.attlist_merge.specs.Values as values;

use attlist_merge::AttList;
use attribute_types::in_class;
use jats_chars::{Name, Text};

/// The list of an element, and one without attributes where it has none.
pub fn list_or<'a>(list: Option<&'a AttList>, none: &'a AttList) -> &'a AttList
    requires { none.now ≡ [] }
    ensures { result.now ≡ unwrap_or (option_copied list.entry) [] }
{
    match list {
        Some(list) => list,
        None => none,
    }
}

/// Whether the attribute is declared, and its value in its class.
pub fn is_allowed(list: &AttList, name: &Name, value: &Text) -> bool
    ensures { result ≡ values.is_allowed list.now (name.now, value.now) }
{
    match list.definition_of(name) {
        None => false,
        Some(definition) => in_class(&definition.class, value),
    }
}
