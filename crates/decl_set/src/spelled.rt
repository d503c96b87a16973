//! Names as they stand in texts.

ghost use Rattle.std.specs.Prelude.{◌≡◌, bytes_eq, IfSome, option_map};
ghost use Rattle.std.specs.Map.{lookup};

use crate::EntityDef;
use indexmap::IndexMap;
use jats_chars::{Name, Spelled};

/// A name as it is declared, and what it stands for, or None exactly where it is not declared.
pub(crate) fn found<'a>(
    entities: &'a IndexMap<Name, EntityDef>,
    name: &[char],
) -> Option<(&'a Name, &'a EntityDef)>
    ensures name { IfSome result (λ p. p.0.now ≡ name.now) }
    ensures entity { option_map (λ p. p.1.now) result ≡ lookup (bytes_eq name.now) entities.now.entries }
{
    entities.get_key_value(Spelled { name })
}
