//! General entities.

use entity_catalog::Ids;
use jats_chars::{Name, Text};

/// What a general entity stands for (XML 1.0, 4.2).
#[derive(Debug, Drop)]
pub enum EntityDef {
    /// The replacement text of an internal entity.
    Internal(Text),
    /// The identifiers of an external entity that is parsed.
    External(Ids),
    /// The identifiers of an unparsed entity, and its notation.
    Unparsed(Ids, Name),
}
