//! Why a declaration or a value is refused.

use jats_chars::{Name, NoMemory, Text};
use std::alloc::AllocFailed;
use thiserror::Error;

/// Why a declaration is refused. The set, and the count of included characters, are then as they were. Names stand as they
/// are named in each line: of an element, then of its attribute.
#[derive(Debug, Drop, Error)]
pub enum DeclFault {
    /// A text that the value of an attribute includes has a `&` that begins no reference.
    #[error("an included text has a sign that begins no reference")]
    Malformed,
    /// At this general entity 32 are open.
    #[error("too many general entities are open")]
    EntityTooDeep(Name),
    /// With the text of this general entity, more than 67,108,864 characters would be included.
    #[error("too many characters are included")]
    ExpansionOver(Name),
    /// The value of an attribute refers to this general entity, which is not declared or not internal (XML 1.0, 4.1,
    /// Entity Declared; 3.1, No External Entity References).
    #[error("the general entity is not declared or not internal")]
    EntityUndeclared(Name),
    /// The value of this attribute has a `<`, or includes a text that has one (3.1, No `<` in Attribute Values).
    #[error("the value has a less-than sign")]
    LessThanInValue(Name),
    /// The value of an attribute includes this general entity in its own text (4.1, No Recursion).
    #[error("the general entity includes itself")]
    RecursiveEntity(Name),
    /// A notation of this name is declared (4.7, Unique Notation Name).
    #[error("the notation is declared already")]
    DuplicateNotation(Name),
    /// An element of this name is declared (3.2, Unique Element Type Declaration).
    #[error("the element is declared already")]
    DuplicateElement(Name),
    /// The content of this element is not deterministic (3.2.1), for these two positions.
    #[error("the content is not deterministic")]
    Ambiguous(Name, u32, u32),
    /// An attribute of type ID has a value (3.3.1, ID Attribute Default).
    #[error("an ID has a value")]
    IdPreset(Name, Name),
    /// The element has an ID attribute already (3.3.1, One ID per Element Type).
    #[error("the element has an ID already")]
    SecondId(Name, Name),
    /// The element has a NOTATION attribute already (3.3.1, One Notation Per Element Type).
    #[error("the element has a NOTATION already")]
    SecondNotation(Name, Name),
    /// An attribute of type NOTATION stands at an element declared EMPTY (3.3.1, No Notation on Empty Element).
    #[error("a NOTATION stands at an EMPTY element")]
    NotationOnEmpty(Name, Name),
    /// This element's attribute, or this unparsed entity, names a notation that is not declared (3.3.1, Notation
    /// Attributes; 4.2.2, Notation Declared).
    #[error("the notation is not declared")]
    NotationUndeclared(Name, Name),
    /// The type of an attribute names this token twice (3.3.1, No Duplicate Tokens).
    #[error("the type names a token twice")]
    DuplicateToken(Name, Name, Text),
    /// The value of an attribute is outside the class of its type (3.3.2, Attribute Default Value Syntactically Correct).
    #[error("the value is outside the class of its type")]
    PresetNotInClass(Name, Name),
    /// 1,024 elements are declared, and this would be one more.
    #[error("too many elements are declared")]
    ElementsOver(Name),
    /// With this element, the contents would have more than 16,000,000 follows together.
    #[error("the contents have too many follows")]
    FollowsOver(Name),
    #[error("out of memory")]
    NoMemory,
}

/// The first thing that stops the reading of a value. The name is that of the general entity.
#[derive(Debug, Drop, Error)]
pub enum ValueFault {
    /// It is not declared.
    #[error("the general entity is not declared")]
    EntityUnknown(Name),
    /// It is not internal.
    #[error("the general entity is not internal")]
    EntityExternal(Name),
    /// It is open already (XML 1.0, 4.1, No Recursion).
    #[error("the general entity includes itself")]
    RecursiveEntity(Name),
    /// 32 general entities are open.
    #[error("too many general entities are open")]
    EntityTooDeep(Name),
    /// With its text, more than 67,108,864 characters would be included.
    #[error("too many characters are included")]
    ExpansionOver(Name),
    /// A `<` stands in the value, or in a text that it includes (3.1, No `<` in Attribute Values).
    #[error("the value has a less-than sign")]
    LessThan,
    /// An included text has a `&` that begins no reference.
    #[error("an included text has a sign that begins no reference")]
    Malformed,
    #[error("out of memory")]
    NoMemory,
}

impl From<NoMemory> for ValueFault {
    ghost use Rattle.std.specs.Prelude.{◌≡◌};
    ghost use Rattle.decl_set.specs.declared.faults.ValueFault.TheVariants.{NoMemory as memory};

    ghost from_gives = { λ _ e. e ≡ memory };

    fn from(_e: NoMemory) -> ValueFault {
        ValueFault::NoMemory
    }
}

impl<T: Drop> From<AllocFailed<T>> for ValueFault {
    ghost use Rattle.std.specs.Prelude.{◌≡◌};
    ghost use Rattle.decl_set.specs.declared.faults.ValueFault.TheVariants.{NoMemory as memory};

    ghost from_gives = { λ _ e. e ≡ memory };

    fn from(_e: AllocFailed<T>) -> ValueFault {
        ValueFault::NoMemory
    }
}

impl From<NoMemory> for DeclFault {
    ghost use Rattle.std.specs.Prelude.{◌≡◌};
    ghost use Rattle.decl_set.specs.declared.faults.DeclFault.TheVariants.{NoMemory as memory};

    ghost from_gives = { λ _ e. e ≡ memory };

    fn from(_e: NoMemory) -> DeclFault {
        DeclFault::NoMemory
    }
}
