//! Types and presets of attributes.

ghost use Rattle.std.specs.Prelude.{◌≡◌, IfOk};

use jats_chars::{Name, NameList, NoMemory, Text, TextList};
use std::alloc::Global;

/// The type of an attribute (XML 1.0, 3.3.1).
#[derive(Debug, Drop)]
pub enum AttType {
    /// Any text.
    Cdata,
    /// A name that identifies its element.
    Id,
    /// The identifier of an element.
    Idref,
    /// Identifiers of elements.
    Idrefs,
    /// The name of an unparsed entity.
    Entity,
    /// Names of unparsed entities.
    Entities,
    /// One name token.
    Nmtoken,
    /// Name tokens.
    Nmtokens,
    /// One of these names of notations.
    Notation(NameList),
    /// One of these name tokens.
    Enumeration(TextList),
}

/// What a declaration says of an attribute that an element does not specify (XML 1.0, 3.3.2).
#[derive(Debug, Drop)]
pub enum Preset {
    /// The attribute has to be specified.
    Required,
    /// The attribute may be left out.
    Implied,
    /// The attribute has this value where it is left out.
    Value(Text),
    /// The attribute always has this value.
    Fixed(Text),
}

impl AttType {
    /// A type with the same variant and the same names or tokens.
    pub fn copy(&self, alloc: Global) -> Result<AttType, NoMemory>
        ensures { IfOk result (λ kind. kind ≡ self.now) }
    {
        Ok(match self {
            AttType::Cdata => AttType::Cdata,
            AttType::Id => AttType::Id,
            AttType::Idref => AttType::Idref,
            AttType::Idrefs => AttType::Idrefs,
            AttType::Entity => AttType::Entity,
            AttType::Entities => AttType::Entities,
            AttType::Nmtoken => AttType::Nmtoken,
            AttType::Nmtokens => AttType::Nmtokens,
            AttType::Notation(names) => AttType::Notation(copy_names(alloc, names.as_slice())?),
            AttType::Enumeration(tokens) => AttType::Enumeration(copy_texts(
                alloc,
                tokens.as_slice(),
            )?),
        })
    }
}

impl Preset {
    /// A preset with the same variant and the same text.
    pub fn copy(&self, alloc: Global) -> Result<Preset, NoMemory>
        ensures { IfOk result (λ preset. preset ≡ self.now) }
    {
        Ok(match self {
            Preset::Required => Preset::Required,
            Preset::Implied => Preset::Implied,
            Preset::Value(text) => Preset::Value(text.copy(alloc)?),
            Preset::Fixed(text) => Preset::Fixed(text.copy(alloc)?),
        })
    }
}

/// The same names.
fn copy_names(alloc: Global, names: &[Name]) -> Result<NameList, NoMemory>
    ensures { IfOk result (λ copy. copy ≡ names.now) }
{
    let mut copy = NameList::new(alloc);
    for name in names {
        copy.push(name.copy(alloc)?)?;
    }
    Ok(copy)
}

/// The same texts.
pub fn copy_texts(alloc: Global, texts: &[Text]) -> Result<TextList, NoMemory>
    ensures { IfOk result (λ copy. copy ≡ texts.now) }
{
    let mut copy = TextList::new(alloc);
    for text in texts {
        copy.push(text.copy(alloc)?)?;
    }
    Ok(copy)
}
