//! Definitions of one element.

ghost use Rattle.std.specs.Prelude.{◌≡◌, ◌+◌, List, ℕ, [], ◌∷◌, ◌++◌, length, take, slice_get, option_map, bytes_eq, IfOk, IfSome, OnOk, OnErr, IsTrue, false, None};
ghost use Rattle.std.specs.Map.{lookup};
ghost use Rattle.std.specs.Option.{option_copied, option_map_or};

use crate::check::{doubled, has_id_value, is_id, is_notation, is_outside};
use attribute_types::{AttType, Preset, ValueClass, class_of};
use indexmap::IndexMap;
use jats_chars::{Name, NoMemory, Text};
use std::alloc::Global;
use std::marker::Model;
use thiserror::Error;

/// An attribute to be added to a list.
#[derive(Debug, Drop)]
pub struct Att {
    pub name: Name,
    pub kind: AttType,
    pub preset: Preset,
}

/// What a list keeps of an attribute: its type, its preset, and the class of its values, which these two give.
#[derive(Debug, Drop)]
pub struct Definition {
    pub kind: AttType,
    pub preset: Preset,
    pub class: ValueClass,
}

/// Why an attribute is not added. The faults are tested in this order.
#[derive(Debug, Drop, Error)]
pub enum AttFault {
    /// This token stands twice in the type (XML 1.0, No Duplicate Tokens).
    #[error("a token stands twice in a type")]
    DuplicateToken(Text),
    /// An ID has a value (ID Attribute Default).
    #[error("an ID with a value")]
    IdPreset,
    /// The value is outside the class of the type (Attribute Default Value Syntactically Correct).
    #[error("a value outside the class of its type")]
    PresetNotInClass,
    /// The list has an ID already (One ID per Element Type).
    #[error("a second ID")]
    SecondId,
    /// The list has a NOTATION already (One Notation Per Element Type).
    #[error("a second NOTATION")]
    SecondNotation,
    /// Memory ran out.
    #[error("out of memory")]
    NoMemory,
}

/// The attributes of one element in order of declaration, seen as the list of their names and definitions.
#[derive(Drop)]
pub struct AttList {
    alloc: Global,
    atts: IndexMap<Name, Definition>,
}

impl Definition {
    /// A definition with the same type, preset and class.
    pub fn copy(&self, alloc: Global) -> Result<Definition, NoMemory>
        ensures { IfOk result (λ d. d ≡ self.now) }
    {
        Ok(Definition {
            kind: self.kind.copy(alloc)?,
            preset: self.preset.copy(alloc)?,
            class: self.class.copy(alloc)?,
        })
    }
}

/// Puts a new name with its definition behind the others.
fn put(
    atts: &mut IndexMap<Name, Definition>,
    name: Name,
    definition: Definition,
) -> Result<(), NoMemory>
    requires { lookup (bytes_eq name) atts.old.entries ≡ None }
    ensures ok { OnOk result (atts.new.entries ≡ atts.old.entries ++ (name, definition) ∷ []) }
    ensures err { OnErr result (atts.new.entries ≡ atts.old.entries) }
{
    atts.insert(name, definition)?;
    Ok(())
}

impl Model for AttList {
    ghost use Rattle.attlist_merge.specs.Lists.{Definitions, IsKept};

    ghost Value = { Definitions };

    ghost view = { λ s. s.atts.entries };

    ghost invariant = { λ s. IsKept s.atts.entries };
}

impl AttList {
    ghost use Rattle.attlist_merge.specs.Lists.{definition_of, are_distinct, IsKept, IsSound};
    ghost use Rattle.attlist_merge.specs.Lists as spec;
    ghost use Rattle.attlist_merge.specs.Adding.{Adds, IsReady, Checks, second_fault, fault_of};

    /// The list without attributes.
    pub fn new(alloc: Global) -> AttList
        ensures { result ≡ [] }
    {
        AttList {
            alloc,
            atts: IndexMap::new(alloc),
        }
    }

    /// How many attributes there are. That a list keeps its constraints is known by this call.
    pub fn len(&self) -> usize
        ensures value { result ≡ length self.now }
        ensures kept { IsKept self.now }
    {
        self.atts.len()
    }

    /// The attribute at a place counted from 0, or None exactly where the place is the length or more.
    pub fn get(&self, at: usize) -> Option<(&Name, &Definition)>
        ensures value { option_map (λ p. (p.0.now, p.1.now)) result ≡ slice_get self.now at }
        ensures sound { IfSome result (λ p. IsSound (p.0.now, p.1.now)) }
    {
        self.atts.get_index(at)
    }

    /// The definition of a name, or None exactly where there is none.
    pub fn definition_of(&self, name: &Name) -> Option<&Definition>
        ensures value { option_copied result ≡ definition_of self.now name.now }
        ensures sound { IfSome result (λ d. IsSound (name.now, d.now)) }
    {
        self.atts.get(name)
    }

    fn is_id_at(&self, at: usize) -> bool
        ensures { result ≡ option_map_or spec.is_id_entry (slice_get self.now at) false }
    {
        match self.get(at) {
            None => false,
            Some((_, definition)) => is_id(&definition.kind),
        }
    }

    /// Whether an attribute is an ID.
    fn has_id(&self) -> bool
        ensures { result ≡ spec.has_id self.now }
    {
        for at in 0..self.len() {
            if self.is_id_at(at) {
                return true;
            }
        }
        false
    }

    fn is_notation_at(&self, at: usize) -> bool
        ensures { result ≡ option_map_or spec.is_notation_entry (slice_get self.now at) false }
    {
        match self.get(at) {
            None => false,
            Some((_, definition)) => is_notation(&definition.kind),
        }
    }

    /// Whether an attribute is a NOTATION.
    fn has_notation(&self) -> bool
        ensures { result ≡ spec.has_notation self.now }
    {
        for at in 0..self.len() {
            if self.is_notation_at(at) {
                return true;
            }
        }
        false
    }

    /// The faults of an attribute that depend on the list.
    fn check_second(&self, kind: &AttType) -> Result<(), AttFault>
        ensures { Checks (second_fault self.now kind.now) result }
    {
        if is_id(kind) && self.has_id() {
            return Err(AttFault::SecondId);
        }
        if is_notation(kind) && self.has_notation() {
            return Err(AttFault::SecondNotation);
        }
        Ok(())
    }

    fn check(&self, kind: &AttType, preset: &Preset) -> Result<(), AttFault>
        ensures { Checks (fault_of self.now kind.now preset.now) result }
    {
        match doubled(self.alloc, kind) {
            Err(NoMemory) => return Err(AttFault::NoMemory),
            Ok(Some(token)) => return Err(AttFault::DuplicateToken(token)),
            Ok(None) => {}
        }
        if has_id_value(kind, preset) {
            return Err(AttFault::IdPreset);
        }
        match is_outside(self.alloc, kind, preset) {
            Err(NoMemory) => return Err(AttFault::NoMemory),
            Ok(true) => return Err(AttFault::PresetNotInClass),
            Ok(false) => {}
        }
        self.check_second(kind)
    }

    /// Puts a copy of the attribute at a place behind copies of those before it.
    fn put_copy(
        &self,
        alloc: Global,
        atts: &mut IndexMap<Name, Definition>,
        at: usize,
    ) -> Result<(), NoMemory>
        requires distinct { IsTrue (are_distinct self.now) }
        requires before { atts.old.entries ≡ take at self.now }
        ensures { OnOk result (atts.new.entries ≡ take (at + 1) self.now) }
    {
        match self.get(at) {
            None => Ok(()),
            Some((name, definition)) => put(atts, name.copy(alloc)?, definition.copy(alloc)?),
        }
    }

    /// A list of the same attributes in the same order, made in time linear in the list.
    pub fn copy(&self, alloc: Global) -> Result<AttList, NoMemory>
        ensures { IfOk result (λ list. list ≡ self.now) }
    {
        let mut atts = IndexMap::new(alloc);
        for at in 0..self.len() {
            self.put_copy(alloc, &mut atts, at)?;
        }
        Ok(AttList { alloc, atts })
    }

    fn push(&mut self, name: Name, definition: Definition) -> Result<(), NoMemory>
        requires new { definition_of self.old name ≡ None }
        requires kept { IsKept (self.old ++ (name, definition) ∷ []) }
        ensures ok { OnOk result (self.new ≡ self.old ++ (name, definition) ∷ []) }
        ensures err { OnErr result (self.new ≡ self.old) }
    {
        put(&mut self.atts, name, definition)
    }

    /// Keeps the first `len` attributes, or all where there are no more. Takes no memory.
    pub fn truncate(&mut self, len: usize)
        ensures { self.new ≡ take len self.old }
    {
        self.atts.truncate(len);
    }

    /// Adds an attribute behind the others, unless its name is there. Answers false and changes nothing exactly where the
    /// name is there. Else the first fault of the attribute in the order of `AttFault` is answered, and nothing changes.
    pub fn add(&mut self, att: Att) -> Result<bool, AttFault>
        requires { IsReady att }
        ensures { Adds self.old self.new att result }
    {
        let Att { name, kind, preset } = att;
        if self.atts.contains_key(&name) {
            return Ok(false);
        }
        match self.check(&kind, &preset) {
            Err(fault) => return Err(fault),
            Ok(()) => {}
        }
        let class = match class_of(self.alloc, &kind, &preset) {
            Err(NoMemory) => return Err(AttFault::NoMemory),
            Ok(class) => class,
        };
        let definition = Definition {
            kind,
            preset,
            class,
        };
        match self.push(name, definition) {
            Ok(()) => Ok(true),
            Err(NoMemory) => Err(AttFault::NoMemory),
        }
    }
}
