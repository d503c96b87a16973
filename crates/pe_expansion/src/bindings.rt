//! What parameter entities are bound to.

ghost use Rattle.std.specs.Prelude.{◌≡◌, [], option_map, IfSome, Some, position, bytes_eq, slice_get, length};
ghost use Rattle.std.specs.Option.{option_copied};
ghost use Rattle.pe_expansion.specs.Bound.{IsOuter, IsPlaceOf, given_text, with_outer, text_bound, none_bound};
ghost use Rattle.pe_expansion.specs.Binds.{Binds};

use entity_catalog::Ids;
use indexmap::IndexMap;
use jats_chars::{Name, NoMemory, Spelled, Text};
use std::alloc::Global;
use std::marker::Model;

/// What a parameter entity is bound to (XML 1.0, 4.2).
#[derive(Debug, Drop, PartialEq, Eq)]
pub enum PeText {
    /// The text of an inner entity.
    Inner(Text),
    /// The identifiers of an outer entity, the name of the module in whose reading its declaration stood, and its text
    /// once it is loaded.
    Outer {
        ids: Ids,
        base: Text,
        text: Option<Text>,
    },
}

/// The parameter entities that are bound, seen as the list of names with what they are bound to, in order of binding.
#[derive(Drop)]
pub struct Bindings {
    entries: IndexMap<Name, PeText>,
}

impl Model for Bindings {
    ghost use Rattle.pe_expansion.specs.Bound.{Bound};
    ghost use Rattle.pe_expansion.specs.BoundBy.{bound_by};

    ghost Value = { Bound };

    ghost view = { bound_by };
}

/// Gives an outer entity its text.
fn give_text(entity: &mut PeText, text: Text)
    ensures { entity.new ≡ given_text text entity.old }
{
    if let PeText::Outer { text: place, .. } = entity {
        *place = Some(text);
    }
}

impl Bindings {
    /// No entity is bound.
    pub fn new(alloc: Global) -> Bindings
        ensures { result ≡ none_bound }
    {
        Bindings {
            entries: IndexMap::new(alloc),
        }
    }

    /// Binds a name that is not bound, behind those that are, and answers true. The first declaration of an entity binds
    /// (XML 1.0, 4.2): where the name is bound the answer is false, and nothing changes.
    pub fn bind(&mut self, name: Name, text: PeText) -> Result<bool, NoMemory>
        ensures { Binds self.old self.new name text result }
    {
        if self.entries.contains_key(&name) {
            return Ok(false);
        }
        match self.entries.insert(name, text) {
            Ok(_) => Ok(true),
            Err(_) => Err(NoMemory),
        }
    }

    /// What a name is bound to, or None exactly where it is not bound.
    pub fn text_of(&self, name: &Name) -> Option<&PeText>
        ensures { option_copied result ≡ text_bound self.now name.now }
    {
        self.entries.get(name)
    }

    /// The name as it is bound, and what it is bound to, or None exactly where it is not bound.
    pub(crate) fn found(&self, name: &[char]) -> Option<(&Name, &PeText)>
        ensures name { IfSome result (λ p. p.0.now ≡ name.now) }
        ensures text { option_map (λ p. p.1.now) result ≡ text_bound self.now name.now }
    {
        self.entries.get_key_value(Spelled { name })
    }

    /// The same, with the place of the name in order of binding, counted from 0.
    pub(crate) fn numbered(&self, name: &[char]) -> Option<(usize, &Name, &PeText)>
        ensures name { IfSome result (λ p. p.1.now ≡ name.now) }
        ensures text { option_map (λ p. p.2.now) result ≡ text_bound self.now name.now }
        ensures entry { IfSome result (λ p. slice_get self.now p.0 ≡ Some (p.1.now, p.2.now)) }
    {
        self.entries.get_full(Spelled { name })
    }

    /// How many entities are bound.
    pub fn len(&self) -> usize
        ensures { result ≡ length self.now }
    {
        self.entries.len()
    }

    /// The place of a name in order of binding, counted from 0, or None exactly where it is not bound. Places stay. What is
    /// bound at the place is what `text_of` gives. No memory is taken.
    pub fn number_of(&self, name: &Name) -> Option<usize>
        ensures place { result ≡ position (λ e. bytes_eq name.now e.0) self.now }
        ensures text { IsPlaceOf self.now name.now result }
    {
        self.entries.get_index_of(name)
    }

    /// What is bound at a place counted from 0, or None exactly where the place is the length or more. No memory is taken.
    pub fn text_at(&self, number: usize) -> Option<&PeText>
        ensures { option_copied result ≡ option_map (λ e. e.1) (slice_get self.now number) }
    {
        match self.entries.get_index(number) {
            None => None,
            Some((_, text)) => Some(text),
        }
    }

    /// The name that is bound at a place counted from 0, and what it is bound to, or None exactly where the place is the
    /// length or more.
    pub fn entity_at(&self, number: usize) -> Option<(&Name, &PeText)>
        ensures { option_map (λ p. (p.0.now, p.1.now)) result ≡ slice_get self.now number }
    {
        self.entries.get_index(number)
    }

    /// Gives an outer entity its text. Nothing else changes, and no memory is taken.
    pub fn set_outer(&mut self, name: &Name, text: Text)
        requires { IsOuter (text_bound self.old name.now) }
        ensures { self.new ≡ with_outer self.old name.now text }
    {
        if let Some(entity) = self.entries.get_mut(name) {
            give_text(entity, text);
        }
    }
}
