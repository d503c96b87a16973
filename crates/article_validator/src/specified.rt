//! The attributes of a tag, looked up by name.

ghost use Rattle.std.specs.Prelude.{◌≡◌, IfOk};
ghost use Rattle.attlist_merge.specs.Lists as lists;
ghost use Rattle.attlist_merge.specs.Values as values;
ghost use Rattle.document_trees.specs.Trees.{has_attribute};
ghost use Rattle.article_validator.specs.Specified.{HaveNames};

use attlist_merge::Definition;
use attribute_types::Preset;
use indexmap::IndexSet;
use jats_chars::{Name, NoMemory, Text};
use std::alloc::Global;
use std::marker::Model;

/// Up to so many attributes are looked through one by one; the names of more are kept in a set with a look-up by hash.
const FEW: usize = 8;

/// The attributes of a tag, of which the one of a name is found in a time that does not grow with their count.
#[derive(Drop)]
pub struct Specified<'a> {
    atts: &'a [(Name, Text)],
    names: IndexSet<&'a Name>,
}

impl<'a> Model for Specified<'a> {
    ghost use Rattle.std.specs.Prelude.{List};
    ghost use Rattle.document_trees.specs.Trees.{Attribute};
    ghost use Rattle.article_validator.specs.Specified.{AreKnown};

    ghost Value = { List Attribute };

    ghost view = { λ s. s.atts.now };

    ghost invariant = { λ s. AreKnown s.names.keys s.atts.now };
}

/// The names of attributes, each once.
fn names_of<'a>(alloc: Global, atts: &'a [(Name, Text)]) -> Result<IndexSet<&'a Name>, NoMemory>
    ensures { IfOk result (λ names. HaveNames names.keys atts.now) }
{
    let mut names = IndexSet::new(alloc);
    let mut rest = atts;
    while let Some((att, after)) = rest.split_first() {
        let (name, _) = att;
        names.insert(name)?;
        rest = after;
    }
    Ok(names)
}

fn is_required(preset: &Preset) -> bool
    ensures { result ≡ lists.is_required preset.now }
{
    match preset {
        Preset::Required => true,
        _ => false,
    }
}

/// Whether an attribute of this name is among a few.
fn is_among(atts: &[(Name, Text)], name: &Name) -> bool
    ensures { result ≡ has_attribute atts.now name.now }
{
    atts.iter().any(|att| *name == att.0)
}

impl<'a> Specified<'a> {
    /// The attributes of a tag.
    pub fn new(alloc: Global, atts: &'a [(Name, Text)]) -> Result<Specified<'a>, NoMemory>
        ensures { IfOk result (λ s. s ≡ atts.now) }
    {
        let names = if atts.len() <= FEW {
            IndexSet::new(alloc)
        } else {
            names_of(alloc, atts)?
        };
        Ok(Specified { atts, names })
    }

    /// Whether an attribute of this name is specified.
    pub fn has(&self, name: &Name) -> bool
        ensures { result ≡ has_attribute self.now name.now }
    {
        if self.atts.len() <= FEW {
            is_among(self.atts, name)
        } else {
            self.names.contains(&name)
        }
    }

    /// Whether the attribute is specified, where it is required.
    pub fn is_given(&self, name: &Name, definition: &Definition) -> bool
        ensures { result ≡ values.is_given self.now (name.now, definition.now) }
    {
        !is_required(&definition.preset) || self.has(name)
    }
}
