//! Catalogs.

ghost use Rattle.std.specs.Prelude.{◌≡◌, ◌∷◌, ◌++◌, [], Some, OnOk};
ghost use Rattle.std.specs.Option.{option_copied};
ghost use Rattle.entity_catalog.specs.Catalogs as spec;
ghost use Rattle.entity_catalog.specs.Join.{join};
ghost use Rattle.entity_catalog.specs.Lines.{line_of as line_said, system, public};
ghost use Rattle.entity_catalog.specs.Named.{file_of};
ghost use Rattle.entity_catalog.specs.Outcomes.{Reads};
ghost use Rattle.entity_catalog.specs.Steps.{NamesFile, ReadsLine, with_first, with_line};

use crate::CatalogFault;
use crate::lines::{Line, line_of};
use crate::paths::joined_name;
use crate::public_ids::collapsed;
use indexmap::IndexMap;
use jats_chars::{NoMemory, Text};
use std::alloc::Global;
use std::marker::Model;

/// What the lines of a catalog name, seen as two lists of identifiers with the names of their files.
#[derive(Drop)]
pub struct Catalog {
    systems: IndexMap<Text, Text>,
    publics: IndexMap<Text, Text>,
}

impl Model for Catalog {
    ghost use Rattle.entity_catalog.specs.Named.{Named};

    ghost Value = { Named };

    ghost use Rattle.entity_catalog.specs.NamedBy.{named_by};

    ghost view = { named_by };
}

impl Catalog {
    /// The catalog that names nothing.
    pub fn empty(alloc: Global) -> Catalog
        ensures { result ≡ record { systems = []; publics = [] } }
    {
        Catalog {
            systems: IndexMap::new(alloc),
            publics: IndexMap::new(alloc),
        }
    }

    /// The file of the first SYSTEM line with this identifier.
    pub(crate) fn system_file(&self, identifier: &Text) -> Option<&Text>
        ensures { option_copied result ≡ file_of self.now.systems identifier.now }
    {
        self.systems.get(identifier)
    }

    /// The file of the first PUBLIC line with this collapsed identifier.
    pub(crate) fn public_file(&self, identifier: &Text) -> Option<&Text>
        ensures { option_copied result ≡ file_of self.now.publics identifier.now }
    {
        self.publics.get(identifier)
    }
}

/// Names the file of an identifier that is new. One that is there keeps its file.
fn keep(files: &mut IndexMap<Text, Text>, identifier: Text, file: Text) -> Result<(), NoMemory>
    ensures { OnOk result (files.new.entries ≡ with_first files.old.entries (identifier, file)) }
{
    if files.contains_key(&identifier) {
        return Ok(());
    }
    files.insert(identifier, file)?;
    Ok(())
}

/// The file that the name in the line with this number stands for.
fn file_named(alloc: Global, place: &Text, number: u64, name: &[char]) -> Result<Text, CatalogFault>
    ensures { NamesFile (join place.now name.now) number result }
{
    match joined_name(alloc, place.as_slice(), name) {
        Ok(Some(file)) => Ok(file),
        Ok(None) => Err(CatalogFault::PathEscapes(number)),
        Err(_) => Err(CatalogFault::NoMemory),
    }
}

impl Catalog {
    fn read_system(
        &mut self,
        alloc: Global,
        place: &Text,
        number: u64,
        identifier: &[char],
        name: &[char],
    ) -> Result<(), CatalogFault>
        ensures { let line = system identifier.now name.now in ReadsLine (spec.fault_of place.now number line) (with_line place.now self.old line) self.new result }
    {
        let file = file_named(alloc, place, number, name)?;
        let identifier = Text::from_slice(alloc, identifier)?;
        keep(&mut self.systems, identifier, file)?;
        Ok(())
    }

    fn read_public(
        &mut self,
        alloc: Global,
        place: &Text,
        number: u64,
        identifier: &[char],
        name: &[char],
    ) -> Result<(), CatalogFault>
        ensures { let line = public identifier.now name.now in ReadsLine (spec.fault_of place.now number line) (with_line place.now self.old line) self.new result }
    {
        let file = file_named(alloc, place, number, name)?;
        let identifier = collapsed(alloc, identifier)?;
        keep(&mut self.publics, identifier, file)?;
        Ok(())
    }

    fn read_line(
        &mut self,
        alloc: Global,
        place: &Text,
        number: u64,
        line: &[char],
    ) -> Result<(), CatalogFault>
        ensures { let line = line_said line.now in ReadsLine (spec.fault_of place.now number line) (with_line place.now self.old line) self.new result }
    {
        match line_of(line) {
            Line::Nothing => Ok(()),
            Line::System(identifier, name) => {
                self.read_system(alloc, place, number, identifier, name)
            }
            Line::Public(identifier, name) => {
                self.read_public(alloc, place, number, identifier, name)
            }
            Line::Malformed => Err(CatalogFault::Malformed(number)),
        }
    }
}

/// The catalog that a text is, where place is its own name. A line that is blank, or whose first character that is no
/// blank is `#`, is skipped. Each other line is `SYSTEM` or `PUBLIC`, an identifier in `"` and a name in `"`, with
/// blanks between them and perhaps at the ends; the name is joined to place, as `join` says. Of lines with the same
/// identifier the first counts, public identifiers being collapsed. The fault is that of the first line that has one:
/// `Malformed` where it has no form, and `PathEscapes` where the join of its name does, with its number from 1.
pub fn read_catalog(alloc: Global, text: &Text, place: &Text) -> Result<Catalog, CatalogFault>
    ensures { Reads (spec.catalog_of place.now text.now) result }
{
    let mut catalog = Catalog::empty(alloc);
    let mut number = 0;
    for line in text.as_slice().split(|c| *c == '\n') {
        number += 1;
        catalog.read_line(alloc, place, number, line)?;
    }
    Ok(catalog)
}
