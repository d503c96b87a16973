//! The texts of references between declarations.

ghost use Rattle.std.specs.Prelude.{◌≡◌, [], IfOk, OnOk, Some, ℕ, List, length, unwrap_or};
ghost use Rattle.std.specs.Option.{option_copied};
ghost use Rattle.entity_catalog.specs.Resolution as resolution;
ghost use Rattle.module_reader.specs.Frames.{Enters};
ghost use Rattle.module_reader.specs.Reading as spec;
ghost use Rattle.module_reader.specs.Sources.{Files};
ghost use Rattle.module_reader.specs.Stops as stops;

use crate::frames::{Frame, Work};
use crate::standing::{Inner, Standing};
use entity_catalog::{Catalog, Ids, ResolveFault, resolve};
use jats_chars::{Name, NoMemory, Text};
use pe_expansion::PeText;
use std::alloc::Global;
use std::mem;

/// The place in the module of what begins at a place of the text.
fn place_in(standing: &Standing, at: usize) -> usize
    ensures { result ≡ stops.place_in standing.now at }
{
    match &standing.inner {
        None => at,
        Some(inner) => inner.place,
    }
}

/// The file that an identifier names, or nothing where it names none.
#[tactic(auto, unfolding(entity_catalog::specs::Resolution::resolve))]
fn file_of(alloc: Global, catalog: &Catalog, base: &Text, ids: &Ids) -> Result<Text, NoMemory>
    ensures { IfOk result (λ t. t ≡ unwrap_or (resolution.resolve catalog.now base.now ids.now) []) }
{
    if let Ids::PublicOnly(_) = ids {
        return Ok(Text::new(alloc));
    }
    match resolve(alloc, catalog, base, ids) {
        Ok(file) => Ok(file),
        Err(ResolveFault::PathEscapes) => Ok(Text::new(alloc)),
        Err(ResolveFault::NoMemory) => Err(NoMemory),
    }
}

/// Where the text of an inner entity stands, to which a reference begins at a place.
fn inner_standing(
    alloc: Global,
    standing: &Standing,
    at: usize,
    name: &Name,
) -> Result<Standing, NoMemory>
    ensures { IfOk result (λ c. c ≡ record { inmost = standing.now.inmost; inner = Some (record { place = stops.place_in standing.now at; name = name.now }) }) }
{
    let inmost = standing.inmost.copy(alloc)?;
    let name = name.copy(alloc)?;
    let place = place_in(standing, at);
    Ok(Standing {
        inmost,
        inner: Some(Inner { place, name }),
    })
}

/// Where the text of an entity stands: as a module's where it is outer.
fn standing_of(
    alloc: Global,
    catalog: &Catalog,
    standing: &Standing,
    at: usize,
    name: &Name,
    entity: Option<&PeText>,
) -> Result<Standing, NoMemory>
    ensures { IfOk result (λ c. (files : Files) → c ≡ spec.standing_of (record { files = files; catalog = catalog.now }) standing.now at name.now (option_copied entity.entry)) }
{
    match entity {
        Some(PeText::Outer { ids, base, .. }) => {
            let inmost = file_of(alloc, catalog, base, ids)?;
            Ok(Standing {
                inmost,
                inner: None,
            })
        }
        Some(PeText::Inner(_)) => inner_standing(alloc, standing, at, name),
        None => inner_standing(alloc, standing, at, name),
    }
}

/// Reads the text of the entity with this name at the number; the text that is read waits at the next place.
pub fn enter(
    alloc: Global,
    catalog: &Catalog,
    work: &mut Work,
    next: usize,
    name: Name,
    number: usize,
) -> Result<(), NoMemory>
    ensures { OnOk result (Enters catalog.now work.old work.new next name number) }
{
    let standing = standing_of(
        alloc,
        catalog,
        &work.frame.standing,
        work.frame.at,
        &name,
        work.state.bound.text_of(&name),
    )?;
    work.names.push(name)?;
    work.frame.at = next;
    let inner = Frame {
        text: Some(number),
        standing,
        at: 0,
        sections: Vec::new(alloc),
    };
    let outer = mem::replace(&mut work.frame, inner);
    work.waiting.push(outer)?;
    Ok(())
}
