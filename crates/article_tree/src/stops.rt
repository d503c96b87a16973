//! Where the reading of an article stops, and why.

ghost use Rattle.std.specs.Prelude.{◌≡◌, [], ◌∷◌, IfOk};
ghost use Rattle.article_tree.specs.Outcomes.{Refuses, StopsBy, standing_of};
ghost use Rattle.article_tree.specs.Stops as spec;

use decl_set::ValueFault;
use jats_chars::{Name, NoMemory, Text};
use jats_fault::{Details, Fault, Place, numbers};
use std::alloc::{AllocFailed, Global};

/// Why an article is not read.
#[derive(Drop)]
pub enum ArticleFault {
    /// The article is refused.
    Refused(Fault),
    /// Memory ran out.
    NoMemory,
}

impl From<NoMemory> for ArticleFault {
    ghost use Rattle.std.specs.Prelude.{◌≡◌};
    ghost use Rattle.article_tree.specs.declared.stops.ArticleFault.TheVariants.{NoMemory as memory};

    ghost from_gives = { λ _ e. e ≡ memory };

    fn from(_error: NoMemory) -> ArticleFault {
        ArticleFault::NoMemory
    }
}

impl<T: Drop> From<AllocFailed<T>> for ArticleFault {
    ghost use Rattle.std.specs.Prelude.{◌≡◌};
    ghost use Rattle.article_tree.specs.declared.stops.ArticleFault.TheVariants.{NoMemory as memory};

    ghost from_gives = { λ _ e. e ≡ memory };

    fn from(_error: AllocFailed<T>) -> ArticleFault {
        ArticleFault::NoMemory
    }
}

/// The text of an entity: the place of the outermost reference in the article, and the name of the innermost entity.
#[derive(Drop)]
pub struct EntityText {
    pub place: usize,
    pub name: Name,
}

/// Where a text stands: it is that of the article, or of an entity to which a reference in content refers.
#[derive(Drop)]
pub struct Stand<'a> {
    pub article: &'a Text,
    pub inner: Option<EntityText>,
}

/// A refusal by its number, with its place and details.
pub fn refusal(
    alloc: Global,
    number: u16,
    place: &Text,
    offset: u64,
    details: Details,
) -> ArticleFault
    ensures { Refuses (record { number = number; place = record { «module» = place.now; offset = offset }; details = details }) result }
{
    match place.copy(alloc) {
        Ok(module) => ArticleFault::Refused(Fault {
            number,
            place: Place { module, offset },
            details,
        }),
        Err(_) => ArticleFault::NoMemory,
    }
}

/// The place in the article of what begins at a place of the text.
pub fn place_in(stand: &Stand, at: usize) -> usize
    ensures { result ≡ spec.place_in (standing_of stand.now) at }
{
    match &stand.inner {
        None => at,
        Some(inner) => inner.place,
    }
}

/// A refusal of what begins at a place of the text.
pub fn refused(
    alloc: Global,
    stand: &Stand,
    at: usize,
    number: u16,
    details: Details,
) -> ArticleFault
    ensures { Refuses (spec.refused (standing_of stand.now) at number details) result }
{
    refusal(
        alloc,
        number,
        stand.article,
        place_in(stand, at) as u64,
        details,
    )
}

fn one_detail(alloc: Global, detail: &[char]) -> Result<Details, NoMemory>
    ensures { IfOk result (λ d. d ≡ detail.now ∷ []) }
{
    let mut details = Details::new(alloc);
    details.add(Text::from_slice(alloc, detail)?);
    Ok(details)
}

/// A refusal with one detail.
pub fn refused_name(
    alloc: Global,
    stand: &Stand,
    at: usize,
    number: u16,
    detail: &[char],
) -> ArticleFault
    ensures { Refuses (spec.refused (standing_of stand.now) at number (detail.now ∷ [])) result }
{
    match one_detail(alloc, detail) {
        Ok(details) => refused(alloc, stand, at, number, details),
        Err(_) => ArticleFault::NoMemory,
    }
}

fn two_details(alloc: Global, first: &[char], second: &[char]) -> Result<Details, NoMemory>
    ensures { IfOk result (λ d. d ≡ first.now ∷ second.now ∷ []) }
{
    let mut details = Details::new(alloc);
    details.add(Text::from_slice(alloc, first)?);
    details.add(Text::from_slice(alloc, second)?);
    Ok(details)
}

/// A refusal with two details.
pub fn refused_names(
    alloc: Global,
    stand: &Stand,
    at: usize,
    number: u16,
    first: &[char],
    second: &[char],
) -> ArticleFault
    ensures { Refuses (spec.refused (standing_of stand.now) at number (first.now ∷ second.now ∷ [])) result }
{
    match two_details(alloc, first, second) {
        Ok(details) => refused(alloc, stand, at, number, details),
        Err(_) => ArticleFault::NoMemory,
    }
}

/// The text departs there from the grammar.
pub fn malformed(alloc: Global, stand: &Stand, at: usize) -> ArticleFault
    ensures { Refuses (spec.malformed (standing_of stand.now) at) result }
{
    match &stand.inner {
        None => refused(
            alloc,
            stand,
            at,
            numbers::ARTICLE_MALFORMED,
            Details::new(alloc),
        ),
        Some(inner) => refused_name(
            alloc,
            stand,
            at,
            numbers::ENTITY_NESTING,
            inner.name.text().as_slice(),
        ),
    }
}

/// What stops a reference, or the value of an attribute of this name.
pub fn value_stop(
    alloc: Global,
    stand: &Stand,
    at: usize,
    name: &[char],
    fault: ValueFault,
) -> ArticleFault
    ensures { StopsBy (standing_of stand.now) at name.now fault result }
{
    match fault {
        ValueFault::EntityUnknown(entity) => {
            refused_name(
                alloc,
                stand,
                at,
                numbers::ENTITY_UNKNOWN,
                entity.text().as_slice(),
            )
        }
        ValueFault::EntityExternal(entity) => {
            refused_name(
                alloc,
                stand,
                at,
                numbers::ENTITY_EXTERNAL,
                entity.text().as_slice(),
            )
        }
        ValueFault::RecursiveEntity(entity) => {
            refused_name(
                alloc,
                stand,
                at,
                numbers::RECURSIVE_ENTITY,
                entity.text().as_slice(),
            )
        }
        ValueFault::EntityTooDeep(entity) => {
            refused_name(
                alloc,
                stand,
                at,
                numbers::ENTITY_TOO_DEEP,
                entity.text().as_slice(),
            )
        }
        ValueFault::ExpansionOver(entity) => {
            refused_name(
                alloc,
                stand,
                at,
                numbers::EXPANSION_OVER,
                entity.text().as_slice(),
            )
        }
        ValueFault::LessThan => refused_name(alloc, stand, at, numbers::LESS_THAN_IN_VALUE, name),
        ValueFault::Malformed => malformed(alloc, stand, at),
        ValueFault::NoMemory => ArticleFault::NoMemory,
    }
}
