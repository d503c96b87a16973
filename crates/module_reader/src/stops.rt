//! Refusals, by what stops a reading.

ghost use Rattle.std.specs.Prelude.{◌≡◌, [], ◌∷◌, IfOk, IsTrue};
ghost use Rattle.jats_fault.specs.Table.{has_number, table};
ghost use Rattle.std.specs.Fmt.{decimal};
ghost use Rattle.module_reader.specs.Endings.{Refuses};
ghost use Rattle.module_reader.specs.Stops as spec;
ghost use Rattle.module_reader.specs.declared.refusals.Stop.TheVariants as reading;
ghost use Rattle.jats_chars.specs.declared.decoding.DecodeFault.TheVariants as decoding;
ghost use Rattle.entity_catalog.specs.declared.faults.CatalogFault.TheVariants as catalog;
ghost use Rattle.pe_expansion.specs.declared.faults.PeFault.TheVariants as pe;
ghost use Rattle.decl_set.specs.declared.faults.DeclFault.TheVariants as decl;
ghost use Rattle.jats_fault.specs.declared.numbers.TheConstants as number;

use crate::refusals::{Refusal, Stop};
use crate::standing::Standing;
use decl_set::DeclFault;
use entity_catalog::CatalogFault;
use jats_chars::{DecodeFault, Name, NoMemory, Text};
use jats_fault::{Details, Fault, Place, numbers};
use pe_expansion::PeFault;
use std::alloc::Global;

/// A refusal by its number, with its place and details.
pub fn refusal(alloc: Global, number: u16, place: &Text, offset: u64, details: Details) -> Stop
    requires { IsTrue (has_number table number) }
    ensures { Refuses (spec.refusal number place.now offset details) result }
{
    match place.copy(alloc) {
        Ok(module) => Stop::Refused(Refusal::new(Fault {
            number,
            place: Place { module, offset },
            details,
        })),
        Err(_) => Stop::NoMemory,
    }
}

/// The place in the module of what begins at a place of the text.
fn place_in(standing: &Standing, at: usize) -> u64
    ensures { result ≡ spec.place_in standing.now at }
{
    match &standing.inner {
        None => at as u64,
        Some(inner) => inner.place as u64,
    }
}

/// A refusal of what begins at a place of the text.
pub fn refused(alloc: Global, standing: &Standing, at: usize, number: u16, details: Details) -> Stop
    requires { IsTrue (has_number table number) }
    ensures { Refuses (spec.refused standing.now at number details) result }
{
    refusal(
        alloc,
        number,
        &standing.inmost,
        place_in(standing, at),
        details,
    )
}

fn one(alloc: Global, first: &Text) -> Result<Details, NoMemory>
    ensures { IfOk result (λ d. d ≡ first.now ∷ []) }
{
    let mut details = Details::new(alloc);
    details.add(first.copy(alloc)?);
    Ok(details)
}

fn two(alloc: Global, first: &Text, second: &Text) -> Result<Details, NoMemory>
    ensures { IfOk result (λ d. d ≡ first.now ∷ second.now ∷ []) }
{
    let mut details = one(alloc, first)?;
    details.add(second.copy(alloc)?);
    Ok(details)
}

fn three(alloc: Global, first: &Text, second: &Text, third: &Text) -> Result<Details, NoMemory>
    ensures { IfOk result (λ d. d ≡ first.now ∷ second.now ∷ third.now ∷ []) }
{
    let mut details = two(alloc, first, second)?;
    details.add(third.copy(alloc)?);
    Ok(details)
}

/// A refusal with a name as its detail.
pub fn named(alloc: Global, standing: &Standing, at: usize, number: u16, name: &Name) -> Stop
    requires { IsTrue (has_number table number) }
    ensures { Refuses (spec.refused standing.now at number (name.now ∷ [])) result }
{
    match one(alloc, name.text()) {
        Ok(details) => refused(alloc, standing, at, number, details),
        Err(_) => Stop::NoMemory,
    }
}

/// A refusal with two names as its details.
pub fn named_both(
    alloc: Global,
    standing: &Standing,
    at: usize,
    number: u16,
    first: &Name,
    second: &Name,
) -> Stop
    requires { IsTrue (has_number table number) }
    ensures { Refuses (spec.refused standing.now at number (first.now ∷ second.now ∷ [])) result }
{
    match two(alloc, first.text(), second.text()) {
        Ok(details) => refused(alloc, standing, at, number, details),
        Err(_) => Stop::NoMemory,
    }
}

/// A refusal with a token behind two names.
fn named_token(
    alloc: Global,
    standing: &Standing,
    at: usize,
    number: u16,
    element: &Name,
    name: &Name,
    token: &Text,
) -> Stop
    requires { IsTrue (has_number table number) }
    ensures { Refuses (spec.refused standing.now at number (element.now ∷ name.now ∷ token.now ∷ [])) result }
{
    match three(alloc, element.text(), name.text(), token) {
        Ok(details) => refused(alloc, standing, at, number, details),
        Err(_) => Stop::NoMemory,
    }
}

/// The characters that these bytes are.
fn characters(alloc: Global, bytes: &[u8]) -> Result<Text, NoMemory>
    ensures { IfOk result (λ t. t ≡ bytes.now) }
{
    let mut chars = Text::new(alloc);
    for b in bytes {
        chars.push(char::from(*b))?;
    }
    Ok(chars)
}

/// A number in decimal.
fn decimal_text(alloc: Global, number: u32) -> Result<Text, NoMemory>
    ensures { IfOk result (λ t. t ≡ decimal number) }
{
    let digits = format!(in alloc; "{number}")?;
    characters(alloc, digits.as_bytes())
}

/// A refusal of an element whose content is not deterministic, with the two positions.
fn ambiguous(
    alloc: Global,
    standing: &Standing,
    at: usize,
    name: &Name,
    first: u32,
    second: u32,
) -> Stop
    ensures { Refuses (spec.refused standing.now at number.AMBIGUOUS (name.now ∷ decimal first ∷ decimal second ∷ [])) result }
{
    match (decimal_text(alloc, first), decimal_text(alloc, second)) {
        (Ok(first), Ok(second)) => match three(alloc, name.text(), &first, &second) {
            Ok(details) => refused(alloc, standing, at, numbers::AMBIGUOUS, details),
            Err(_) => Stop::NoMemory,
        },
        _ => Stop::NoMemory,
    }
}

/// An item that begins there does not end in the text.
pub fn not_ended(alloc: Global, standing: &Standing, at: usize) -> Stop
    ensures { Refuses (spec.not_ended standing.now at) result }
{
    match &standing.inner {
        None => refused(alloc, standing, at, numbers::MALFORMED, Details::new(alloc)),
        Some(inner) => named(alloc, standing, at, numbers::PE_NESTING, &inner.name),
    }
}

/// What stops an expansion.
pub fn pe_stop(alloc: Global, standing: &Standing, at: usize, fault: PeFault) -> Stop
    ensures refuses { Refuses (spec.pe_stop standing.now at fault) result }
    ensures memory { fault ≡ pe.NoMemory → result ≡ reading.NoMemory }
{
    match fault {
        PeFault::UndeclaredPe(name) => named(alloc, standing, at, numbers::UNDECLARED_PE, &name),
        PeFault::RecursivePe(name) => named(alloc, standing, at, numbers::RECURSIVE_PE, &name),
        PeFault::PeNesting(name) => named(alloc, standing, at, numbers::PE_NESTING, &name),
        PeFault::EntityTooDeep(name) => named(alloc, standing, at, numbers::ENTITY_TOO_DEEP, &name),
        PeFault::ExpansionOver(name) => named(alloc, standing, at, numbers::EXPANSION_OVER, &name),
        PeFault::NotLoaded(_) => refused(
            alloc,
            standing,
            at,
            numbers::MALFORMED,
            Details::new(alloc),
        ),
        PeFault::Malformed => refused(alloc, standing, at, numbers::MALFORMED, Details::new(alloc)),
        PeFault::NoMemory => Stop::NoMemory,
    }
}

/// Why a declaration is refused.
pub fn decl_stop(alloc: Global, standing: &Standing, at: usize, fault: DeclFault) -> Stop
    ensures refuses { Refuses (spec.decl_stop standing.now at fault) result }
    ensures memory { fault ≡ decl.NoMemory → result ≡ reading.NoMemory }
{
    match fault {
        DeclFault::Malformed => refused(
            alloc,
            standing,
            at,
            numbers::MALFORMED,
            Details::new(alloc),
        ),
        DeclFault::EntityTooDeep(entity) => named(
            alloc,
            standing,
            at,
            numbers::ENTITY_TOO_DEEP,
            &entity,
        ),
        DeclFault::ExpansionOver(entity) => named(
            alloc,
            standing,
            at,
            numbers::EXPANSION_OVER,
            &entity,
        ),
        DeclFault::EntityUndeclared(entity) => named(
            alloc,
            standing,
            at,
            numbers::ENTITY_UNDECLARED,
            &entity,
        ),
        DeclFault::LessThanInValue(name) => named(
            alloc,
            standing,
            at,
            numbers::LESS_THAN_IN_VALUE,
            &name,
        ),
        DeclFault::RecursiveEntity(entity) => named(
            alloc,
            standing,
            at,
            numbers::RECURSIVE_ENTITY,
            &entity,
        ),
        DeclFault::DuplicateNotation(name) => named(
            alloc,
            standing,
            at,
            numbers::DUPLICATE_NOTATION,
            &name,
        ),
        DeclFault::DuplicateElement(name) => named(
            alloc,
            standing,
            at,
            numbers::DUPLICATE_ELEMENT,
            &name,
        ),
        DeclFault::Ambiguous(name, p, q) => ambiguous(alloc, standing, at, &name, p, q),
        DeclFault::IdPreset(owner, name) => named_both(
            alloc,
            standing,
            at,
            numbers::ID_PRESET,
            &owner,
            &name,
        ),
        DeclFault::SecondId(owner, name) => named_both(
            alloc,
            standing,
            at,
            numbers::SECOND_ID,
            &owner,
            &name,
        ),
        DeclFault::SecondNotation(owner, name) => {
            named_both(alloc, standing, at, numbers::SECOND_NOTATION, &owner, &name)
        }
        DeclFault::NotationOnEmpty(owner, name) => {
            named_both(
                alloc,
                standing,
                at,
                numbers::NOTATION_ON_EMPTY,
                &owner,
                &name,
            )
        }
        DeclFault::NotationUndeclared(owner, name) => {
            named_both(
                alloc,
                standing,
                at,
                numbers::NOTATION_UNDECLARED,
                &owner,
                &name,
            )
        }
        DeclFault::DuplicateToken(owner, name, token) => {
            named_token(
                alloc,
                standing,
                at,
                numbers::DUPLICATE_TOKEN,
                &owner,
                &name,
                &token,
            )
        }
        DeclFault::PresetNotInClass(owner, name) => {
            named_both(
                alloc,
                standing,
                at,
                numbers::PRESET_NOT_IN_CLASS,
                &owner,
                &name,
            )
        }
        DeclFault::ElementsOver(name) => named(alloc, standing, at, numbers::ELEMENTS_OVER, &name),
        DeclFault::FollowsOver(name) => named(alloc, standing, at, numbers::FOLLOWS_OVER, &name),
        DeclFault::NoMemory => Stop::NoMemory,
    }
}

/// Why the bytes of a file are no text.
pub fn decode_stop(alloc: Global, name: &Text, fault: DecodeFault) -> Stop
    ensures refuses { Refuses (spec.decode_stop name.now fault) result }
    ensures memory { fault ≡ decoding.NoMemory → result ≡ reading.NoMemory }
{
    let none = Details::new(alloc);
    match fault {
        DecodeFault::NotUtf8(byte) => refusal(alloc, numbers::NOT_UTF8, name, byte, none),
        DecodeFault::NotChar(byte) => refusal(alloc, numbers::NOT_CHAR, name, byte, none),
        DecodeFault::BadTextDecl => refusal(alloc, numbers::BAD_TEXT_DECL, name, 0, none),
        DecodeFault::EncodingOther => refusal(alloc, numbers::ENCODING_OTHER, name, 0, none),
        DecodeFault::NoMemory => Stop::NoMemory,
    }
}

/// Why a text is no catalog.
pub fn catalog_stop(alloc: Global, name: &Text, fault: CatalogFault) -> Stop
    ensures refuses { Refuses (spec.catalog_stop name.now fault) result }
    ensures memory { fault ≡ catalog.NoMemory → result ≡ reading.NoMemory }
{
    let none = Details::new(alloc);
    match fault {
        CatalogFault::Malformed(line) => refusal(
            alloc,
            numbers::CATALOG_MALFORMED,
            name,
            line,
            none,
        ),
        CatalogFault::PathEscapes(line) => refusal(alloc, numbers::PATH_ESCAPES, name, line, none),
        CatalogFault::NoMemory => Stop::NoMemory,
    }
}
