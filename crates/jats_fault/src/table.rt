//! The table of refusals.

ghost use Rattle.std.specs.Prelude.{◌≡◌, ◌++◌, ◌≤◌, ◌<◌, codes, nat_eq, map, IsTrue};
ghost use Rattle.std.specs.List.{starts_with};
ghost use Rattle.std.specs.Option.{option_copied};
ghost use Rattle.jats_fault.specs.Table as spec;

use crate::numbers;

/// Each refusal's number and name.
const REFUSALS: [(u16, &'static str); 46] = [
    (numbers::MODULE_ABSENT, "ModuleAbsent"),
    (numbers::MODULE_LONG, "ModuleLong"),
    (numbers::SET_OVER, "SetOver"),
    (numbers::NOT_UTF8, "NotUtf8"),
    (numbers::NOT_CHAR, "NotChar"),
    (numbers::BAD_TEXT_DECL, "BadTextDecl"),
    (numbers::ENCODING_OTHER, "EncodingOther"),
    (numbers::MALFORMED, "Malformed"),
    (numbers::UNDECLARED_PE, "UndeclaredPe"),
    (numbers::RECURSIVE_PE, "RecursivePe"),
    (numbers::PE_NESTING, "PeNesting"),
    (numbers::ENTITY_TOO_DEEP, "EntityTooDeep"),
    (numbers::EXPANSION_OVER, "ExpansionOver"),
    (numbers::ENTITY_UNDECLARED, "EntityUndeclared"),
    (numbers::LESS_THAN_IN_VALUE, "LessThanInValue"),
    (numbers::RECURSIVE_ENTITY, "RecursiveEntity"),
    (numbers::DUPLICATE_NOTATION, "DuplicateNotation"),
    (numbers::DUPLICATE_ELEMENT, "DuplicateElement"),
    (numbers::DUPLICATE_MIXED_NAME, "DuplicateMixedName"),
    (numbers::AMBIGUOUS, "Ambiguous"),
    (numbers::ID_PRESET, "IdPreset"),
    (numbers::SECOND_ID, "SecondId"),
    (numbers::SECOND_NOTATION, "SecondNotation"),
    (numbers::NOTATION_ON_EMPTY, "NotationOnEmpty"),
    (numbers::NOTATION_UNDECLARED, "NotationUndeclared"),
    (numbers::DUPLICATE_TOKEN, "DuplicateToken"),
    (numbers::PRESET_NOT_IN_CLASS, "PresetNotInClass"),
    (numbers::ROOT_UNDECLARED, "RootUndeclared"),
    (numbers::ELEMENTS_OVER, "ElementsOver"),
    (numbers::POSITIONS_OVER, "PositionsOver"),
    (numbers::FOLLOWS_OVER, "FollowsOver"),
    (numbers::GROUP_TOO_DEEP, "GroupTooDeep"),
    (numbers::PAIRS_OVER, "PairsOver"),
    (numbers::OUTPUT_OVER, "OutputOver"),
    (numbers::CATALOG_MALFORMED, "CatalogMalformed"),
    (numbers::PATH_ESCAPES, "PathEscapes"),
    (numbers::ARTICLE_MALFORMED, "ArticleMalformed"),
    (numbers::TAG_MISMATCH, "TagMismatch"),
    (numbers::REPEATED_ATTRIBUTE, "RepeatedAttribute"),
    (numbers::ENTITY_UNKNOWN, "EntityUnknown"),
    (numbers::ENTITY_EXTERNAL, "EntityExternal"),
    (numbers::ELEMENT_TOO_DEEP, "ElementTooDeep"),
    (numbers::REST_AFTER_ROOT, "RestAfterRoot"),
    (numbers::INTERNAL_SUBSET, "InternalSubset"),
    (numbers::ENTITY_NESTING, "EntityNesting"),
    (numbers::CERT_MALFORMED, "CertMalformed"),
];

fn name_in(rows: &[(u16, &'static str)], number: u16) -> Option<&'static str>
    ensures { option_copied result ≡ spec.name_in (map (λ r. (r.0, r.1.now)) rows.now) number }
{
    for row in rows {
        if row.0 == number {
            return Some(row.1);
        }
    }
    None
}

/// The name of a refusal, or None exactly where the table has no such number.
#[tactic(auto, unfolding(crate::specs::Table::name_of))]
pub fn fault_name(number: u16) -> Option<&'static str>
    ensures { option_copied result ≡ spec.name_of number }
{
    name_in(&REFUSALS, number)
}

/// Whether bytes begin as a line of this number does.
#[tactic(auto, using(crate::proofs::Heads::head_digits))]
fn begins_line(bytes: &[u8], number: u16) -> bool
    requires { (10 ≤ number) × (number < 100) }
    ensures { result ≡ starts_with nat_eq bytes.now (spec.head number) }
{
    let tens = 48 + (number / 10) as u8;
    let ones = 48 + (number % 10) as u8;
    bytes.starts_with(&[
        b'r', b'e', b'f', b'u', b's', b'e', b'd', b' ', b'E', tens, ones, b' ',
    ])
}

fn number_in(rows: &[(u16, &'static str)], bytes: &[u8]) -> Option<u16>
    requires { IsTrue (spec.have_two_digits (map (λ r. (r.0, r.1.now)) rows.now)) }
    ensures { result ≡ spec.number_in (map (λ r. (r.0, r.1.now)) rows.now) bytes.now }
{
    for row in rows {
        if begins_line(bytes, row.0) {
            return Some(row.0);
        }
    }
    None
}

/// The number of the refusal that a line tells: bytes that begin with `refused E`, a number of the table in decimal
/// and a space. None exactly where they do not.
#[tactic(auto, unfolding(crate::specs::Table::number_told))]
pub fn number_of_line(bytes: &[u8]) -> Option<u16>
    ensures { result ≡ spec.number_told bytes.now }
{
    number_in(&REFUSALS, bytes)
}
