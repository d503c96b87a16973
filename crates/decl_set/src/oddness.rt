//! Which elements are odd, and why.

ghost use Rattle.std.specs.Prelude.{◌≡◌, [], IfOk, is_some, option_map, unwrap_or};
ghost use Rattle.std.specs.Option.{option_copied};
ghost use Rattle.attlist_merge.specs.Oddness.{odd_of};
ghost use Rattle.decl_set.specs.Declarations.{attributes_in};
ghost use Rattle.decl_set.specs.Oddness as spec;
ghost use Rattle.decl_set.specs.declared.breaks.Odd.TheVariants.{Attribute};

use crate::{DeclSet, Odd};
use attlist_merge::{AttList, lists_cover, odd_att};
use content_models::{TextKind, text_kind};
use jats_chars::{Name, NoMemory};
use std::alloc::Global;

fn is_more_text(first: TextKind, second: TextKind) -> bool
    ensures { result ≡ spec.more_text first second }
{
    match (first, second) {
        (TextKind::NoItems, _) => false,
        (TextKind::White, TextKind::NoItems) => true,
        (TextKind::White, _) => false,
        (TextKind::All, TextKind::All) => false,
        (TextKind::All, _) => true,
    }
}

fn are_odd(first: &AttList, second: &AttList) -> bool
    ensures { result ≡ is_some (odd_of first.now second.now) }
{
    let _ = first.len();
    let _ = second.len();
    !lists_cover(first, second)
}

fn list_or<'a>(list: Option<&'a AttList>, none: &'a AttList) -> &'a AttList
    requires { none.now ≡ [] }
    ensures { result.now ≡ unwrap_or (option_copied list.entry) [] }
{
    match list {
        Some(list) => list,
        None => none,
    }
}

fn has_odd_list(first: &DeclSet, second: &DeclSet, name: &Name) -> bool
    ensures { result ≡ is_some (odd_of (attributes_in first.now name.now) (attributes_in second.now name.now)) }
{
    let none = AttList::new(first.alloc);
    are_odd(
        list_or(first.atts_of(name), &none),
        list_or(second.atts_of(name), &none),
    )
}

fn odd_list(
    alloc: Global,
    first: &DeclSet,
    second: &DeclSet,
    name: &Name,
) -> Result<Option<Odd>, NoMemory>
    ensures { IfOk result (λ o. o ≡ option_map Attribute (odd_of (attributes_in first.now name.now) (attributes_in second.now name.now))) }
{
    let none = AttList::new(alloc);
    let list = list_or(first.atts_of(name), &none);
    let other = list_or(second.atts_of(name), &none);
    match odd_att(alloc, list, other)? {
        None => Ok(None),
        Some(o) => Ok(Some(Odd::Attribute(o))),
    }
}

/// Whether an element that the first set declares is odd in the second. Takes no memory.
pub fn is_odd(first: &DeclSet, second: &DeclSet, name: &Name) -> bool
    ensures { result ≡ is_some (spec.odd_in first.now second.now name.now) }
{
    match first.content_of(name) {
        None => false,
        Some(content) => match second.content_of(name) {
            None => true,
            Some(other) => {
                if is_more_text(text_kind(content), text_kind(other)) {
                    true
                } else {
                    has_odd_list(first, second, name)
                }
            }
        },
    }
}

/// Why an element that the first set declares is odd in the second, whatever names stand in it: the second does not
/// declare it, it allows less text, or the first attribute that is odd. None exactly where it is not odd.
pub fn odd(
    alloc: Global,
    first: &DeclSet,
    second: &DeclSet,
    name: &Name,
) -> Result<Option<Odd>, NoMemory>
    ensures { IfOk result (λ o. o ≡ spec.odd_in first.now second.now name.now) }
{
    match first.content_of(name) {
        None => Ok(None),
        Some(content) => match second.content_of(name) {
            None => Ok(Some(Odd::Undeclared)),
            Some(other) => {
                if is_more_text(text_kind(content), text_kind(other)) {
                    Ok(Some(Odd::Text))
                } else {
                    odd_list(alloc, first, second, name)
                }
            }
        },
    }
}
