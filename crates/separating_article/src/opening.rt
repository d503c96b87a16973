//! How a chosen tree begins.

ghost use Rattle.std.specs.Prelude.{◌≡◌, IfOk, option_map};
ghost use Rattle.std.specs.Option.{option_copied};
ghost use Rattle.separating_article.specs.Guides.{IsGuide};
ghost use Rattle.separating_article.specs.Openings as spec;

use crate::choosing::{Path, is_same};
use crate::guide::Guide;
use attlist_merge::OddAtt;
use content_models::{TextKind, text_kind};
use decl_set::{Odd, is_odd, odd};
use jats_chars::{Name, NoMemory, Text};
use std::alloc::Global;
use tree_costs::{Cost, sum};

/// How the tree of an element is chosen: it is a least one, or one that separates by what is odd beside its elements, by
/// the names of its children, or by one of them.
#[derive(Clone, Copy, Debug, PartialEq, Eq)]
pub enum Way {
    Least,
    Odd,
    Names,
    Below,
}

/// Whether v is that of what is odd beside the elements.
fn is_by_odd(guide: &Guide, e: usize, name: &Name) -> bool
    ensures { result ≡ spec.is_by_odd guide.now e name.now }
{
    is_odd(guide.first, guide.second, name) && is_same(guide.v(Some(e)), guide.m(Some(e)))
}

/// Whether v is that of the names of the children.
fn is_by_names(guide: &Guide, e: usize, name: &Name) -> bool
    requires { IsGuide guide.now }
    ensures { result ≡ spec.is_by_names guide.now e name.now }
{
    guide.second.content_of(name).is_some()
        && is_same(
            guide.v(Some(e)),
            sum(Cost::Fin(1), guide.g(e, 0, 0), guide.cap),
        )
}

/// How the tree of the element at a place is chosen, by whether it separates.
pub fn way_of(guide: &Guide, e: usize, name: &Name, separates: bool) -> Way
    requires { IsGuide guide.now }
    ensures { result ≡ spec.way_of guide.now e name.now separates }
{
    if !separates {
        Way::Least
    } else if is_by_odd(guide, e, name) {
        Way::Odd
    } else if is_by_names(guide, e, name) {
        Way::Names
    } else {
        Way::Below
    }
}

/// The path of its items.
pub fn path_of(way: Way) -> Path
    ensures { result ≡ spec.path_of way }
{
    match way {
        Way::Least => Path::Own(0),
        Way::Odd => Path::Own(0),
        Way::Names => Path::Pair(0, 0),
        Way::Below => Path::Wrong(0),
    }
}

/// What is odd of the element, where its tree shows it.
pub fn shown(alloc: Global, guide: &Guide, name: &Name, way: Way) -> Result<Option<Odd>, NoMemory>
    ensures { IfOk result (λ o. o ≡ spec.shown guide.now name.now way) }
{
    match way {
        Way::Odd => odd(alloc, guide.first, guide.second, name),
        _ => Ok(None),
    }
}

/// The attribute that is odd.
pub fn att_of(odd: Option<&Odd>) -> Option<&OddAtt>
    ensures { option_copied result ≡ spec.att_of (option_copied odd.entry) }
{
    match odd {
        Some(Odd::Attribute(att)) => Some(att),
        _ => None,
    }
}

fn value_if<'a>(name: &Name, odd: &Name, value: &'a Text) -> Option<&'a Text>
    ensures { option_copied result ≡ spec.value_if name.now odd.now value.now }
{
    if name == odd { Some(value) } else { None }
}

/// The value that shows what is odd, at its name.
pub fn value_at<'a>(odd: Option<&'a OddAtt>, name: &Name) -> Option<&'a Text>
    ensures { option_copied result ≡ spec.value_at (option_copied odd.entry) name.now }
{
    match odd {
        Some(OddAtt::Undeclared(other, value)) => value_if(name, other, value),
        Some(OddAtt::Value(other, value)) => value_if(name, other, value),
        _ => None,
    }
}

fn is_plain_front(first: TextKind, second: TextKind) -> bool
    ensures { result ≡ spec.is_plain_front first second }
{
    match first {
        TextKind::White => matches!(second, TextKind::NoItems),
        _ => false,
    }
}

fn front_by(guide: &Guide, name: &Name) -> Option<bool>
    ensures { result ≡ spec.front_in guide.now name.now }
{
    match guide.first.content_of(name) {
        None => None,
        Some(content) => match guide.second.content_of(name) {
            None => None,
            Some(other) => Some(is_plain_front(text_kind(content), text_kind(other))),
        },
    }
}

/// Whether a run stands in front of the elements, and whether it is plain: a space, else `x`.
pub fn plain_front(guide: &Guide, name: &Name, odd: Option<&Odd>) -> Option<bool>
    ensures { result ≡ spec.plain_front guide.now name.now (option_copied odd.entry) }
{
    match odd {
        Some(Odd::Text) => front_by(guide, name),
        _ => None,
    }
}
