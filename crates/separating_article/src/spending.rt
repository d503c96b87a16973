//! The bytes of a text, taken from those that are left.

ghost use Rattle.std.specs.Prelude.{◌≡◌, ◌+◌, ◌&&◌, if◌then◌else◌, is_none, option_map};
ghost use Rattle.std.specs.List.{flat_map};
ghost use Rattle.article_tree.specs.Writing.{value_char};
ghost use Rattle.separating_article.specs.Openings.{run_of};
ghost use Rattle.separating_article.specs.Sizes.{Spends, attribute_size, bytes, front_size, names_size};

use crate::choosing::Step;
use jats_chars::{Name, Text};

/// What is left, or None exactly where fewer bytes are left than are taken.
fn spend(left: u64, taken: u64) -> Option<u64>
    ensures { Spends left taken result }
{
    left.checked_sub(taken)
}

/// Takes the bytes of a text.
fn spend_text(room: u64, text: &[char]) -> Option<u64>
    ensures { Spends room (bytes text.now) result }
{
    let mut left = room;
    for c in text {
        left = spend(left, c.len_utf8() as u64)?;
    }
    Some(left)
}

/// How many bytes a character takes in a value.
fn value_char_size(c: char) -> u64
    ensures { result ≡ bytes (value_char c) }
{
    match c {
        '&' => 5,
        '<' => 4,
        '"' => 6,
        '\t' => 4,
        '\n' => 5,
        '\r' => 5,
        _ => c.len_utf8() as u64,
    }
}

/// Takes the bytes of a value between its quotes.
fn spend_value(room: u64, text: &[char]) -> Option<u64>
    ensures { Spends room (bytes (flat_map value_char text.now)) result }
{
    let mut left = room;
    for c in text {
        left = spend(left, value_char_size(*c))?;
    }
    Some(left)
}

/// Takes the bytes of an attribute, with the space in front of it.
pub fn spend_attribute(left: u64, name: &Name, value: &Text) -> Option<u64>
    ensures { Spends left (attribute_size (name.now, value.now)) result }
{
    let left = spend(left, 4)?;
    let left = spend_text(left, name.text().as_slice())?;
    spend_value(left, value.as_slice())
}

/// Takes the bytes of the tags of an element without its attributes: of one tag where it is empty, else of two.
fn spend_tags(left: u64, name: &Name, empty: bool) -> Option<u64>
    ensures { Spends left (names_size name.now empty) result }
{
    let left = spend(left, 3)?;
    let left = spend_text(left, name.text().as_slice())?;
    if empty {
        return Some(left);
    }
    let left = spend(left, 2)?;
    spend_text(left, name.text().as_slice())
}

/// Takes the byte of a run that stands in front of the elements, where there is one.
fn spend_front(left: u64, front: Option<bool>) -> Option<u64>
    ensures { Spends left (front_size (option_map run_of front)) result }
{
    match front {
        None => Some(left),
        Some(_) => spend(left, 1),
    }
}

/// Takes the bytes of the tags of an element without its attributes, and of a run in front of its elements; where no step
/// comes, no elements stand in it.
pub fn spend_start(left: u64, name: &Name, front: Option<bool>, step: Option<Step>) -> Option<u64>
    ensures { Spends left (names_size name.now (is_none front && is_none step) + front_size (option_map run_of front)) result }
{
    let left = spend_tags(left, name, front.is_none() && step.is_none())?;
    spend_front(left, front)
}
