//! The attributes of a chosen tree.

ghost use Rattle.std.specs.Prelude.{◌≡◌, [], ◌∷◌, None, slice_get, unwrap_or};
ghost use Rattle.std.specs.Option.{option_copied, option_map_or};
ghost use Rattle.attlist_merge.specs.Lists.{IsSound};
ghost use Rattle.attlist_merge.specs.Oddness.{chosen};
ghost use Rattle.separating_article.specs.Growing.{PutsAtts};
ghost use Rattle.separating_article.specs.Openings.{value_at as value_of, values_by};

use crate::BuildOver;
use crate::opening::value_at;
use crate::spending::spend_attribute;
use attlist_merge::{AttList, Definition, OddAtt};
use attribute_types::{Preset, sample};
use document_trees::AttValues;
use jats_chars::{Name, Text};
use std::alloc::Global;

/// Puts an attribute behind others, and takes its bytes first.
fn put_attribute(
    alloc: Global,
    atts: &mut AttValues,
    left: u64,
    name: &Name,
    value: Text,
) -> Result<u64, BuildOver>
    ensures { PutsAtts atts.old atts.new left ((name.now, value) ∷ []) result }
{
    match spend_attribute(left, name, &value) {
        None => Err(BuildOver::TextOver),
        Some(rest) => {
            atts.push((name.copy(alloc)?, value))?;
            Ok(rest)
        }
    }
}

/// Puts an attribute with its sample behind others where it is required.
fn put_required(
    alloc: Global,
    atts: &mut AttValues,
    left: u64,
    name: &Name,
    definition: &Definition,
) -> Result<u64, BuildOver>
    requires { IsSound (name.now, definition.now) }
    ensures { PutsAtts atts.old atts.new left (chosen None (name.now, definition.now)) result }
{
    match &definition.preset {
        Preset::Required => {
            let value = sample(alloc, &definition.class)?;
            put_attribute(alloc, atts, left, name, value)
        }
        _ => Ok(left),
    }
}

/// Puts an attribute behind others with the value that shows what is odd, or with its sample where it is required.
fn put_chosen(
    alloc: Global,
    atts: &mut AttValues,
    left: u64,
    odd: Option<&OddAtt>,
    entry: (&Name, &Definition),
) -> Result<u64, BuildOver>
    requires { IsSound (entry.0.now, entry.1.now) }
    ensures { PutsAtts atts.old atts.new left (chosen (value_of (option_copied odd.entry) entry.entry.0.now) (entry.entry.0.now, entry.entry.1.now)) result }
{
    match value_at(odd, entry.0) {
        None => put_required(alloc, atts, left, entry.0, entry.1),
        Some(value) => {
            let value = value.copy(alloc)?;
            put_attribute(alloc, atts, left, entry.0, value)
        }
    }
}

fn put_chosen_at(
    alloc: Global,
    atts: &mut AttValues,
    left: u64,
    odd: Option<&OddAtt>,
    list: &AttList,
    at: usize,
) -> Result<u64, BuildOver>
    ensures { PutsAtts atts.old atts.new left (option_map_or (λ e. chosen (value_of (option_copied odd.entry) e.0) e) (slice_get list.now at) []) result }
{
    match list.get(at) {
        None => Ok(left),
        Some(entry) => put_chosen(alloc, atts, left, odd, entry),
    }
}

/// Puts the attributes of a list behind others, in order.
fn put_each(
    alloc: Global,
    atts: &mut AttValues,
    room: u64,
    odd: Option<&OddAtt>,
    list: &AttList,
) -> Result<u64, BuildOver>
    ensures { PutsAtts atts.old atts.new room (values_by (option_copied odd.entry) list.now) result }
{
    let mut left = room;
    for at in 0..list.len() {
        match put_chosen_at(alloc, atts, left, odd, list, at) {
            Err(over) => return Err(over),
            Ok(rest) => left = rest,
        }
    }
    Ok(left)
}

/// The required attributes of an element with their samples, and the value that shows what is odd in the place of its name,
/// from the element's list: None where it has none. Their bytes are taken from those that are left.
pub fn put_all(
    alloc: Global,
    atts: &mut AttValues,
    left: u64,
    odd: Option<&OddAtt>,
    list: Option<&AttList>,
) -> Result<u64, BuildOver>
    ensures { PutsAtts atts.old atts.new left (values_by (option_copied odd.entry) (unwrap_or (option_copied list.entry) [])) result }
{
    match list {
        None => Ok(left),
        Some(list) => put_each(alloc, atts, left, odd, list),
    }
}
