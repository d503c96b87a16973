//! Attributes of one name.

ghost use Rattle.std.specs.Prelude.{◌≡◌, [], IfOk};
ghost use Rattle.std.specs.Option.{option_copied};
ghost use Rattle.document_trees.specs.Trees.{has_attribute};
ghost use Rattle.article_tree.specs.Words.{repeated};

use indexmap::IndexSet;
use jats_chars::{Name, NoMemory, Text};
use std::alloc::Global;

fn repeated_among<'a>(alloc: Global, atts: &'a [(Name, Text)]) -> Result<Option<&'a Name>, NoMemory>
    ensures { IfOk result (λ o. option_copied o ≡ repeated [] atts.now) }
{
    let mut seen = IndexSet::new(alloc);
    let mut rest = atts;
    while let Some((att, after)) = rest.split_first() {
        let (name, _) = att;
        if !seen.insert(name)? {
            return Ok(Some(name));
        }
        rest = after;
    }
    Ok(None)
}

/// Whether an attribute among these has the name.
fn is_among(atts: &[(Name, Text)], name: &Name) -> bool
    ensures { result ≡ has_attribute atts.now name.now }
{
    atts.iter().any(|att| *name == att.0)
}

/// The same, where there are few: each is compared with all before it.
fn repeated_among_few(atts: &[(Name, Text)]) -> Option<&Name>
    ensures { option_copied result ≡ repeated [] atts.now }
{
    for k in 0..atts.len() {
        let (before, _) = atts.split_at(k);
        let name = &atts[k].0;
        if is_among(before, name) {
            return Some(name);
        }
    }
    None
}

/// Up to so many attributes are compared with one another; the names of more are kept in a set with a look-up by hash.
const FEW: usize = 8;

/// The name of the first attribute that has the name of an earlier one.
pub fn first_repeated<'a>(
    alloc: Global,
    atts: &'a [(Name, Text)],
) -> Result<Option<&'a Name>, NoMemory>
    ensures { IfOk result (λ o. option_copied o ≡ repeated [] atts.now) }
{
    if atts.len() <= FEW {
        return Ok(repeated_among_few(atts));
    }
    repeated_among(alloc, atts)
}
