//! References to general entities in content.

ghost use Rattle.std.specs.Prelude.{◌≡◌, ◌+◌, ◌<◌, ◌≤◌, IfOk, length};
ghost use Rattle.decl_set.specs.ValueFrames.{Gives};
ghost use Rattle.decl_set.specs.Values as spec;
ghost use Rattle.pe_expansion.specs.Opening.{is_open as is_open_in};

use decl_set::{DeclSet, EntityDef, ValueFault};
use jats_chars::limits::{INCLUDED_CHARACTERS, OPEN_ENTITIES};
use jats_chars::{Name, NameList, Text};
use std::alloc::Global;

/// The text of an entity, and the count of included characters with it.
#[derive(Clone, Copy, Debug, Drop)]
pub struct Entered<'a> {
    pub text: &'a Text,
    pub spent: u64,
}

fn is_open(names: &NameList, name: &Name) -> bool
    ensures { result ≡ is_open_in names.now name.now }
{
    names.as_slice().iter().any(|n| *n == *name)
}

/// The text of an internal entity, where these names are open.
fn enter_text<'a>(
    alloc: Global,
    names: &NameList,
    name: &Name,
    text: &'a Text,
    spent: u64,
) -> Result<Entered<'a>, ValueFault>
    ensures within { IfOk result (λ e. (e.spent ≡ spent + length e.text.now) × (e.spent ≤ 67108864) × (length names.now < 32)) }
    ensures text { Gives (λ e. (e.text.now, e.spent)) result (spec.entered names.now spent name.now text.now) }
{
    if is_open(names, name) {
        return Err(ValueFault::RecursiveEntity(name.copy(alloc)?));
    }
    if names.len() >= OPEN_ENTITIES {
        return Err(ValueFault::EntityTooDeep(name.copy(alloc)?));
    }
    let len = text.len() as u64;
    if spent > INCLUDED_CHARACTERS || len > INCLUDED_CHARACTERS - spent {
        return Err(ValueFault::ExpansionOver(name.copy(alloc)?));
    }
    let spent = spent + len;
    Ok(Entered { text, spent })
}

/// The text of a general entity, where these names are open, and the count of included characters with it. The tests are, in
/// this order: it is declared, it is internal, it is not open, fewer than 32 are open, and the count is not over.
#[tactic(auto, unfolding(decl_set::specs::Values::opening))]
pub fn enter<'a>(
    alloc: Global,
    set: &'a DeclSet,
    names: &NameList,
    name: &Name,
    spent: u64,
) -> Result<Entered<'a>, ValueFault>
    ensures within { IfOk result (λ e. (e.spent ≡ spent + length e.text.now) × (e.spent ≤ 67108864) × (length names.now < 32)) }
    ensures text { Gives (λ e. (e.text.now, e.spent)) result (spec.opening set.now.entities names.now spent name.now) }
{
    match set.entity_of(name) {
        None => Err(ValueFault::EntityUnknown(name.copy(alloc)?)),
        Some(def) => match def {
            EntityDef::Internal(text) => enter_text(alloc, names, name, text, spent),
            EntityDef::External(_) => Err(ValueFault::EntityExternal(name.copy(alloc)?)),
            EntityDef::Unparsed(_, _) => Err(ValueFault::EntityExternal(name.copy(alloc)?)),
        },
    }
}
