//! What the declaration of attributes does to the set.

ghost use Rattle.std.specs.Prelude.{◌≡◌, ℕ, List, Err, IfOk, None, [], bytes_eq, unwrap_or};
ghost use Rattle.std.specs.List.{AllByRecursion};
ghost use Rattle.std.specs.Map.{lookup};
ghost use Rattle.attlist_merge.specs.Lists as lists;
ghost use Rattle.decl_set.specs.Asked.{IsRead};
ghost use Rattle.decl_set.specs.AttributeSteps.{IsWellRead, Reads, Grows, Changes, kept_text, lists_with};
ghost use Rattle.decl_set.specs.Declaring as spec;
ghost use Rattle.decl_set.specs.Outcomes.{DeclaresCounting, Fails};
ghost use Rattle.decl_set.specs.Values as values;

use crate::values::expanded_value;
use crate::{DeclFault, DeclSet, EntityDef, ValueFault};
use attlist_merge::{Att, AttFault, AttList, RawAtt, RawAttList, RawPreset};
use attribute_types::{AttType, Preset, collapse};
use indexmap::IndexMap;
use jats_chars::{Name, NameList, NoMemory, Text};
use pe_expansion::Budget;
use std::alloc::Global;

fn is_cdata(kind: &AttType) -> bool
    ensures { result ≡ lists.is_cdata kind.now }
{
    match kind {
        AttType::Cdata => true,
        _ => false,
    }
}

/// A value as it is kept: of a type other than CDATA it is collapsed (XML 1.0, 3.3.3).
fn settle(alloc: Global, kind: &AttType, text: Text) -> Result<Text, NoMemory>
    ensures { IfOk result (λ t. t ≡ spec.settled kind.now text) }
{
    if is_cdata(kind) {
        Ok(text)
    } else {
        collapse(alloc, &text)
    }
}

/// The fault of an attribute's value.
fn fault_of_value(alloc: Global, name: &Name, fault: ValueFault) -> DeclFault
    ensures { Fails {Y = List ℕ} result (Err (spec.value_fault name.now fault)) }
{
    match fault {
        ValueFault::EntityUnknown(entity) => DeclFault::EntityUndeclared(entity),
        ValueFault::EntityExternal(entity) => DeclFault::EntityUndeclared(entity),
        ValueFault::RecursiveEntity(entity) => DeclFault::RecursiveEntity(entity),
        ValueFault::EntityTooDeep(entity) => DeclFault::EntityTooDeep(entity),
        ValueFault::ExpansionOver(entity) => DeclFault::ExpansionOver(entity),
        ValueFault::Malformed => DeclFault::Malformed,
        ValueFault::NoMemory => DeclFault::NoMemory,
        ValueFault::LessThan => match name.copy(alloc) {
            Ok(name) => DeclFault::LessThanInValue(name),
            Err(NoMemory) => DeclFault::NoMemory,
        },
    }
}

/// The value of an attribute, as it is kept.
fn read_text(
    alloc: Global,
    entities: &IndexMap<Name, EntityDef>,
    name: &Name,
    kind: &AttType,
    raw: &Text,
    budget: &mut Budget,
) -> Result<Text, DeclFault>
    ensures { Reads (kept_text kind.now name.now (values.value_of entities.now.entries [] budget.old.spent raw.now)) budget.new.spent result }
{
    let none = NameList::new(alloc);
    match expanded_value(alloc, entities, &none, raw, budget) {
        Err(fault) => Err(fault_of_value(alloc, name, fault)),
        Ok(text) => match settle(alloc, kind, text) {
            Err(NoMemory) => Err(DeclFault::NoMemory),
            Ok(text) => Ok(text),
        },
    }
}

/// The preset of an attribute, with its value read.
fn read_preset(
    alloc: Global,
    entities: &IndexMap<Name, EntityDef>,
    att: &RawAtt,
    budget: &mut Budget,
) -> Result<Preset, DeclFault>
    ensures { Reads (spec.preset_of entities.now.entries budget.old.spent att.now.name att.now.kind att.now.preset) budget.new.spent result }
{
    match &att.preset {
        RawPreset::Required => Ok(Preset::Required),
        RawPreset::Implied => Ok(Preset::Implied),
        RawPreset::Value(raw) => {
            match read_text(alloc, entities, &att.name, &att.kind, raw, budget) {
                Err(fault) => Err(fault),
                Ok(text) => Ok(Preset::Value(text)),
            }
        }
        RawPreset::Fixed(raw) => {
            match read_text(alloc, entities, &att.name, &att.kind, raw, budget) {
                Err(fault) => Err(fault),
                Ok(text) => Ok(Preset::Fixed(text)),
            }
        }
    }
}

/// An element and its attribute.
fn copied(alloc: Global, element: &Name, name: &Name) -> Result<(Name, Name), NoMemory>
    ensures { IfOk result (λ p. (p.0 ≡ element.now) × (p.1 ≡ name.now)) }
{
    Ok((element.copy(alloc)?, name.copy(alloc)?))
}

/// The fault of an attribute of an element.
fn fault_of_att(alloc: Global, element: &Name, name: &Name, fault: AttFault) -> DeclFault
    ensures { Fails {Y = List ℕ} result (Err (spec.att_fault element.now name.now fault)) }
{
    match copied(alloc, element, name) {
        Err(NoMemory) => DeclFault::NoMemory,
        Ok((element, name)) => match fault {
            AttFault::DuplicateToken(token) => DeclFault::DuplicateToken(element, name, token),
            AttFault::IdPreset => DeclFault::IdPreset(element, name),
            AttFault::PresetNotInClass => DeclFault::PresetNotInClass(element, name),
            AttFault::SecondId => DeclFault::SecondId(element, name),
            AttFault::SecondNotation => DeclFault::SecondNotation(element, name),
            AttFault::NoMemory => DeclFault::NoMemory,
        },
    }
}

/// The attribute of a definition with this preset.
fn as_att(alloc: Global, att: &RawAtt, preset: Preset) -> Result<Att, NoMemory>
    ensures { IfOk result (λ a. a ≡ record { name = att.now.name; kind = att.now.kind; preset = preset }) }
{
    Ok(Att {
        name: att.name.copy(alloc)?,
        kind: att.kind.copy(alloc)?,
        preset,
    })
}

/// Adds the attribute of a definition, whose name is new.
fn add_new(
    alloc: Global,
    entities: &IndexMap<Name, EntityDef>,
    element: &Name,
    list: &mut AttList,
    att: &RawAtt,
    budget: &mut Budget,
) -> Result<(), DeclFault>
    requires read { IsWellRead att.now }
    requires new { lists.definition_of list.old att.now.name ≡ None }
    ensures { Grows (spec.with_attribute entities.now.entries element.now list.old budget.old.spent att.now) list.old list.new budget.new.spent result }
{
    let preset = match read_preset(alloc, entities, att, budget) {
        Err(fault) => return Err(fault),
        Ok(preset) => preset,
    };
    let new = match as_att(alloc, att, preset) {
        Err(NoMemory) => return Err(DeclFault::NoMemory),
        Ok(new) => new,
    };
    match list.add(new) {
        Err(fault) => Err(fault_of_att(alloc, element, &att.name, fault)),
        Ok(_) => Ok(()),
    }
}

/// Adds the attribute of a definition, unless its name is there.
fn add_one(
    alloc: Global,
    entities: &IndexMap<Name, EntityDef>,
    element: &Name,
    list: &mut AttList,
    att: &RawAtt,
    budget: &mut Budget,
) -> Result<(), DeclFault>
    requires { IsWellRead att.now }
    ensures { Grows (spec.with_attribute entities.now.entries element.now list.old budget.old.spent att.now) list.old list.new budget.new.spent result }
{
    if list.definition_of(&att.name).is_some() {
        return Ok(());
    }
    add_new(alloc, entities, element, list, att, budget)
}

/// Adds the attributes of definitions in order, up to the first fault.
fn add_all(
    alloc: Global,
    entities: &IndexMap<Name, EntityDef>,
    element: &Name,
    list: &mut AttList,
    atts: &[RawAtt],
    budget: &mut Budget,
) -> Result<(), DeclFault>
    requires { AllByRecursion IsWellRead atts.now }
    ensures { Grows (spec.with_all entities.now.entries element.now list.old budget.old.spent atts.now) list.old list.new budget.new.spent result }
{
    for att in atts {
        match add_one(alloc, entities, element, list, att, budget) {
            Err(fault) => return Err(fault),
            Ok(()) => {}
        }
    }
    Ok(())
}

/// Adds the attributes of a declaration to a list. After a fault those that were added are taken back.
fn add_to(
    alloc: Global,
    entities: &IndexMap<Name, EntityDef>,
    list: &mut AttList,
    raw: &RawAttList,
    budget: &mut Budget,
) -> Result<(), DeclFault>
    requires { AllByRecursion IsWellRead raw.now.atts }
    ensures { Changes (spec.with_all entities.now.entries raw.now.element list.old budget.old.spent raw.now.atts) (list.old, budget.old.spent) (list.new, budget.new.spent) result }
{
    let len = list.len();
    let mut counted = Budget {
        spent: budget.spent,
    };
    match add_all(
        alloc,
        entities,
        &raw.element,
        list,
        raw.atts.as_slice(),
        &mut counted,
    ) {
        Err(fault) => {
            list.truncate(len);
            Err(fault)
        }
        Ok(()) => {
            budget.spent = counted.spent;
            Ok(())
        }
    }
}

/// Declares the first attributes of an element.
fn put_first(
    alloc: Global,
    entities: &IndexMap<Name, EntityDef>,
    lists: &mut IndexMap<Name, AttList>,
    raw: &RawAttList,
    budget: &mut Budget,
) -> Result<(), DeclFault>
    requires read { AllByRecursion IsWellRead raw.now.atts }
    requires new { lookup (bytes_eq raw.now.element) lists.old.entries ≡ None }
    ensures { Changes (lists_with entities.now.entries lists.old.entries budget.old.spent raw.now []) (lists.old.entries, budget.old.spent) (lists.new.entries, budget.new.spent) result }
{
    let before = budget.spent;
    let element = match raw.element.copy(alloc) {
        Err(NoMemory) => return Err(DeclFault::NoMemory),
        Ok(element) => element,
    };
    let mut list = AttList::new(alloc);
    match add_to(alloc, entities, &mut list, raw, budget) {
        Err(fault) => return Err(fault),
        Ok(()) => {}
    }
    match lists.insert(element, list) {
        Ok(_) => Ok(()),
        Err(_) => {
            budget.spent = before;
            Err(DeclFault::NoMemory)
        }
    }
}

/// Declares attributes of an element, beside those that it has.
fn put(
    alloc: Global,
    entities: &IndexMap<Name, EntityDef>,
    lists: &mut IndexMap<Name, AttList>,
    raw: &RawAttList,
    budget: &mut Budget,
) -> Result<(), DeclFault>
    requires { AllByRecursion IsWellRead raw.now.atts }
    ensures { Changes (lists_with entities.now.entries lists.old.entries budget.old.spent raw.now (unwrap_or (lookup (bytes_eq raw.now.element) lists.old.entries) [])) (lists.old.entries, budget.old.spent) (lists.new.entries, budget.new.spent) result }
{
    match lists.get_mut(&raw.element) {
        Some(list) => add_to(alloc, entities, list, raw, budget),
        None => put_first(alloc, entities, lists, raw, budget),
    }
}

impl DeclSet {
    /// Declares attributes of an element, declared or not, in order. A definition whose attribute is there is passed over.
    /// Else its value is read (3.3.3): its faults are those of `value_of` from left to right, where an entity that is not
    /// declared or not internal is `EntityUndeclared`, and a `<` is `LessThanInValue`. Then come `DuplicateToken`,
    /// `IdPreset`, `PresetNotInClass`, `SecondId` and `SecondNotation`. With Ok the budget rises by the characters that the
    /// values included.
    pub fn declare_attributes(
        &mut self,
        raw: &RawAttList,
        budget: &mut Budget,
    ) -> Result<(), DeclFault>
        requires { IsRead raw.now }
        ensures { DeclaresCounting (spec.with_attributes self.old budget.old.spent raw.now) (self.old, budget.old.spent) (self.new, budget.new.spent) result }
    {
        if raw.atts.len() == 0 {
            return Ok(());
        }
        put(self.alloc, &self.entities, &mut self.lists, raw, budget)
    }
}
