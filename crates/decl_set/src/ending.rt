//! The tests of a whole set, after its last declaration.

ghost use Rattle.std.specs.Prelude.{◌≡◌, slice_get, option_and_then, if◌then◌else◌, IfOk, Some};
ghost use Rattle.attlist_merge.specs.Oddness.{first_some};
ghost use Rattle.decl_set.specs.Declarations.{content_in};
ghost use Rattle.decl_set.specs.Declaring as spec;
ghost use Rattle.decl_set.specs.declared.faults.DeclFault.TheVariants as fault;

use crate::{DeclFault, DeclSet, EntityDef};
use attlist_merge::{AttList, Definition};
use attribute_types::AttType;
use content_models::Content;
use jats_chars::{Name, NoMemory};

/// Whether the content is EMPTY.
fn is_empty_content(content: &Content) -> bool
    ensures { result ≡ spec.is_empty (Some content.now) }
{
    match content {
        Content::Empty => true,
        _ => false,
    }
}

impl DeclSet {
    /// Whether an element is declared EMPTY.
    fn is_empty(&self, element: &Name) -> bool
        ensures { result ≡ spec.is_empty (content_in self.now element.now) }
    {
        match self.content_of(element) {
            None => false,
            Some(content) => is_empty_content(content),
        }
    }

    /// A notation that is not declared, for an element or entity.
    fn undeclared(&self, owner: &Name, notation: &Name) -> Result<Option<DeclFault>, NoMemory>
        ensures { IfOk result (λ o. o ≡ spec.undeclared self.now owner.now notation.now) }
    {
        if self.notations.contains_key(notation) {
            return Ok(None);
        }
        let owner = owner.copy(self.alloc)?;
        let notation = notation.copy(self.alloc)?;
        Ok(Some(DeclFault::NotationUndeclared(owner, notation)))
    }

    /// The first of these notations that is not declared.
    fn first_undeclared(
        &self,
        element: &Name,
        notations: &[Name],
    ) -> Result<Option<DeclFault>, NoMemory>
        ensures { IfOk result (λ o. o ≡ first_some (spec.undeclared self.now element.now) notations.now) }
    {
        for notation in notations {
            match self.undeclared(element, notation)? {
                Some(fault) => return Ok(Some(fault)),
                None => {}
            }
        }
        Ok(None)
    }

    /// The fault of an attribute that names these notations.
    fn names_fault(
        &self,
        element: &Name,
        name: &Name,
        notations: &[Name],
    ) -> Result<Option<DeclFault>, NoMemory>
        ensures { IfOk result (λ o. o ≡ (if spec.is_empty (content_in self.now element.now) then Some (fault.NotationOnEmpty element.now name.now)
            else first_some (spec.undeclared self.now element.now) notations.now)) }
    {
        if self.is_empty(element) {
            let element = element.copy(self.alloc)?;
            let name = name.copy(self.alloc)?;
            return Ok(Some(DeclFault::NotationOnEmpty(element, name)));
        }
        self.first_undeclared(element, notations)
    }

    /// The fault of an attribute of an element.
    fn notation_fault(
        &self,
        element: &Name,
        name: &Name,
        definition: &Definition,
    ) -> Result<Option<DeclFault>, NoMemory>
        ensures { IfOk result (λ o. o ≡ spec.notation_fault self.now element.now (name.now, definition.now)) }
    {
        match &definition.kind {
            AttType::Notation(names) => self.names_fault(element, name, names.as_slice()),
            _ => Ok(None),
        }
    }

    fn notation_fault_at(
        &self,
        element: &Name,
        list: &AttList,
        at: usize,
    ) -> Result<Option<DeclFault>, NoMemory>
        ensures { IfOk result (λ o. o ≡ option_and_then (spec.notation_fault self.now element.now) (slice_get list.now at)) }
    {
        match list.get(at) {
            None => Ok(None),
            Some((name, definition)) => self.notation_fault(element, name, definition),
        }
    }

    /// The first fault of the attributes of an element.
    fn list_fault(&self, element: &Name, list: &AttList) -> Result<Option<DeclFault>, NoMemory>
        ensures { IfOk result (λ o. o ≡ spec.list_fault self.now (element.now, list.now)) }
    {
        for at in 0..list.len() {
            match self.notation_fault_at(element, list, at)? {
                Some(fault) => return Ok(Some(fault)),
                None => {}
            }
        }
        Ok(None)
    }

    fn list_fault_at(&self, at: usize) -> Result<Option<DeclFault>, NoMemory>
        ensures { IfOk result (λ o. o ≡ option_and_then (spec.list_fault self.now) (slice_get self.now.lists at)) }
    {
        match self.list_at(at) {
            None => Ok(None),
            Some((element, list)) => self.list_fault(element, list),
        }
    }

    fn first_list_fault(&self) -> Result<Option<DeclFault>, NoMemory>
        ensures { IfOk result (λ o. o ≡ first_some (spec.list_fault self.now) self.now.lists) }
    {
        for at in 0..self.lists.len() {
            match self.list_fault_at(at)? {
                Some(fault) => return Ok(Some(fault)),
                None => {}
            }
        }
        Ok(None)
    }

    /// The fault of an unparsed entity.
    fn entity_fault(&self, name: &Name, def: &EntityDef) -> Result<Option<DeclFault>, NoMemory>
        ensures { IfOk result (λ o. o ≡ spec.entity_fault self.now (name.now, def.now)) }
    {
        match def {
            EntityDef::Unparsed(_, notation) => self.undeclared(name, notation),
            _ => Ok(None),
        }
    }

    fn entity_fault_at(&self, at: usize) -> Result<Option<DeclFault>, NoMemory>
        ensures { IfOk result (λ o. o ≡ option_and_then (spec.entity_fault self.now) (slice_get self.now.entities at)) }
    {
        match self.entity_at(at) {
            None => Ok(None),
            Some((name, def)) => self.entity_fault(name, def),
        }
    }

    fn first_entity_fault(&self) -> Result<Option<DeclFault>, NoMemory>
        ensures { IfOk result (λ o. o ≡ first_some (spec.entity_fault self.now) self.now.entities) }
    {
        for at in 0..self.entities.len() {
            match self.entity_fault_at(at)? {
                Some(fault) => return Ok(Some(fault)),
                None => {}
            }
        }
        Ok(None)
    }

    /// The first fault of the whole set.
    pub(crate) fn first_fault(&self) -> Result<Option<DeclFault>, NoMemory>
        ensures { IfOk result (λ o. o ≡ spec.end_fault self.now) }
    {
        match self.first_entity_fault()? {
            Some(fault) => Ok(Some(fault)),
            None => self.first_list_fault(),
        }
    }
}
