//! What each declaration does to the set.

ghost use Rattle.std.specs.Prelude.{◌≡◌, ◌<◌, List, ℕ, [], ◌∷◌, ◌++◌, length, bytes_eq, is_some, None, Ok, OnOk, OnErr, IsTrue};
ghost use Rattle.std.specs.Map.{lookup};
ghost use Rattle.content_models.specs.Proper.{IsProper};
ghost use Rattle.position_automata.specs.Judged.{judged};
ghost use Rattle.decl_set.specs.Asked.{IsElement, is_entity, are_ids};
ghost use Rattle.decl_set.specs.Declarations.{content_in, entity_in, notation_in};
ghost use Rattle.decl_set.specs.Declaring as spec;
ghost use Rattle.decl_set.specs.Judgements.{IsJudgement};
ghost use Rattle.decl_set.specs.Outcomes.{Declares, DeclaresEntity, Finishes};

use crate::set::Declared;
use crate::{DeclFault, DeclSet, EntityDef};
use content_models::Content;
use entity_catalog::Ids;
use indexmap::IndexMap;
use jats_chars::limits::{ELEMENTS, FOLLOWS};
use jats_chars::{ListOf, Name, NoMemory};
use position_automata::{Automaton, BuildFault, build};
use std::alloc::Global;

/// Puts a new name with what it stands for behind the others.
fn put<T: Drop>(map: &mut IndexMap<Name, T>, name: Name, value: T) -> Result<(), NoMemory>
    requires { lookup (bytes_eq name) map.old.entries ≡ None }
    ensures ok { OnOk result (map.new.entries ≡ map.old.entries ++ (name, value) ∷ []) }
    ensures err { OnErr result (map.new.entries ≡ map.old.entries) }
{
    map.insert(name, value)?;
    Ok(())
}

/// The automaton of a content with its follows, or why there is none.
fn judge(alloc: Global, content: &Content) -> Result<(Automaton, u64), BuildFault>
    requires { IsProper content.now }
    ensures { IsJudgement content.now result }
{
    match build(alloc, content) {
        Err(fault) => Err(fault),
        Ok(automaton) => {
            let follows = automaton.follows();
            Ok((automaton, follows))
        }
    }
}

impl DeclSet {
    /// Whether an element is declared.
    fn is_declared(&self, name: &Name) -> bool
        ensures { result ≡ is_some (content_in self.now name.now) }
    {
        self.elements.contains_key(name)
    }

    /// Puts a new element with its automaton behind the others, unless the follows are too many.
    fn add_element(&mut self, name: Name, declared: Declared, follows: u64) -> Result<(), DeclFault>
        requires new { content_in self.old name ≡ None }
        requires few { length self.old.elements < 1024 }
        requires element { IsElement (name, declared.content) }
        requires built { declared.automaton ≡ declared.content }
        requires judged { judged declared.content ≡ Ok follows }
        ensures { Declares (spec.element_judged self.old name declared.content (Ok follows)) self.old self.new result }
    {
        if follows > FOLLOWS - self.follows {
            return Err(DeclFault::FollowsOver(name));
        }
        match put(&mut self.elements, name, declared) {
            Err(NoMemory) => Err(DeclFault::NoMemory),
            Ok(()) => {
                self.follows += follows;
                self.children = ListOf::new(self.alloc);
                Ok(())
            }
        }
    }

    /// Declares an element with its content. The faults are tested in this order: `DuplicateElement` (XML 1.0, 3.2, Unique
    /// Element Type Declaration), `ElementsOver` for the 1,025th element, `Ambiguous` where the content is not
    /// deterministic (3.2.1), with the two positions, and `FollowsOver` where the contents would have more than 16,000,000
    /// follows together.
    pub fn declare_element(&mut self, name: Name, content: Content) -> Result<(), DeclFault>
        requires { IsProper content }
        ensures { Declares (spec.with_element self.old name content) self.old self.new result }
    {
        let _text = name.text();
        if self.is_declared(&name) {
            return Err(DeclFault::DuplicateElement(name));
        }
        if self.count() >= ELEMENTS {
            return Err(DeclFault::ElementsOver(name));
        }
        match judge(self.alloc, &content) {
            Err(BuildFault::NoMemory) => Err(DeclFault::NoMemory),
            Err(BuildFault::Ambiguous(p, q)) => Err(DeclFault::Ambiguous(name, p, q)),
            Ok((automaton, follows)) => {
                let declared = Declared { content, automaton };
                self.add_element(name, declared, follows)
            }
        }
    }

    fn add_entity(&mut self, name: Name, def: EntityDef) -> Result<(), NoMemory>
        requires new { entity_in self.old name ≡ None }
        requires def { IsTrue (is_entity def) }
        ensures ok { OnOk result (self.new ≡ record self.old { entities = self.old.entities ++ (name, def) ∷ [] }) }
        ensures err { OnErr result (self.new ≡ self.old) }
    {
        let _text = name.text();
        put(&mut self.entities, name, def)
    }

    /// Declares a general entity, and answers true. Where its name is there the answer is false, and nothing changes, since
    /// the first declaration binds (4.2).
    pub fn declare_entity(&mut self, name: Name, def: EntityDef) -> Result<bool, NoMemory>
        requires { IsTrue (is_entity def) }
        ensures { DeclaresEntity self.old self.new name def result }
    {
        if self.entities.contains_key(&name) {
            return Ok(false);
        }
        match self.add_entity(name, def) {
            Err(NoMemory) => Err(NoMemory),
            Ok(()) => Ok(true),
        }
    }

    fn add_notation(&mut self, name: Name, ids: Ids) -> Result<(), NoMemory>
        requires new { notation_in self.old name ≡ None }
        requires ids { IsTrue (are_ids ids) }
        ensures ok { OnOk result (self.new ≡ record self.old { notations = self.old.notations ++ (name, ids) ∷ [] }) }
        ensures err { OnErr result (self.new ≡ self.old) }
    {
        let _text = name.text();
        put(&mut self.notations, name, ids)
    }

    /// Declares a notation, or answers `DuplicateNotation` where its name is there (4.7, Unique Notation Name).
    pub fn declare_notation(&mut self, name: Name, ids: Ids) -> Result<(), DeclFault>
        requires { IsTrue (are_ids ids) }
        ensures { Declares (spec.with_notation self.old name ids) self.old self.new result }
    {
        if self.notations.contains_key(&name) {
            return Err(DeclFault::DuplicateNotation(name));
        }
        match self.add_notation(name, ids) {
            Err(NoMemory) => Err(DeclFault::NoMemory),
            Ok(()) => Ok(()),
        }
    }

    /// The tests of the whole set, after the last declaration: each unparsed entity in order, whose notation is to be
    /// declared; then each attribute in order of the lists, which, where it is of type NOTATION, is to stand at no element
    /// declared EMPTY, and is to name declared notations.
    pub fn finish(&self) -> Result<(), DeclFault>
        ensures { Finishes (spec.end_fault self.now) result }
    {
        match self.first_fault() {
            Err(NoMemory) => Err(DeclFault::NoMemory),
            Ok(Some(fault)) => Err(fault),
            Ok(None) => Ok(()),
        }
    }
}
