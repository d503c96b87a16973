//! Automata.

ghost use Rattle.std.specs.Prelude.{◌≡◌, ◌≤◌, ◌<◌, ℕ, IfOk, IfSome, MatchOption, false, slice_index_or, [], Contains, Some, None, if◌then◌else◌, slice_get, map, ◌-◌, length};
ghost use Rattle.std.specs.Bool.{Decides};
ghost use Rattle.std.specs.Option.{option_map};
ghost use Rattle.content_models.specs.declared.content.Content.TheVariants.{Children};
ghost use Rattle.content_models.specs.Model.{Chars, model, Derives};
ghost use Rattle.content_models.specs.Proper.{IsProper};
ghost use Rattle.position_automata.specs.Automata as spec;
ghost use Rattle.position_automata.specs.Marked.{count};
ghost use Rattle.position_automata.specs.Rows.{at_position};
ghost use Rattle.position_automata.specs.Stepping.{does_accept, steps_of, step_on, named};
ghost use Rattle.position_automata.specs.Tables.{step_names, IsSimple, Builds};

use crate::BuildFault;
use crate::names::{copy_distinct, distinct, has_name, number_of, spell};
use crate::parts::{accepting, flags, model_pairs, model_rows};
use crate::rows::{Row, copy_rows, total_len};
use content_models::{Content, Particle};
use indexmap::IndexSet;
use jats_chars::{ListOf, Name, NameList, NoMemory};
use std::alloc::Global;
use std::marker::Model;

/// The position automaton of a deterministic content, seen as the content.
#[derive(Drop)]
pub struct Automaton {
    content: Content,
    letters: NameList,
    names: IndexSet<Name>,
    rows: ListOf<Row>,
    accepting: Vec<bool>,
}

impl Model for Automaton {
    ghost use Rattle.content_models.specs.declared.content.Content.{Content};
    ghost use Rattle.content_models.specs.contracts.content.Particle as parts;
    ghost use Rattle.std.specs.Coded.{codes};
    ghost use Rattle.position_automata.specs.Stepping.{does_accept, steps_of, step_on};
    ghost use Rattle.position_automata.specs.Tables.{IsTable};

    ghost Value = { Content };

    ghost coded = { Prim.hlevel (codes, parts.the_row.coded) };

    ghost view = { λ a. a.content };

    ghost invariant = { λ a. IsTable a.content a.letters a.names.keys a.rows a.accepting.items };
}

fn build_simple(alloc: Global, content: &Content, letters: NameList) -> Result<Automaton, NoMemory>
    requires proper { IsProper content.now }
    requires simple { IsSimple content.now }
    requires letters { letters ≡ step_names content.now }
    ensures { IfOk result (λ a. a ≡ content.now) }
{
    let names = distinct(alloc, letters.as_slice())?;
    let mut rows = ListOf::new(alloc);
    rows.push(Row::new(alloc))?;
    let accepting = flags(alloc, 1, true)?;
    Ok(Automaton {
        content: content.copy(alloc)?,
        letters,
        names,
        rows,
        accepting,
    })
}

fn build_model(alloc: Global, content: &Content, part: &Particle) -> Result<Automaton, BuildFault>
    requires proper { IsProper content.now }
    requires is { content.now ≡ Children part.now }
    requires small { count (model part.now) ≤ 1024 }
    ensures { Builds content.now result }
{
    let mut letters = NameList::new(alloc);
    spell(alloc, part, &mut letters)?;
    let (ends, found) = model_pairs(alloc, part)?;
    let accepting = accepting(
        alloc,
        letters.len() + 1,
        ends.nullable,
        ends.last.as_slice(),
    )?;
    let names = distinct(alloc, letters.as_slice())?;
    match model_rows(alloc, part, letters.as_slice(), &names, found.as_slice()) {
        Err(fault) => Err(fault),
        Ok(rows) => Ok(Automaton {
            content: content.copy(alloc)?,
            letters,
            names,
            rows,
            accepting,
        }),
    }
}

/// The automaton of a content, or the two positions for which the content is not deterministic.
pub fn build(alloc: Global, content: &Content) -> Result<Automaton, BuildFault>
    requires { IsProper content.now }
    ensures { Builds content.now result }
{
    match content {
        Content::Children(part) => build_model(alloc, content, part),
        Content::Mixed(listed) => {
            let letters = listed.copy(alloc)?;
            Ok(build_simple(alloc, content, letters)?)
        }
        Content::Empty | Content::Any => Ok(build_simple(alloc, content, NameList::new(alloc))?),
    }
}

fn copy_flags(alloc: Global, flags: &[bool]) -> Result<Vec<bool>, NoMemory>
    ensures { IfOk result (λ v. v.items ≡ flags.now) }
{
    match Vec::from_slice(alloc, flags) {
        Ok(copied) => Ok(copied),
        Err(_) => Err(NoMemory),
    }
}

fn flag_at(flags: &[bool], at: usize) -> bool
    ensures { result ≡ slice_index_or flags.now at false }
{
    match flags.get(at) {
        Some(flag) => *flag,
        None => false,
    }
}

fn name_at(letters: &NameList, position: u32) -> Option<(&Name, u32)>
    requires { 0 < position }
    ensures { option_map {U = Chars × ℕ} (λ s. (s.0.now, s.1)) result ≡ option_map {U = Chars × ℕ} (λ name. (name, position)) (slice_get letters.now (position - 1)) }
{
    match letters.get((position - 1) as usize) {
        Some(name) => Some((name, position)),
        None => None,
    }
}

fn position_step(letters: &NameList, position: Option<u32>) -> Option<(&Name, u32)>
    ensures { option_map {U = Chars × ℕ} (λ s. (s.0.now, s.1)) result ≡ at_position letters.now position }
{
    match position {
        None => None,
        Some(p) => { if p == 0 { None } else { name_at(letters, p) } }
    }
}

fn listed_at(letters: &NameList, k: usize) -> Option<(&Name, u32)>
    ensures { option_map {U = Chars × ℕ} (λ s. (s.0.now, s.1)) result ≡ slice_get (map {B = Chars × ℕ} (λ name. (name, 0)) letters.now) k }
{
    match letters.get(k) {
        Some(name) => Some((name, 0)),
        None => None,
    }
}

/// The place of the name at a position, with the position.
fn place_at(letters: &NameList, position: u32) -> Option<(usize, u32)>
    requires { 0 < position }
    ensures value { named letters.now result ≡ option_map {U = Chars × ℕ} (λ name. (name, position)) (slice_get letters.now (position - 1)) }
    ensures within { IfSome result (λ s. s.0 < length letters.now) }
{
    let at = (position - 1) as usize;
    if at < letters.len() {
        Some((at, position))
    } else {
        None
    }
}

fn position_place(letters: &NameList, position: Option<u32>) -> Option<(usize, u32)>
    ensures value { named letters.now result ≡ at_position letters.now position }
    ensures within { IfSome result (λ s. s.0 < length letters.now) }
{
    match position {
        None => None,
        Some(p) => { if p == 0 { None } else { place_at(letters, p) } }
    }
}

fn listed_place(letters: &NameList, k: usize) -> Option<(usize, u32)>
    ensures value { named letters.now result ≡ slice_get (map {B = Chars × ℕ} (λ name. (name, 0)) letters.now) k }
    ensures within { IfSome result (λ s. s.0 < length letters.now) }
{
    if k < letters.len() {
        Some((k, 0))
    } else {
        None
    }
}

fn row_position(rows: &[Row], state: u32, k: usize) -> Option<u32>
    ensures { result ≡ option_map (λ s. s.1) (slice_get (slice_index_or rows.now state []) k) }
{
    match rows.get(state as usize) {
        Some(row) => row.position(k),
        None => None,
    }
}

fn start_if(wanted: bool) -> Option<u32>
    ensures { result ≡ (if wanted then Some 0 else None) }
{
    if wanted { Some(0) } else { None }
}

fn row_step(rows: &[Row], state: u32, number: usize) -> Option<u32>
    ensures { MatchOption result
        ((p : ℕ) → Contains (slice_index_or rows.now state []) (number, p) → ⊥)
        (λ p. Contains (slice_index_or rows.now state []) (number, p)) }
{
    match rows.get(state as usize) {
        Some(row) => row.step_on(number),
        None => None,
    }
}

impl Automaton {
    /// How many states there are: the start, and one for each occurrence of a name in a model.
    pub fn states(&self) -> u32
        ensures states { result ≡ spec.states self.now }
        ensures deterministic { spec.IsDeterministic self.now }
    {
        self.rows.len() as u32
    }

    /// The same automaton.
    pub fn copy(&self, alloc: Global) -> Result<Automaton, NoMemory>
        ensures { IfOk result (λ a. a ≡ self.now) }
    {
        Ok(Automaton {
            content: self.content.copy(alloc)?,
            letters: self.letters.copy(alloc)?,
            names: copy_distinct(alloc, &self.names)?,
            rows: copy_rows(alloc, self.rows.as_slice())?,
            accepting: copy_flags(alloc, self.accepting.as_slice())?,
        })
    }

    /// Whether a list of names may end in this state.
    pub fn accepts_at(&self, state: u32) -> bool
        requires { state < spec.states self.now }
        ensures accepts { Decides result (spec.Accepts self.now state) }
        ensures value { result ≡ does_accept self.now state }
    {
        flag_at(self.accepting.as_slice(), state as usize)
    }

    /// The state that follows on this name, or None exactly where none does.
    pub fn step(&self, state: u32, name: &Name) -> Option<u32>
        requires { state < spec.states self.now }
        ensures follows { spec.IsStep self.now state name.now result }
        ensures value { result ≡ step_on self.now state name.now }
    {
        match &self.content {
            Content::Any => Some(0),
            Content::Empty => None,
            Content::Mixed(_) => start_if(has_name(&self.names, name)),
            Content::Children(_) => row_step(
                self.rows.as_slice(),
                state,
                number_of(&self.names, name),
            ),
        }
    }

    /// The k-th step of a state, counted from 0: those of a model stand by position, those of mixed content as its names
    /// are listed, each to state 0; at ANY none is told.
    pub fn step_of(&self, state: u32, k: usize) -> Option<(&Name, u32)>
        requires { state < spec.states self.now }
        ensures tells { spec.TellsStep self.now state k (option_map {U = Chars × ℕ} (λ s. (s.0.now, s.1)) result) }
        ensures value { option_map {U = Chars × ℕ} (λ s. (s.0.now, s.1)) result ≡ slice_get (steps_of self.now state) k }
    {
        match &self.content {
            Content::Children(_) => position_step(
                &self.letters,
                row_position(self.rows.as_slice(), state, k),
            ),
            Content::Mixed(_) => listed_at(&self.letters, k),
            Content::Empty | Content::Any => None,
        }
    }

    /// The k-th step of a state, counted from 0, as `step_of` tells it, with the place of its name among those that occur
    /// in the content in the name's stead: by this place a caller may keep what it knows of the name. None exactly where
    /// `step_of` answers None.
    pub fn place_of(&self, state: u32, k: usize) -> Option<(usize, u32)>
        requires { state < spec.states self.now }
        ensures tells { spec.TellsStep self.now state k (named (step_names self.now) result) }
        ensures value { named (step_names self.now) result ≡ slice_get (steps_of self.now state) k }
        ensures within { IfSome result (λ s. s.0 < length (step_names self.now)) }
    {
        match &self.content {
            Content::Children(_) => position_place(
                &self.letters,
                row_position(self.rows.as_slice(), state, k),
            ),
            Content::Mixed(_) => listed_place(&self.letters, k),
            Content::Empty | Content::Any => None,
        }
    }

    /// The names that occur in the content, in order: those of a model as they stand, those of mixed content as they are
    /// listed. EMPTY and ANY have none.
    pub fn names(&self) -> &[Name]
        ensures { result.now ≡ step_names self.now }
    {
        self.letters.as_slice()
    }

    /// The number of pairs of a state and a position that may come next: of mixed content the number of its names, and 0
    /// at EMPTY and ANY.
    pub fn follows(&self) -> u64
        ensures { spec.IsFollows self.now result }
    {
        match &self.content {
            Content::Children(_) => total_len(self.rows.as_slice()),
            Content::Mixed(_) => self.letters.len() as u64,
            Content::Empty | Content::Any => 0,
        }
    }

    /// Whether the content derives these names.
    pub fn run(&self, names: &NameList) -> bool
        ensures { Decides result (Derives self.now names.now) }
    {
        let _ = &self.content;
        let mut state = 0;
        for name in names.as_slice() {
            match self.step(state, name) {
                Some(next) => state = next,
                None => return false,
            }
        }
        self.accepts_at(state)
    }
}
