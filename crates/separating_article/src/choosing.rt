//! The next step of a chosen tree.

ghost use Rattle.std.specs.Prelude.{◌≡◌, ◌≤◌, ℕ, IfSome, List, option_map, slice_get};
ghost use Rattle.std.specs.Option.{option_copied};
ghost use Rattle.decl_set.specs.Steps.{steps_at};
ghost use Rattle.separating_article.specs.Choosing as spec;
ghost use Rattle.separating_article.specs.Guides.{IsGuide};

use crate::guide::Guide;
use decl_set::DeclSet;
use jats_chars::Name;
use position_automata::Automaton;
use tree_costs::{Cost, at_most, sum};

/// Where the items of an element go on: along P from a state of its content in the first set, along F, or along G from a
/// pair of states of both sets.
#[derive(Clone, Copy, Debug, PartialEq, Eq)]
pub enum Path {
    Own(u32),
    Wrong(u32),
    Pair(u32, u32),
}

/// A step that is taken: the place of its element, whether the element's tree separates, and the path behind it.
#[derive(Clone, Copy, Debug, PartialEq, Eq)]
pub struct Step {
    pub place: usize,
    pub separates: bool,
    pub path: Path,
}

/// A step of a state: the name of its element, the place of that, or None where it is not declared, and the state that it
/// leads to.
#[derive(Clone, Copy)]
pub struct Child<'a> {
    pub name: &'a Name,
    pub place: Option<usize>,
    pub to: u32,
}

/// Whether two costs are the same.
pub fn is_same(left: Cost, right: Cost) -> bool
    ensures { result ≡ spec.is_same left right }
{
    at_most(left, right) && at_most(right, left)
}

/// The automaton of the element at a place.
fn automaton_at(set: &DeclSet, e: usize) -> Option<&Automaton>
    ensures { option_copied result ≡ option_map (λ x. x.1) (slice_get set.now.elements e) }
{
    let _ = set.count();
    match set.name_at(e) {
        None => None,
        Some(name) => set.automaton_of(name),
    }
}

/// The automaton of that element in the second set.
fn other_automaton<'a>(guide: &Guide<'a>, e: usize) -> Option<&'a Automaton>
    ensures { option_copied result ≡ spec.other_content guide.now e }
{
    match guide.first.name_at(e) {
        None => None,
        Some(name) => guide.second.automaton_of(name),
    }
}

/// Whether a state accepts, where there is one.
fn accepts_in(automaton: Option<&Automaton>, state: u32) -> bool
    ensures { result ≡ spec.accepts_in (option_copied automaton.entry) state }
{
    match automaton {
        None => false,
        Some(automaton) => state < automaton.states() && automaton.accepts_at(state),
    }
}

/// Where the second set steps from a state of the element at a place.
fn other_step(guide: &Guide, e: usize, state: u32, on: &Name) -> Option<u32>
    ensures { result ≡ spec.step_in (spec.other_content guide.now e) state on.now }
{
    match other_automaton(guide, e) {
        None => None,
        Some(automaton) => {
            if state < automaton.states() {
                automaton.step(state, on)
            } else {
                None
            }
        }
    }
}

/// The cost of what follows a step.
fn past(guide: &Guide, e: usize, state: u32, other: Option<u32>) -> Cost
    requires { IsGuide guide.now }
    ensures { result ≡ spec.past_at guide.now e state other }
{
    match other {
        Some(second) => guide.g(e, state, second),
        None => guide.p(e, state),
    }
}

/// Whether a step attains P of the state.
fn attains_own(guide: &Guide, e: usize, state: u32, child: &Child) -> bool
    requires guide { IsGuide guide.now }
    requires child { spec.IsPlaced guide.now child.now }
    ensures { result ≡ spec.attains_own guide.now e state (spec.step_by child.now) }
{
    is_same(
        guide.p(e, state),
        sum(guide.m(child.place), guide.p(e, child.to), guide.cap),
    )
}

/// Whether a step attains F of the state with a child that separates.
fn attains_here(guide: &Guide, e: usize, state: u32, child: &Child) -> bool
    requires guide { IsGuide guide.now }
    requires child { spec.IsPlaced guide.now child.now }
    ensures { result ≡ spec.attains_here guide.now e state (spec.step_by child.now) }
{
    is_same(
        guide.f(e, state),
        sum(guide.v(child.place), guide.p(e, child.to), guide.cap),
    )
}

/// Whether a step attains F of the state with one that separates later.
fn attains_later(guide: &Guide, e: usize, state: u32, child: &Child) -> bool
    requires guide { IsGuide guide.now }
    requires child { spec.IsPlaced guide.now child.now }
    ensures { result ≡ spec.attains_later guide.now e state (spec.step_by child.now) }
{
    is_same(
        guide.f(e, state),
        sum(guide.m(child.place), guide.f(e, child.to), guide.cap),
    )
}

/// Whether a step attains G of the pair.
fn attains_odd(guide: &Guide, e: usize, pair: (u32, u32), child: &Child) -> bool
    requires guide { IsGuide guide.now }
    requires child { spec.IsPlaced guide.now child.now }
    ensures { result ≡ spec.attains_odd guide.now e pair.0 pair.1 (spec.step_by child.now) }
{
    let behind = past(guide, e, child.to, other_step(guide, e, pair.1, child.name));
    is_same(
        guide.g(e, pair.0, pair.1),
        sum(guide.m(child.place), behind, guide.cap),
    )
}

/// Whether a step attains what is least.
fn attains(guide: &Guide, e: usize, path: Path, child: &Child) -> bool
    requires guide { IsGuide guide.now }
    requires child { spec.IsPlaced guide.now child.now }
    ensures { result ≡ spec.attains guide.now e path (spec.step_by child.now) }
{
    match path {
        Path::Own(i) => attains_own(guide, e, i, child),
        Path::Wrong(i) => attains_here(guide, e, i, child) || attains_later(guide, e, i, child),
        Path::Pair(i, j) => attains_odd(guide, e, (i, j), child),
    }
}

/// The state of the first set at which a path stands.
fn state_of(path: Path) -> u32
    ensures { result ≡ spec.state_of path }
{
    match path {
        Path::Own(i) => i,
        Path::Wrong(i) => i,
        Path::Pair(i, _) => i,
    }
}

/// The k-th step of a state of the element at a place.
fn child_from<'a>(guide: &Guide<'a>, e: usize, state: u32, k: usize) -> Option<Child<'a>>
    ensures step { option_map {U = List ℕ × ℕ} spec.step_by result ≡ slice_get (steps_at guide.now.first.now (slice_get guide.now.first.now.elements e) state) k }
    ensures placed { IfSome result (spec.IsPlaced guide.now) }
{
    match guide.first.child_at(e, state, k) {
        None => None,
        Some((Some(place), to)) => match guide.first.name_at(place) {
            None => None,
            Some(name) => Some(Child {
                name,
                place: Some(place),
                to,
            }),
        },
        Some((None, _)) => match guide.first.step_at(e, state, k) {
            None => None,
            Some((name, to)) => Some(Child {
                name,
                place: None,
                to,
            }),
        },
    }
}

/// The k-th step of the state at which a path stands.
fn step_from<'a>(guide: &Guide<'a>, e: usize, path: Path, k: usize) -> Option<Child<'a>>
    ensures step { option_map {U = List ℕ × ℕ} spec.step_by result ≡ slice_get (steps_at guide.now.first.now (slice_get guide.now.first.now.elements e) (spec.state_of path)) k }
    ensures placed { IfSome result (spec.IsPlaced guide.now) }
{
    child_from(guide, e, state_of(path), k)
}

/// The first step that attains what is least. A state has at most 1,024 steps.
fn first_step<'a>(guide: &Guide<'a>, e: usize, path: Path) -> Option<Child<'a>>
    requires { IsGuide guide.now }
    ensures step { option_map {U = List ℕ × ℕ} spec.step_by result ≡ spec.first_step guide.now e path }
    ensures placed { IfSome result (spec.IsPlaced guide.now) }
{
    for k in 0..1024 {
        match step_from(guide, e, path, k) {
            None => return None,
            Some(child) => {
                if attains(guide, e, path, &child) {
                    return Some(child);
                }
            }
        }
    }
    None
}

/// Whether a path ends.
fn ends(guide: &Guide, e: usize, path: Path) -> bool
    requires { IsGuide guide.now }
    ensures { result ≡ spec.ends guide.now e path }
{
    match path {
        Path::Own(i) => accepts_in(automaton_at(guide.first, e), i),
        Path::Wrong(_) => false,
        Path::Pair(i, j) => {
            is_same(guide.g(e, i, j), Cost::Fin(0))
                && accepts_in(automaton_at(guide.first, e), i)
                && !accepts_in(other_automaton(guide, e), j)
        }
    }
}

/// Whether the child of a step separates.
fn has_wrong(guide: &Guide, e: usize, path: Path, child: &Child) -> bool
    requires guide { IsGuide guide.now }
    requires child { spec.IsPlaced guide.now child.now }
    ensures { result ≡ spec.has_wrong guide.now e path (spec.step_by child.now) }
{
    match path {
        Path::Wrong(i) => attains_here(guide, e, i, child),
        _ => false,
    }
}

/// The path behind a step.
fn path_behind(guide: &Guide, e: usize, path: Path, child: &Child) -> Path
    requires guide { IsGuide guide.now }
    requires child { spec.IsPlaced guide.now child.now }
    ensures { result ≡ spec.path_behind guide.now e path (spec.step_by child.now) }
{
    match path {
        Path::Own(_) => Path::Own(child.to),
        Path::Wrong(i) => {
            if attains_here(guide, e, i, child) {
                Path::Own(child.to)
            } else {
                Path::Wrong(child.to)
            }
        }
        Path::Pair(_, j) => match other_step(guide, e, j, child.name) {
            Some(second) => Path::Pair(child.to, second),
            None => Path::Own(child.to),
        },
    }
}

/// A step on an element that is declared.
fn taken(guide: &Guide, e: usize, path: Path, child: &Child) -> Option<Step>
    requires guide { IsGuide guide.now }
    requires child { spec.IsPlaced guide.now child.now }
    ensures { result ≡ spec.taken guide.now e path (spec.step_by child.now) }
{
    match child.place {
        None => None,
        Some(place) => Some(Step {
            place,
            separates: has_wrong(guide, e, path, child),
            path: path_behind(guide, e, path, child),
        }),
    }
}

/// The step that a chosen tree takes from where its path stands in the element at a place: none where the path ends, else
/// the first step that attains what is least.
pub fn next_step(guide: &Guide, e: usize, path: Path) -> Option<Step>
    requires { IsGuide guide.now }
    ensures { result ≡ spec.next_step guide.now e path }
{
    if ends(guide, e, path) {
        return None;
    }
    match first_step(guide, e, path) {
        None => None,
        Some(child) => taken(guide, e, path, &child),
    }
}
