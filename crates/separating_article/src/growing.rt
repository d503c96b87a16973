//! A chosen tree under way.

ghost use Rattle.std.specs.Prelude.{◌≡◌, ◌≤◌, ◌++◌, None, Some, IfOk, OnOk, IfSome, is_some, IsTrue, option_map, slice_get};
ghost use Rattle.document_trees.specs.Seen.{items_of};
ghost use Rattle.document_trees.specs.Trees.{nothing};
ghost use Rattle.tree_costs.specs.Beside.{put};
ghost use Rattle.decl_set.specs.Declarations.{name_of};
ghost use Rattle.separating_article.specs.Choosing.{next_step as step_of};
ghost use Rattle.separating_article.specs.ChosenSteps.{AreChosen};
ghost use Rattle.separating_article.specs.Growing as spec;
ghost use Rattle.separating_article.specs.Guides.{IsGuide};
ghost use Rattle.separating_article.specs.Openings.{path_of as path_in, run_of, shown as shown_of, way_of as way_in};
ghost use Rattle.std.specs.Option.{option_copied};

use crate::BuildOver;
use crate::choosing::Step;
use crate::chosen_steps::ChosenSteps;
use crate::guide::Guide;
use crate::opening::{Way, att_of, path_of, plain_front, shown, way_of};
use crate::required::put_all;
use crate::spending::spend_start;
use decl_set::Odd;
use document_trees::{AttValues, Item, ItemList, Node};
use jats_chars::{Name, NoMemory, Text};
use std::alloc::Global;

/// An element that is started: its place in the set, what stands in it so far, and the step that comes next, or None
/// where it ends.
#[derive(Debug, Drop)]
pub struct Started {
    pub place: usize,
    pub node: Node,
    pub step: Option<Step>,
}

/// A tree under way: how many bytes are left for its text, the element that gets its items now, those around it, the
/// innermost last, and the steps that were found.
#[derive(Drop)]
pub struct Growing {
    pub left: u64,
    pub inner: Started,
    pub outer: Vec<Started>,
    pub steps: ChosenSteps,
}

/// A run in front, where there is one: a plain space, else `x`.
fn front_items(alloc: Global, front: Option<bool>) -> Result<ItemList, NoMemory>
    ensures { IfOk result (λ items. items_of items ≡ put (option_map run_of front) nothing) }
{
    let mut items = ItemList::new(alloc);
    match front {
        None => {}
        Some(plain) => {
            let c = if plain { ' ' } else { 'x' };
            let text = Text::from_slice(alloc, &[c])?;
            items.push(Item::Chars { text, plain })?;
        }
    }
    Ok(items)
}

/// An element with these attributes and this run in front.
fn bare_node(
    alloc: Global,
    name: &Name,
    atts: AttValues,
    front: Option<bool>,
) -> Result<Node, NoMemory>
    ensures { IfOk result (λ node. node ≡ record { name = name.now; atts = atts; items = put (option_map run_of front) nothing }) }
{
    let items = front_items(alloc, front)?;
    Ok(Node::new(name.copy(alloc)?, atts, items))
}

/// An element that is chosen this way, with its name, the place of its declaration, and its first step.
#[derive(Clone, Copy)]
pub struct Chosen<'a> {
    pub name: &'a Name,
    pub place: usize,
    pub way: Way,
    pub step: Option<Step>,
}

/// The element at a place, chosen by whether its tree separates.
pub fn chosen_at<'a>(
    guide: &Guide<'a>,
    steps: &mut ChosenSteps,
    place: usize,
    separates: bool,
) -> Chosen<'a>
    requires guide { IsGuide guide.now }
    requires within { IsTrue (is_some (slice_get guide.now.first.now.elements place)) }
    requires chosen { AreChosen guide.now steps.old }
    ensures chosen { AreChosen guide.now steps.new }
    ensures is { spec.IsChosenAt guide.now place separates result }
{
    match guide.first.name_at(place) {
        None => unreachable!(),
        Some(name) => {
            let way = way_of(guide, place, name, separates);
            let step = steps.next(guide, place, path_of(way));
            Chosen {
                name,
                place,
                way,
                step,
            }
        }
    }
}

/// Starts an element of which this is shown: takes the bytes of its tags and of what stands beside its elements, and then
/// makes it.
fn start_shown(
    alloc: Global,
    guide: &Guide,
    chosen: Chosen,
    odd: Option<&Odd>,
    left: u64,
) -> Result<(Started, u64), BuildOver>
    requires guide { IsGuide guide.now }
    requires odd { option_copied odd ≡ shown_of guide.now chosen.name.now chosen.way }
    ensures { spec.StartsBy guide.now chosen.entry.name.now chosen.entry.place chosen.entry.way chosen.entry.step left result }
{
    let Chosen {
        name,
        place,
        step,
        ..
    } = chosen;
    let front = plain_front(guide, name, odd);
    let left = match spend_start(left, name, front, step) {
        None => return Err(BuildOver::TextOver),
        Some(left) => left,
    };
    let mut atts = AttValues::new(alloc);
    let list = guide.first.atts_of(name);
    let left = match put_all(alloc, &mut atts, left, att_of(odd), list) {
        Err(over) => return Err(over),
        Ok(left) => left,
    };
    let node = bare_node(alloc, name, atts, front)?;
    Ok((Started { place, node, step }, left))
}

/// Starts an element that is chosen this way.
pub fn start(
    alloc: Global,
    guide: &Guide,
    chosen: Chosen,
    left: u64,
) -> Result<(Started, u64), BuildOver>
    requires { IsGuide guide.now }
    ensures { spec.StartsBy guide.now chosen.entry.name.now chosen.entry.place chosen.entry.way chosen.entry.step left result }
{
    let odd = shown(alloc, guide, chosen.name, chosen.way)?;
    start_shown(alloc, guide, chosen, odd.as_ref(), left)
}

/// Takes a step: starts its element in the innermost one.
fn enter(alloc: Global, guide: &Guide, work: &mut Growing, step: Step) -> Result<(), BuildOver>
    requires step { work.old.inner.step ≡ Some step }
    requires stands { spec.IsUnderWay guide.now work.old }
    ensures { spec.Enters guide.now work.old work.new result }
{
    let left = work.left;
    let chosen = chosen_at(guide, &mut work.steps, step.place, step.separates);
    let (inner, left) = match start(alloc, guide, chosen, left) {
        Err(over) => return Err(over),
        Ok(started) => started,
    };
    let place = work.inner.place;
    work.inner.step = work.steps.next(guide, place, step.path);
    let outer = std::mem::replace(&mut work.inner, inner);
    work.outer.push(outer)?;
    work.left = left;
    Ok(())
}

/// Puts the innermost element into the one around it, and answers whether there is one.
fn leave(work: &mut Growing) -> Result<bool, NoMemory>
    ensures { IfOk result (λ more. spec.Leaves work.old work.new more) }
{
    match work.outer.pop() {
        None => Ok(false),
        Some(outer) => {
            let inner = std::mem::replace(&mut work.inner, outer);
            let Started { node, .. } = inner;
            work.inner.node.push(Item::Element(node))?;
            Ok(true)
        }
    }
}

/// Takes the next step or ends an element, and answers whether there is more to do.
fn step(alloc: Global, guide: &Guide, work: &mut Growing) -> Result<bool, BuildOver>
    requires { spec.IsUnderWay guide.now work.old }
    ensures { spec.Steps guide.now work.old work.new result }
{
    match work.inner.step {
        None => Ok(leave(work)?),
        Some(step) => match enter(alloc, guide, work, step) {
            Err(over) => Err(over),
            Ok(()) => Ok(true),
        },
    }
}

/// Does all that is left to do.
pub fn grow(alloc: Global, guide: &Guide, work: &mut Growing) -> Result<(), BuildOver>
    requires { spec.IsUnderWay guide.now work.old }
    ensures { spec.Grown guide.now work.old work.new result }
{
    let mut more = true;
    while more {
        match step(alloc, guide, work) {
            Err(over) => return Err(over),
            Ok(goes_on) => more = goes_on,
        }
    }
    Ok(())
}
