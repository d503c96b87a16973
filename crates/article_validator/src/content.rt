//! The items of a node against the content of its element.

ghost use Rattle.std.specs.Prelude.{◌≡◌, ◌<◌, ◌&&◌, Some, IfSome};
ghost use Rattle.document_trees.specs.Trees as trees;
ghost use Rattle.document_trees.specs.Seen.{items_of, put};
ghost use Rattle.position_automata.specs.Automata.{states};
ghost use Rattle.decl_set.specs.Validity as spec;
ghost use Rattle.article_validator.specs.Deriving.{leads_on, is_derived};

use content_models::TextKind;
use document_trees::Item;
use position_automata::Automaton;

/// The state behind an item: the step on its name where it is an element, and the same state where it is none.
fn step_over(automaton: &Automaton, state: u32, item: &Item) -> Option<u32>
    requires { state < states automaton.now }
    ensures leads { (later : trees.Items) → leads_on automaton.now result (trees.child_names later) ≡ leads_on automaton.now (Some state) (trees.child_names (put item.now later)) }
    ensures within { IfSome result (λ next. next < states automaton.now) }
{
    match item {
        Item::Element(child) => automaton.step(state, &child.name),
        _ => Some(state),
    }
}

/// Whether the content derives the names of the elements among the items.
pub fn derives(automaton: &Automaton, items: &[Item]) -> bool
    ensures { result ≡ is_derived automaton.now (trees.child_names (items_of items.now)) }
{
    let mut state = 0;
    let mut rest = items;
    while let Some((item, after)) = rest.split_first() {
        match step_over(automaton, state, item) {
            None => return false,
            Some(next) => {
                state = next;
                rest = after;
            }
        }
    }
    automaton.accepts_at(state)
}

fn stand_alone(items: &[Item]) -> bool
    ensures { result ≡ trees.elements_alone (items_of items.now) }
{
    let mut rest = items;
    while let Some((item, after)) = rest.split_first() {
        match item {
            Item::Element(_) => rest = after,
            _ => return false,
        }
    }
    true
}

fn is_plain(item: &Item) -> bool
    ensures { (later : trees.Items) → trees.runs_plain (put item.now later) ≡ (result && trees.runs_plain later) }
{
    match item {
        Item::Chars { plain, .. } => *plain,
        _ => true,
    }
}

fn are_plain(items: &[Item]) -> bool
    ensures { result ≡ trees.runs_plain (items_of items.now) }
{
    let mut rest = items;
    while let Some((item, after)) = rest.split_first() {
        if !is_plain(item) {
            return false;
        }
        rest = after;
    }
    true
}

/// Whether the items other than elements are allowed.
pub fn is_text_allowed(kind: TextKind, items: &[Item]) -> bool
    ensures { result ≡ spec.is_text_allowed kind (items_of items.now) }
{
    match kind {
        TextKind::NoItems => stand_alone(items),
        TextKind::White => are_plain(items),
        TextKind::All => true,
    }
}
