//! What was read of an article so far.

ghost use Rattle.std.specs.Prelude.{◌≡◌, ◌∷◌, ◌++◌, ◌&&◌, ◌<◌, [], List, None, IfOk, OnOk, length, true, false};
ghost use Rattle.document_trees.specs.Trees as tree;
ghost use Rattle.document_trees.specs.Seen.{items_of, put as put_seen};
ghost use Rattle.article_tree.specs.Held.{EndsApart, IsOther, held_items, state_of};
ghost use Rattle.article_tree.specs.Reading.{Open, entered, put, popped};

use document_trees::{AttValues, Item, ItemList, Node};
use jats_chars::{ListOf, Name, NoMemory, Text};
use std::alloc::Global;

/// Characters that stand side by side, and whether they are plain so far.
#[derive(Debug, Drop)]
pub struct Run {
    pub text: Text,
    pub plain: bool,
}

/// An open element, and what stands before it in the one around it.
#[derive(Debug, Drop)]
pub struct OpenElement {
    pub name: Name,
    pub atts: AttValues,
    pub before: Vec<Item>,
}

/// The open elements, the outermost first; the items so far in the innermost, or of the article, and the run behind them;
/// and the count of included characters.
#[derive(Debug, Drop)]
pub struct Held {
    pub opens: Vec<OpenElement>,
    pub items: Vec<Item>,
    pub run: Option<Run>,
    pub spent: u64,
}

fn new_run(alloc: Global, chars: &[char], plain: bool) -> Result<Run, NoMemory>
    ensures { IfOk result (λ r. r ≡ record { text = chars.now; plain = plain }) }
{
    let text = Text::from_slice(alloc, chars)?;
    Ok(Run { text, plain })
}

/// The run with characters behind it.
fn longer(run: Run, chars: &[char], plain: bool) -> Result<Run, NoMemory>
    ensures { IfOk result (λ r. r ≡ record { text = run.text ++ chars.now; plain = run.plain && plain }) }
{
    let Run {
        mut text,
        plain: was,
    } = run;
    text.push_slice(chars)?;
    let plain = was && plain;
    Ok(Run { text, plain })
}

/// Puts characters behind the items.
pub fn put_chars(
    alloc: Global,
    held: &mut Held,
    chars: &[char],
    plain: bool,
) -> Result<(), NoMemory>
    ensures state { OnOk result (state_of held.new ≡ put (state_of held.old) (tree.chars chars.now plain tree.nothing)) }
    ensures items { OnOk result (held.new.items.items ≡ held.old.items.items) }
{
    match held.run.take() {
        None => held.run = Some(new_run(alloc, chars, plain)?),
        Some(run) => held.run = Some(longer(run, chars, plain)?),
    }
    Ok(())
}

/// Ends the run, which becomes an item.
fn end_run(held: &mut Held) -> Result<(), NoMemory>
    requires { EndsApart held.old.items.items }
    ensures items { OnOk result (items_of held.new.items.items ≡ held_items held.old.items.items held.old.run) }
    ensures run { OnOk result (held.new.run ≡ None) }
    ensures opens { held.new.opens ≡ held.old.opens }
    ensures spent { held.new.spent ≡ held.old.spent }
{
    match held.run.take() {
        None => Ok(()),
        Some(run) => {
            let Run { text, plain } = run;
            held.items.push(Item::Chars { text, plain })?;
            Ok(())
        }
    }
}

/// Puts an item that is no run behind the items.
pub fn put_item(held: &mut Held, item: Item) -> Result<(), NoMemory>
    requires apart { EndsApart held.old.items.items }
    requires other { IsOther item }
    ensures state { OnOk result (state_of held.new ≡ put (state_of held.old) (put_seen item tree.nothing)) }
    ensures apart { OnOk result (EndsApart held.new.items.items) }
{
    end_run(held)?;
    held.items.push(item)?;
    Ok(())
}

/// Puts an empty element behind the items, with a new count of included characters.
pub fn put_empty(
    alloc: Global,
    held: &mut Held,
    name: Name,
    atts: AttValues,
    spent: u64,
) -> Result<(), NoMemory>
    requires { EndsApart held.old.items.items }
    ensures state { OnOk result (state_of held.new ≡ entered (state_of held.old) name atts spent true) }
    ensures apart { OnOk result (EndsApart held.new.items.items) }
{
    held.spent = spent;
    let node = Node {
        name,
        atts,
        items: ItemList::new(alloc),
    };
    put_item(held, Item::Element(node))
}

/// Opens an element, with a new count of included characters.
pub fn open_element(
    alloc: Global,
    held: &mut Held,
    name: Name,
    atts: AttValues,
    spent: u64,
) -> Result<(), NoMemory>
    requires { EndsApart held.old.items.items }
    ensures state { OnOk result (state_of held.new ≡ entered (state_of held.old) name atts spent false) }
    ensures apart { OnOk result (EndsApart held.new.items.items) }
{
    end_run(held)?;
    let before = std::mem::replace(&mut held.items, Vec::new(alloc));
    held.opens.push(OpenElement { name, atts, before })?;
    held.spent = spent;
    Ok(())
}

/// Closes the innermost element, whose items are kept in no more room than they take.
pub fn close_element(held: &mut Held) -> Result<(), NoMemory>
    requires apart { EndsApart held.old.items.items }
    requires open { 0 < length held.old.opens.items }
    ensures state { OnOk result ((o : Open) (opens : List Open) → (state_of held.old).opens ≡ o ∷ opens → state_of held.new ≡ popped (state_of held.old) o opens) }
    ensures apart { OnOk result (EndsApart held.new.items.items) }
{
    end_run(held)?;
    match held.opens.pop() {
        None => Ok(()),
        Some(open) => {
            let OpenElement { name, atts, before } = open;
            let mut items = std::mem::replace(&mut held.items, before);
            items.shrink_to_fit();
            let node = Node {
                name,
                atts,
                items: ListOf::from_vec(items),
            };
            held.items.push(Item::Element(node))?;
            Ok(())
        }
    }
}
