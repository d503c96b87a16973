//! Steps of a reading inside of an element, or of an included text.

ghost use Rattle.std.specs.Prelude.{◌≡◌, ◌++◌, ◌∷◌, ◌<◌, ◌≤◌, [], Bool, IfOk, IsTrue, List, None, OnOk, length, map, true};
ghost use Rattle.document_trees.specs.Trees as tree;
ghost use Rattle.decl_set.specs.Declarations.{Entity};
ghost use Rattle.decl_set.specs.Values as values;
ghost use Rattle.jats_chars.specs.Names.{is_name};
ghost use Rattle.article_tree.specs.Frames.{IsInside};
ghost use Rattle.article_tree.specs.Held.{EndsApart, state_of};
ghost use Rattle.article_tree.specs.Outcomes.{standing_of};
ghost use Rattle.article_tree.specs.Reading.{put};
ghost use Rattle.article_tree.specs.Stops.{standing_in};
ghost use Rattle.article_tree.specs.Tokens.{named};
ghost use Rattle.article_tree.specs.Works.{Stands, Stepped, Turns, passage_of, work_of};

use crate::elements::{end_element, start_element};
use crate::entities::enter;
use crate::frames::Frame;
use crate::held::{Held, put_chars, put_item};
use crate::stops::{ArticleFault, EntityText, Stand, malformed, place_in, value_stop};
use crate::token::Lent;
use crate::tokens::token_at;
use crate::values::name_of;
use decl_set::DeclSet;
use document_trees::Item;
use jats_chars::{Name, NoMemory, Text, is_space};
use std::alloc::Global;

/// The character of a predefined entity (XML 1.0, 4.6).
#[tactic(auto, unfolding(decl_set::specs::Values::predefined))]
fn predefined(name: &[char]) -> Option<char>
    ensures { result ≡ values.predefined name.now }
{
    if name == ['l', 't'].as_slice() {
        Some('<')
    } else if name == ['g', 't'].as_slice() {
        Some('>')
    } else if name == ['a', 'm', 'p'].as_slice() {
        Some('&')
    } else if name == ['a', 'p', 'o', 's'].as_slice() {
        Some('\'')
    } else if name == ['q', 'u', 'o', 't'].as_slice() {
        Some('"')
    } else {
        None
    }
}

/// The text of an entity to which a reference at the place of a text refers, at its beginning.
fn inner_frame<'a>(
    alloc: Global,
    frame: &Frame<'a>,
    base: usize,
    name: Name,
    text: &'a Text,
) -> Result<Frame<'a>, NoMemory>
    ensures { IfOk result (λ f. passage_of f ≡ record { text = text.now; names = frame.now.names ++ name ∷ []; base = base; standing = standing_in (standing_of frame.now.stand) frame.now.at name; at = 0 }) }
{
    let mut names = frame.names.copy(alloc)?;
    names.push(name.copy(alloc)?)?;
    let place = place_in(&frame.stand, frame.at);
    let stand = Stand {
        article: frame.stand.article,
        inner: Some(EntityText { place, name }),
    };
    Ok(Frame {
        text: text.as_slice(),
        names,
        base,
        stand,
        at: 0,
    })
}

/// A reference to a general entity that is not predefined: its text is read, and this one waits.
fn open_text<'a>(
    alloc: Global,
    set: &'a DeclSet,
    frame: &mut Frame<'a>,
    held: &mut Held,
    waiting: &mut Vec<Frame<'a>>,
    name: &[char],
    next: usize,
) -> Result<(), ArticleFault>
    requires stands { (typed : Bool) → Stands (work_of held.old typed frame.old waiting.old) (named name.now) next }
    requires named { IsTrue (is_name name.now) }
    requires other { values.predefined name.now ≡ None }
    ensures { (typed : Bool) → Stepped set.now.entities (work_of held.old typed frame.old waiting.old) (work_of held.new true frame.new waiting.new) result }
{
    let at = frame.at;
    let name = name_of(alloc, name)?;
    match enter(alloc, set, &frame.names, &name, held.spent) {
        Err(fault) => { Err(value_stop(alloc, &frame.stand, at, name.text().as_slice(), fault)) }
        Ok(entered) => {
            let inner = inner_frame(alloc, frame, held.opens.len(), name, entered.text)?;
            let mut outer = std::mem::replace(frame, inner);
            outer.at = next;
            waiting.push(outer)?;
            held.spent = entered.spent;
            if entered.text.len() == 0 {
                put_chars(alloc, held, entered.text.as_slice(), true)?;
            }
            Ok(())
        }
    }
}

/// A reference to a general entity.
fn refer<'a>(
    alloc: Global,
    set: &'a DeclSet,
    frame: &mut Frame<'a>,
    held: &mut Held,
    waiting: &mut Vec<Frame<'a>>,
    name: &[char],
    next: usize,
) -> Result<(), ArticleFault>
    requires stands { (typed : Bool) → Stands (work_of held.old typed frame.old waiting.old) (named name.now) next }
    requires named { IsTrue (is_name name.now) }
    ensures { (typed : Bool) → Stepped set.now.entities (work_of held.old typed frame.old waiting.old) (work_of held.new true frame.new waiting.new) result }
{
    match predefined(name) {
        None => open_text(alloc, set, frame, held, waiting, name, next),
        Some(c) => {
            put_chars(alloc, held, [c].as_slice(), false)?;
            frame.at = next;
            Ok(())
        }
    }
}

/// Puts a processing instruction.
fn put_instruction(
    alloc: Global,
    held: &mut Held,
    target: &[char],
    body: &[char],
) -> Result<(), NoMemory>
    requires apart { EndsApart held.old.items.items }
    requires named { IsTrue (is_name target.now) }
    ensures state { OnOk result (state_of held.new ≡ put (state_of held.old) (tree.pi target.now body.now tree.nothing)) }
    ensures apart { OnOk result (EndsApart held.new.items.items) }
{
    let target = name_of(alloc, target)?;
    let body = Text::from_slice(alloc, body)?;
    put_item(held, Item::Pi { target, body })
}

/// Puts a comment.
fn put_comment(alloc: Global, held: &mut Held, text: &[char]) -> Result<(), NoMemory>
    requires { EndsApart held.old.items.items }
    ensures state { OnOk result (state_of held.new ≡ put (state_of held.old) (tree.comment text.now tree.nothing)) }
    ensures apart { OnOk result (EndsApart held.new.items.items) }
{
    let text = Text::from_slice(alloc, text)?;
    put_item(held, Item::Comment(text))
}

/// One token.
pub fn step_inside<'a>(
    alloc: Global,
    set: &'a DeclSet,
    frame: &mut Frame<'a>,
    held: &mut Held,
    waiting: &mut Vec<Frame<'a>>,
) -> Result<(), ArticleFault>
    requires apart { EndsApart held.old.items.items }
    requires here { frame.old.at < length frame.old.text.now }
    requires inside { IsInside (map passage_of waiting.old.items) (state_of held.old) }
    ensures { (typed : Bool) → Stepped set.now.entities (work_of held.old typed frame.old waiting.old) (work_of held.new true frame.new waiting.new) result }
{
    let at = frame.at;
    let Some((token, next)) = token_at(alloc, frame.text, at)? else {
        return Err(malformed(alloc, &frame.stand, at));
    };
    match token {
        Lent::Letter(c) => put_chars(alloc, held, [c].as_slice(), is_space(c))?,
        Lent::Section(text) => put_chars(alloc, held, text, false)?,
        Lent::Coded(c) => put_chars(alloc, held, [c].as_slice(), false)?,
        Lent::Named(name) => return refer(alloc, set, frame, held, waiting, name, next),
        Lent::Remark(text) => put_comment(alloc, held, text)?,
        Lent::Instruction(target, body) => put_instruction(alloc, held, target, body)?,
        Lent::Start(tag) => {
            match start_element(alloc, set, &frame.names, &frame.stand, at, held, tag) {
                Err(fault) => return Err(fault),
                Ok(()) => (),
            }
        }
        Lent::Stop(name) => match end_element(alloc, &frame.stand, at, frame.base, held, name) {
            Err(fault) => return Err(fault),
            Ok(()) => (),
        },
    }
    frame.at = next;
    Ok(())
}

/// The text has ended: the last one that waits goes on, and the answer is whether one does.
pub fn finish_text<'a>(
    alloc: Global,
    frame: &mut Frame<'a>,
    held: &Held,
    waiting: &mut Vec<Frame<'a>>,
) -> Result<bool, ArticleFault>
    requires apart { EndsApart held.now.items.items }
    requires over { length frame.old.text.now ≤ frame.old.at }
    ensures { (entities : List Entity) (typed : Bool) → Turns entities (work_of held.now typed frame.old waiting.old) (work_of held.now true frame.new waiting.new) result }
{
    match waiting.pop() {
        None => Ok(false),
        Some(outer) => {
            if held.opens.len() > frame.base {
                return Err(malformed(alloc, &frame.stand, frame.text.len()));
            }
            *frame = outer;
            Ok(true)
        }
    }
}
