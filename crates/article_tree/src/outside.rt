//! Steps of a reading outside of all elements.

ghost use Rattle.std.specs.Prelude.{◌≡◌, ◌<◌, ◌≤◌, [], ◌∷◌, Bool, IfOk, IfSome, Vec, length, drop, OnOk, option_and_then, codes, false, true, nat_eq, List};
ghost use Rattle.std.specs.List.{starts_with};
ghost use Rattle.std.specs.Option.{option_copied};
ghost use Rattle.std.specs.declared.alloc.Global.{Global as TheGlobal};
ghost use Rattle.article_tree.specs.declared.frames.Frame.{Frame as TheFrame};
ghost use Rattle.article_tree.specs.declared.held.Held.{Held as TheHeld};
ghost use Rattle.decl_set.specs.Declarations.{Entity};
ghost use Rattle.declaration_bodies.specs.Identifiers.{read_ids as ids};
ghost use Rattle.text_fronts.specs.Fronts as front;
ghost use Rattle.article_tree.specs.Held.{EndsApart, state_of};
ghost use Rattle.article_tree.specs.Outcomes.{Answers, Refuses, standing_of};
ghost use Rattle.article_tree.specs.Reading as spec;
ghost use Rattle.article_tree.specs.Works.{IsOutside, Passes, work_of};

use crate::elements::start_element;
use crate::frames::Frame;
use crate::fronts::{behind, spaced_name};
use crate::held::Held;
use crate::stops::{ArticleFault, Stand, refused};
use crate::token::Lent;
use crate::tokens::token_at;
use decl_set::DeclSet;
use declaration_bodies::read_ids;
use document_trees::{Item, Node};
use jats_chars::{NoMemory, is_space};
use jats_fault::{Details, numbers};
use std::alloc::Global;
use text_fronts::{read_space, skipped};

/// Behind the name of a document type: S and an external identifier, if they stand there, and S?.
fn identified(alloc: Global, text: &[char]) -> Result<&[char], NoMemory>
    ensures { IfOk result (λ r. r.now ≡ spec.identified text.now (option_and_then ids (front.read_space text.now))) }
{
    match read_space(text) {
        None => Ok(skipped(text)),
        Some(behind) => match read_ids(alloc, behind)? {
            None => Ok(skipped(text)),
            Some((_, rest)) => Ok(skipped(rest)),
        },
    }
}

/// The rest behind the name of a document type and what identifies it.
fn type_end(alloc: Global, text: &[char]) -> Result<Option<&[char]>, NoMemory>
    ensures { IfOk result (λ o. option_copied o ≡ spec.type_end text.now) }
{
    match spaced_name(text) {
        None => Ok(None),
        Some((_, rest)) => Ok(Some(identified(alloc, rest)?)),
    }
}

/// Whether an item was read.
fn has_root(held: &Held) -> bool
    ensures { result ≡ spec.has_root (state_of held.now).items }
{
    if held.items.len() > 0 {
        return true;
    }
    match &held.run {
        None => false,
        Some(_) => true,
    }
}

/// Something stands where only Misc or the element may.
fn misplaced(alloc: Global, stand: &Stand, at: usize, held: &Held) -> ArticleFault
    ensures { (typed : Bool) → Refuses (spec.misplaced (standing_of stand.now) at (record { state = state_of held.now; typed = typed })) result }
{
    if has_root(held) {
        refused(
            alloc,
            stand,
            at,
            numbers::REST_AFTER_ROOT,
            Details::new(alloc),
        )
    } else {
        refused(
            alloc,
            stand,
            at,
            numbers::ARTICLE_MALFORMED,
            Details::new(alloc),
        )
    }
}

/// The node of an article that ends there.
pub fn whole(alloc: Global, stand: &Stand, end: usize, held: Held) -> Result<Node, ArticleFault>
    ensures { Answers (λ n. n) (spec.whole (standing_of stand.now) end (state_of held).items (state_of held).opens) result }
{
    let mut items = held.items;
    if held.opens.len() > 0 {
        return Err(refused(
            alloc,
            stand,
            end,
            numbers::ARTICLE_MALFORMED,
            Details::new(alloc),
        ));
    }
    if items.len() == 0 {
        return Err(refused(
            alloc,
            stand,
            end,
            numbers::ARTICLE_MALFORMED,
            Details::new(alloc),
        ));
    }
    match items.remove(0) {
        Item::Element(node) => Ok(node),
        _ => Err(refused(
            alloc,
            stand,
            end,
            numbers::ARTICLE_MALFORMED,
            Details::new(alloc),
        )),
    }
}

/// A token outside of all elements: Misc, or the start of the element. The answer is whether a document type declaration
/// may no longer come.
fn pass_misc(
    alloc: Global,
    set: &DeclSet,
    frame: &mut Frame,
    held: &mut Held,
    typed: bool,
) -> Result<bool, ArticleFault>
    requires outside { IsOutside held.old frame.old }
    requires other { typed ≡ false → starts_with nat_eq (drop frame.old.at frame.old.text.now) (codes "<!DOCTYPE") ≡ false }
    ensures { (waiting : Vec TheFrame TheGlobal) → waiting.items ≡ [] → Passes set.now.entities (work_of held.old typed frame.old waiting) held.new frame.new waiting result }
{
    let at = frame.at;
    let Some((token, next)) = token_at(alloc, frame.text, at)? else {
        return Err(misplaced(alloc, &frame.stand, at, held));
    };
    match token {
        Lent::Letter(c) => {
            if is_space(c) {
                frame.at = next;
                return Ok(typed);
            }
            Err(misplaced(alloc, &frame.stand, at, held))
        }
        Lent::Remark(_) => {
            frame.at = next;
            Ok(typed)
        }
        Lent::Instruction(_, _) => {
            frame.at = next;
            Ok(typed)
        }
        Lent::Start(tag) => {
            if has_root(held) {
                return Err(misplaced(alloc, &frame.stand, at, held));
            }
            match start_element(alloc, set, &frame.names, &frame.stand, at, held, tag) {
                Err(fault) => Err(fault),
                Ok(()) => {
                    frame.at = next;
                    Ok(true)
                }
            }
        }
        Lent::Section(_) => Err(misplaced(alloc, &frame.stand, at, held)),
        Lent::Coded(_) => Err(misplaced(alloc, &frame.stand, at, held)),
        Lent::Named(_) => Err(misplaced(alloc, &frame.stand, at, held)),
        Lent::Stop(_) => Err(misplaced(alloc, &frame.stand, at, held)),
    }
}

/// Behind the mark of a document type declaration, which stands at the place.
fn pass_type(alloc: Global, frame: &mut Frame, behind: &[char]) -> Result<bool, ArticleFault>
    requires here { frame.old.at < length frame.old.text.now }
    requires begins { starts_with nat_eq (drop frame.old.at frame.old.text.now) (codes "<!DOCTYPE") ≡ true }
    requires behind { behind.now ≡ drop 9 (drop frame.old.at frame.old.text.now) }
    ensures { (entities : List Entity) (held : TheHeld) (waiting : Vec TheFrame TheGlobal) → waiting.items ≡ [] → IsOutside held frame.old → Passes entities (work_of held false frame.old waiting) held frame.new waiting result }
{
    let at = frame.at;
    let Some(after) = type_end(alloc, behind)? else {
        return Err(refused(
            alloc,
            &frame.stand,
            at,
            numbers::ARTICLE_MALFORMED,
            Details::new(alloc),
        ));
    };
    if after.starts_with(['>'].as_slice()) {
        frame.at = frame.text.len() - (after.len() - 1);
        return Ok(true);
    }
    if after.starts_with(['['].as_slice()) {
        return Err(refused(
            alloc,
            &frame.stand,
            at,
            numbers::INTERNAL_SUBSET,
            Details::new(alloc),
        ));
    }
    Err(refused(
        alloc,
        &frame.stand,
        at,
        numbers::ARTICLE_MALFORMED,
        Details::new(alloc),
    ))
}

/// A step outside of all elements. The answer is whether a document type declaration may no longer come.
pub fn step_outside(
    alloc: Global,
    set: &DeclSet,
    frame: &mut Frame,
    held: &mut Held,
    typed: bool,
) -> Result<bool, ArticleFault>
    requires { IsOutside held.old frame.old }
    ensures { (waiting : Vec TheFrame TheGlobal) → waiting.items ≡ [] → Passes set.now.entities (work_of held.old typed frame.old waiting) held.new frame.new waiting result }
{
    if typed {
        return pass_misc(alloc, set, frame, held, true);
    }
    let rest = frame.text.split_at(frame.at).1;
    let mark = ['<', '!', 'D', 'O', 'C', 'T', 'Y', 'P', 'E'];
    match behind(mark.as_slice(), rest) {
        None => pass_misc(alloc, set, frame, held, false),
        Some(behind) => pass_type(alloc, frame, behind),
    }
}
