//! Articles read.

ghost use Rattle.std.specs.Prelude.{◌<◌, Bool, length, map, true};
ghost use Rattle.article_tree.specs.Decoding.{HasRow, StopsDecoding, article_from};
ghost use Rattle.article_tree.specs.Frames.{IsInside};
ghost use Rattle.article_tree.specs.Held.{EndsApart, state_of};
ghost use Rattle.article_tree.specs.InPlace.{article_in_place};
ghost use Rattle.article_tree.specs.Outcomes.{Answers};
ghost use Rattle.article_tree.specs.Works.{Turns, passage_of, work_of};

use crate::frames::Frame;
use crate::held::{Held, put_chars};
use crate::outside::{step_outside, whole};
use crate::runs::run_len;
use crate::steps::{finish_text, step_inside};
use crate::stops::{ArticleFault, Stand, refusal};
use crate::written::is_white;
use decl_set::DeclSet;
use document_trees::Node;
use jats_chars::{DecodeFault, NameList, Text, decode};
use jats_fault::{Details, numbers};
use std::alloc::Global;

/// Characters that stand for themselves, as many as there are, or one token, inside of an element or of an included text.
fn turn_inside<'a>(
    alloc: Global,
    set: &'a DeclSet,
    frame: &mut Frame<'a>,
    held: &mut Held,
    waiting: &mut Vec<Frame<'a>>,
) -> Result<bool, ArticleFault>
    requires apart { EndsApart held.old.items.items }
    requires here { frame.old.at < length frame.old.text.now }
    requires inside { IsInside (map passage_of waiting.old.items) (state_of held.old) }
    ensures { (typed : Bool) → Turns set.now.entities (work_of held.old typed frame.old waiting.old) (work_of held.new true frame.new waiting.new) result }
{
    let rest = frame.text.split_at(frame.at).1;
    let len = run_len(rest);
    if len > 0 {
        let run = rest.split_at(len).0;
        put_chars(alloc, held, run, is_white(run))?;
        frame.at += len;
        return Ok(true);
    }
    match step_inside(alloc, set, frame, held, waiting) {
        Err(fault) => Err(fault),
        Ok(()) => Ok(true),
    }
}

/// One step, or the end of a text; false where the article has ended.
fn turn<'a>(
    alloc: Global,
    set: &'a DeclSet,
    frame: &mut Frame<'a>,
    held: &mut Held,
    waiting: &mut Vec<Frame<'a>>,
    typed: &mut bool,
) -> Result<bool, ArticleFault>
    requires { EndsApart held.old.items.items }
    ensures { Turns set.now.entities (work_of held.old typed.old frame.old waiting.old) (work_of held.new typed.new frame.new waiting.new) result }
{
    if frame.at >= frame.text.len() {
        *typed = true;
        return finish_text(alloc, frame, held, waiting);
    }
    if waiting.len() > 0 {
        *typed = true;
        return turn_inside(alloc, set, frame, held, waiting);
    }
    if held.opens.len() > 0 {
        *typed = true;
        return turn_inside(alloc, set, frame, held, waiting);
    }
    match step_outside(alloc, set, frame, held, *typed) {
        Err(fault) => Err(fault),
        Ok(now) => {
            *typed = now;
            Ok(true)
        }
    }
}

/// The node of an article with this name and text.
fn read_text(alloc: Global, set: &DeclSet, place: &Text, text: &Text) -> Result<Node, ArticleFault>
    ensures { Answers (λ n. n) (article_in_place set.now.entities place.now text.now) result }
{
    let mut held = Held {
        opens: Vec::new(alloc),
        items: Vec::new(alloc),
        run: None,
        spent: 0,
    };
    let mut frame = Frame {
        text: text.as_slice(),
        names: NameList::new(alloc),
        base: 0,
        stand: Stand {
            article: place,
            inner: None,
        },
        at: 0,
    };
    let mut waiting = Vec::new(alloc);
    let mut typed = false;
    let mut more = true;
    while more {
        match turn(alloc, set, &mut frame, &mut held, &mut waiting, &mut typed) {
            Err(fault) => return Err(fault),
            Ok(goes_on) => more = goes_on,
        }
    }
    whole(alloc, &frame.stand, frame.text.len(), held)
}

/// Why the bytes of an article are no text.
fn decode_stop(alloc: Global, place: &Text, fault: DecodeFault) -> ArticleFault
    ensures { StopsDecoding place.now fault result }
{
    match fault {
        DecodeFault::NotUtf8(byte) => refusal(
            alloc,
            numbers::NOT_UTF8,
            place,
            byte,
            Details::new(alloc),
        ),
        DecodeFault::NotChar(byte) => refusal(
            alloc,
            numbers::NOT_CHAR,
            place,
            byte,
            Details::new(alloc),
        ),
        DecodeFault::BadTextDecl => refusal(
            alloc,
            numbers::BAD_TEXT_DECL,
            place,
            0,
            Details::new(alloc),
        ),
        DecodeFault::EncodingOther => refusal(
            alloc,
            numbers::ENCODING_OTHER,
            place,
            0,
            Details::new(alloc),
        ),
        DecodeFault::NoMemory => ArticleFault::NoMemory,
    }
}

/// The node of an article (XML 1.0, 2.1), which is its one element with all that is in it. The bytes are those of the
/// article, `place` is its name in a refusal, and the general entities are those of the set.
///
/// A refusal is the first thing that stops the reading, from front to back. Its number stands in the table of refusals. Of
/// the bytes it is 13 to 16, with the offset in bytes. Of the text, with the offset in characters of the article, for what
/// stands in an included text that of the outermost reference, it is 60 where the text is not well-formed, 61 where an end
/// tag has another name, 62 where an attribute stands twice, 63 and 64 where an entity is not declared or is external, 24,
/// 25 and 28 where too many entities are open, too many characters are included, or an entity includes itself, 27 where `<`
/// stands in the text of an entity in a value, 65 where too many elements are open, 66 where something follows the element,
/// 67 at an internal subset, and 69 where the text of an entity is not well-formed.
pub fn read_article(
    alloc: Global,
    set: &DeclSet,
    bytes: &[u8],
    place: &Text,
) -> Result<Node, ArticleFault>
    ensures node { Answers (λ n. n) (article_from set.now.entities place.now bytes.now) result }
    ensures number { HasRow result }
{
    match decode(alloc, bytes) {
        Err(fault) => Err(decode_stop(alloc, place, fault)),
        Ok(text) => read_text(alloc, set, place, &text),
    }
}
