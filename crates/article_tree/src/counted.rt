//! How many bytes parts of the text of a node have. Counts stand still at their last value, 2^64 - 1.

ghost use Rattle.std.specs.Prelude.{◌≡◌, ◌+◌, map, true};
ghost use Rattle.std.specs.List.{flat_map};
ghost use Rattle.decl_set.specs.ValueEscaped.{decimal_reference};
ghost use Rattle.jats_chars.specs.Classes.{is_space as space};
ghost use Rattle.article_tree.specs.Sizes.{Counts, attribute_size, atts_size, bytes};
ghost use Rattle.article_tree.specs.Writing as spec;

use crate::written::is_white;
use jats_chars::{Name, Text, is_space};

/// Counts the bytes of a text.
fn count_text(before: u64, text: &[char]) -> u64
    ensures { Counts before (bytes text.now) result }
{
    let mut total = before;
    for c in text {
        total = total.saturating_add(c.len_utf8() as u64);
    }
    total
}

fn value_char_size(c: char) -> u64
    ensures { result ≡ bytes (spec.value_char c) }
{
    match c {
        '&' => 5,
        '<' => 4,
        '"' => 6,
        '\t' => 4,
        '\n' => 5,
        '\r' => 5,
        _ => c.len_utf8() as u64,
    }
}

/// Counts the bytes of a value between its quotes.
fn count_value(before: u64, text: &[char]) -> u64
    ensures { Counts before (bytes (flat_map spec.value_char text.now)) result }
{
    let mut total = before;
    for c in text {
        total = total.saturating_add(value_char_size(*c));
    }
    total
}

fn count_attribute(before: u64, name: &Name, value: &Text) -> u64
    ensures { Counts before (attribute_size (name.now, value.now)) result }
{
    let total = before.saturating_add(4);
    let total = count_text(total, name.text().as_slice());
    count_value(total, value.as_slice())
}

/// Counts the bytes of attributes, each behind a space.
fn count_attributes(before: u64, atts: &[(Name, Text)]) -> u64
    ensures { Counts before (atts_size atts.now) result }
{
    let mut total = before;
    let mut rest = atts;
    while let Some((att, after)) = rest.split_first() {
        let (name, value) = att;
        total = count_attribute(total, name, value);
        rest = after;
    }
    total
}

/// Counts the bytes of the front of a tag: of what stands before its end.
#[tactic(auto, using(crate::proofs::TextSizes::front_text))]
pub fn count_tag(before: u64, name: &Name, atts: &[(Name, Text)]) -> u64
    ensures { Counts before (bytes (spec.tag_front name.now atts.now)) result }
{
    let total = before.saturating_add(1);
    let total = count_text(total, name.text().as_slice());
    count_attributes(total, atts)
}

/// Counts the bytes of an end tag.
#[tactic(auto, using(crate::proofs::TextSizes::end_text))]
pub fn count_end(before: u64, name: &Name) -> u64
    ensures { Counts before (bytes (spec.end_tag name.now)) result }
{
    let total = before.saturating_add(3);
    count_text(total, name.text().as_slice())
}

fn run_char_size(c: char) -> u64
    ensures { result ≡ bytes (spec.run_char c) }
{
    match c {
        '&' => 5,
        '<' => 4,
        '>' => 4,
        '\r' => 5,
        _ => c.len_utf8() as u64,
    }
}

fn count_run_chars(before: u64, text: &[char]) -> u64
    ensures { Counts before (bytes (flat_map spec.run_char text.now)) result }
{
    let mut total = before;
    for c in text {
        total = total.saturating_add(run_char_size(*c));
    }
    total
}

/// How many bytes a reference to a white space character has.
fn reference_size(c: char) -> u64
    requires { space c ≡ true }
    ensures { result ≡ bytes (decimal_reference c) }
{
    if c == '\t' { 4 } else { 5 }
}

/// Counts the bytes of a run that is not plain.
fn count_marked(before: u64, text: &[char]) -> u64
    ensures { Counts before (bytes (spec.marked_run text.now)) result }
{
    match text.split_first() {
        None => before.saturating_add(12),
        Some((c, rest)) => {
            if is_space(*c) && is_white(rest) {
                let total = before.saturating_add(reference_size(*c));
                count_run_chars(total, rest)
            } else {
                count_run_chars(before, text)
            }
        }
    }
}

/// Counts the bytes of a plain run: CR and LF have one byte each.
#[tactic(auto, using(crate::proofs::TextSizes::plain_text))]
fn count_plain(before: u64, text: &[char]) -> u64
    ensures { Counts before (bytes (map spec.line_end text.now)) result }
{
    count_text(before, text)
}

/// Counts the bytes of a run.
pub fn count_run(before: u64, text: &[char], plain: bool) -> u64
    ensures { Counts before (bytes (spec.written_run text.now plain)) result }
{
    if plain {
        count_plain(before, text)
    } else {
        count_marked(before, text)
    }
}

/// Counts the bytes of a comment.
#[tactic(auto, using(crate::proofs::TextSizes::comment_text))]
pub fn count_comment(before: u64, text: &[char]) -> u64
    ensures { Counts before (bytes (spec.written_comment text.now)) result }
{
    let total = before.saturating_add(7);
    count_text(total, text)
}

fn count_body(before: u64, body: &[char]) -> u64
    ensures { Counts before (bytes (spec.written_body body.now)) result }
{
    if body.is_empty() {
        return before;
    }
    let total = before.saturating_add(1);
    count_text(total, body)
}

/// Counts the bytes of a processing instruction.
#[tactic(auto, using(crate::proofs::TextSizes::pi_text))]
pub fn count_instruction(before: u64, target: &Name, body: &[char]) -> u64
    ensures { Counts before (bytes (spec.written_pi target.now body.now)) result }
{
    let total = before.saturating_add(4);
    let total = count_text(total, target.text().as_slice());
    count_body(total, body)
}
