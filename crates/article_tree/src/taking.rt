//! The first token of a text.

ghost use Rattle.std.specs.Prelude.{◌≡◌, ◌≤◌, ◌<◌, IfOk, length, suc, option_map, codes};
ghost use Rattle.std.specs.Option.{option_copied};
ghost use Rattle.dtd_scanner.specs.Items.{is_xml as xml};
ghost use Rattle.article_tree.specs.Plain as plain;
ghost use Rattle.article_tree.specs.Taking as spec;
ghost use Rattle.article_tree.specs.Taken.{attributes_of, raw_of, token_of};

use crate::fronts::{behind, direct_value, spaced_name, take_name};
use crate::token::{Attributes, Lent, StartTag, TagAtt};
use dtd_scanner::char_reference;
use jats_chars::NoMemory;
use std::alloc::Global;
use text_fronts::{read_space, skipped};

/// Behind `&`: a Name and `;`.
fn take_named(text: &[char]) -> Option<(Lent, &[char])>
    ensures { option_map (λ x. (token_of x.0, x.1.now)) result ≡ spec.take_named text.now }
{
    match take_name(text) {
        None => None,
        Some((name, rest)) => match behind(&[';'], rest) {
            None => None,
            Some(rest) => Some((Lent::Named(name), rest)),
        },
    }
}

/// A reference.
fn take_reference(text: &[char]) -> Option<(Lent, &[char])>
    requires { 1 ≤ length text.now }
    ensures { option_map (λ x. (token_of x.0, x.1.now)) result ≡ spec.take_reference text.now }
{
    if text.starts_with(&['&', '#']) {
        match char_reference(text) {
            None => None,
            Some((c, len)) => Some((Lent::Coded(c), text.split_at(len).1)),
        }
    } else {
        take_named(text.split_at(1).1)
    }
}

/// S? `=` S?, and the rest.
fn equals(text: &[char]) -> Option<&[char]>
    ensures { option_copied result ≡ spec.equals text.now }
{
    match behind(&['='], skipped(text)) {
        None => None,
        Some(rest) => Some(skipped(rest)),
    }
}

/// Behind the name of an attribute.
fn with_value<'a>(name: &'a [char], text: &'a [char]) -> Option<(TagAtt<'a>, &'a [char])>
    ensures { option_map (λ x. (raw_of x.0, x.1.now)) result ≡ spec.with_value (name.now, text.now) }
{
    match equals(text) {
        None => None,
        Some(text) => match direct_value(text) {
            None => None,
            Some((value, rest)) => Some((TagAtt { name, value }, rest)),
        },
    }
}

fn take_attribute(text: &[char]) -> Option<(TagAtt, &[char])>
    ensures { option_map (λ x. (raw_of x.0, x.1.now)) result ≡ spec.take_attribute text.now }
{
    match spaced_name(text) {
        None => None,
        Some((name, rest)) => with_value(name, rest),
    }
}

/// `>` or `/>`.
fn take_end(text: &[char]) -> Option<(bool, &[char])>
    ensures { option_map (λ x. (x.0, x.1.now)) result ≡ spec.take_end text.now }
{
    if text.starts_with(&['>']) {
        Some((false, text.split_at(1).1))
    } else if text.starts_with(&['/', '>']) {
        Some((true, text.split_at(2).1))
    } else {
        None
    }
}

/// Behind `</`.
fn take_stop(text: &[char]) -> Option<(Lent, &[char])>
    ensures { option_map (λ x. (token_of x.0, x.1.now)) result ≡ spec.take_stop text.now }
{
    match take_name(text) {
        None => None,
        Some((name, rest)) => match behind(&['>'], skipped(rest)) {
            None => None,
            Some(rest) => Some((Lent::Stop(name), rest)),
        },
    }
}

/// What stands before a place and the rest behind it, where such a mark stands there.
fn cut_at<'a>(mark: &[char], text: &'a [char], at: usize) -> Option<(&'a [char], &'a [char])>
    requires { at < length text.now }
    ensures { option_map (λ x. (x.0.now, x.1.now)) result ≡ plain.cut_at mark.now text.now at }
{
    let (inside, rest) = text.split_at(at);
    match behind(mark, rest) {
        None => None,
        Some(rest) => Some((inside, rest)),
    }
}

/// What stands before the first such mark, and the rest behind it.
fn up_to<'a>(mark: &[char], text: &'a [char]) -> Option<(&'a [char], &'a [char])>
    ensures { option_map (λ x. (x.0.now, x.1.now)) result ≡ spec.up_to mark.now text.now }
{
    for at in 0..text.len() {
        match cut_at(mark, text, at) {
            Some(found) => return Some(found),
            None => {}
        }
    }
    None
}

/// Behind `<!--`.
fn take_remark(text: &[char]) -> Option<(Lent, &[char])>
    ensures { option_map (λ x. (token_of x.0, x.1.now)) result ≡ spec.take_remark text.now }
{
    match up_to(&['-', '-'], text) {
        None => None,
        Some((inside, rest)) => match behind(&['>'], rest) {
            None => None,
            Some(rest) => Some((Lent::Remark(inside), rest)),
        },
    }
}

/// Behind `<![CDATA[`.
fn take_section(text: &[char]) -> Option<(Lent, &[char])>
    ensures { option_map (λ x. (token_of x.0, x.1.now)) result ≡ spec.take_section text.now }
{
    match up_to(&[']', ']', '>'], text) {
        None => None,
        Some((inside, rest)) => Some((Lent::Section(inside), rest)),
    }
}

/// Behind the white space behind a target.
fn take_body<'a>(target: &'a [char], text: &'a [char]) -> Option<(Lent<'a>, &'a [char])>
    ensures { option_map (λ x. (token_of x.0, x.1.now)) result ≡ option_map (spec.instructed target.now) (spec.up_to (codes "?>") text.now) }
{
    match up_to(&['?', '>'], text) {
        None => None,
        Some((body, rest)) => Some((Lent::Instruction(target, body), rest)),
    }
}

/// Behind a target.
fn closed_or<'a>(target: &'a [char], text: &'a [char]) -> Option<(Lent<'a>, &'a [char])>
    ensures { option_map (λ x. (token_of x.0, x.1.now)) result ≡ spec.closed_or target.now text.now (spec.behind (codes "?>") text.now) }
{
    match behind(&['?', '>'], text) {
        Some(rest) => Some((Lent::Instruction(target, text.split_at(0).0), rest)),
        None => match read_space(text) {
            None => None,
            Some(text) => take_body(target, text),
        },
    }
}

/// Whether the characters are `xml` in any case of letters.
fn is_xml(name: &[char]) -> bool
    ensures { result ≡ xml name.now }
{
    match name {
        [x, m, l] => {
            (*x == 'X' || *x == 'x') && (*m == 'M' || *m == 'm') && (*l == 'L' || *l == 'l')
        }
        _ => false,
    }
}

/// Behind `<?`.
fn take_instruction(text: &[char]) -> Option<(Lent, &[char])>
    ensures { option_map (λ x. (token_of x.0, x.1.now)) result ≡ spec.take_instruction text.now }
{
    match take_name(text) {
        None => None,
        Some((target, rest)) => {
            if is_xml(target) {
                None
            } else {
                closed_or(target, rest)
            }
        }
    }
}

/// Attributes and the end of a tag.
fn take_attributes(alloc: Global, text: &[char]) -> Result<Option<(Attributes, &[char])>, NoMemory>
    ensures { IfOk result (λ o. option_map (λ x. (attributes_of x.0, x.1.now)) o ≡ spec.take_attributes (suc (length text.now)) text.now) }
{
    let mut atts = Vec::new(alloc);
    let mut rest = text;
    loop {
        match take_end(skipped(rest)) {
            Some((closed, rest)) => return Ok(Some((Attributes { atts, closed }, rest))),
            None => match take_attribute(rest) {
                None => return Ok(None),
                Some((att, after)) => {
                    atts.push(att)?;
                    rest = after;
                }
            },
        }
    }
}

/// Behind `<`.
fn take_tag(alloc: Global, text: &[char]) -> Result<Option<(Lent, &[char])>, NoMemory>
    ensures { IfOk result (λ o. option_map (λ x. (token_of x.0, x.1.now)) o ≡ spec.take_tag text.now) }
{
    match take_name(text) {
        None => Ok(None),
        Some((name, rest)) => match take_attributes(alloc, rest)? {
            None => Ok(None),
            Some((attributes, rest)) => {
                let Attributes { atts, closed } = attributes;
                Ok(Some((Lent::Start(StartTag { name, atts, closed }), rest)))
            }
        },
    }
}

/// Behind `<`.
fn take_markup(alloc: Global, text: &[char]) -> Result<Option<(Lent, &[char])>, NoMemory>
    ensures { IfOk result (λ o. option_map (λ x. (token_of x.0, x.1.now)) o ≡ spec.take_markup text.now) }
{
    if text.starts_with(&['/']) {
        Ok(take_stop(text.split_at(1).1))
    } else if text.starts_with(&['!', '-', '-']) {
        Ok(take_remark(text.split_at(3).1))
    } else if text.starts_with(&['?']) {
        Ok(take_instruction(text.split_at(1).1))
    } else if text.starts_with(&['!', '[', 'C', 'D', 'A', 'T', 'A', '[']) {
        Ok(take_section(text.split_at(8).1))
    } else {
        take_tag(alloc, text)
    }
}

/// The first token of a text and the rest, lent, or None exactly where no token begins it.
#[tactic(auto, unfolding(crate::specs::Taking::first_token))]
pub fn first_token(alloc: Global, text: &[char]) -> Result<Option<(Lent, &[char])>, NoMemory>
    ensures { IfOk result (λ o. option_map (λ x. (token_of x.0, x.1.now)) o ≡ spec.first_token text.now) }
{
    match text.split_first() {
        None => Ok(None),
        Some((c, rest)) => {
            if *c == '&' {
                Ok(take_reference(text))
            } else if *c == '<' {
                take_markup(alloc, rest)
            } else if text.starts_with(&[']', ']', '>']) {
                Ok(None)
            } else {
                Ok(Some((Lent::Letter(*c), rest)))
            }
        }
    }
}
