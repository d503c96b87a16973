//! The item at a place.

ghost use Rattle.std.specs.Prelude.{◌≡◌, ◌+◌, ◌<◌, ◌≤◌, IfOk, length, take};
ghost use Rattle.dtd_scanner.specs.Items.{Scans, shortest};
ghost use Rattle.dtd_scanner.specs.Scanning as spec;

use crate::forms::{
    blank_len, comment_len, declaration_len, first_is_space, pi_len, section_start_len,
};
use crate::references::reference_len;
use crate::{Item, ItemKind, ScanFault};
use jats_chars::Text;

/// The item of this kind and length, which does not end where there is no length.
fn item_of_length(kind: ItemKind, length: Option<usize>) -> Result<Item, ScanFault>
    ensures { result ≡ spec.item_of_length kind length }
{
    match length {
        None => Err(ScanFault::Unclosed),
        Some(end) => Ok(Item { kind, end }),
    }
}

fn first_declaration(text: &[char]) -> Result<Item, ScanFault>
    ensures value { result ≡ spec.first_declaration text.now }
    ensures within { IfOk result (λ i. i.end ≤ length text.now) }
{
    if text.starts_with(&['<', '!', 'E', 'L', 'E', 'M', 'E', 'N', 'T']) {
        return item_of_length(ItemKind::ElementDecl, declaration_len(9, text));
    }
    if text.starts_with(&['<', '!', 'A', 'T', 'T', 'L', 'I', 'S', 'T']) {
        return item_of_length(ItemKind::AttlistDecl, declaration_len(9, text));
    }
    if text.starts_with(&['<', '!', 'E', 'N', 'T', 'I', 'T', 'Y']) {
        return item_of_length(ItemKind::EntityDecl, declaration_len(8, text));
    }
    if text.starts_with(&['<', '!', 'N', 'O', 'T', 'A', 'T', 'I', 'O', 'N']) {
        return item_of_length(ItemKind::NotationDecl, declaration_len(10, text));
    }
    Err(ScanFault::Malformed)
}

/// The first item of a text, whose end is its length.
#[tactic(auto, unfolding(crate::specs::Scanning::first_item))]
fn first_item(text: &[char]) -> Result<Item, ScanFault>
    ensures value { result ≡ spec.first_item text.now }
    ensures within { IfOk result (λ i. i.end ≤ length text.now) }
{
    if first_is_space(text) {
        return Ok(Item {
            kind: ItemKind::Blank,
            end: blank_len(text),
        });
    }
    if text.starts_with(&['%']) {
        return item_of_length(ItemKind::Reference, reference_len(text));
    }
    if text.starts_with(&['<', '!', '-', '-']) {
        return item_of_length(ItemKind::Comment, comment_len(text));
    }
    if text.starts_with(&['<', '?']) {
        return item_of_length(ItemKind::Pi, pi_len(text));
    }
    if text.starts_with(&['<', '!', '[']) {
        return item_of_length(ItemKind::SectionStart, section_start_len(text));
    }
    first_declaration(text)
}

/// The item at a place of these characters.
#[tactic(auto, using(crate::proofs::Agreement::scanned))]
fn item_from(text: &[char], at: usize) -> Result<Item, ScanFault>
    requires { at < length text.now }
    ensures scans { Scans text.now at result }
    ensures value { result ≡ spec.item_at text.now at }
    ensures far { IfOk result (λ item. (at + shortest item.kind ≤ item.end) × (item.end ≤ length text.now)) }
{
    let (_, rest) = text.split_at(at);
    match first_item(rest) {
        Err(fault) => Err(fault),
        Ok(item) => Ok(Item {
            kind: item.kind,
            end: at + item.end,
        }),
    }
}

/// The item at a place of the text, which is below its length: its kind, and the place where it ends. White space is the
/// longest run of it (XML 1.0, 2.3), a comment has no `--` inside and no `-` at the end of its inside (2.5), the target
/// of a processing instruction is no `xml` in any case of letters (2.6), the start of a conditional section reaches to
/// the next `[` (3.4), and a declaration to the first `>` outside quotes.
///
/// `Malformed` comes exactly where no item begins at the place, and `Unclosed` exactly where one begins and none ends in
/// the text.
pub fn next_item(text: &Text, at: usize) -> Result<Item, ScanFault>
    requires { at < length text.now }
    ensures scans { Scans text.now at result }

    // The same, computed, and how far the item goes on.
    ensures value { result ≡ spec.item_at text.now at }
    ensures far { IfOk result (λ item. (at + shortest item.kind ≤ item.end) × (item.end ≤ length text.now)) }
{
    item_from(text.as_slice(), at)
}

/// The item at a place of the text, as `next_item` finds it in the text that is cut off at `end`: the place is below the
/// end, and the end at most the length. Nothing behind the end is looked at, and no memory is taken.
pub fn next_item_within(text: &Text, at: usize, end: usize) -> Result<Item, ScanFault>
    requires { (at < end) × (end ≤ length text.now) }
    ensures scans { Scans (take end text.now) at result }

    // The same, computed, and how far the item goes on.
    ensures value { result ≡ spec.item_at (take end text.now) at }
    ensures far { IfOk result (λ item. (at + shortest item.kind ≤ item.end) × (item.end ≤ end)) }
{
    let (part, _) = text.as_slice().split_at(end);
    item_from(part, at)
}
