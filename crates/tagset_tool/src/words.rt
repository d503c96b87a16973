//! The words of the command line, and the sets that they name.

ghost use Rattle.std.specs.Prelude.{◌≡◌, ◌≤◌, ◌<◌, ◌+◌, IfSome, bytes_eq, length};
ghost use Rattle.std.specs.Option.{option_copied};
ghost use Rattle.jats_io.specs.Causes.{HasCause};
ghost use Rattle.module_reader.specs.Outcomes.{LoadFailed, IsAbsence, IsNumbered, Reads};
ghost use Rattle.module_reader.specs.Sets.{set_of};
ghost use Rattle.tagset_tool.specs.Words as spec;

use bound_checker::number;
use decl_set::DeclSet;
use jats_chars::Text;
use jats_chars::limits::CAP;
use jats_io::Store;
use module_reader::{ReadFault, load_catalog, read_set};
use std::alloc::Global;

fn is_word(word: &Text, letters: &[char]) -> bool
    ensures { result ≡ bytes_eq word.now letters.now }
{
    word.as_slice() == letters
}

/// Whether the words have the form of a check.
pub fn is_check(words: &[Text]) -> bool
    ensures { result ≡ spec.is_check words.now }
{
    words.len() == 3 && is_word(&words[0], &['c', 'h', 'e', 'c', 'k'])
}

/// Whether the words ask for a flat text.
pub fn is_flatten(words: &[Text]) -> bool
    ensures { result ≡ spec.is_flatten words.now }
{
    words.len() == 3 && is_word(&words[0], &['f', 'l', 'a', 't', 't', 'e', 'n'])
}

/// Whether the words ask whether an article is valid.
pub fn is_validate(words: &[Text]) -> bool
    ensures { result ≡ spec.is_validate words.now }
{
    words.len() == 5 && is_word(&words[0], &['v', 'a', 'l', 'i', 'd', 'a', 't', 'e'])
}

/// Whether the words ask for an article with its defaults.
pub fn is_fill(words: &[Text]) -> bool
    ensures { result ≡ spec.is_fill words.now }
{
    words.len() == 4 && is_word(&words[0], &['f', 'i', 'l', 'l'])
}

/// Whether the words have the form of a comparison.
pub fn is_compare(words: &[Text]) -> bool
    ensures { result ≡ spec.is_compare words.now }
{
    words.len() == 7
        && is_word(&words[0], &['c', 'o', 'm', 'p', 'a', 'r', 'e'])
        && cap_of(&words[6]).is_some()
}

/// Whether the words ask for a report.
pub fn is_report(words: &[Text]) -> bool
    ensures { result ≡ spec.is_report words.now }
{
    words.len() == 6 && is_word(&words[0], &['r', 'e', 'p', 'o', 'r', 't'])
}

/// A cap: a number without leading zeros, of at most 100,000.
fn cap_of(word: &Text) -> Option<u32>
    ensures value { result ≡ spec.cap_in word.now }
    ensures small { IfSome result (λ n. n ≤ 100000) }
{
    match number(word.as_slice()) {
        None => None,
        Some(n) => { if n <= CAP { Some(n) } else { None } }
    }
}

/// The cap that a word writes, or 0 where it writes none.
pub fn cap_or_0(word: &Text) -> u32
    ensures value { result ≡ spec.cap_or_0 word.now }
    ensures small { result ≤ 100000 }
{
    match cap_of(word) {
        None => 0,
        Some(cap) => cap,
    }
}

/// Whether the words ask for a least article.
pub fn is_least(words: &[Text]) -> bool
    ensures { result ≡ spec.is_least words.now }
{
    words.len() == 5
        && is_word(&words[0], &['l', 'e', 'a', 's', 't'])
        && cap_of(&words[4]).is_some()
}

/// Whether the words ask to verify a certificate.
pub fn is_verify(words: &[Text]) -> bool
    ensures { result ≡ spec.is_verify words.now }
{
    words.len() == 6 && is_word(&words[0], &['v', 'e', 'r', 'i', 'f', 'y'])
}

/// A number of elements: without leading zeros, from 1 to 1,000.
fn count_of(word: &Text) -> Option<u32>
    ensures value { result ≡ spec.count_in word.now }
    ensures small { IfSome result (λ n. n ≤ 1000) }
{
    match number(word.as_slice()) {
        None => None,
        Some(n) => { if 1 <= n && n <= 1000 { Some(n) } else { None } }
    }
}

/// The number of elements that a word writes, or 1 where it writes none.
pub fn count_or_1(word: &Text) -> u32
    ensures value { result ≡ spec.count_or_1 word.now }
    ensures small { result ≤ 1000 }
{
    match count_of(word) {
        None => 1,
        Some(count) => count,
    }
}

/// Whether the words ask for generated work.
pub fn is_work(words: &[Text]) -> bool
    ensures { result ≡ spec.is_work words.now }
{
    words.len() == 2 && is_word(&words[0], &['w', 'o', 'r', 'k']) && count_of(&words[1]).is_some()
}

/// The file of a catalog; `-` names none.
fn catalog_word(word: &Text) -> Option<&Text>
    ensures { option_copied result ≡ spec.catalog_word word.now }
{
    if is_word(word, &['-']) {
        None
    } else {
        Some(word)
    }
}

/// The set of an entry, with the catalog of a file.
fn read_named<S: Store>(
    alloc: Global,
    store: &mut S,
    catalog: Option<&Text>,
    entry: &Text,
) -> Result<DeclSet, ReadFault>
    ensures keeps { S.holds store.new ≡ S.holds store.old }
    ensures faults { HasCause (S.faults store.old) (S.faults store.new) (LoadFailed result) }
    ensures absences { HasCause (S.absences store.old) (S.absences store.new) (IsAbsence result) }
    ensures numbered { IsNumbered result }
    ensures told { IfSome (S.holds store.old) (λ files. Reads (set_of files (option_copied catalog.entry) entry.now) result) }
{
    let catalog = match load_catalog(alloc, store, catalog) {
        Ok(catalog) => catalog,
        Err(fault) => return Err(fault),
    };
    read_set(alloc, store, &catalog, entry)
}

/// The set that the words at a place name: a catalog and an entry.
pub fn read_words<S: Store>(
    alloc: Global,
    store: &mut S,
    words: &[Text],
    at: usize,
) -> Result<DeclSet, ReadFault>
    requires { at + 1 < length words.now }
    ensures keeps { S.holds store.new ≡ S.holds store.old }
    ensures faults { HasCause (S.faults store.old) (S.faults store.new) (LoadFailed result) }
    ensures absences { HasCause (S.absences store.old) (S.absences store.new) (IsAbsence result) }
    ensures numbered { IsNumbered result }
    ensures told { IfSome (S.holds store.old) (λ files. Reads (spec.set_by files (spec.set_words words.now at)) result) }
{
    let catalog = catalog_word(&words[at]);
    read_named(alloc, store, catalog, &words[at + 1])
}

/// The sets that the words at two places name, the one after the other.
pub fn read_both<S: Store>(
    alloc: Global,
    store: &mut S,
    words: &[Text],
    first: usize,
    second: usize,
) -> Result<(DeclSet, DeclSet), ReadFault>
    requires first { first + 1 < length words.now }
    requires second { second + 1 < length words.now }
    ensures keeps { S.holds store.new ≡ S.holds store.old }
    ensures faults { HasCause (S.faults store.old) (S.faults store.new) (LoadFailed result) }
    ensures absences { HasCause (S.absences store.old) (S.absences store.new) (IsAbsence result) }
    ensures numbered { IsNumbered result }
    ensures told { IfSome (S.holds store.old) (λ files. Reads (spec.both_by files (spec.set_words words.now first) (spec.set_words words.now second)) result) }
{
    let one = match read_words(alloc, store, words, first) {
        Ok(set) => set,
        Err(fault) => return Err(fault),
    };
    match read_words(alloc, store, words, second) {
        Ok(other) => Ok((one, other)),
        Err(fault) => Err(fault),
    }
}
