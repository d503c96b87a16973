//! Lines of a certificate, each by itself.

ghost use Rattle.std.specs.Prelude.{◌≡◌, ◌≤◌, [], Some, None, IfSome, MatchOption, IsTrue, is_some, bytes_eq, codes, option_map, option_and_then};
ghost use Rattle.std.specs.Option.{option_copied};
ghost use Rattle.decl_set.specs.Declarations.{content_in};
ghost use Rattle.bound_checker.specs.Certificates as spec;
ghost use Rattle.bound_checker.specs.Spelled.{short_numbers_in, short_pair_in};

use crate::words::{after, after_name, after_number, number, split};
use crate::{PairRow, StateRow};
use decl_set::DeclSet;
use jats_chars::Name;
use position_automata::Automaton;
use tree_costs::Cost;

/// A cost: a number of at most cap + 1, or `inf`.
fn cost(cap: u32, word: &[char]) -> Option<Cost>
    requires { cap ≤ 100000 }
    ensures { result ≡ spec.cost_in cap word.now }
{
    match number(word) {
        Some(n) => {
            if n <= cap + 1 {
                Some(Cost::Fin(n))
            } else {
                None
            }
        }
        None => {
            if word == ['i', 'n', 'f'].as_slice() {
                Some(Cost::Inf)
            } else {
                None
            }
        }
    }
}

/// Two costs that a space parts.
fn costs(cap: u32, words: &[char]) -> Option<(Cost, Cost)>
    requires { cap ≤ 100000 }
    ensures { result ≡ spec.costs_in cap words.now }
{
    let (left, right) = split(words)?;
    Some((cost(cap, left)?, cost(cap, right)?))
}

/// What stands behind a word and a space.
fn after_spaced<'a>(word: &[char], line: &'a [char]) -> Option<&'a [char]>
    ensures { option_copied result ≡ spec.after (spec.spaced word.now []) line.now }
{
    match after_name(word, line) {
        None => None,
        Some(rest) => after(b" ", rest),
    }
}

/// What stands behind `element NAME `.
fn after_element<'a>(name: &Name, line: &'a [char]) -> Option<&'a [char]>
    ensures { option_copied result ≡ spec.after (spec.element_head name.now) line.now }
{
    match after(b"element ", line) {
        None => None,
        Some(rest) => after_spaced(name.text().as_slice(), rest),
    }
}

/// What stands behind `state I `.
fn after_state(i: u32, line: &[char]) -> Option<&[char]>
    ensures { option_copied result ≡ spec.after (spec.state_head i) line.now }
{
    let numbered = after(b"state ", line)?;
    after_number(i, numbered)
}

/// The costs m and v of the line of an element.
pub fn element(cap: u32, name: &Name, line: &[char]) -> Option<(Cost, Cost)>
    requires { cap ≤ 100000 }
    ensures { result ≡ spec.element_in cap name.now line.now }
{
    costs(cap, after_element(name, line)?)
}

/// The costs P and F of the line of a state.
pub fn state(cap: u32, i: u32, line: &[char]) -> Option<StateRow>
    requires { cap ≤ 100000 }
    ensures { result ≡ spec.state_in cap i line.now }
{
    let (p, f) = costs(cap, after_state(i, line)?)?;
    Some(StateRow { p, f })
}

/// The states of a pair.
fn numbers(words: &[char]) -> Option<(u32, u32)>
    ensures { result ≡ short_numbers_in words.now }
{
    let (i, j) = split(words)?;
    Some((number(i)?, number(j)?))
}

/// A pair with its cost, where its states are of 32 bits.
fn pair(cap: u32, words: &[char]) -> Option<PairRow>
    requires { cap ≤ 100000 }
    ensures { result ≡ short_pair_in cap words.now }
{
    let (states, g) = split(words)?;
    let (i, j) = numbers(states)?;
    Some(PairRow {
        i,
        j,
        g: cost(cap, g)?,
    })
}

/// Whether the pair comes after the last one, if there is one.
fn comes_after(last: Option<PairRow>, pair: &PairRow) -> bool
    ensures { result ≡ spec.comes_after last pair.now }
{
    match last {
        None => true,
        Some(last) => last.i < pair.i || last.i == pair.i && last.j < pair.j,
    }
}

/// The next pair of states of both automata, behind the last one, from what stands behind `pair ` in its line.
fn pair_of(
    cap: u32,
    own: &Automaton,
    other: &Automaton,
    last: Option<PairRow>,
    words: &[char],
) -> Option<PairRow>
    requires { cap ≤ 100000 }
    ensures { result ≡ option_and_then (spec.may_follow own.now (Some other.now) last) (spec.pair_in cap words.now) }
{
    let rows = own.states();
    let columns = other.states();
    match pair(cap, words) {
        None => None,
        Some(pair) => {
            if pair.i < rows && pair.j < columns && comes_after(last, &pair) {
                Some(pair)
            } else {
                None
            }
        }
    }
}

/// The same, where the second set declares the element too.
pub fn next_pair(
    cap: u32,
    own: &Automaton,
    other: Option<&Automaton>,
    last: Option<PairRow>,
    words: &[char],
) -> Option<PairRow>
    requires { cap ≤ 100000 }
    ensures { result ≡ option_and_then (spec.may_follow own.now (option_copied other.entry) last) (spec.pair_in cap words.now) }
{
    match other {
        None => None,
        Some(other) => pair_of(cap, own, other, last, words),
    }
}

/// Whether the word is the name.
fn is_name(word: &[char], name: &Name) -> bool
    ensures { result ≡ bytes_eq word.now name.now }
{
    word == name.text().as_slice()
}

/// Whether the line is the last one of a certificate.
pub fn is_end(line: &[char]) -> bool
    ensures { result ≡ bytes_eq line.now (codes "end") }
{
    line == ['e', 'n', 'd'].as_slice()
}

/// The name of the first set that is this word, where there is one.
fn declared<'a>(first: &'a DeclSet, word: &[char]) -> Option<&'a Name>
    ensures { MatchOption result (content_in first.now word.now ≡ None) (λ name. (name.now ≡ word.now) × IsTrue (is_some (content_in first.now word.now))) }
{
    for at in 0..first.count() {
        match first.name_at(at) {
            None => return None,
            Some(name) => {
                if is_name(word, name) {
                    return Some(name);
                }
            }
        }
    }
    None
}

/// A root that the first set declares and a cap, where it is at most 100,000.
fn root_and_cap<'a>(first: &'a DeclSet, root: &[char], cap: u32) -> Option<(&'a Name, u32)>
    ensures { option_map (λ t. (t.0.now, t.1)) result ≡ spec.root_in first.now root.now cap }
{
    match declared(first, root) {
        None => None,
        Some(name) => {
            if cap <= 100000 {
                Some((name, cap))
            } else {
                None
            }
        }
    }
}

/// The root and the cap, from what stands behind `certificate ` in the first line.
pub fn head<'a>(first: &'a DeclSet, words: &[char]) -> Option<(&'a Name, u32)>
    ensures value { option_map (λ t. (t.0.now, t.1)) result ≡ spec.head_in first.now words.now }
    ensures small { IfSome result (λ t. t.1 ≤ 100000) }
{
    let (root, cap) = split(after(b"1 ", words)?)?;
    root_and_cap(first, root, number(cap)?)
}
