//! Certificates are read.

ghost use Rattle.std.specs.Prelude.{◌≡◌, ◌≤◌, ◌<◌, ◌+◌, None, IfSome, MatchOption, IsTrue, is_some, length, option_map, slice_get};
ghost use Rattle.std.specs.Option.{option_copied};
ghost use Rattle.decl_set.specs.Declarations.{content_in};
ghost use Rattle.bound_checker.specs.Certificates as spec;
ghost use Rattle.bound_checker.specs.Left.{BeginsPair, Ends, Gives, read_row_at, rest_of};
ghost use Rattle.bound_checker.specs.Lines.{lines_of};
ghost use Rattle.bound_checker.specs.Reads.{Answers, ReadsCert};

use crate::cursor::Cursor;
use crate::entries::{element, head, is_end, next_pair, state};
use crate::fault::CertFault;
use crate::words::after;
use crate::{PairRows, Row, Rows, StateRow, StateRows, Tables};
use decl_set::DeclSet;
use jats_chars::{ListOf, Name, Text};
use position_automata::Automaton;
use std::alloc::Global;
use tree_costs::Cost;

/// The line of a state.
fn read_state(cap: u32, i: u32, at: &mut Cursor) -> Result<StateRow, CertFault>
    requires { cap ≤ 100000 }
    ensures { Gives (spec.next (spec.state_in cap i) at.old.line (lines_of at.old.rest.now)) (rest_of at.new) result }
{
    let number = at.line;
    match at.next() {
        None => Err(CertFault::Malformed(number)),
        Some(line) => match state(cap, i, line) {
            None => Err(CertFault::Malformed(number)),
            Some(row) => Ok(row),
        },
    }
}

/// The line of an element.
fn read_element(cap: u32, name: &Name, at: &mut Cursor) -> Result<(Cost, Cost), CertFault>
    requires { cap ≤ 100000 }
    ensures { Gives (spec.next (spec.element_in cap name.now) at.old.line (lines_of at.old.rest.now)) (rest_of at.new) result }
{
    let number = at.line;
    match at.next() {
        None => Err(CertFault::Malformed(number)),
        Some(line) => match element(cap, name, line) {
            None => Err(CertFault::Malformed(number)),
            Some(costs) => Ok(costs),
        },
    }
}

/// The last line.
fn read_end(at: &mut Cursor) -> Result<(), CertFault>
    ensures { Ends (spec.next spec.end_in at.old.line (lines_of at.old.rest.now)) (rest_of at.new) result }
{
    let number = at.line;
    match at.next() {
        None => Err(CertFault::Malformed(number)),
        Some(line) => {
            if is_end(line) {
                Ok(())
            } else {
                Err(CertFault::Malformed(number))
            }
        }
    }
}

/// The lines of as many states.
fn read_states(alloc: Global, cap: u32, count: u32, at: &mut Cursor) -> Result<StateRows, CertFault>
    requires { cap ≤ 100000 }
    ensures { Gives (spec.read_states cap count 0 at.old.line (lines_of at.old.rest.now)) (rest_of at.new) result }
{
    let mut rows = ListOf::new(alloc);
    for i in 0..count {
        match read_state(cap, i, at) {
            Err(fault) => return Err(fault),
            Ok(row) => rows.push(row)?,
        }
    }
    Ok(rows)
}

/// The next line, where it begins with `pair `: what stands behind it, and the lines behind that one.
fn pair_line<'a>(at: &Cursor<'a>) -> Option<(&'a [char], Cursor<'a>)>
    ensures line { BeginsPair (rest_of at.now) (option_map (λ t. (t.0.now, rest_of t.1)) result) }
    ensures less { IfSome result (λ t. length t.1.rest.now < length at.now.rest.now) }
{
    let mut ahead = *at;
    let line = ahead.next()?;
    let words = after(b"pair ", line)?;
    Some((words, ahead))
}

/// The lines that begin with `pair `.
fn read_pairs(
    alloc: Global,
    cap: u32,
    own: &Automaton,
    other: Option<&Automaton>,
    at: &mut Cursor,
) -> Result<PairRows, CertFault>
    requires { cap ≤ 100000 }
    ensures { Gives (spec.read_pairs cap own.now (option_copied other.entry) (lines_of at.old.rest.now) None at.old.line) (rest_of at.new) result }
{
    let mut rows = ListOf::new(alloc);
    let mut last = None;
    while let Some((words, ahead)) = pair_line(at) {
        match next_pair(cap, own, other, last, words) {
            None => return Err(CertFault::Malformed(at.line)),
            Some(pair) => {
                rows.push(pair)?;
                last = Some(pair);
                *at = ahead;
            }
        }
    }
    Ok(rows)
}

/// The lines of an element, of its states and of its pairs.
fn read_row(
    alloc: Global,
    cap: u32,
    second: &DeclSet,
    name: &Name,
    own: &Automaton,
    at: &mut Cursor,
) -> Result<Row, CertFault>
    requires { cap ≤ 100000 }
    ensures { Gives (spec.read_row cap second.now name.now own.now at.old.line (lines_of at.old.rest.now)) (rest_of at.new) result }
{
    let (m, v) = match read_element(cap, name, at) {
        Err(fault) => return Err(fault),
        Ok(costs) => costs,
    };
    let states = match read_states(alloc, cap, own.states(), at) {
        Err(fault) => return Err(fault),
        Ok(states) => states,
    };
    let pairs = match read_pairs(alloc, cap, own, second.automaton_of(name), at) {
        Err(fault) => return Err(fault),
        Ok(pairs) => pairs,
    };
    Ok(Row {
        m,
        v,
        states,
        pairs,
    })
}

/// The same of the element of a place, where there is one.
fn read_place(
    alloc: Global,
    cap: u32,
    first: &DeclSet,
    second: &DeclSet,
    place: usize,
    at: &mut Cursor,
) -> Result<Row, CertFault>
    requires { cap ≤ 100000 }
    ensures { Gives (read_row_at cap second.now (slice_get first.now.elements place) at.old.line (lines_of at.old.rest.now)) (rest_of at.new) result }
{
    let _ = first.count();
    match first.name_at(place) {
        None => Err(CertFault::Malformed(at.line)),
        Some(name) => match first.automaton_of(name) {
            None => Err(CertFault::Malformed(at.line)),
            Some(own) => read_row(alloc, cap, second, name, own, at),
        },
    }
}

/// The lines of all elements, in order of declaration.
fn read_rows(
    alloc: Global,
    cap: u32,
    first: &DeclSet,
    second: &DeclSet,
    at: &mut Cursor,
) -> Result<Rows, CertFault>
    requires { cap ≤ 100000 }
    ensures { Gives (spec.read_rows cap second.now first.now.elements at.old.line (lines_of at.old.rest.now)) (rest_of at.new) result }
{
    let mut rows = ListOf::new(alloc);
    for place in 0..first.count() {
        match read_place(alloc, cap, first, second, place, at) {
            Err(fault) => return Err(fault),
            Ok(row) => rows.push(row)?,
        }
    }
    Ok(rows)
}

/// The certificate of which the first line has this number and these words behind `certificate `.
fn read_body(
    alloc: Global,
    first: &DeclSet,
    second: &DeclSet,
    number: u64,
    words: &[char],
    at: &mut Cursor,
) -> Result<Tables, CertFault>
    requires { at.old.line ≡ number + 1 }
    ensures { Answers (spec.read_body first.now second.now number words.now (lines_of at.old.rest.now)) result }
{
    let (name, cap) = match head(first, words) {
        None => return Err(CertFault::Malformed(number)),
        Some(head) => head,
    };
    let rows = match read_rows(alloc, cap, first, second, at) {
        Err(fault) => return Err(fault),
        Ok(rows) => rows,
    };
    match read_end(at) {
        Err(fault) => return Err(fault),
        Ok(()) => {}
    }
    let root = name.copy(alloc)?;
    Ok(Tables { root, cap, rows })
}

/// The certificate from the first line that begins with `certificate `.
fn read_from(
    alloc: Global,
    first: &DeclSet,
    second: &DeclSet,
    at: &mut Cursor,
) -> Result<Tables, CertFault>
    ensures { Answers (spec.read_from first.now second.now (lines_of at.old.rest.now) at.old.line) result }
{
    loop {
        let number = at.line;
        match at.next() {
            None => return Err(CertFault::Malformed(number)),
            Some(line) => match after(b"certificate ", line) {
                None => {}
                Some(words) => return read_body(alloc, first, second, number, words, at),
            },
        }
    }
}

/// The tables of the certificate in a text, from the first line that begins with `certificate ` to the line `end`, for the
/// elements of the first set. `Malformed` has the number of the first line that is not as needed, counted from 1, where the
/// one behind the last is missing. What stands before and behind is ignored. Looks at most twice at each line.
pub fn read_cert(
    alloc: Global,
    first: &DeclSet,
    second: &DeclSet,
    text: &Text,
) -> Result<Tables, CertFault>
    ensures { ReadsCert first.now second.now text.now result }
{
    let mut at = Cursor::new(text.as_slice());
    read_from(alloc, first, second, &mut at)
}
