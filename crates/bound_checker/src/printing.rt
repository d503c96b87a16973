//! Certificates are written.

ghost use Rattle.std.specs.Prelude.{◌≡◌, ◌++◌, ◌∷◌, [], IfOk, OnOk, codes, encode_utf8_all, slice_get};
ghost use Rattle.std.specs.Fmt.{decimal};
ghost use Rattle.bound_checker.specs.Certificates as spec;
ghost use Rattle.bound_checker.specs.Lines.{PutsLine, PutsLines, joined, row_lines_at};

use crate::{PairRow, Row, StateRow, Tables};
use decl_set::DeclSet;
use jats_chars::{Name, NoMemory, Text};
use std::alloc::Global;
use tree_costs::Cost;

/// Appends bytes as the characters of their numbers.
fn push_bytes(out: &mut Text, bytes: &[u8]) -> Result<(), NoMemory>
    ensures { OnOk result (out.new ≡ out.old ++ bytes.now) }
{
    for b in bytes {
        out.push(char::from(*b))?;
    }
    Ok(())
}

fn push_number(alloc: Global, out: &mut Text, number: u64) -> Result<(), NoMemory>
    ensures { OnOk result (out.new ≡ out.old ++ decimal number) }
{
    let digits = format!(in alloc; "{number}")?;
    push_bytes(out, digits.as_bytes())
}

fn push_cost(alloc: Global, out: &mut Text, cost: Cost) -> Result<(), NoMemory>
    ensures { OnOk result (out.new ≡ out.old ++ spec.cost_text cost) }
{
    match cost {
        Cost::Fin(n) => push_number(alloc, out, n as u64),
        Cost::Inf => push_bytes(out, b"inf"),
    }
}

/// Two costs, and the end of their line.
fn push_costs(alloc: Global, out: &mut Text, left: Cost, right: Cost) -> Result<(), NoMemory>
    ensures { OnOk result (out.new ≡ out.old ++ (spec.costs_text left right ++ 0xA ∷ [])) }
{
    push_cost(alloc, out, left)?;
    out.push(' ')?;
    push_cost(alloc, out, right)?;
    out.push('\n')?;
    Ok(())
}

fn push_state(alloc: Global, out: &mut Text, i: usize, state: &StateRow) -> Result<(), NoMemory>
    ensures { OnOk result (PutsLine out.old out.new (spec.state_head i ++ spec.costs_text state.now.p state.now.f)) }
{
    push_bytes(out, b"state ")?;
    push_number(alloc, out, i as u64)?;
    out.push(' ')?;
    push_costs(alloc, out, state.p, state.f)
}

fn push_pair(alloc: Global, out: &mut Text, pair: &PairRow) -> Result<(), NoMemory>
    ensures { OnOk result (PutsLine out.old out.new (codes "pair " ++ spec.pair_text pair.now)) }
{
    push_bytes(out, b"pair ")?;
    push_number(alloc, out, pair.i as u64)?;
    out.push(' ')?;
    push_number(alloc, out, pair.j as u64)?;
    out.push(' ')?;
    push_cost(alloc, out, pair.g)?;
    out.push('\n')?;
    Ok(())
}

fn push_element(alloc: Global, out: &mut Text, name: &Name, row: &Row) -> Result<(), NoMemory>
    ensures { OnOk result (PutsLine out.old out.new (spec.element_head name.now ++ spec.costs_text row.now.m row.now.v)) }
{
    push_bytes(out, b"element ")?;
    out.push_slice(name.text().as_slice())?;
    out.push(' ')?;
    push_costs(alloc, out, row.m, row.v)
}

fn push_states(alloc: Global, out: &mut Text, states: &[StateRow]) -> Result<(), NoMemory>
    ensures { OnOk result (PutsLines out.old out.new (spec.state_lines 0 states.now)) }
{
    for (i, state) in states.iter().enumerate() {
        push_state(alloc, out, i, state)?;
    }
    Ok(())
}

fn push_pairs(alloc: Global, out: &mut Text, pairs: &[PairRow]) -> Result<(), NoMemory>
    ensures { OnOk result (PutsLines out.old out.new (spec.pair_lines pairs.now)) }
{
    for pair in pairs {
        push_pair(alloc, out, pair)?;
    }
    Ok(())
}

/// The lines of an element: its own, and those of its states and listed pairs.
fn push_row(alloc: Global, out: &mut Text, name: &Name, row: &Row) -> Result<(), NoMemory>
    ensures { OnOk result (PutsLines out.old out.new (λ rest. (spec.element_head name.now ++ spec.costs_text row.now.m row.now.v) ∷ spec.state_lines 0 row.now.states (spec.pair_lines row.now.pairs rest))) }
{
    push_element(alloc, out, name, row)?;
    push_states(alloc, out, row.states.as_slice())?;
    push_pairs(alloc, out, row.pairs.as_slice())
}

/// The same at a place, where there are an element and a row.
fn push_row_at(
    alloc: Global,
    out: &mut Text,
    first: &DeclSet,
    tables: &Tables,
    at: usize,
) -> Result<(), NoMemory>
    ensures { OnOk result (PutsLines out.old out.new (row_lines_at (slice_get first.now.elements at) (slice_get tables.now.rows at))) }
{
    match first.name_at(at) {
        None => Ok(()),
        Some(name) => match tables.rows.get(at) {
            None => Ok(()),
            Some(row) => push_row(alloc, out, name, row),
        },
    }
}

fn push_rows(
    alloc: Global,
    out: &mut Text,
    first: &DeclSet,
    tables: &Tables,
) -> Result<(), NoMemory>
    ensures { OnOk result (PutsLines out.old out.new (spec.row_lines first.now.elements tables.now.rows)) }
{
    for at in 0..first.count() {
        push_row_at(alloc, out, first, tables, at)?;
    }
    Ok(())
}

/// The first line of a certificate.
fn push_head(alloc: Global, out: &mut Text, tables: &Tables) -> Result<(), NoMemory>
    ensures { OnOk result (PutsLine out.old out.new (codes "certificate " ++ (codes "1 " ++ spec.spaced tables.now.root (decimal tables.now.cap)))) }
{
    push_bytes(out, b"certificate 1 ")?;
    out.push_slice(tables.root.text().as_slice())?;
    out.push(' ')?;
    push_number(alloc, out, tables.cap as u64)?;
    out.push('\n')?;
    Ok(())
}

/// The characters of a certificate.
fn cert_text(alloc: Global, first: &DeclSet, tables: &Tables) -> Result<Text, NoMemory>
    ensures { IfOk result (λ text. text ≡ joined (spec.cert_lines first.now tables.now)) }
{
    let mut out = Text::new(alloc);
    push_head(alloc, &mut out, tables)?;
    push_rows(alloc, &mut out, first, tables)?;
    push_bytes(&mut out, b"end\n")?;
    Ok(out)
}

/// The certificate of tables in UTF-8: `certificate 1 ROOT CAP`, for each element of the first set its row, and `end`, each
/// line with LF.
pub fn print_cert(alloc: Global, first: &DeclSet, tables: &Tables) -> Result<Vec<u8>, NoMemory>
    ensures { IfOk result (λ bytes. bytes.items ≡ encode_utf8_all (joined (spec.cert_lines first.now tables.now))) }
{
    let text = cert_text(alloc, first, tables)?;
    let bytes: String = text.as_slice().iter().copied().collect(alloc)?;
    Ok(bytes.into_bytes())
}
