//! The costs by which trees are chosen.

ghost use Rattle.std.specs.Prelude.{◌≡◌, option_and_then, slice_get};

use bound_checker::{Row, StateRow, Tables, listed_cost};
use decl_set::DeclSet;
use tree_costs::{Cost, Least, LeastRow};

/// Exact costs: the least ones of one set, or the tables of two.
#[derive(Clone, Copy)]
pub enum Book<'a> {
    One(&'a Least),
    Two(&'a Tables),
}

/// Two sets with exact costs, cut at one above the cap. Least trees are chosen by the first set alone.
#[derive(Clone, Copy)]
pub struct Guide<'a> {
    pub first: &'a DeclSet,
    pub second: &'a DeclSet,
    pub cap: u32,
    pub book: Book<'a>,
}

fn least_p(row: &LeastRow, state: u32) -> Option<Cost>
    ensures { result ≡ slice_get row.now.p state }
{
    row.p.get(state as usize).copied()
}

fn state_in(row: &Row, state: u32) -> Option<StateRow>
    ensures { result ≡ slice_get row.now.states state }
{
    row.states.get(state as usize).copied()
}

impl Guide<'_> {
    ghost use Rattle.separating_article.specs.Guides as spec;

    /// The least size of the element at a place: none where there is no such element.
    pub fn m(&self, place: Option<usize>) -> Cost
        ensures { result ≡ spec.m_at self.now.book place }
    {
        match place {
            None => Cost::Inf,
            Some(e) => match self.book {
                Book::One(least) => match least.rows.get(e) {
                    None => Cost::Inf,
                    Some(row) => row.m,
                },
                Book::Two(tables) => match tables.rows.get(e) {
                    None => Cost::Inf,
                    Some(row) => row.m,
                },
            },
        }
    }

    /// The least size of its separating documents: none where there are no tables.
    pub fn v(&self, place: Option<usize>) -> Cost
        ensures { result ≡ spec.v_at self.now.book place }
    {
        match place {
            None => Cost::Inf,
            Some(e) => match self.book {
                Book::One(_) => Cost::Inf,
                Book::Two(tables) => match tables.rows.get(e) {
                    None => Cost::Inf,
                    Some(row) => row.v,
                },
            },
        }
    }

    /// The least sum from a state of the element at a place: none where there is no such state.
    pub fn p(&self, e: usize, state: u32) -> Cost
        ensures { result ≡ spec.p_at self.now.book e state }
    {
        match self.book {
            Book::One(least) => match least.rows.get(e) {
                None => Cost::Inf,
                Some(row) => match least_p(row, state) {
                    None => Cost::Inf,
                    Some(cost) => cost,
                },
            },
            Book::Two(tables) => match tables.rows.get(e) {
                None => Cost::Inf,
                Some(row) => match state_in(row, state) {
                    None => Cost::Inf,
                    Some(costs) => costs.p,
                },
            },
        }
    }

    /// The same with one separating document.
    pub fn f(&self, e: usize, state: u32) -> Cost
        ensures { result ≡ spec.f_at self.now.book e state }
    {
        match self.book {
            Book::One(_) => Cost::Inf,
            Book::Two(tables) => match tables.rows.get(e) {
                None => Cost::Inf,
                Some(row) => match state_in(row, state) {
                    None => Cost::Inf,
                    Some(costs) => costs.f,
                },
            },
        }
    }

    /// The cost of a pair of states of the element at a place: 0 where it is not listed.
    pub fn g(&self, e: usize, i: u32, j: u32) -> Cost
        requires { spec.HaveOrder self.now.book }
        ensures { result ≡ spec.g_at self.now.book e i j }
    {
        match self.book {
            Book::One(_) => Cost::Fin(0),
            Book::Two(tables) => match tables.rows.get(e) {
                None => Cost::Fin(0),
                Some(row) => match listed_cost(row.pairs.as_slice(), i, j) {
                    None => Cost::Fin(0),
                    Some(cost) => cost,
                },
            },
        }
    }
}
