//! The states of a copy, and which of them accept.

ghost use Rattle.std.specs.Prelude.{◌≡◌};
ghost use Rattle.std.specs.Option.{option_copied};
ghost use Rattle.position_automata.specs.Stepping.{does_accept};
ghost use Rattle.comparison_tables.specs.Copies as spec;
ghost use Rattle.comparison_tables.specs.Holding.{IsHeld, known_in};

use crate::held::Held;
use crate::kinds::{Kind, kind_of};
use position_automata::Automaton;

/// Whether a state accepts, where there is such a state.
pub(crate) fn accepts(automaton: &Automaton, i: u32) -> bool
    ensures { result ≡ does_accept automaton.now i }
{
    i < automaton.states() && automaton.accepts_at(i)
}

/// Whether the first accepts in state i, and the second, where it declares the element, does not in state j.
fn accepts_alone(automaton: &Automaton, other: Option<&Automaton>, i: u32, j: u32) -> bool
    ensures { result ≡ spec.accepts_alone automaton.now (option_copied other.entry) i j }
{
    match other {
        None => false,
        Some(other) => accepts(automaton, i) && !accepts(other, j),
    }
}

impl Held<'_> {
    /// How many states the copy has.
    pub(crate) fn states(&self) -> u32
        requires { IsHeld self.now }
        ensures { result ≡ spec.copy_states (known_in self.now) }
    {
        let _ = self.first.count();
        1 + 2 * self.automaton.states() + self.side.pairs.len() as u32
    }

    /// What a state of the copy is for.
    pub(crate) fn kind(&self, t: u32) -> Kind
        ensures { result ≡ spec.kind_in (known_in self.now) t }
    {
        kind_of(self.automaton.states(), self.side.pairs.as_slice(), t)
    }

    /// Whether the first accepts and the second does not.
    fn alone(&self, i: u32, j: u32) -> bool
        ensures { result ≡ spec.accepts_alone (known_in self.now).content (known_in self.now).other i j }
    {
        accepts_alone(self.automaton, self.other, i, j)
    }

    /// Whether a state of the copy accepts.
    pub(crate) fn accepts(&self, t: u32) -> bool
        ensures { result ≡ spec.copy_accepts (known_in self.now) t }
    {
        match self.kind(t) {
            Kind::Start => self.alone(0, 0) || self.side.odd && accepts(self.automaton, 0),
            Kind::Go(i) => accepts(self.automaton, i),
            Kind::Pair(i, j) => self.alone(i, j),
            Kind::Wrong(_) | Kind::Beyond => false,
        }
    }
}
