//! The steps of a copy.

ghost use Rattle.std.specs.Prelude.{◌≡◌, ◌≤◌, ◌<◌, ◌^◌, IfSome, length, option_map, slice_get};
ghost use Rattle.std.specs.List.{flat_map};
ghost use Rattle.position_automata.specs.Automata.{states};
ghost use Rattle.decl_set.specs.Children.{child_step};
ghost use Rattle.decl_set.specs.Steps.{steps_in};
ghost use Rattle.comparison_tables.specs.Copies as spec;
ghost use Rattle.comparison_tables.specs.Holding.{IsHeld, known_in};

use crate::held::Held;
use crate::kinds::Kind;
use crate::near::{follows_near, place_near};
use jats_chars::Name;

/// A step: the place of its child, or None where it has none, and the number of the state that it leads to.
pub(crate) type Step = (Option<usize>, u32);

const NO_STEP: Step = (None, 0);

/// The child, then P.
fn to_go(step: Step) -> Step
    requires { step.1 < 2 ^ 31 }
    ensures { result ≡ spec.to_go step }
{
    (step.0, step.1 + 1)
}

/// The child's copy, then P.
fn to_copy(count: usize, step: Step) -> Step
    requires count { count ≤ 1024 }
    requires child { IfSome step.0 (λ x. x < count) }
    requires state { step.1 < 2 ^ 31 }
    ensures { result ≡ spec.to_copy count step }
{
    match step.0 {
        None => (None, step.1 + 1),
        Some(child) => (Some(count + child), step.1 + 1),
    }
}

/// The child, then F.
fn to_wrong(states: u32, step: Step) -> Step
    requires states { states ≤ 1025 }
    requires state { step.1 < 2 ^ 31 }
    ensures { result ≡ spec.to_wrong states step }
{
    (step.0, states + step.1 + 1)
}

/// The child, then the pair at a place, where it is listed.
fn to_listed(states: u32, step: Step, place: Option<usize>) -> Step
    requires states { states ≤ 1025 }
    requires place { IfSome place (λ at. at < 2 ^ 31) }
    ensures { result ≡ spec.to_listed states step place }
{
    match place {
        None => NO_STEP,
        Some(at) => (step.0, 2 * states + at as u32 + 1),
    }
}

/// The child, then P where the element is odd.
fn to_odd(odd: bool, step: Step) -> Step
    requires { step.1 < 2 ^ 31 }
    ensures { result ≡ spec.to_odd odd step }
{
    if odd { to_go(step) } else { NO_STEP }
}

impl Held<'_> {
    /// The k-th step of a state of the content, with the place of its child.
    fn child(&self, i: u32, k: usize) -> Option<Step>
        requires { IsHeld self.now }
        ensures value { result ≡ option_map (child_step self.now.first.now) (slice_get (steps_in self.now.first.now self.now.automaton.now i) k) }
        ensures state { IfSome result (λ s. s.1 < states self.now.automaton.now) }
        ensures child { IfSome result (λ s. IfSome s.0 (λ x. x < length self.now.first.now.elements)) }
        ensures few { states self.now.automaton.now ≤ 1025 }
    {
        self.first.child_at(self.place, i, k)
    }

    /// Where a step leads by the second's step.
    fn either(&self, step: Step, next: Option<u32>) -> Step
        requires held { IsHeld self.now }
        requires state { step.1 < states self.now.automaton.now }
        ensures { result ≡ spec.to_either (known_in self.now) step next }
    {
        match next {
            None => to_go(step),
            Some(l) => to_listed(
                self.automaton.states(),
                step,
                place_near(self.side.pairs.as_slice(), step.1, l),
            ),
        }
    }

    /// Where a step on a name leads from a pair whose second state is j. The second's k-th step is looked at first.
    fn other(&self, j: u32, name: &Name, k: usize, step: Step) -> Step
        requires held { IsHeld self.now }
        requires state { step.1 < states self.now.automaton.now }
        ensures { result ≡ spec.to_other (known_in self.now) (known_in self.now).other j name.now step }
    {
        match self.other {
            None => NO_STEP,
            Some(other) => self.either(step, follows_near(other, j, name, k)),
        }
    }

    /// The k-th step of a pair.
    fn pair_step(&self, i: u32, j: u32, k: usize) -> Option<Step>
        requires { IsHeld self.now }
        ensures { result ≡ option_map (spec.pair_step self.now.first.now (known_in self.now) j) (slice_get (steps_in self.now.first.now self.now.automaton.now i) k) }
    {
        match self.child(i, k) {
            None => None,
            Some(step) => match self.first.step_at(self.place, i, k) {
                None => None,
                Some((name, _)) => Some(self.other(j, name, k, step)),
            },
        }
    }

    /// The k-th step for P from a state of the content.
    fn go_step(&self, i: u32, k: usize) -> Option<Step>
        requires { IsHeld self.now }
        ensures { result ≡ option_map (λ s. spec.to_go (child_step self.now.first.now s)) (slice_get (steps_in self.now.first.now self.now.automaton.now i) k) }
    {
        match self.child(i, k) {
            None => None,
            Some(step) => Some(to_go(step)),
        }
    }

    /// The k-th step for F from a state of the content: each step of it gives one with the child's copy, then one with the
    /// child.
    fn wrong_step(&self, i: u32, k: usize) -> Option<Step>
        requires { IsHeld self.now }
        ensures { result ≡ slice_get (flat_map (spec.wrong_steps self.now.first.now (known_in self.now) (length self.now.first.now.elements)) (steps_in self.now.first.now self.now.automaton.now i)) k }
    {
        match self.child(i, k / 2) {
            None => None,
            Some(step) => {
                if k % 2 == 0 {
                    Some(to_copy(self.first.count(), step))
                } else {
                    Some(to_wrong(self.automaton.states(), step))
                }
            }
        }
    }

    /// The k-th step of the start.
    fn start_step(&self, k: usize) -> Option<Step>
        requires { IsHeld self.now }
        ensures { result ≡ slice_get (flat_map (spec.start_steps self.now.first.now (known_in self.now) (length self.now.first.now.elements)) (steps_in self.now.first.now self.now.automaton.now 0)) k }
    {
        let at = k % 4;
        if at == 2 {
            return self.pair_step(0, 0, k / 4);
        }
        match self.child(0, k / 4) {
            None => None,
            Some(step) => {
                if at == 0 {
                    Some(to_copy(self.first.count(), step))
                } else if at == 1 {
                    Some(to_wrong(self.automaton.states(), step))
                } else {
                    Some(to_odd(self.side.odd, step))
                }
            }
        }
    }

    /// The k-th step of a state of the copy.
    pub(crate) fn step(&self, t: u32, k: usize) -> Option<Step>
        requires { IsHeld self.now }
        ensures { result ≡ slice_get (spec.copy_steps self.now.first.now (known_in self.now) (length self.now.first.now.elements) t) k }
    {
        match self.kind(t) {
            Kind::Start => self.start_step(k),
            Kind::Go(i) => self.go_step(i, k),
            Kind::Wrong(i) => self.wrong_step(i, k),
            Kind::Pair(i, j) => self.pair_step(i, j, k),
            Kind::Beyond => None,
        }
    }
}
