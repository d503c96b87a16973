//! What the states of a copy are for.

ghost use Rattle.std.specs.Prelude.{◌≡◌};
ghost use Rattle.std.specs.Option.{option_copied};
ghost use Rattle.comparison_tables.specs.Kinds as spec;

/// What a state of a copy is for: the start; state i of the content for P; state i of the content for F; a listed pair of
/// states for G; or none of them, past the last pair.
#[derive(Clone, Copy, Debug, PartialEq, Eq)]
pub enum Kind {
    Start,
    Go(u32),
    Wrong(u32),
    Pair(u32, u32),
    Beyond,
}

fn pair_kind(pair: Option<&(u32, u32)>) -> Kind
    ensures { result ≡ spec.pair_kind (option_copied pair.entry) }
{
    match pair {
        None => Kind::Beyond,
        Some(pair) => Kind::Pair(pair.0, pair.1),
    }
}

/// What a number past the states for P is for.
fn later_kind(states: u32, pairs: &[(u32, u32)], t: u32) -> Kind
    ensures { result ≡ spec.later_kind states pairs.now t }
{
    if t < states {
        Kind::Wrong(t)
    } else {
        pair_kind(pairs.get((t - states) as usize))
    }
}

/// What the state of a number is for, where the content has so many states and these pairs are listed.
pub(crate) fn kind_of(states: u32, pairs: &[(u32, u32)], t: u32) -> Kind
    ensures { result ≡ spec.kind_of states pairs.now t }
{
    if t == 0 {
        Kind::Start
    } else if t - 1 < states {
        Kind::Go(t - 1)
    } else {
        later_kind(states, pairs, t - 1 - states)
    }
}
