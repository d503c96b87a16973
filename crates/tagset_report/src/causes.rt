//! The first cause by which an element breaks.

ghost use Rattle.std.specs.Prelude.{◌≡◌, Some, IfOk, option_map};
ghost use Rattle.decl_set.specs.Breaks.{cause_of};
ghost use Rattle.decl_set.specs.Declarations.{content_in};
ghost use Rattle.decl_set.specs.Oddness.{odd_in};
ghost use Rattle.model_inclusion.specs.Included.{TellEnds};
ghost use Rattle.tagset_report.specs.Judged.{Judges};
ghost use Rattle.tagset_report.specs.Live.{AreLive};

use attlist_merge::OddAtt;
use decl_set::{Cause, DeclSet, Odd, odd};
use jats_chars::{Name, NoMemory};
use model_inclusion::{LiveNames, PairFault, compare};
use position_automata::Automaton;
use std::alloc::Global;

/// What is found of an element.
#[derive(Debug, Drop)]
pub struct Judged {
    /// How many pairs of states are listed.
    pub pairs: u64,
    /// The first cause by which the element breaks.
    pub cause: Option<Cause>,
}

/// What is odd, as a cause.
fn as_cause(odd: Odd) -> Cause
    ensures { result ≡ cause_of odd }
{
    match odd {
        Odd::Undeclared => Cause::Undeclared,
        Odd::Text => Cause::Text,
        Odd::Attribute(OddAtt::Undeclared(name, _)) => Cause::Attribute(name),
        Odd::Attribute(OddAtt::Value(name, _)) => Cause::Attribute(name),
        Odd::Attribute(OddAtt::Missing(name)) => Cause::Attribute(name),
    }
}

/// What is odd of an element, as a cause.
fn odd_cause(
    alloc: Global,
    first: &DeclSet,
    second: &DeclSet,
    name: &Name,
) -> Result<Option<Cause>, NoMemory>
    ensures { IfOk result (λ o. o ≡ option_map cause_of (odd_in first.now second.now name.now)) }
{
    match odd(alloc, first, second, name)? {
        None => Ok(None),
        Some(odd) => Ok(Some(as_cause(odd))),
    }
}

/// The number of listed pairs of an element, and the first cause by which it breaks, or None exactly where it does not.
/// `PairsOver` exactly where there are more than `left` pairs. The live names are those that have documents in the first,
/// and the flags tell from which states of the element's content live names lead to acceptance.
pub fn judge(
    alloc: Global,
    first: &DeclSet,
    second: &DeclSet,
    name: &Name,
    automaton: &Automaton,
    live: &LiveNames,
    ends: &[bool],
    left: u64,
) -> Result<Judged, PairFault>
    requires declared { content_in first.now name.now ≡ Some automaton.now }
    requires live { AreLive first.now live.now }
    requires ends { TellEnds live.now automaton.now ends.now }
    ensures { Judges first.now second.now name.now automaton.now left result }
{
    match second.automaton_of(name) {
        None => {
            let cause = odd_cause(alloc, first, second, name)?;
            Ok(Judged { pairs: 0, cause })
        }
        Some(other) => match compare(alloc, automaton, other, live, ends, left) {
            Err(fault) => Err(fault),
            Ok(compared) => {
                if compared.separates {
                    Ok(Judged {
                        pairs: compared.pairs,
                        cause: Some(Cause::Content),
                    })
                } else {
                    let cause = odd_cause(alloc, first, second, name)?;
                    Ok(Judged {
                        pairs: compared.pairs,
                        cause,
                    })
                }
            }
        },
    }
}
