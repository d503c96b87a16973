//! Laws of the definitions.

ghost use Rattle.std.specs.Prelude.{◌≡◌, List, None, Ok, ℕ};
ghost use Rattle.pe_expansion.specs.Bound.{Bound, Keeps, text_named, with_outer};
ghost use Rattle.pe_expansion.specs.Expansion.{Written, expansion_of};
ghost use Rattle.pe_expansion.specs.Pausing.{IsPaused};
ghost use Rattle.pe_expansion.specs.declared.pausing.PausedExpansion.{PausedExpansion};
ghost use Rattle.pe_expansion.specs.declared.pieces.Manner.{Manner};

/// A text that stands for something stands for the same by bindings that keep all texts: asking once more changes nothing.
#[tactic(auto, using(crate::proofs::Steady::expansion_stays))]
pub fn again_law()
    ensures { (manner : Manner) (bound later : Bound) (names : List (List ℕ)) (spent : ℕ) (text : List ℕ) (said : Written) → Keeps bound later → expansion_of manner bound names spent text ≡ Ok said
        → expansion_of manner later names spent text ≡ Ok said }
{}

/// A text that is given to an entity without one takes none away.
#[tactic(auto, using(crate::proofs::KeptTexts::outer_keeps))]
pub fn given_law()
    ensures { (bound : Bound) (name text : List ℕ) → text_named bound name ≡ None → Keeps bound (with_outer bound name text) }
{}

/// An expansion that stopped at a text which is not loaded goes on from the same state once the text is given.
#[tactic(auto, using(crate::proofs::Steady::paused_given))]
pub fn resuming_law()
    ensures { (bound : Bound) (chain : List (List ℕ)) (outer name text : List ℕ) (paused : PausedExpansion) → text_named bound name ≡ None → IsPaused bound chain outer paused
        → IsPaused (with_outer bound name text) chain outer paused }
{}
