//! Laws of the definitions.

ghost use Rattle.std.specs.Prelude.{◌≡◌, ℕ, Result, Ok, Err};
ghost use Rattle.content_models.specs.declared.content.Content.{Content};
ghost use Rattle.position_automata.specs.Automata.{IsFollows};
ghost use Rattle.position_automata.specs.Judged.{Judges, judged};
ghost use Rattle.position_automata.specs.Laws.{DerivesByStates, LeadsByWays, OneStateFollows};
ghost use Rattle.position_automata.specs.Runs.{DerivesByRuns};
ghost use Rattle.position_automata.specs.Stepping.{AcceptsByTest, StepsAreTold, StepsFollow, StepOnFollows, OneStepOn, StepsAgree, AreWithin, FewSteps};
ghost use Rattle.position_automata.specs.Tables.{Builds};
ghost use Rattle.position_automata.specs.declared.fault.BuildFault.TheVariants.{Ambiguous};

/// What the states of a content say: it derives the lists of names that lead to a state that accepts; a list leads
/// where a way through the states along it ends; and the content is deterministic exactly where from one state at most
/// one state follows on a name.
pub fn states_law()
    ensures derives { DerivesByStates }
    ensures leads { LeadsByWays }
    ensures one { OneStateFollows }
{}

/// A content derives the lists of names that lead from its start to a state that accepts, step by step.
pub fn runs_law()
    ensures { DerivesByRuns }
{}

/// What acceptance and steps as functions say. The test of acceptance is exact. The steps of a state are those that
/// follow, and no other list is its steps. The step on a name is one that follows, or None where none does; where a content
/// is deterministic it is the only one, and so the one among the steps. What accepts and where a step begins and ends is a
/// state. A state of a proper content has at most 1,024 steps.
pub fn steps_law()
    ensures accepts { AcceptsByTest }
    ensures told { StepsAreTold }
    ensures follow { StepsFollow }
    ensures on { StepOnFollows }
    ensures one { OneStepOn }
    ensures agree { StepsAgree }
    ensures within { (content : Content) → AreWithin content }
    ensures few { FewSteps }
{}

/// What `judged` says of a content (XML 1.0, Appendix E): the number of steps that its states have together where it is
/// deterministic, and else the two positions for which it is not. No other answer fits, so that it is what `build` and
/// `follows` give.
pub fn judging_law()
    ensures judged { (content : Content) → Judges content (judged content) }
    ensures one { (content : Content) (answer : Result ℕ (ℕ × ℕ)) → Judges content answer → answer ≡ judged content }
    ensures built { (content automaton : Content) (n : ℕ) → Builds content (Ok automaton) → IsFollows content n → judged content ≡ Ok n }
    ensures refused { (content : Content) (p q : ℕ) → Builds content (Err (Ambiguous p q)) → judged content ≡ Err (p, q) }
{}
