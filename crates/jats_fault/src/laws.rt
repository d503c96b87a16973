//! Laws of the table and the lines.

ghost use Rattle.std.specs.Prelude.{◌≡◌, IsTrue, IsSome, Some};
ghost use Rattle.jats_fault.specs.declared.fault.Fault.{Fault};
ghost use Rattle.jats_fault.specs.Lines.{line_of};
ghost use Rattle.jats_fault.specs.Table.{table, is_distinct, name_of, number_told};

/// No two refusals have one number or one name.
pub fn distinct_law()
    ensures { IsTrue (is_distinct table) }
{}

/// The number of a refusal is read back from its line.
#[tactic(auto, using(crate::proofs::Told::told))]
pub fn number_law()
    ensures { (fault : Fault) → IsSome (name_of fault.number) → number_told (line_of fault) ≡ Some fault.number }
{}
