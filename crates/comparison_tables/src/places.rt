//! The place of a pair among the listed ones.

ghost use Rattle.std.specs.Prelude.{◌≡◌};
ghost use Rattle.comparison_tables.specs.Sides.{pair_place as place_in};
ghost use Rattle.model_inclusion.specs.Listed.{IsAscending};

/// The place of the pair (i, j), where it is listed, sought by halves.
pub(crate) fn pair_place(pairs: &[(u32, u32)], i: u32, j: u32) -> Option<usize>
    requires { IsAscending pairs.now }
    ensures { result ≡ place_in pairs.now i j }
{
    pairs.binary_search(&(i, j)).ok()
}
