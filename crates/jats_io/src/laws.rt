//! Laws of the definitions that the contracts cite.

ghost use Rattle.std.specs.Prelude.{◌≡◌, ◌≢◌, ◌<◌, ◌^◌, ◌-◌, ◌↔◌, ◌⊎◌, ℕ, List, [], ◌∷◌, ◌++◌, Some, map, is_some, if◌then◌else◌};
ghost use Rattle.jats_io.specs.Causes.{Rose};
ghost use Rattle.jats_io.specs.Loads.{held, put_in};

/// A counter rose exactly where it is greater than before, or stands at its last value.
pub fn rose_law(before: u64, now: u64)
    ensures { Rose before now ↔ ((before < now) ⊎ (now ≡ 2 ^ 64 - 1)) }
{}

/// What is put under a name is held under it, and what is held under another name stays. The name stands where it
/// stood, or at the end.
pub fn put_law()
    ensures name { (files : List (List ℕ × List ℕ)) (name bytes : List ℕ) → held (put_in files name bytes) name ≡ Some bytes }
    ensures others { (files : List (List ℕ × List ℕ)) (name bytes other : List ℕ) → other ≢ name → held (put_in files name bytes) other ≡ held files other }
    ensures order { (files : List (List ℕ × List ℕ)) (name bytes : List ℕ) → map (λ file. file.0) (put_in files name bytes) ≡ (if is_some (held files name) then map (λ file. file.0) files else map (λ file. file.0) files ++ name ∷ []) }
{}
