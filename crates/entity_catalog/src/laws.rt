//! Laws of the definitions.

ghost use Rattle.std.specs.Prelude.{◌≡◌, ◌↔◌, ℕ, List, Some, IsTrue, codes};
ghost use Rattle.std.specs.List.{filter_map, list_all, slice_split};
ghost use Rattle.entity_catalog.specs.Catalogs.{named_in, system_in, public_in};
ghost use Rattle.entity_catalog.specs.Join.{join, is_slash, is_step};
ghost use Rattle.entity_catalog.specs.Lines.{Line, line_of, system, public};
ghost use Rattle.entity_catalog.specs.Named.{file_of};
ghost use Rattle.entity_catalog.specs.Spelling.{IsEntry};

/// A line says that a name stands for an identifier exactly where it is spelled so.
pub fn lines_are_spelled()
    ensures system { (line identifier name : List ℕ) → (line_of line ≡ system identifier name) ↔ IsEntry (codes "SYSTEM") identifier name line }
    ensures public { (line identifier name : List ℕ) → (line_of line ≡ public identifier name) ↔ IsEntry (codes "PUBLIC") identifier name line }
{}

/// Of the lines with one identifier the first counts.
pub fn first_lines_count()
    ensures systems { (place : List ℕ) (lines : List Line) (identifier : List ℕ) → file_of (named_in place lines).systems identifier ≡ file_of (filter_map (system_in place) lines) identifier }
    ensures publics { (place : List ℕ) (lines : List Line) (identifier : List ℕ) → file_of (named_in place lines).publics identifier ≡ file_of (filter_map (public_in place) lines) identifier }
{}

/// A joined name leads into folders alone: no part of it is empty, `.` or `..`.
pub fn joined_names_stay_inside()
    ensures { (base identifier name : List ℕ) → join base identifier ≡ Some name → IsTrue (list_all is_step (slice_split is_slash name)) }
{}
