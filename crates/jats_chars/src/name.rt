//! Names (XML 1.0, 2.3).

ghost use Rattle.std.specs.Prelude.{◌≡◌, IfOk, IsTrue, MatchOption, false};
ghost use Rattle.std.specs.List.{list_all};
ghost use Rattle.jats_chars.specs.Classes.{is_name_char as name_char};
ghost use Rattle.jats_chars.specs.Names as spec;

use crate::{NoMemory, Text, is_name_char, is_name_start};
use std::alloc::Global;
use std::hash::{Hash, Hasher};
use std::marker::Model;

fn are_name_chars(cs: &[char]) -> bool
    ensures { result ≡ list_all name_char cs.now }
{
    cs.iter().all(|c| is_name_char(*c))
}

/// Whether these characters are a Name: a NameStartChar and any NameChars (production 5).
pub fn is_name_slice(cs: &[char]) -> bool
    ensures { result ≡ spec.is_name cs.now }
{
    match cs.split_first() {
        None => false,
        Some((first, rest)) => is_name_start(*first) && are_name_chars(rest),
    }
}

/// Whether these characters are an Nmtoken: one or more NameChars (production 7).
pub fn is_nmtoken_slice(cs: &[char]) -> bool
    ensures { result ≡ spec.is_nmtoken cs.now }
{
    match cs.split_first() {
        None => false,
        Some((first, rest)) => is_name_char(*first) && are_name_chars(rest),
    }
}

/// Whether the text is a Name: a NameStartChar and any NameChars (production 5).
pub fn is_name(t: &Text) -> bool
    ensures { result ≡ spec.is_name t.now }
{
    is_name_slice(t.as_slice())
}

/// Whether the text is an Nmtoken: one or more NameChars (production 7).
pub fn is_nmtoken(t: &Text) -> bool
    ensures { result ≡ spec.is_nmtoken t.now }
{
    is_nmtoken_slice(t.as_slice())
}

/// A text that is a Name, seen as the list of its characters.
#[derive(Debug, Drop)]
pub struct Name {
    text: Text,
}

impl Model for Name {
    ghost use Rattle.std.specs.Prelude.{List, ℕ, IsTrue};
    ghost use Rattle.jats_chars.specs.Names as spec;

    ghost Value = { List ℕ };

    ghost view = { λ n. n.text };

    ghost invariant = { λ n. IsTrue (spec.is_name n.text) };
}

impl Name {
    /// The text as a name, or None exactly where it is no Name.
    pub fn from_text(alloc: Global, t: &Text) -> Result<Option<Name>, NoMemory>
        ensures { IfOk result (λ o. MatchOption o (spec.is_name t.now ≡ false) (λ n. (n ≡ t.now) × IsTrue (spec.is_name t.now))) }
    {
        Name::from_slice(alloc, t.as_slice())
    }

    /// These characters as a name, or None exactly where they are no Name.
    pub fn from_slice(alloc: Global, cs: &[char]) -> Result<Option<Name>, NoMemory>
        ensures { IfOk result (λ o. MatchOption o (spec.is_name cs.now ≡ false) (λ n. (n ≡ cs.now) × IsTrue (spec.is_name cs.now))) }
    {
        if is_name_slice(cs) {
            let text = Text::from_slice(alloc, cs)?;
            Ok(Some(Name { text }))
        } else {
            Ok(None)
        }
    }

    /// The name as a text. That a name is a Name is known by this call.
    pub fn text(&self) -> &Text
        ensures value { result.now ≡ self.now }
        ensures name { IsTrue (spec.is_name self.now) }
    {
        &self.text
    }

    /// A name with the same characters.
    pub fn copy(&self, alloc: Global) -> Result<Name, NoMemory>
        ensures { IfOk result (λ n. n ≡ self.now) }
    {
        let text = self.text.copy(alloc)?;
        Ok(Name { text })
    }
}

impl PartialEq for Name {
    ghost use Rattle.std.specs.Prelude.{bytes_eq};
    ghost use Rattle.std.specs.Cmp.{partial_equiv_from_equiv};
    ghost use Rattle.std.specs.Cmp.Lexicographic.{nat_list_eq_equiv};

    ghost eq = { bytes_eq };

    ghost laws = { partial_equiv_from_equiv nat_list_eq_equiv };

    fn eq(&self, other: &Name) -> bool {
        self.text == other.text
    }
}

impl Eq for Name {
    ghost use Rattle.std.specs.Cmp.Lexicographic.{nat_list_eq_equiv};

    ghost laws = { nat_list_eq_equiv };
}

impl Hash for Name {
    ghost use Rattle.std.proofs.Common.{ap};
    ghost use Rattle.std.specs.Cmp.Lexicographic.{bytes_decides};
    ghost use Rattle.jats_chars.specs.Hashing.{fed_text};

    ghost hash_input = { fed_text };

    ghost respects_eq = { λ x y same. ap fed_text ((bytes_decides x y).0 same) };

    fn hash<H: Hasher>(&self, state: &mut H) {
        self.text.hash(state);
    }
}
