//! Texts.

ghost use Rattle.std.specs.Prelude.{◌≡◌, [], ◌∷◌, ◌++◌, length, slice_get, drop, vec_len, ◌≤◌, ◌-◌, IfOk, OnOk, OnErr, encode_utf8_all};

use crate::NoMemory;
use crate::hashing::feed;
use std::alloc::Global;
use std::default::MadeWith;
use std::hash::{Hash, Hasher};
use std::marker::Model;

/// A text, seen as the list of its characters.
#[derive(Debug, Drop)]
pub struct Text {
    chars: Vec<char>,
}

impl Model for Text {
    ghost use Rattle.std.specs.Prelude.{List, ℕ};

    ghost Value = { List ℕ };

    ghost view = { λ t. t.chars.items };
}

/// Drops the first characters.
fn shift_down(chars: &mut Vec<char>, dropped: usize)
    requires { dropped ≤ vec_len chars.old }
    ensures { chars.new.items ≡ drop dropped chars.old.items }
{
    let left = chars.len() - dropped;
    for k in 0..left {
        chars[k] = chars[k + dropped];
    }
    chars.truncate(left);
}

impl Text {
    /// The text without characters.
    pub fn new(alloc: Global) -> Text
        ensures { result ≡ [] }
    {
        Text {
            chars: Vec::new(alloc),
        }
    }

    /// The characters of s.
    pub fn from_str(alloc: Global, s: &str) -> Result<Text, NoMemory>
        ensures { IfOk result (λ t. encode_utf8_all t ≡ s.now) }
    {
        let chars = s.chars().collect(alloc)?;
        Ok(Text { chars })
    }

    /// These characters.
    pub fn from_slice(alloc: Global, chars: &[char]) -> Result<Text, NoMemory>
        ensures { IfOk result (λ t. t ≡ chars.now) }
    {
        let chars = Vec::from_slice(alloc, chars)?;
        Ok(Text { chars })
    }

    /// The characters of a vector, which are not copied.
    pub fn from_vec(chars: Vec<char>) -> Text
        ensures { result ≡ chars.items }
    {
        Text { chars }
    }

    /// Appends a character.
    pub fn push(&mut self, c: char) -> Result<(), NoMemory>
        ensures ok { OnOk result (self.new ≡ self.old ++ c ∷ []) }
        ensures err { OnErr result (self.new ≡ self.old) }
    {
        self.chars.push(c)?;
        Ok(())
    }

    /// Appends these characters.
    pub fn push_slice(&mut self, more: &[char]) -> Result<(), NoMemory>
        ensures ok { OnOk result (self.new ≡ self.old ++ more.now) }
        ensures err { OnErr result (self.new ≡ self.old) }
    {
        self.chars.extend_from_slice(more)?;
        Ok(())
    }

    /// How many characters there are.
    pub fn len(&self) -> usize
        ensures { result ≡ length self.now }
    {
        self.chars.len()
    }

    /// The character at a place counted from 0, or None exactly where the place is the length or more.
    pub fn get(&self, at: usize) -> Option<char>
        ensures { result ≡ slice_get self.now at }
    {
        self.chars.get(at).copied()
    }

    /// The characters, lent.
    pub fn as_slice(&self) -> &[char]
        ensures { result.now ≡ self.now }
    {
        self.chars.as_slice()
    }

    /// Drops all characters but the last.
    pub(crate) fn keep_last(&mut self, left: usize)
        requires { left ≤ length self.old }
        ensures { self.new ≡ drop (length self.old - left) self.old }
    {
        let dropped = self.chars.len() - left;
        if dropped == 0 {
            return;
        }
        shift_down(&mut self.chars, dropped);
    }

    /// A text with the same characters.
    pub fn copy(&self, alloc: Global) -> Result<Text, NoMemory>
        ensures { IfOk result (λ t. t ≡ self.now) }
    {
        Text::from_slice(alloc, self.as_slice())
    }
}

impl PartialEq for Text {
    ghost use Rattle.std.specs.Prelude.{bytes_eq};
    ghost use Rattle.std.specs.Cmp.{partial_equiv_from_equiv};
    ghost use Rattle.std.specs.Cmp.Lexicographic.{nat_list_eq_equiv};

    ghost eq = { bytes_eq };

    ghost laws = { partial_equiv_from_equiv nat_list_eq_equiv };

    fn eq(&self, other: &Text) -> bool {
        self.chars.as_slice() == other.chars.as_slice()
    }
}

impl Eq for Text {
    ghost use Rattle.std.specs.Cmp.Lexicographic.{nat_list_eq_equiv};

    ghost laws = { nat_list_eq_equiv };
}

impl Hash for Text {
    ghost use Rattle.std.proofs.Common.{ap};
    ghost use Rattle.std.specs.Cmp.Lexicographic.{bytes_decides};
    ghost use Rattle.jats_chars.specs.Hashing.{fed_text};

    ghost hash_input = { fed_text };

    ghost respects_eq = { λ x y same. ap fed_text ((bytes_decides x y).0 same) };

    fn hash<H: Hasher>(&self, state: &mut H) {
        feed(self.as_slice(), state);
    }
}

impl MadeWith<Global> for Text {
    fn made_with(alloc: Global) -> Text {
        Text::new(alloc)
    }
}
