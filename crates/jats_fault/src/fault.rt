//! Refusals.

ghost use Rattle.std.specs.Prelude.{◌≡◌, [], ◌∷◌, ◌++◌, ◌<◌, length, OnSome, slice_get};
ghost use Rattle.std.specs.Option.{option_copied};

use jats_chars::Text;
use smallvec::SmallVec;
use std::alloc::Global;
use std::marker::Model;

/// Where something is refused: a module, or `-` where there is none, and a number of characters, of bytes or of a
/// line, as the refusal says.
#[derive(Drop)]
pub struct Place {
    pub module: Text,
    pub offset: u64,
}

/// At most three texts, which take no memory of their own. They are seen as a list.
pub struct Details {
    texts: SmallVec<Text, 3>,
}

impl Drop for Details {
    fn drop(self) {
        let Details { texts: _ } = self;
    }
}

impl Model for Details {
    ghost use Rattle.std.specs.Prelude.{List, ℕ, ◌≡◌, ◌≤◌, length};

    ghost Value = { List (List ℕ) };

    ghost view = { λ d. d.texts.items };

    ghost invariant = { λ d. (d.texts.capacity ≡ 3) × (length d.texts.items ≤ 3) };
}

impl Details {
    /// No texts.
    pub fn new(alloc: Global) -> Details
        ensures { result ≡ [] }
    {
        Details {
            texts: SmallVec::new(alloc),
        }
    }

    /// Appends a text to fewer than three.
    pub fn add(&mut self, text: Text)
        requires { length self.old < 3 }
        ensures { self.new ≡ self.old ++ text ∷ [] }
    {
        self.texts.push_reserved(text)
    }

    /// How many texts there are.
    pub fn len(&self) -> usize
        ensures { result ≡ length self.now }
    {
        self.texts.len()
    }

    /// The texts, lent.
    pub fn as_slice(&self) -> &[Text]
        ensures { result.now ≡ self.now }
    {
        self.texts.as_slice()
    }

    /// The text at a place counted from 0, or None exactly where the place is the length or more.
    pub fn get(&self, at: usize) -> Option<&Text>
        ensures value { option_copied result ≡ slice_get self.now at }
        ensures within { OnSome result (at < length self.now) }
    {
        self.as_slice().get(at)
    }
}

/// What is refused: a number of the table of refusals, a place, and details.
#[derive(Drop)]
pub struct Fault {
    pub number: u16,
    pub place: Place,
    pub details: Details,
}
