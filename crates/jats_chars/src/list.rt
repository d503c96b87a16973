//! Lists.

ghost use Rattle.std.specs.Prelude.{◌≡◌, [], ◌∷◌, ◌++◌, ◌<◌, length, take, slice_get, IfOk, OnOk, OnErr, OnSome};
ghost use Rattle.std.specs.Option.{option_copied};

use crate::{Name, NoMemory, Text};
use std::alloc::Global;
use std::marker::Model;

/// Items in order, seen as a list. A type may hold itself through it.
#[derive(Debug, Drop)]
pub struct ListOf<T> {
    items: Vec<T>,
}

impl<T> Model for ListOf<T> {
    ghost use Rattle.std.specs.Prelude.{List};
    ghost use Rattle.std.specs.Coded.{coded_list};

    ghost Value = { List T };

    ghost coded = { coded_list T.code };

    ghost view = { λ it. it.items.items };
}

impl<T> ListOf<T> {
    /// The empty list.
    pub fn new(alloc: Global) -> ListOf<T>
        ensures { result ≡ [] }
    {
        ListOf {
            items: Vec::new(alloc),
        }
    }

    /// The items of a vector, which are not copied.
    pub fn from_vec(items: Vec<T>) -> ListOf<T>
        ensures { result ≡ items.items }
    {
        ListOf { items }
    }

    /// How many items there are.
    pub fn len(&self) -> usize
        ensures { result ≡ length self.now }
    {
        self.items.len()
    }

    /// The items, lent.
    pub fn as_slice(&self) -> &[T]
        ensures { result.now ≡ self.now }
    {
        self.items.as_slice()
    }

    /// The item at a place counted from 0, or None exactly where the place is the length or more.
    pub fn get(&self, at: usize) -> Option<&T>
        ensures value { option_copied result ≡ slice_get self.now at }
        ensures within { OnSome result (at < length self.now) }
    {
        self.items.get(at)
    }
}

impl<T: Drop> ListOf<T> {
    /// Appends an item.
    pub fn push(&mut self, item: T) -> Result<(), NoMemory>
        ensures ok { OnOk result (self.new ≡ self.old ++ item ∷ []) }
        ensures err { OnErr result (self.new ≡ self.old) }
    {
        self.items.push(item)?;
        Ok(())
    }

    /// Keeps the first `len` items, or all where there are no more.
    pub fn truncate(&mut self, len: usize)
        ensures { self.new ≡ take len self.old }
    {
        self.items.truncate(len);
    }
}

impl ListOf<Text> {
    /// A list of the same texts.
    pub fn copy(&self, alloc: Global) -> Result<ListOf<Text>, NoMemory>
        ensures { IfOk result (λ it. it ≡ self.now) }
    {
        let mut texts = ListOf::new(alloc);
        for text in self.as_slice() {
            texts.push(text.copy(alloc)?)?;
        }
        Ok(texts)
    }
}

impl ListOf<Name> {
    /// A list of the same names.
    pub fn copy(&self, alloc: Global) -> Result<ListOf<Name>, NoMemory>
        ensures { IfOk result (λ it. it ≡ self.now) }
    {
        let mut names = ListOf::new(alloc);
        for name in self.as_slice() {
            names.push(name.copy(alloc)?)?;
        }
        Ok(names)
    }
}
