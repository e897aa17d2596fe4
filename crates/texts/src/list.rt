// A vector that contracts see as the list of its items.
ghost use Rattle.std.specs.Prelude.{◌≡◌, [], ◌∷◌, ◌++◌, OnOk, OnErr, length, ◌==◌};

use std::alloc::{AllocError, Global};
use std::marker::Model;

/// A vector that contracts see as the list of its items.
#[derive(Debug, Drop)]
pub struct List<T> {
    inner: Vec<T>,
}

impl<T> Model for List<T> {
    ghost use Rattle.std.specs.Prelude as std_words;

    ghost Value = { std_words.List T };

    ghost view = { λ list. list.inner.items };
}

impl<T> List<T> {
    /// An empty list. Takes no memory.
    pub fn new(alloc: Global) -> List<T>
        ensures { result ≡ [] }
    {
        List {
            inner: Vec::new(alloc),
        }
    }

    /// All the items, in order.
    pub fn as_slice(&self) -> &[T]
        ensures { result.now ≡ self.now }
    {
        self.inner.as_slice()
    }

    /// How many items there are.
    pub fn len(&self) -> usize
        ensures { result ≡ length self.now }
    {
        self.inner.as_slice().len()
    }

    /// Whether there are no items.
    pub fn is_empty(&self) -> bool
        ensures { result ≡ (length self.now == 0) }
    {
        self.len() == 0
    }

    /// Gives the items back as the vector that holds them. Takes no memory.
    pub fn into_vec(self) -> Vec<T>
        ensures { result.items ≡ self }
    {
        self.inner
    }
}

impl<T: Drop> List<T> {
    /// Adds `item` at the end. After want of memory the list is as it was, and `item` is dropped.
    pub fn push(&mut self, item: T) -> Result<(), AllocError>
        ensures ok { OnOk result (self.new ≡ self.old ++ item ∷ []) }
        ensures err { OnErr result (self.new ≡ self.old) }
    {
        self.inner.push(item)?;
        Ok(())
    }
}

/// Takes the vector over, without memory of its own.
impl<T> From<Vec<T>> for List<T> {
    ghost from_gives = { λ v list. list ≡ v.items };

    fn from(inner: Vec<T>) -> List<T> {
        List { inner }
    }
}
