ghost use Rattle.std.specs.Prelude.{◌≡◌, ◌==◌, [], ◌∷◌, ◌++◌, OnOk, OnErr, length, slice_get};
ghost use Rattle.std.specs.Option.{option_copied};

use crate::Memory;
use std::alloc::Global;
use std::marker::Model;

/// Items in order. Contracts see the list of them.
pub struct Listed<T: Drop> {
    list: Vec<T>,
}

impl<T: Drop> Model for Listed<T> {
    ghost use Rattle.std.specs.Prelude.{List};

    ghost Value = { List T };

    ghost view = { λ items. items.list.items };
}

impl<T: Drop> Listed<T> {
    /// No items. Nothing is allocated.
    pub fn new(alloc: Global) -> Listed<T>
        ensures { result ≡ [] }
    {
        Listed {
            list: Vec::new(alloc),
        }
    }

    /// Appends an item. Where there is no memory for it, it is dropped and the list is as before.
    pub fn push(&mut self, item: T) -> Result<(), Memory>
        ensures appended { OnOk result (self.new ≡ self.old ++ item ∷ []) }
        ensures kept { OnErr result (self.new ≡ self.old) }
    {
        self.list.push(item)?;
        Ok(())
    }

    /// The items.
    pub fn as_slice(&self) -> &[T]
        ensures { result.now ≡ self.now }
    {
        &self.list
    }

    /// The items, given away.
    pub fn into_vec(self) -> Vec<T>
        ensures { result.items ≡ self }
    {
        let Listed { list } = self;
        list
    }

    /// The item at a place of the list, counted from 0. None where the list is not as long.
    pub fn at(&self, place: usize) -> Option<&T>
        ensures { option_copied result ≡ slice_get self.now place }
    {
        self.list.get(place)
    }

    /// How many there are.
    pub fn len(&self) -> usize
        ensures { result ≡ length self.now }
    {
        self.list.len()
    }

    /// Whether there is none.
    pub fn is_empty(&self) -> bool
        ensures { result ≡ (length self.now == 0) }
    {
        self.list.is_empty()
    }
}

/// The items of a vector, in its order.
impl<T: Drop> From<Vec<T>> for Listed<T> {
    ghost from_gives = { λ list items. items ≡ list.items };

    fn from(list: Vec<T>) -> Listed<T> {
        Listed { list }
    }
}

impl<T: Drop> Drop for Listed<T> {
    fn drop(self) {
        let Listed { list: _list } = self;
    }
}
