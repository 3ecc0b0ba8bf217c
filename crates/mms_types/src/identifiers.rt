ghost use Rattle.std.specs.Prelude.{◌≡◌, ◌==◌, ◌≤◌, nat_eq, not, [], ◌∷◌, ◌++◌, OnOk, OnErr, IfOk, filter, length, slice_get};
ghost use Rattle.std.specs.Cmp.Lexicographic.{pointwise};
ghost use Rattle.std.specs.List.{insert};
ghost use Rattle.std.specs.Option.{option_copied};

use crate::{Identifier, Memory};
use std::alloc::Global;
use std::marker::Model;

/// Identifiers in order. Contracts see the list of them.
pub struct Identifiers {
    list: Vec<Identifier>,
}

impl Model for Identifiers {
    ghost use Rattle.std.specs.Prelude.{ℕ, List};

    ghost Value = { List (List ℕ) };

    ghost view = { λ names. names.list.items };
}

impl Identifiers {
    /// No identifiers. Nothing is allocated.
    pub fn new(alloc: Global) -> Identifiers
        ensures { result ≡ [] }
    {
        Identifiers {
            list: Vec::new(alloc),
        }
    }

    /// Appends an identifier. Where there is no memory for it, it is dropped and the list is as before.
    pub fn push(&mut self, name: Identifier) -> Result<(), Memory>
        ensures appended { OnOk result (self.new ≡ self.old ++ name ∷ []) }
        ensures kept { OnErr result (self.new ≡ self.old) }
    {
        self.list.push(name)?;
        Ok(())
    }

    /// Puts an identifier at a place, counted from 0, before those that stand from there on. Where there is no memory
    /// for it, it is dropped and the list is as before.
    pub fn insert(&mut self, place: usize, name: Identifier) -> Result<(), Memory>
        requires { place ≤ length self.old }
        ensures inserted { OnOk result (self.new ≡ insert self.old place name) }
        ensures kept { OnErr result (self.new ≡ self.old) }
    {
        self.list.insert(place, name)?;
        Ok(())
    }

    /// Takes away each one that is this name. It takes no memory.
    pub fn remove(&mut self, name: &Identifier)
        ensures { self.new ≡ filter (λ other. not (pointwise nat_eq other name.now)) self.old }
    {
        self.list.retain(|other| *other != *name);
    }

    /// The identifiers.
    pub fn as_slice(&self) -> &[Identifier]
        ensures { result.now ≡ self.now }
    {
        &self.list
    }

    /// The identifier at a place of the list, counted from 0. None where the list is not as long.
    pub fn at(&self, place: usize) -> Option<&Identifier>
        ensures { option_copied result ≡ slice_get self.now place }
    {
        self.list.get(place)
    }

    /// How many there are.
    pub fn len(&self) -> usize
        ensures { result ≡ length self.now }
    {
        self.list.len()
    }

    /// Whether there is none.
    pub fn is_empty(&self) -> bool
        ensures { result ≡ (length self.now == 0) }
    {
        self.list.is_empty()
    }

    /// A copy.
    pub fn copy(&self, alloc: Global) -> Result<Identifiers, Memory>
        ensures { IfOk result (λ names. names ≡ self.now) }
    {
        let mut names = Identifiers::new(alloc);
        for name in &self.list {
            names.push(name.copy(alloc)?)?;
        }
        Ok(names)
    }
}

/// The identifiers of a vector, in its order.
impl From<Vec<Identifier>> for Identifiers {
    ghost from_gives = { λ list names. names ≡ list.items };

    fn from(list: Vec<Identifier>) -> Identifiers {
        Identifiers { list }
    }
}

impl Drop for Identifiers {
    fn drop(self) {
        let Identifiers { list: _list } = self;
    }
}
