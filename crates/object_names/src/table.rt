ghost use Rattle.std.specs.Prelude.{◌≡◌, ◌+◌, ◌<◌, ◌≤◌, not, true, ◌==◌, ◌↔◌, [], ◌∷◌, ◌++◌, drop, length, slice_get, take, vec_capacity, vec_len, Contains, OnOk, IfErr, OnErr, IfSome, IsSome, None, Some, ⊤};
ghost use Rattle.std.specs.Option.{option_copied};
ghost use Rattle.std.specs.Map.{lookup, remove_entry, keys_of};
ghost use Rattle.std.specs.List.{IsDistinct};
ghost use Rattle.mms_types.specs.Order.{key_eq, scope_eq};
ghost use Rattle.object_names.specs.Scopes.{has_any_of, without_all_of};

use crate::borrowed::ScopeRef;
use crate::index::{Keeps, first_place, has_any_of, leave};
use indexmap::IndexMap;
use mms_types::{Key, Memory, Scope};
use std::alloc::{AllocFailed, Global};
use std::marker::Model;

/// Values under names, each name once. Contracts see the list of the pairs of a name and its value, in
/// the order in which they were put in.
pub struct Named<T: Drop> {
    pub(crate) rows: IndexMap<Key, T>,
    /// The places of the rows in order of their names.
    pub(crate) places: Vec<usize>,
    /// Room for a number for each row, in which rows are numbered where some go.
    pub(crate) ranks: Vec<usize>,
}

impl<T: Drop> Model for Named<T> {
    ghost use Rattle.std.specs.Prelude.{List};
    ghost use Rattle.mms_types.specs.declared.key.Key.{Key};

    ghost Value = { List (Key × T) };

    ghost use Rattle.object_names.specs.Index.{IsIndexOf};
    ghost use Rattle.std.specs.Map.{keys_of};
    ghost use Rattle.std.specs.Prelude.{◌≤◌, length};

    ghost view = { λ table. table.rows.entries };

    ghost invariant = { λ table. IsIndexOf (keys_of table.rows.entries) table.places.items
        × (length table.rows.entries ≤ length table.ranks.items) };
}

/// There was no memory for one more row. Here is what it was to hold.
#[derive(Drop)]
pub struct Unplaced<T: Drop> {
    /// The name.
    pub key: Key,
    /// Its value.
    pub value: T,
}

/// Where what the row was to hold is not wanted again.
impl<T: Drop> From<Unplaced<T>> for Memory {
    ghost from_gives = { λ _ _. ⊤ };

    fn from(_unplaced: Unplaced<T>) -> Memory {
        Memory::wanting()
    }
}

/// Makes room for one more row. False is want of memory; what is there stays either way.
fn make_room(places: &mut Vec<usize>, ranks: &mut Vec<usize>, rows: usize) -> bool
    requires { rows ≤ length ranks.old.items }
    ensures same { places.new.items ≡ places.old.items }
    ensures enough { rows ≤ length ranks.new.items }
    ensures place { result ≡ true → vec_len places.new + 1 ≤ vec_capacity places.new }
    ensures rank { result ≡ true → rows + 1 ≤ length ranks.new.items }
{
    if places.reserve(1).is_err() {
        return false;
    }
    if ranks.len() > rows {
        return true;
    }
    ranks.push(0).is_ok()
}

/// Puts a place among others, for which there is room.
fn put_place(places: &mut Vec<usize>, front: usize, place: usize)
    requires within { front ≤ length places.old.items }
    requires room { vec_len places.old + 1 ≤ vec_capacity places.old }
    ensures { places.new.items ≡ take front places.old.items ++ place
        ∷ drop front places.old.items }
{
    let Ok(()) = places.insert(front, place) else {
        unreachable!()
    };
}

/// Puts a value under a name that the rows do not have, as `Named::insert` does.
pub(crate) fn put_row<T: Drop>(
    rows: &mut IndexMap<Key, T>,
    key: Key,
    value: T,
) -> Result<(), Unplaced<T>>
    requires { lookup (key_eq key) rows.old.entries ≡ None }
    ensures placed { OnOk result (rows.new.entries ≡ rows.old.entries ++ (key, value) ∷ []) }
    ensures back { IfErr result (λ row. (row.key ≡ key) × (row.value ≡ value)) }
    ensures kept { OnErr result (rows.new.entries ≡ rows.old.entries) }
{
    match rows.insert(key, value) {
        Ok(_) => Ok(()),
        Err(AllocFailed { value }) => {
            let (key, value) = value;
            Err(Unplaced { key, value })
        }
    }
}

/// The rows that have another name.
#[derive(Drop)]
struct Others<'a> {
    key: &'a Key,
}

impl<'a, T: Drop> Keeps<T> for Others<'a> {
    ghost stays = { λ by row. not (key_eq by.key.now row.0) };

    fn stays(&self, key: &Key, _value: &T) -> bool {
        *self.key != *key
    }
}

/// The rows that have a name of another scope.
#[derive(Drop)]
struct Outside<'a> {
    scope: &'a Scope,
}

impl<'a, T: Drop> Keeps<T> for Outside<'a> {
    ghost stays = { λ by row. not (scope_eq row.0.scope by.scope.now) };

    fn stays(&self, key: &Key, _value: &T) -> bool {
        key.scope != *self.scope
    }
}

impl<T: Drop> Named<T> {
    /// A table without rows. Nothing is allocated.
    pub fn new(alloc: Global) -> Named<T>
        ensures { result ≡ [] }
    {
        Named {
            rows: IndexMap::new(alloc),
            places: Vec::new(alloc),
            ranks: Vec::new(alloc),
        }
    }

    /// How many rows there are. No two have the same name.
    pub fn len(&self) -> usize
        ensures count { result ≡ length self.now }
        ensures distinct { IsDistinct key_eq (keys_of self.now) }
    {
        self.rows.len()
    }

    /// Whether there is no row.
    pub fn is_empty(&self) -> bool
        ensures { result ≡ (length self.now == 0) }
    {
        self.rows.is_empty()
    }

    /// Puts a value under a name that the table does not have: the new row is the last one. `Unplaced`
    /// is want of memory; it hands back the name and the value, and the table is as before.
    pub fn insert(&mut self, key: Key, value: T) -> Result<(), Unplaced<T>>
        requires { lookup (key_eq key) self.old ≡ None }
        ensures placed { OnOk result (self.new ≡ self.old ++ (key, value) ∷ []) }
        ensures back { IfErr result (λ row. (row.key ≡ key) × (row.value ≡ value)) }
        ensures kept { OnErr result (self.new ≡ self.old) }
    {
        let place = self.rows.len();
        if !make_room(&mut self.places, &mut self.ranks, place) {
            return Err(Unplaced { key, value });
        }
        let scope = ScopeRef::of(&key.scope);
        let front = first_place(&self.rows, &self.places, scope, Some(&key.item));
        match put_row(&mut self.rows, key, value) {
            Err(row) => Err(row),
            Ok(()) => {
                put_place(&mut self.places, front, place);
                Ok(())
            }
        }
    }

    /// The value under a name. None where the table does not have the name. The time does not grow with
    /// the table.
    #[tactic(auto, using(crate::proofs::Found::found_shared))]
    pub fn get(&self, key: &Key) -> Option<&T>
        ensures value { option_copied result ≡ lookup (key_eq key.now) self.now }
        ensures found { IsSome result ↔ Contains (keys_of self.now) key.now }
    {
        self.rows.get(key)
    }

    /// Takes a name and its value out. The rows behind it move up, and all others stay as they are in
    /// their order. None where the table does not have the name.
    #[tactic(auto, using(crate::proofs::Found::found))]
    pub fn remove(&mut self, key: &Key) -> Option<T>
        ensures value { result ≡ lookup (key_eq key.now) self.old }
        ensures found { IsSome result ↔ Contains (keys_of self.old) key.now }
        ensures rows { self.new ≡ remove_entry (key_eq key.now) self.old }
    {
        if !self.rows.contains_key(key) {
            return None;
        }
        let _distinct = self.rows.len();
        leave(
            &self.rows,
            &mut self.places,
            &mut self.ranks,
            &Others { key },
        );
        self.rows.shift_remove(key)
    }

    /// Whether any row has a name of that scope. The time grows with the logarithm of the table.
    pub fn has_any_of(&self, scope: &Scope) -> bool
        ensures { result ≡ has_any_of scope.now self.now }
    {
        has_any_of(&self.rows, &self.places, ScopeRef::of(scope))
    }

    /// Takes all rows out that have a name of that scope. All others stay as they are, in their order. It takes no
    /// memory, and where there is none the table isn't gone through.
    pub fn remove_all_of(&mut self, scope: &Scope)
        ensures { self.new ≡ without_all_of scope.now self.old }
    {
        if !has_any_of(&self.rows, &self.places, ScopeRef::of(scope)) {
            return;
        }
        leave(
            &self.rows,
            &mut self.places,
            &mut self.ranks,
            &Outside { scope },
        );
        self.rows.retain(
            |key: &Key, value: &mut T| -> bool
                ensures { (result ≡ not (scope_eq key.now.scope scope.entry.now))
                    × (value.new ≡ value.old) }
            { key.scope != *scope },
        );
    }

    /// The name and the value at a place, counted from 0. None where there are not as many rows.
    pub fn at(&self, place: usize) -> Option<(&Key, &T)>
        ensures row { IfSome result (λ row. slice_get self.now place
            ≡ Some (row.0.now, row.1.now)) }
        ensures found { IsSome result ↔ (place < length self.now) }
    {
        self.rows.get_index(place)
    }
}

impl<T: Drop> Drop for Named<T> {
    fn drop(self) {
        let Named {
            rows: _rows,
            places: _places,
            ranks: _ranks,
        } = self;
    }
}
