//! The table of the semaphores of a device, and the soonest of their deadlines.

ghost use Rattle.std.specs.Prelude.{◌≡◌, ◌<◌, ◌↔◌, ◌++◌, ◌∷◌, [], is_some, length, nat_lt, option_map, slice_get, take, Contains, IfErr, IfOk, IfSome, IsSome, None, OnErr, OnOk, Some};
ghost use Rattle.std.specs.List.{IsDistinct};
ghost use Rattle.std.specs.Map.{keys_of, lookup, remove_entry};
ghost use Rattle.std.specs.Option.{option_copied};
ghost use Rattle.mms_types.specs.Order.{key_eq, key_of};
ghost use Rattle.mms_types.specs.declared.key.Scope.TheVariants.{Vmd};
ghost use Rattle.object_names.specs.Listing.{names_after};
ghost use Rattle.object_names.specs.Scopes.{has_any_of, without_all_of};
ghost use Rattle.mms_time.specs.Bounds.{sooner_of};
ghost use Rattle.mms_time.specs.Deadlines.{first_due, next_due};

use crate::SemaphoreRow;
use crate::due::{first_due, next_due};
use mms_types::{Identifier, Key, Memory, Moment, ObjectName, Scope};
use object_names::{Named, Names, Unplaced};
use std::alloc::Global;
use std::marker::Model;
use token_sem::Deadline;

/// The semaphores of a device under their names. Contracts see the list of the pairs of a name and its semaphore, in
/// the order in which they were made. Beside them a moment is kept that no deadline of any of them comes before, so that
/// they needn't be gone through while it lies ahead.
pub struct Semaphores {
    pub(crate) rows: Named<SemaphoreRow>,
    /// No deadline comes before it.
    pub(crate) soonest: Moment,
    /// Whether a deadline is known to be at it.
    pub(crate) known: bool,
}

impl Model for Semaphores {
    ghost use Rattle.mms_time.specs.Bounds.{IsThere, NoneBefore};
    ghost use Rattle.mms_time.specs.Semaphores.{Rows};

    ghost Value = { Rows };

    ghost view = { λ table. table.rows };

    ghost invariant = { λ table. NoneBefore table.soonest table.rows
        × IsThere table.known table.soonest table.rows };
}

/// The moment that none comes before: of whatever deadlines there may be, none is sooner.
pub(crate) const UNKNOWN: Moment = Moment(0);

/// The last moment of all: that of no deadline at all.
pub(crate) const NEVER: Moment = Moment(u64::MAX);

/// That moment, or that of the deadline where it is sooner.
pub(crate) fn sooner_of(soonest: Moment, due: Option<Deadline>) -> Moment
    ensures { result ≡ sooner_of soonest due }
{
    match due {
        None => soonest,
        Some(due) => {
            if due.at.0 < soonest.0 {
                due.at
            } else {
                soonest
            }
        }
    }
}

impl Semaphores {
    /// A table without semaphores. Nothing is allocated.
    pub fn new(alloc: Global) -> Semaphores
        ensures { result ≡ [] }
    {
        Semaphores {
            rows: Named::new(alloc),
            soonest: NEVER,
            known: false,
        }
    }

    /// How many semaphores there are. No two have the same name.
    pub fn len(&self) -> usize
        ensures count { result ≡ length self.now }
        ensures distinct { IsDistinct key_eq (keys_of self.now) }
    {
        self.rows.len()
    }

    /// The name and the semaphore at a place, counted from 0. None where there are not as many.
    pub fn at(&self, place: usize) -> Option<(&Key, &SemaphoreRow)>
        ensures row { IfSome result (λ row. slice_get self.now place
            ≡ Some (row.0.now, row.1.now)) }
        ensures found { IsSome result ↔ (place < length self.now) }
    {
        self.rows.at(place)
    }

    /// The semaphore of a name. None where there is none of that name. The time does not grow with the table.
    pub fn get(&self, key: &Key) -> Option<&SemaphoreRow>
        ensures value { option_copied result ≡ lookup (key_eq key.now) self.now }
        ensures found { IsSome result ↔ Contains (keys_of self.now) key.now }
    {
        self.rows.get(key)
    }

    /// The semaphore that a client names so, as `get` has it; no key is made of the name.
    pub fn named(&self, client: u32, name: &ObjectName) -> Option<&SemaphoreRow>
        ensures value { option_copied result ≡ lookup (key_eq (key_of client name.now)) self.now }
        ensures found { IsSome result ↔ Contains (keys_of self.now) (key_of client name.now) }
    {
        self.rows.named(client, name)
    }

    /// The semaphore of the VMD of that name, as `named` has it.
    pub fn of_vmd(&self, item: &Identifier) -> Option<&SemaphoreRow>
        ensures value { option_copied result
            ≡ lookup (key_eq (record { scope = Vmd; item = item.now })) self.now }
        ensures found { IsSome result
            ↔ Contains (keys_of self.now) (record { scope = Vmd; item = item.now }) }
    {
        self.rows.of_vmd(item)
    }

    /// Whether any semaphore has a name of that scope. The time grows with the logarithm of the table.
    pub fn has_any_of(&self, scope: &Scope) -> bool
        ensures { result ≡ has_any_of scope.now self.now }
    {
        self.rows.has_any_of(scope)
    }

    /// The names of a scope that come after that one, which need not be there, in order of octets: the first `most` of
    /// them, and whether more are left. The one refusal is want of memory. The time grows with how many are told and with
    /// the logarithm of the table.
    pub fn names_after(
        &self,
        alloc: Global,
        scope: &Scope,
        after: Option<&Identifier>,
        most: usize,
    ) -> Result<Names, Memory>
        ensures list { IfOk result (λ names. names.list
            ≡ take most (names_after scope.now (option_copied after.entry) self.now)) }
        ensures more { IfOk result (λ names. names.more
            ≡ nat_lt most (length (names_after scope.now
            (option_copied after.entry) self.now))) }
    {
        self.rows.names_after(alloc, scope, after, most)
    }

    /// A copy, with the semaphores in the same order. The one refusal is want of memory.
    pub fn copy(&self, alloc: Global) -> Result<Semaphores, Memory>
        ensures { IfOk result (λ table. table ≡ self.now) }
    {
        Ok(Semaphores {
            rows: self.rows.copy(alloc)?,
            soonest: self.soonest,
            known: self.known,
        })
    }

    /// Puts a semaphore under a name that the table does not have: it is the last one. `Unplaced` is want of memory; it
    /// hands back the name and the semaphore, and the table is as before.
    pub fn insert(&mut self, key: Key, value: SemaphoreRow) -> Result<(), Unplaced<SemaphoreRow>>
        requires { lookup (key_eq key) self.old ≡ None }
        ensures placed { OnOk result (self.new ≡ self.old ++ (key, value) ∷ []) }
        ensures back { IfErr result (λ row. (row.key ≡ key) × (row.value ≡ value)) }
        ensures kept { OnErr result (self.new ≡ self.old) }
    {
        let soonest = sooner_of(self.soonest, value.deadline());
        match self.rows.insert(key, value) {
            Err(row) => Err(row),
            Ok(()) => {
                self.soonest = soonest;
                self.known = false;
                Ok(())
            }
        }
    }

    /// Takes a name and its semaphore out. Those behind it move up, and all others stay as they are in their order. None
    /// where there is none of that name.
    pub fn remove(&mut self, key: &Key) -> Option<SemaphoreRow>
        ensures value { result ≡ lookup (key_eq key.now) self.old }
        ensures found { IsSome result ↔ Contains (keys_of self.old) key.now }
        ensures rows { self.new ≡ remove_entry (key_eq key.now) self.old }
    {
        self.known = false;
        self.rows.remove(key)
    }

    /// Takes all semaphores out that have a name of that scope. All others stay as they are, in their order. It takes no
    /// memory, and where there is none the table isn't gone through.
    pub fn remove_all_of(&mut self, scope: &Scope)
        ensures { self.new ≡ without_all_of scope.now self.old }
    {
        self.known = false;
        self.rows.remove_all_of(scope)
    }
}

/// When the least deadline of all semaphores is.
fn soonest_of(semaphores: &Semaphores) -> Option<Moment>
    ensures { result ≡ option_map (λ d. d.at) (first_due semaphores.now) }
{
    match first_due(semaphores) {
        None => None,
        Some(due) => Some(due.at),
    }
}

impl Semaphores {
    /// Whether a deadline is at most that moment. It takes no memory. The semaphores are gone through only where one of
    /// them was changed since `comes_due` was asked, and what was found then doesn't tell.
    pub fn is_due(&self, until: Moment) -> bool
        ensures { result ≡ is_some (next_due until self.now) }
    {
        if until.0 < self.soonest.0 {
            return false;
        }
        if self.known {
            return true;
        }
        next_due(self, until).is_some()
    }

    /// Whether a deadline is due by that moment, where the table may keep what it finds: until a semaphore is changed they
    /// aren't gone through again. The semaphores stay as they are.
    pub fn comes_due(&mut self, until: Moment) -> bool
        ensures due { result ≡ is_some (next_due until self.old) }
        ensures same { self.new ≡ self.old }
    {
        if until.0 < self.soonest.0 {
            return false;
        }
        if self.known {
            return true;
        }
        match soonest_of(self) {
            None => {
                self.soonest = NEVER;
                self.known = false;
                false
            }
            Some(at) => {
                self.soonest = at;
                self.known = true;
                at.0 <= until.0
            }
        }
    }
}

impl Drop for Semaphores {
    fn drop(self) {
        let Semaphores {
            rows: _rows,
            soonest: _,
            known: _,
        } = self;
    }
}
