//! The table of journals.

ghost use Rattle.std.specs.Prelude.{◌≡◌, ◌==◌, ◌<◌, ◌≤◌, ◌↔◌, [], IfOk, IfSome, IsSome, Some, length, nat_lt, slice_get, take};
ghost use Rattle.std.specs.List.{IsDistinct};
ghost use Rattle.std.specs.Map.{keys_of};
ghost use Rattle.std.specs.Option.{option_copied};
ghost use Rattle.mms_types.specs.Order.{key_eq};
ghost use Rattle.object_names.specs.Listing.{names_after};
ghost use Rattle.object_names.specs.Scopes.{has_any_of};
ghost use Rattle.mms_journal.specs.Journals.{journal};
ghost use Rattle.mms_journal.specs.Services.{without_client};

use crate::Journal;
use mms_types::{Identifier, Key, Memory, ObjectName, Scope};
use object_names::{Named, Names};
use std::alloc::Global;
use std::marker::Model;

/// The journals of a device (ISO 9506-1, journal management). Contracts see the list of them under their names, in the
/// order in which they were made.
pub struct Journals {
    pub(crate) rows: Named<Journal>,
}

impl Model for Journals {
    ghost use Rattle.std.specs.Prelude.{◌≤◌, length};
    ghost use Rattle.mms_journal.specs.Journals.{Rows};
    ghost use Rattle.std.specs.Coded.{codes};
    ghost use Rattle.mms_types.specs.DatumCode.{datum_code};

    ghost Value = { Rows };

    ghost coded = { Prim.hlevel (codes, datum_code) };

    ghost view = { λ journals. journals.rows };

    ghost invariant = { λ journals. length journals.rows ≤ 64 };
}

impl Journals {
    /// No journals. Nothing is allocated.
    pub fn new(alloc: Global) -> Journals
        ensures { result ≡ [] }
    {
        Journals {
            rows: Named::new(alloc),
        }
    }

    /// How many journals there are: at most 64, and no two of one name.
    pub fn len(&self) -> usize
        ensures count { result ≡ length self.now }
        ensures most { length self.now ≤ 64 }
        ensures distinct { IsDistinct key_eq (keys_of self.now) }
    {
        self.rows.len()
    }

    /// Whether there is none.
    pub fn is_empty(&self) -> bool
        ensures { result ≡ (length self.now == 0) }
    {
        self.rows.is_empty()
    }

    /// The name and the journal at a place, counted from 0 in the order in which they were made. None exactly where
    /// there are not as many. It takes no memory.
    pub fn at(&self, place: usize) -> Option<(&Key, &Journal)>
        ensures row { IfSome result (λ row. slice_get self.now place
            ≡ Some (row.0.now, row.1.now)) }
        ensures found { IsSome result ↔ (place < length self.now) }
    {
        self.rows.at(place)
    }

    /// The journal that a client names so: None exactly where it is missing. The time doesn't grow with the table.
    pub fn named(&self, client: u32, name: &ObjectName) -> Option<&Journal>
        ensures { option_copied result ≡ journal client name.now self.now }
    {
        self.rows.named(client, name)
    }

    /// Whether some journal has a name of that scope. It takes no memory.
    pub fn has_any_of(&self, scope: &Scope) -> bool
        ensures { result ≡ has_any_of scope.now self.now }
    {
        self.rows.has_any_of(scope)
    }

    /// The names of journals of a scope that come after that one, which need not be there, in order of octets: the
    /// first `most` of them, and whether more are left (ISO 9506-2, GetNameList). The one refusal is want of memory.
    pub fn names_after(
        &self,
        alloc: Global,
        scope: &Scope,
        after: Option<&Identifier>,
        most: usize,
    ) -> Result<Names, Memory>
        ensures list { IfOk result (λ names. names.list
            ≡ take most (names_after scope.now (option_copied after.entry) self.now)) }
        ensures more { IfOk result (λ names. names.more
            ≡ nat_lt most (length (names_after scope.now
            (option_copied after.entry) self.now))) }
    {
        self.rows.names_after(alloc, scope, after, most)
    }

    /// A client is lost: the journals of its association are removed. All others stay, with the entries that it wrote
    /// into them. It takes no memory.
    #[tactic(auto, using(object_names::proofs::Fewer::still_few))]
    pub fn lose(&mut self, client: u32)
        ensures { self.new ≡ without_client client self.old }
    {
        self.rows.remove_all_of(&Scope::Association(client));
    }

    /// A copy, with its rows in the same order. The one refusal is want of memory.
    pub fn copy(&self, alloc: Global) -> Result<Journals, Memory>
        ensures { IfOk result (λ journals. journals ≡ self.now) }
    {
        Ok(Journals {
            rows: self.rows.copy(alloc)?,
        })
    }
}

impl Drop for Journals {
    fn drop(self) {
        let Journals { rows: _rows } = self;
    }
}
