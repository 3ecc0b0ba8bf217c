ghost use Rattle.std.specs.Prelude.{◌≡◌, take, length, nat_lt, IfOk, IsPermutation, IsSorted};
ghost use Rattle.std.specs.Option.{option_copied};
ghost use Rattle.mms_types.specs.Order.{name_order};
ghost use Rattle.object_names.specs.Listing.{names_after, sorted_names};

use crate::Named;
use crate::borrowed::ScopeRef;
use crate::index::names_after;
use mms_types::{Identifier, Identifiers, Memory, Scope};
use std::alloc::Global;

/// Some names of a scope, and whether there are more.
#[derive(Drop)]
pub struct Names {
    /// The names, in order of octets.
    pub list: Identifiers,
    /// Whether names are left that come after these.
    pub more: bool,
}

/// Names in order of octets are the same names, each as often as before, and none comes before the one in
/// front of it.
#[tactic(auto, using(crate::proofs::NameOrder::same_names, crate::proofs::NameOrder::stand_in_order))]
pub fn names_stand_in_order(names: &Identifiers)
    ensures same { IsPermutation names.now (sorted_names names.now) }
    ensures sorted { IsSorted name_order (sorted_names names.now) }
{}

impl<T: Drop> Named<T> {
    /// The names of a scope that come after that one, which the table need not have, in order of octets:
    /// the first `most` of them, and whether more are left. The one refusal is want of memory. The time grows with how
    /// many are told and with the logarithm of the table.
    pub fn names_after(
        &self,
        alloc: Global,
        scope: &Scope,
        after: Option<&Identifier>,
        most: usize,
    ) -> Result<Names, Memory>
        ensures list { IfOk result (λ names. names.list
            ≡ take most (names_after scope.now (option_copied after.entry) self.now)) }
        ensures more { IfOk result (λ names. names.more
            ≡ nat_lt most (length (names_after scope.now
            (option_copied after.entry) self.now))) }
    {
        let scope = ScopeRef::of(scope);
        names_after(alloc, &self.rows, &self.places, scope, after, most)
    }
}
