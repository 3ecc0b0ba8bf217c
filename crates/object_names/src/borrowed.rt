//! Keys whose texts stand elsewhere: a name is looked up as a client gives it, and no key is made of it.
ghost use Rattle.std.specs.Prelude.{◌≡◌, ◌↔◌, Contains, IsSome};
ghost use Rattle.std.proofs.Common.{sym};
ghost use Rattle.std.specs.Map.{lookup, keys_of};
ghost use Rattle.std.specs.Option.{option_copied};
ghost use Rattle.mms_types.specs.KeyLaws.{keys_equal};
ghost use Rattle.mms_types.specs.Order.{key_eq, key_of, scope_eq};
ghost use Rattle.mms_types.specs.declared.key.Scope.TheVariants.{Vmd};
ghost use Rattle.object_names.specs.Borrowed.{key_meant, scope_meant};
ghost use Rattle.object_names.specs.BorrowedHash.{keys_alike, keys_hash};

use crate::Named;
use indexmap::Equivalent;
use mms_types::{Identifier, Key, ObjectName, Scope};

/// Where a name belongs, as `Scope`.
#[derive(Clone, Copy, PartialEq, Eq, Hash)]
pub enum ScopeRef<'a> {
    Vmd,
    Domain(&'a Identifier),
    Association(u32),
}

/// A name in its scope, as `Key`.
#[derive(Clone, Copy, PartialEq, Eq, Hash)]
pub struct KeyRef<'a> {
    scope: ScopeRef<'a>,
    item: &'a Identifier,
}

impl<'a> KeyRef<'a> {
    /// The key of the object that a client's PDU names so.
    pub fn of(client: u32, name: &'a ObjectName) -> KeyRef<'a>
        ensures { key_meant result ≡ key_of client name.now }
    {
        match name {
            ObjectName::Vmd(item) => KeyRef {
                scope: ScopeRef::Vmd,
                item,
            },
            ObjectName::Domain { domain, item } => KeyRef {
                scope: ScopeRef::Domain(domain),
                item,
            },
            ObjectName::Association(item) => KeyRef {
                scope: ScopeRef::Association(client),
                item,
            },
        }
    }
}

impl<'a> KeyRef<'a> {
    /// The key of the object of the VMD that has that name.
    fn of_vmd(item: &'a Identifier) -> KeyRef<'a>
        ensures { key_meant result ≡ record { scope = Vmd; item = item.now } }
    {
        KeyRef {
            scope: ScopeRef::Vmd,
            item,
        }
    }

    /// Whether it is that key.
    pub fn is(&self, key: &Key) -> bool
        ensures { result ≡ key_eq (key_meant self.entry.now) key.now }
    {
        self.scope.is(&key.scope) && *self.item == key.item
    }
}

impl<'a> ScopeRef<'a> {
    pub(crate) fn is(self, scope: &Scope) -> bool
        ensures { result ≡ scope_eq (scope_meant self.entry) scope.now }
    {
        match (self, scope) {
            (ScopeRef::Vmd, Scope::Vmd) => true,
            (ScopeRef::Domain(domain), Scope::Domain(other)) => *domain == *other,
            (ScopeRef::Association(client), Scope::Association(other)) => client == *other,
            _ => false,
        }
    }
}

impl<'a> Equivalent<Key> for KeyRef<'a> {
    ghost equivalent = { λ q. key_eq (key_meant q) };

    ghost respects_hash = { keys_hash };

    ghost respects_eq = { λ q. keys_equal.congr (key_meant q) };

    fn equivalent(&self, key: &Key) -> bool {
        self.is(key)
    }
}

/// A key stands for the borrowed name that is the same.
impl<'a, 'k> Equivalent<KeyRef<'a>> for &'k Key {
    ghost equivalent = { λ q k. key_eq (key_meant k) q.now };

    ghost respects_hash = { λ q k same. sym (keys_hash k q.now same) };

    ghost respects_eq = { keys_alike };

    fn equivalent(&self, key: &KeyRef<'a>) -> bool {
        key.is(*self)
    }
}

impl<T: Drop> Named<T> {
    /// The value under the name that a client gives, as `get` has it; no key is made of the name. None where the table
    /// does not have it. The time does not grow with the table.
    #[tactic(auto, using(crate::proofs::Found::found_shared))]
    pub fn named(&self, client: u32, name: &ObjectName) -> Option<&T>
        ensures value { option_copied result ≡ lookup (key_eq (key_of client name.now)) self.now }
        ensures found { IsSome result ↔ Contains (keys_of self.now) (key_of client name.now) }
    {
        self.rows.get(KeyRef::of(client, name))
    }

    /// The value under a name of the VMD, as `named` has it.
    #[tactic(auto, using(crate::proofs::Found::found_shared))]
    pub fn of_vmd(&self, item: &Identifier) -> Option<&T>
        ensures value { option_copied result
            ≡ lookup (key_eq (record { scope = Vmd; item = item.now })) self.now }
        ensures found { IsSome result
            ↔ Contains (keys_of self.now) (record { scope = Vmd; item = item.now }) }
    {
        self.rows.get(KeyRef::of_vmd(item))
    }
}
