ghost use Rattle.std.specs.Prelude.{◌≡◌, IfOk, refl};
ghost use Rattle.std.specs.Ordering.{as_partial_cmp};
ghost use Rattle.std.specs.Cmp.{partial_equiv_from_equiv};
ghost use Rattle.mms_types.specs.Order.{scope_order, key_order, scope_eq, key_eq};
ghost use Rattle.mms_types.specs.KeyLaws.{scopes_total, keys_total, scopes_tie, keys_tie, scopes_equal, keys_equal, scopes_in_order, keys_in_order};

use crate::{Identifier, Memory};
use std::alloc::Global;
use std::cmp::Ordering;

/// Where the name of an object belongs (ISO 9506-1, the scope of names). Scopes are ordered: the
/// VMD, then the domains by name, then the associations by client.
#[derive(Hash)]
pub enum Scope {
    /// The whole device.
    Vmd,
    /// The domain of that name.
    Domain(Identifier),
    /// The association of the client of that number.
    Association(u32),
}

/// A name in its scope. Keys are ordered by scope, and in one scope by the octets of the name.
#[derive(Hash)]
pub struct Key {
    /// Where the name belongs.
    pub scope: Scope,
    /// The name.
    pub item: Identifier,
}

impl Scope {
    /// A copy.
    pub fn copy(&self, alloc: Global) -> Result<Scope, Memory>
        ensures { IfOk result (λ scope. scope ≡ self.now) }
    {
        match self {
            Scope::Vmd => Ok(Scope::Vmd),
            Scope::Domain(domain) => Ok(Scope::Domain(domain.copy(alloc)?)),
            Scope::Association(client) => Ok(Scope::Association(*client)),
        }
    }
}

impl Key {
    /// A copy.
    pub fn copy(&self, alloc: Global) -> Result<Key, Memory>
        ensures { IfOk result (λ key. key ≡ self.now) }
    {
        Ok(Key {
            scope: self.scope.copy(alloc)?,
            item: self.item.copy(alloc)?,
        })
    }
}

impl PartialEq for Scope {
    ghost eq = { scope_eq };

    ghost laws = { partial_equiv_from_equiv scopes_equal };

    fn eq(&self, other: &Scope) -> bool {
        match (self, other) {
            (Scope::Vmd, Scope::Vmd) => true,
            (Scope::Domain(domain), Scope::Domain(other)) => domain == other,
            (Scope::Association(client), Scope::Association(other)) => client == other,
            _ => false,
        }
    }
}

impl Eq for Scope {
    ghost laws = { scopes_equal };
}

impl Ord for Scope {
    ghost cmp = { scope_order };

    ghost total = { scopes_total };

    ghost matches_partial_cmp = { λ _ _. refl };

    ghost matches_eq = { scopes_tie };

    fn cmp(&self, other: &Scope) -> Ordering {
        match (self, other) {
            (Scope::Vmd, Scope::Vmd) => Ordering::Equal,
            (Scope::Vmd, _) => Ordering::Less,
            (_, Scope::Vmd) => Ordering::Greater,
            (Scope::Domain(domain), Scope::Domain(other)) => domain.cmp(other),
            (Scope::Domain(_), Scope::Association(_)) => Ordering::Less,
            (Scope::Association(_), Scope::Domain(_)) => Ordering::Greater,
            (Scope::Association(client), Scope::Association(other)) => client.cmp(other),
        }
    }
}

impl PartialOrd for Scope {
    ghost partial_cmp = { as_partial_cmp scope_order };

    ghost laws = { scopes_in_order };

    fn partial_cmp(&self, other: &Scope) -> Option<Ordering> {
        Some(self.cmp(other))
    }
}

impl PartialEq for Key {
    ghost eq = { key_eq };

    ghost laws = { partial_equiv_from_equiv keys_equal };

    fn eq(&self, other: &Key) -> bool {
        self.scope == other.scope && self.item == other.item
    }
}

impl Eq for Key {
    ghost laws = { keys_equal };
}

impl Ord for Key {
    ghost cmp = { key_order };

    ghost total = { keys_total };

    ghost matches_partial_cmp = { λ _ _. refl };

    ghost matches_eq = { keys_tie };

    fn cmp(&self, other: &Key) -> Ordering {
        let scopes = self.scope.cmp(&other.scope);
        scopes.then_with(|| self.item.cmp(&other.item))
    }
}

impl PartialOrd for Key {
    ghost partial_cmp = { as_partial_cmp key_order };

    ghost laws = { keys_in_order };

    fn partial_cmp(&self, other: &Key) -> Option<Ordering> {
        Some(self.cmp(other))
    }
}

impl Drop for Scope {
    fn drop(self) {
        match self {
            Scope::Vmd => {}
            Scope::Domain(_domain) => {}
            Scope::Association(_) => {}
        }
    }
}

impl Drop for Key {
    fn drop(self) {
        let Key {
            scope: _scope,
            item: _item,
        } = self;
    }
}
