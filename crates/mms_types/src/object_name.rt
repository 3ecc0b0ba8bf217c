ghost use Rattle.std.specs.Prelude.{◌≡◌, IfOk};
ghost use Rattle.mms_types.specs.Order.{key_of};

use crate::{Identifier, Key, Listed, Memory, Scope};
use std::alloc::Global;

/// The name of an object as a PDU gives it (ISO 9506-2, ObjectName).
pub enum ObjectName {
    /// A vmd-specific name.
    Vmd(Identifier),
    /// A domain-specific name.
    Domain {
        domain: Identifier,
        item: Identifier,
    },
    /// An aa-specific name: it belongs to the association on which it is given.
    Association(Identifier),
}

/// Names in order. Contracts see the list of them.
pub type ObjectNames = Listed<ObjectName>;

impl ObjectName {
    /// A copy.
    pub fn copy(&self, alloc: Global) -> Result<ObjectName, Memory>
        ensures { IfOk result (λ name. name ≡ self.now) }
    {
        match self {
            ObjectName::Vmd(item) => Ok(ObjectName::Vmd(item.copy(alloc)?)),
            ObjectName::Domain { domain, item } => Ok(ObjectName::Domain {
                domain: domain.copy(alloc)?,
                item: item.copy(alloc)?,
            }),
            ObjectName::Association(item) => Ok(ObjectName::Association(item.copy(alloc)?)),
        }
    }

    /// The key of the object that a client's PDU names so.
    pub fn key(&self, alloc: Global, client: u32) -> Result<Key, Memory>
        ensures { IfOk result (λ key. key ≡ key_of client self.now) }
    {
        let (scope, item) = match self {
            ObjectName::Vmd(item) => (Scope::Vmd, item),
            ObjectName::Domain { domain, item } => (Scope::Domain(domain.copy(alloc)?), item),
            ObjectName::Association(item) => (Scope::Association(client), item),
        };
        Ok(Key {
            scope,
            item: item.copy(alloc)?,
        })
    }
}

impl Drop for ObjectName {
    fn drop(self) {
        match self {
            ObjectName::Vmd(_x) => {}
            ObjectName::Domain {
                domain: _x,
                item: _y,
            } => {}
            ObjectName::Association(_x) => {}
        }
    }
}
