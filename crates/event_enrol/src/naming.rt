//! What a client calls the object of a key.
ghost use Rattle.std.specs.Prelude.{◌≡◌, IfOk};
ghost use Rattle.event_enrol.specs.Enrolments.{name_of};

use mms_types::{Key, Memory, ObjectName, Scope};
use std::alloc::Global;

/// How the client whose names it has names the object of a key: what belongs to its association it names by the name
/// alone. The one refusal is want of memory.
pub(crate) fn name_of(alloc: Global, key: &Key) -> Result<ObjectName, Memory>
    ensures { IfOk result (λ name. name ≡ name_of key.now) }
{
    match &key.scope {
        Scope::Vmd => Ok(ObjectName::Vmd(key.item.copy(alloc)?)),
        Scope::Domain(domain) => Ok(ObjectName::Domain {
            domain: domain.copy(alloc)?,
            item: key.item.copy(alloc)?,
        }),
        Scope::Association(_) => Ok(ObjectName::Association(key.item.copy(alloc)?)),
    }
}
