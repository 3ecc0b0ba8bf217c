//! Which enrollments go.
ghost use Rattle.std.specs.Prelude.{◌≡◌};
ghost use Rattle.mms_types.specs.Order.{scope_eq};
ghost use Rattle.mms_types.specs.declared.key.Scope.TheVariants.{Association};
ghost use Rattle.event_enrol.specs.Going.{goes};

use indexmap::IndexSet;
use mms_types::{Key, Scope};
use object_names::KeyRef;

/// Which enrollments go.
#[derive(Drop)]
pub(crate) enum Going<'a> {
    /// Those of these names.
    Names(IndexSet<KeyRef<'a>>),
    /// Those of a client on a condition.
    Own(u32, KeyRef<'a>),
    /// Those of a client that is lost, and those whose names are of its association.
    Client(u32),
    /// Those on a condition.
    On(&'a Key),
}

impl<'a> Going<'a> {
    /// Whether that of this name, which this client defined on this condition, goes. The time doesn't grow with how
    /// many names are listed.
    pub(crate) fn goes(&self, key: &Key, client: u32, condition: &Key) -> bool
        ensures { result ≡ goes self.entry.now key.now client condition.now }
    {
        match self {
            Going::Names(names) => names.contains(key),
            Going::Own(own, name) => client == *own && name.is(condition),
            Going::Client(lost) => client == *lost || is_of(&key.scope, *lost),
            Going::On(deleted) => **deleted == *condition,
        }
    }
}

/// Whether it is the scope of a client's association.
fn is_of(scope: &Scope, client: u32) -> bool
    ensures { result ≡ scope_eq scope.now (Association client) }
{
    match scope {
        Scope::Association(owner) => *owner == client,
        _ => false,
    }
}
