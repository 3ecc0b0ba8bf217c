ghost use Rattle.std.specs.Prelude.{◌≡◌, IfOk};

use mms_types::{Key, Memory, Transitions};
use std::alloc::Global;

/// An event enrollment (ISO 9506-1, event enrollment).
pub struct Enrolment {
    /// The client that defined it, and is told.
    pub client: u32,
    /// The event condition that it is on.
    pub condition: Key,
    /// The transitions of which the client is told.
    pub transitions: Transitions,
    /// How transitions are acknowledged.
    pub rule: u8,
}

impl Enrolment {
    /// A copy. The one refusal is want of memory.
    pub(crate) fn copy(&self, alloc: Global) -> Result<Enrolment, Memory>
        ensures { IfOk result (λ copy. copy ≡ self.now) }
    {
        Ok(Enrolment {
            client: self.client,
            condition: self.condition.copy(alloc)?,
            transitions: self.transitions,
            rule: self.rule,
        })
    }
}

impl Drop for Enrolment {
    fn drop(self) {
        let Enrolment {
            client: _,
            condition: _condition,
            transitions: _transitions,
            rule: _,
        } = self;
    }
}
