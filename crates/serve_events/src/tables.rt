//! The tables of the area: event conditions, and the enrollments on them.

ghost use Rattle.std.specs.Prelude.{◌≡◌, IfOk};
ghost use Rattle.serve_events.specs.Tables.{lost, no_events};

use event_cond::Conditions;
use event_enrol::Enrolments;
use mms_types::Memory;
use std::alloc::Global;

/// The event conditions of a device, and the enrollments on them.
pub struct EventTables {
    /// The conditions.
    pub conditions: Conditions,
    /// The enrollments.
    pub enrolments: Enrolments,
}

impl EventTables {
    /// No condition and no enrollment. Nothing is allocated.
    pub fn empty(alloc: Global) -> EventTables
        ensures { result ≡ no_events }
    {
        EventTables {
            conditions: Conditions::new(alloc),
            enrolments: Enrolments::new(alloc),
        }
    }

    /// A client is lost: its enrollments are removed, and then the conditions and the enrollments of its association.
    /// Nobody is told. It takes no memory.
    pub fn lose(&mut self, client: u32)
        ensures { self.new ≡ lost client self.old }
    {
        self.enrolments.lose(client);
        self.conditions.lose(client);
    }

    /// A copy. The one refusal is want of memory.
    pub fn copy(&self, alloc: Global) -> Result<EventTables, Memory>
        ensures { IfOk result (λ copy. copy ≡ self.now) }
    {
        Ok(EventTables {
            conditions: self.conditions.copy(alloc)?,
            enrolments: self.enrolments.copy(alloc)?,
        })
    }
}

impl Drop for EventTables {
    fn drop(self) {
        let EventTables {
            conditions: _conditions,
            enrolments: _enrolments,
        } = self;
    }
}
