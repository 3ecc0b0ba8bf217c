//! DefineEventEnrollment.
ghost use Rattle.std.specs.Prelude.{◌≡◌, Bool, None, OnErr, OnOk};
ghost use Rattle.event_enrol.specs.Enrolments.{define_cause, defined, is_defined};

use crate::{Enrolment, Enrolments};
use mms_types::{DefineEventEnrollment, Memory, ObjectName, ServiceError};
use object_names::KeyRef;
use std::alloc::Global;

/// The most enrollments.
const MOST_ENROLMENTS: usize = 1024;

impl Enrolments {
    /// Whether there is an enrollment that a client names so. The time doesn't grow with the table.
    pub fn is_defined(&self, client: u32, name: &ObjectName) -> bool
        ensures { result ≡ is_defined client name.now self.now }
    {
        self.rows.contains_key(KeyRef::of(client, name))
    }

    /// Why an enrollment is not defined: the first condition that holds (ISO 9506-2, DefineEventEnrollment). It is
    /// object-undefined where the domain of its scope isn't live; object-exists where there is one of that name;
    /// object-non-existent where the event condition is missing; capability-unavailable where there are 1,024
    /// enrollments. `domain_live` is whether the domain of its scope is live, where it has one, and `condition_there`
    /// whether the condition is there.
    pub fn define_cause(
        &self,
        client: u32,
        asked: &DefineEventEnrollment,
        domain_live: bool,
        condition_there: bool,
    ) -> Option<ServiceError>
        ensures { result ≡ define_cause domain_live condition_there client asked.now self.now }
    {
        if matches!(asked.name, ObjectName::Domain { .. }) && !domain_live {
            return Some(ServiceError::OBJECT_UNDEFINED);
        }
        if self.is_defined(client, &asked.name) {
            return Some(ServiceError::OBJECT_EXISTS);
        }
        if !condition_there {
            return Some(ServiceError::OBJECT_NON_EXISTENT);
        }
        if self.rows.len() >= MOST_ENROLMENTS {
            return Some(ServiceError::CAPABILITY_UNAVAILABLE);
        }
        None
    }

    /// Defines an enrollment (ISO 9506-1, DefineEventEnrollment): it is the last one, and the client that asks is
    /// told. The one refusal is want of memory; then all is as before.
    #[tactic(auto, using(crate::proofs::Unopposed::nothing_against, crate::proofs::Kept::own_names))]
    pub fn define(
        &mut self,
        alloc: Global,
        client: u32,
        asked: &DefineEventEnrollment,
    ) -> Result<(), Memory>
        requires { (live : Bool) × (there : Bool)
            × (define_cause live there client asked.now self.old ≡ None) }
        ensures defined { OnOk result (self.new ≡ defined client asked.now self.old) }
        ensures kept { OnErr result (self.new ≡ self.old) }
    {
        let key = asked.name.key(alloc, client)?;
        let row = Enrolment {
            client,
            condition: asked.condition.key(alloc, client)?,
            transitions: asked.transitions,
            rule: asked.rule,
        };
        self.put(alloc, key, row)
    }
}
