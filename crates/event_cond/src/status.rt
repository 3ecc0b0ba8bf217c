//! ReportEventConditionStatus.

ghost use Rattle.std.specs.Prelude.{◌≡◌, IfSome};
ghost use Rattle.mms_types.specs.Moments.{IsDated};
ghost use Rattle.mms_types.specs.Serves.{ServesAlways};
ghost use Rattle.event_cond.specs.Kept.{IsCondition};
ghost use Rattle.event_cond.specs.Services.{event_time, status, status_cause, status_of, time_of_day};

use crate::kept::Kept;
use crate::{Condition, Conditions};
use mms_types::{ConditionStatus, EventTime, Moment, ObjectName, ServiceError, TimeOfDay};

/// How a moment is told.
fn time_of_day(moment: Moment) -> TimeOfDay
    requires { IsDated moment }
    ensures { result ≡ time_of_day moment }
{
    TimeOfDay::of(moment)
}

/// When a transition took place, or that there was none.
fn event_time(moment: Option<Moment>) -> EventTime
    requires { IfSome moment IsDated }
    ensures { result ≡ event_time moment }
{
    match moment {
        None => EventTime::Undefined,
        Some(moment) => EventTime::TimeOfDay(time_of_day(moment)),
    }
}

impl Condition {
    /// What it is, with how many event enrollments there are on it.
    fn status(self, enrolments: u32) -> ConditionStatus
        requires { IsCondition self }
        ensures { result ≡ status_of enrolments self }
    {
        ConditionStatus {
            state: self.class.state(),
            enrolments,
            enabled: self.class.is_enabled(),
            to_active: event_time(self.to_active),
            to_idle: event_time(self.to_idle),
        }
    }
}

impl Kept {
    /// The status of a condition as the table keeps it, with how many enrollments are on it.
    fn status(&self, enrolments: u32) -> ConditionStatus
        ensures { result ≡ status_of enrolments self.now }
    {
        self.condition.status(enrolments)
    }
}

impl Conditions {
    /// What the event condition of that name is (ISO 9506-2, ReportEventConditionStatus), with how many event
    /// enrollments of all clients there are on it, as `enrolments` tells: object-non-existent where it is missing. It
    /// takes no memory.
    pub fn status(
        &self,
        client: u32,
        name: &ObjectName,
        enrolments: u32,
    ) -> Result<ConditionStatus, ServiceError>
        ensures { ServesAlways result (status_cause client name.now self.now)
            (status client name.now enrolments self.now) }
    {
        match self.rows.named(client, name) {
            None => Err(ServiceError::OBJECT_NON_EXISTENT),
            Some(kept) => Ok(kept.status(enrolments)),
        }
    }
}
