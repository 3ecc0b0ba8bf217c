//! The requests and answers of the services for event conditions and event enrollments, what clients are told of
//! events, and what tables tell each other of them (ISO 9506-2, event management).

ghost use Rattle.std.specs.Prelude.{◌≡◌, ◌↔◌, ◌<◌, ◌≤◌, IsTrue};
ghost use Rattle.mms_types.specs.Moments.{milliseconds, IsDated};
ghost use Rattle.mms_types.specs.OptionBits.{IsOptionSet};
ghost use Rattle.mms_types.specs.ConditionStates.{condition_state_number};

use crate::initiate::is_option_set;
use crate::{Key, Listed, Moment, ObjectName, ObjectNames, Spec};

/// A moment as PDUs tell it (ISO 9506-2, TimeOfDay with days). In what is read both are any number.
#[derive(Clone, Copy)]
pub struct TimeOfDay {
    /// How many milliseconds after midnight: below 86,400,000 in what the server tells.
    pub ms: u32,
    /// How many days after 1 January 1984.
    pub day: u16,
}

impl TimeOfDay {
    /// How a moment up to the last millisecond of day 65,535 is told.
    pub fn of(moment: Moment) -> TimeOfDay
        requires { IsDated moment }
        ensures same { milliseconds result.day result.ms ≡ moment.0 }
        ensures within { result.ms < 86400000 }
    {
        TimeOfDay {
            ms: (moment.0 % 86_400_000) as u32,
            day: (moment.0 / 86_400_000) as u16,
        }
    }
}

/// When something took place (ISO 9506-2, EventTime). The server tells moments, and what has not taken place.
#[derive(Clone, Copy)]
pub enum EventTime {
    /// At a moment (timeOfDayT).
    TimeOfDay(TimeOfDay),
    /// As the event of that number (timeSequenceIdentifier).
    Sequence(u32),
    /// Not yet, or nobody knows (undefined).
    Undefined,
}

/// Where an event condition stands (ISO 9506-2, EC-State).
#[derive(Clone, Copy, PartialEq, Eq)]
pub enum ConditionState {
    /// It is not evaluated.
    Disabled,
    /// What it watches is FALSE, or it waits to be triggered.
    Idle,
    /// What it watches is TRUE.
    Active,
}

impl ConditionState {
    /// The state of that number, from 0 to 2.
    pub fn numbered(number: u8) -> ConditionState
        requires { number < 3 }
        ensures { condition_state_number result ≡ number }
    {
        match number {
            0 => ConditionState::Disabled,
            1 => ConditionState::Idle,
            _ => ConditionState::Active,
        }
    }

    /// Its number, from 0 to 2.
    pub fn number(self) -> u8
        ensures { result ≡ condition_state_number self }
    {
        self as u8
    }
}

/// Which transitions are told (ISO 9506-2, Transitions): 7 bits, of which bit 0 is the most significant one of the
/// octet. The last bit of the octet is not used.
#[derive(Clone, Copy)]
pub struct Transitions {
    pub octets: [u8; 1],
}

impl Transitions {
    pub const IDLE_TO_DISABLED: u8 = 0;

    pub const ACTIVE_TO_DISABLED: u8 = 1;

    pub const DISABLED_TO_IDLE: u8 = 2;

    pub const ACTIVE_TO_IDLE: u8 = 3;

    pub const DISABLED_TO_ACTIVE: u8 = 4;

    pub const IDLE_TO_ACTIVE: u8 = 5;

    /// The condition was deleted, wherever it stood.
    pub const ANY_TO_DELETED: u8 = 6;

    /// Whether the transition of that number is told.
    pub fn has(self, transition: u8) -> bool
        requires { transition < 7 }
        ensures { IsTrue result ↔ IsOptionSet self.octets transition }
    {
        is_option_set(&self.octets, transition)
    }
}

/// What a monitored event condition watches, and how often (ISO 9506-2, DefineEventCondition-Request,
/// monitoredVariable and evaluationInterval).
pub struct Monitored {
    /// The variable, which has to be boolean.
    pub variable: Spec,
    /// How many milliseconds lie between two evaluations: below 10 it counts as 10.
    pub interval: u32,
}

/// Which event condition is made (ISO 9506-2, DefineEventCondition-Request).
pub struct DefineEventCondition {
    /// Its name.
    pub name: ObjectName,
    /// Its priority, 0 to 127 in what is read: 64 is meant where it is absent.
    pub priority: u8,
    /// How severe it is: 64 is meant where it is absent.
    pub severity: u8,
    /// Whether it is told in summaries of alarms, where that is said (alarmSummaryReports). It has no effect.
    pub summary: Option<bool>,
    /// What it watches, where it is monitored (class 1). One that is network-triggered (class 0) watches nothing.
    pub monitored: Option<Monitored>,
}

/// What an event condition is (ISO 9506-2, ReportEventConditionStatus-Response).
#[derive(Clone, Copy)]
pub struct ConditionStatus {
    /// Where it stands.
    pub state: ConditionState,
    /// How many event enrollments there are on it, of all clients.
    pub enrolments: u32,
    /// Whether it is enabled. One that is network-triggered always is.
    pub enabled: bool,
    /// When it was last to become active.
    pub to_active: EventTime,
    /// When it was last to become idle.
    pub to_idle: EventTime,
}

/// How an event condition is changed (ISO 9506-2, AlterEventConditionMonitoring-Request). What is absent stays.
pub struct AlterEventConditionMonitoring {
    /// Its name.
    pub name: ObjectName,
    /// Whether it is enabled.
    pub enabled: Option<bool>,
    /// Its priority, 0 to 127 in what is read.
    pub priority: Option<u8>,
    /// Whether it is told in summaries of alarms (alarmSummaryReports). It has no effect.
    pub summary: Option<bool>,
    /// How many milliseconds lie between two evaluations: below 10 it counts as 10.
    pub interval: Option<u32>,
}

/// Which event condition is triggered (ISO 9506-2, TriggerEvent-Request).
pub struct TriggerEvent {
    /// Its name.
    pub name: ObjectName,
    /// A priority, 0 to 127 in what is read. It has no effect.
    pub priority: Option<u8>,
}

/// Which event enrollment is made (ISO 9506-2, DefineEventEnrollment-Request).
pub struct DefineEventEnrollment {
    /// Its name.
    pub name: ObjectName,
    /// The event condition that it is on.
    pub condition: ObjectName,
    /// Of which transitions its client is told.
    pub transitions: Transitions,
    /// How transitions are acknowledged: 0 in what is read, they are not.
    pub rule: u8,
}

/// Which event enrollments are deleted (ISO 9506-2, DeleteEventEnrollment-Request).
pub enum DeleteEventEnrollment {
    /// Those of these names.
    Names(ObjectNames),
    /// All of the client's own on the condition of that name.
    Condition(ObjectName),
}

/// What a client is told of a transition (ISO 9506-2, EventNotification).
pub struct EventNotification {
    /// The event enrollment, as its client names it.
    pub enrolment: ObjectName,
    /// The event condition, as the client of the enrollment names it.
    pub condition: ObjectName,
    /// How severe it is.
    pub severity: u8,
    /// Where the condition stands after the transition. None where it was deleted.
    pub state: Option<ConditionState>,
    /// When the transition took place.
    pub time: EventTime,
}

/// A transition of an event condition (ISO 9506-1, event management).
pub struct Turned {
    /// The condition.
    pub condition: Key,
    /// The number of the transition, from 0 to 6, as that of its bit in `Transitions`.
    pub transition: u8,
    /// How severe the condition is.
    pub severity: u8,
    /// The number of the state that it came to. None where it was deleted.
    pub state: Option<u8>,
    /// When it took place.
    pub at: Moment,
}

/// Who is told of a transition, in that client's own words.
pub struct Notice {
    /// The client.
    pub client: u32,
    /// The event enrollment.
    pub enrolment: ObjectName,
    /// The event condition.
    pub condition: ObjectName,
}

impl Notice {
    /// The client, the event enrollment and the event condition. Nothing is copied.
    pub fn into_parts(self) -> (u32, ObjectName, ObjectName)
        ensures { result ≡ (self.client, self.enrolment, self.condition) }
    {
        let Notice {
            client,
            enrolment,
            condition,
        } = self;
        (client, enrolment, condition)
    }
}

/// Notices in order. Contracts see the list of them.
pub type Notices = Listed<Notice>;

/// What becomes of the cell that an event condition is to watch.
#[derive(Clone, Copy)]
pub enum CellFact {
    /// The variable has no name or no cell.
    Missing,
    /// Its cell isn't boolean.
    Other,
    /// Its cell is boolean.
    Found {
        /// The number of the cell.
        number: u16,
        /// Its value.
        is_true: bool,
    },
}

impl Drop for Monitored {
    fn drop(self) {
        let Monitored {
            variable: _variable,
            interval: _,
        } = self;
    }
}

impl Drop for DefineEventCondition {
    fn drop(self) {
        let DefineEventCondition {
            name: _name,
            priority: _,
            severity: _,
            summary: _,
            monitored: _monitored,
        } = self;
    }
}

impl Drop for AlterEventConditionMonitoring {
    fn drop(self) {
        let AlterEventConditionMonitoring {
            name: _name,
            enabled: _,
            priority: _,
            summary: _,
            interval: _,
        } = self;
    }
}

impl Drop for TriggerEvent {
    fn drop(self) {
        let TriggerEvent {
            name: _name,
            priority: _,
        } = self;
    }
}

impl Drop for DefineEventEnrollment {
    fn drop(self) {
        let DefineEventEnrollment {
            name: _name,
            condition: _condition,
            transitions: _,
            rule: _,
        } = self;
    }
}

impl Drop for DeleteEventEnrollment {
    fn drop(self) {
        match self {
            DeleteEventEnrollment::Names(_names) => {}
            DeleteEventEnrollment::Condition(_name) => {}
        }
    }
}

impl Drop for EventNotification {
    fn drop(self) {
        let EventNotification {
            enrolment: _enrolment,
            condition: _condition,
            severity: _,
            state: _,
            time: _,
        } = self;
    }
}

impl Drop for Turned {
    fn drop(self) {
        let Turned {
            condition: _condition,
            transition: _,
            severity: _,
            state: _,
            at: _,
        } = self;
    }
}

impl Drop for Notice {
    fn drop(self) {
        let Notice {
            client: _,
            enrolment: _enrolment,
            condition: _condition,
        } = self;
    }
}
