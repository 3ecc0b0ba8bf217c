//! The forms of the services for event conditions, event enrollments and journals, in octets, both ways (ISO 9506-2,
//! event management and journal management): DefineEventCondition, DeleteEventCondition, ReportEventConditionStatus,
//! AlterEventConditionMonitoring, TriggerEvent, DefineEventEnrollment, DeleteEventEnrollment and EventNotification, and
//! ReadJournal, WriteJournal, InitializeJournal, ReportJournalStatus, CreateJournal and DeleteJournal. What changes
//! without a number to tell is answered by `pdu_names::Null`. `EventServices` is their area, which has them by their
//! numbers.
//!
//! Contents are malformed also where a condition has not what its class needs, or has what it has not. They are too deep
//! exactly where all before some data in an entry is of its form, and that data nests deeper than 10.
#![tactic(auto)]

mod changes;
mod conditions;
mod enrollments;
mod entries;
mod journals;
mod selections;
mod services;
mod times;

pub use changes::{AlterEventConditionMonitoringRequest, PriorityContents, TriggerEventRequest};
pub use conditions::{
    ConditionStateContents, DefineEventConditionRequest, DeleteEventConditionAlternatives,
    DeleteEventConditionRequest, DeleteEventConditionResponse, ReportEventConditionStatusRequest,
    ReportEventConditionStatusResponse,
};
pub use enrollments::{
    DefineEventEnrollmentRequest, DeleteEventEnrollmentAlternatives, DeleteEventEnrollmentRequest,
    DeleteEventEnrollmentResponse, EventNotifications,
};
pub use entries::{
    EntryContentAlternatives, JournalEntryContents, JournalEventContents, JournalVariableContents,
};
pub use journals::{
    CreateJournalRequest, DeleteJournalRequest, InitializeJournalRequest,
    InitializeJournalResponse, JournalLimitContents, JournalNamed, ReadEntryContents,
    ReadJournalResponse, ReportJournalStatusRequest, ReportJournalStatusResponse,
    WriteJournalRequest,
};
pub use selections::{
    EntryToStartAfterContents, JournalStartAlternatives, JournalStopAlternatives,
    ReadJournalRequest,
};
pub use services::EventServices;
pub use times::{EventTimeAlternatives, EventTimes, TimeOfDayContents};
