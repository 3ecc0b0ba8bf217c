//! The forms of the services for semaphores, in octets, both ways (ISO 9506-2, semaphore management): TakeControl,
//! RelinquishControl, DefineSemaphore, DeleteSemaphore, ReportSemaphoreStatus, ReportPoolSemaphoreStatus and
//! ReportSemaphoreEntryStatus, and that of the modifier by which another request waits for a token. A relinquishing, a
//! definition and a deletion are answered by `pdu_names::Null`.
#![tactic(auto)]

mod control;
mod definitions;
mod entries;
mod pools;
mod services;

pub use control::{
    ModifierList, RelinquishControlRequest, SemaphoreModifier, TakeControlAlternatives,
    TakeControlRequest, TakeControlResponse,
};
pub use definitions::{
    DefineSemaphoreRequest, DeleteSemaphoreRequest, ReportSemaphoreStatusRequest,
    ReportSemaphoreStatusResponse,
};
pub use entries::{
    EntryNumberContents, ReportSemaphoreEntryStatusRequest, ReportSemaphoreEntryStatusResponse,
    SemaphoreEntry,
};
pub use pools::{
    NamedTokenAlternatives, ReportPoolSemaphoreStatusRequest, ReportPoolSemaphoreStatusResponse,
};
pub use services::SemaphoreServices;
