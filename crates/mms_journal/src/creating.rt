//! CreateJournal, DeleteJournal and ReportJournalStatus.

ghost use Rattle.std.specs.Prelude.{◌≡◌, Bool, None, OnErr, OnOk};
ghost use Rattle.mms_types.specs.Serves.{ServesAlways};
ghost use Rattle.mms_journal.specs.Services.{after_create, create_cause, missing_cause, status, without};

use crate::{Journal, Journals};
use mms_types::{JournalStatus, Key, Memory, ObjectName, ServiceError};
use std::alloc::Global;

/// The most journals.
const MOST_JOURNALS: usize = 64;

impl Journals {
    /// Why no journal is made (ISO 9506-2, CreateJournal): object-undefined where the domain of its scope is not live,
    /// as `domain_live` tells; object-exists where there is one of that name; capability-unavailable where there are
    /// 64.
    pub fn create_cause(
        &self,
        client: u32,
        name: &ObjectName,
        domain_live: bool,
    ) -> Option<ServiceError>
        ensures { result ≡ create_cause domain_live client name.now self.now }
    {
        if matches!(name, ObjectName::Domain { .. }) && !domain_live {
            return Some(ServiceError::OBJECT_UNDEFINED);
        }
        if self.named(client, name).is_some() {
            return Some(ServiceError::OBJECT_EXISTS);
        }
        if self.rows.len() >= MOST_JOURNALS {
            return Some(ServiceError::CAPABILITY_UNAVAILABLE);
        }
        None
    }

    /// A journal is made (ISO 9506-1, CreateJournal): it is the last one, and has no entries. The one refusal is want
    /// of memory; then all is as before.
    #[tactic(auto, using(crate::proofs::Unopposed::nothing_against, crate::proofs::Unopposed::one_more))]
    pub fn create(&mut self, alloc: Global, client: u32, name: &ObjectName) -> Result<(), Memory>
        requires { (live : Bool) × (create_cause live client name.now self.old ≡ None) }
        ensures created { OnOk result (self.new ≡ after_create client name.now self.old) }
        ensures kept { OnErr result (self.new ≡ self.old) }
    {
        let key = name.key(alloc, client)?;
        self.rows.insert(key, Journal::new(alloc))?;
        Ok(())
    }

    /// Why a service that reads, empties, tells or deletes a journal is refused: object-non-existent where it is
    /// missing (ISO 9506-2, journal management).
    pub fn missing_cause(&self, client: u32, name: &ObjectName) -> Option<ServiceError>
        ensures { result ≡ missing_cause client name.now self.now }
    {
        match self.named(client, name) {
            None => Some(ServiceError::OBJECT_NON_EXISTENT),
            Some(_) => None,
        }
    }

    /// Deletes the journal of that name with its entries (ISO 9506-1, DeleteJournal), where it is there; all others
    /// stay as they are, in their order. It takes no memory.
    pub fn delete(&mut self, key: &Key)
        ensures { self.new ≡ without key.now self.old }
    {
        let _distinct = self.rows.len();
        self.rows.remove(key);
    }

    /// What the journal of that name is (ISO 9506-2, ReportJournalStatus): object-non-existent where it is missing. It
    /// takes no memory.
    pub fn status(&self, client: u32, name: &ObjectName) -> Result<JournalStatus, ServiceError>
        ensures { ServesAlways result (missing_cause client name.now self.now)
            (status client name.now self.now) }
    {
        match self.named(client, name) {
            None => Err(ServiceError::OBJECT_NON_EXISTENT),
            Some(journal) => Ok(JournalStatus {
                entries: journal.len() as u32,
                deletable: true,
            }),
        }
    }
}
