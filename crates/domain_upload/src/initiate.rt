//! InitiateUploadSequence: an upload begins.
ghost use Rattle.std.specs.Prelude.{◌≡◌, IfOk, None, OnErr, OnOk, Some};
ghost use Rattle.domain_load.specs.Domains.{Rows};
ghost use Rattle.domain_upload.specs.Uploads.{after_initiate, initiate_answer, initiate_cause};

use crate::{Upload, Uploads};
use domain_load::Domains;
use mms_types::{Identifier, InitiateUploadSequenceAnswer, Memory, ServiceError};
use std::alloc::Global;

/// The most uploads that are open.
const MOST_UPLOADS: usize = 64;

/// The last number.
const LAST_NUMBER: u32 = 2_147_483_647;

impl Uploads {
    /// Why no upload of the domain begins (ISO 9506-2, InitiateUploadSequence): object-non-existent where it is
    /// missing; object-state-conflict where it is LOADING; capability-unavailable where 64 uploads are open, also those
    /// whose last piece was sent, or where the number 2,147,483,647 was given.
    pub fn initiate_cause(&self, domains: &Domains, name: &Identifier) -> Option<ServiceError>
        ensures { result ≡ initiate_cause name.now domains.now self.now }
    {
        let Some(domain) = domains.named(name) else {
            return Some(ServiceError::OBJECT_NON_EXISTENT);
        };
        if domain.is_loading() {
            return Some(ServiceError::OBJECT_STATE_CONFLICT);
        }
        if self.rows.len() >= MOST_UPLOADS || self.given >= LAST_NUMBER {
            return Some(ServiceError::CAPABILITY_UNAVAILABLE);
        }
        None
    }

    /// What is answered where an upload of the domain begins: its number, the next one of the device, and what the
    /// domain may use of the device (ISO 9506-2, InitiateUploadSequence-Response). Nothing changes yet. The one refusal
    /// is want of memory.
    pub fn initiate_answer(
        &self,
        alloc: Global,
        domains: &Domains,
        name: &Identifier,
    ) -> Result<InitiateUploadSequenceAnswer, Memory>
        requires { initiate_cause name.now domains.now self.now ≡ None }
        ensures { IfOk result (λ answer.
            initiate_answer name.now domains.now self.now ≡ Some answer) }
    {
        let Some(domain) = domains.named(name) else {
            unreachable!()
        };
        Ok(InitiateUploadSequenceAnswer {
            number: (self.given + 1) as i32,
            capabilities: domain.capabilities.copy(alloc)?,
        })
    }

    /// An upload of the domain by the client begins (ISO 9506-1, InitiateUploadSequence): it is the last one, with the
    /// next number, and nothing of it was sent. The one refusal is want of memory; then all is as before.
    pub fn initiate(&mut self, alloc: Global, by: u32, name: &Identifier) -> Result<(), Memory>
        requires { (domains : Rows) × (initiate_cause name.now domains self.old ≡ None) }
        ensures begun { OnOk result (self.new ≡ after_initiate by name.now self.old) }
        ensures kept { OnErr result (self.new ≡ self.old) }
    {
        let upload = Upload {
            number: (self.given + 1) as i32,
            client: by,
            domain: name.copy(alloc)?,
            sent: 0,
            ended: false,
        };
        self.rows.push(upload)?;
        self.given += 1;
        Ok(())
    }
}
