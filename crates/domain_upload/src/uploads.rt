ghost use Rattle.std.specs.Prelude.{◌≡◌, ◌==◌, ◌<◌, ◌≤◌, ◌↔◌, [], IfOk, IfSome, IsSome, Some, length, slice_get};
ghost use Rattle.domain_upload.specs.Uploads.{after_lose, after_terminate, has_upload, terminate_cause, uploads_of, AreNumbered};

use crate::Upload;
use crate::upload::{copied, remove, remove_all, upload_of};
use mms_types::{Identifier, Memory, ServiceError};
use std::alloc::Global;
use std::marker::Model;

/// The uploads of a device (ISO 9506-1, domain management). Contracts see the list of those that are open, in the order
/// in which they were made, and how many numbers were given.
pub struct Uploads {
    pub(crate) rows: Vec<Upload>,
    pub(crate) given: u32,
}

impl Model for Uploads {
    ghost use Rattle.domain_upload.specs.Uploads.{OpenUploads, AreNumbered};

    ghost Value = { OpenUploads };

    ghost view = { λ s. record { rows = s.rows.items; given = s.given } };

    ghost invariant = { λ s. AreNumbered (record { rows = s.rows.items; given = s.given }) };
}

impl Uploads {
    /// No uploads, and no number was given. Nothing is allocated.
    pub fn new(alloc: Global) -> Uploads
        ensures { result ≡ record { rows = []; given = 0 } }
    {
        Uploads {
            rows: Vec::new(alloc),
            given: 0,
        }
    }

    /// How many uploads are open. At any time they are at most 64, and their numbers are distinct and among those that
    /// were given, from 1 to at most 2,147,483,647.
    pub fn len(&self) -> usize
        ensures len { result ≡ length self.now.rows }
        ensures always { AreNumbered self.now }
    {
        self.rows.len()
    }

    /// Whether none is open.
    pub fn is_empty(&self) -> bool
        ensures { result ≡ (length self.now.rows == 0) }
    {
        self.rows.is_empty()
    }

    /// The upload at a place, counted from 0 in the order in which they were made. None exactly where there are not as
    /// many. It takes no memory.
    pub fn at(&self, place: usize) -> Option<&Upload>
        ensures row { IfSome result (λ row. slice_get self.now.rows place ≡ Some row.now) }
        ensures found { IsSome result ↔ (place < length self.now.rows) }
    {
        self.rows.get(place)
    }

    /// Whether the client has an open upload, also one whose last piece was sent.
    pub fn has(&self, client: u32) -> bool
        ensures { result ≡ has_upload client self.now }
    {
        self.rows.iter().any(|upload| upload.client == client)
    }

    /// How many uploads of the domain are open, whoever has them: at most 64.
    #[tactic(auto, using(crate::proofs::Numbered::few_of_domain))]
    pub fn of_domain(&self, domain: &Identifier) -> u32
        ensures count { result ≡ uploads_of domain.now self.now }
        ensures most { uploads_of domain.now self.now ≤ 64 }
    {
        self.rows
            .iter()
            .filter(|upload| upload.domain == *domain)
            .count() as u32
    }

    /// Why an upload is not ended (ISO 9506-2, TerminateUploadSequence): object-non-existent where this client has no
    /// upload of that number.
    pub fn terminate_cause(&self, by: u32, number: i32) -> Option<ServiceError>
        ensures { result ≡ terminate_cause by number self.now }
    {
        match upload_of(by, number, &self.rows) {
            None => Some(ServiceError::OBJECT_NON_EXISTENT),
            Some(_) => None,
        }
    }

    /// Ends the client's upload of that number, wherever it stands (ISO 9506-2, TerminateUploadSequence). Where the
    /// client has none, nothing changes. It takes no memory.
    pub fn terminate(&mut self, by: u32, number: i32)
        ensures { self.new ≡ after_terminate by number self.old }
    {
        remove(&mut self.rows, by, number);
    }

    /// A client is lost: its uploads are removed. It takes no memory.
    pub fn lose(&mut self, client: u32)
        ensures { self.new ≡ after_lose client self.old }
    {
        remove_all(&mut self.rows, client);
    }

    /// A copy, with its rows in the same order. The one refusal is want of memory.
    pub fn copy(&self, alloc: Global) -> Result<Uploads, Memory>
        ensures { IfOk result (λ uploads. uploads ≡ self.now) }
    {
        Ok(Uploads {
            rows: copied(alloc, &self.rows)?,
            given: self.given,
        })
    }
}

impl Drop for Uploads {
    fn drop(self) {
        let Uploads {
            rows: _rows,
            given: _,
        } = self;
    }
}
