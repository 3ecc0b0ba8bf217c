//! UploadSegment: the next piece of an upload.
ghost use Rattle.std.specs.Prelude.{◌≡◌, IfOk, None, Some};
ghost use Rattle.domain_upload.specs.Uploads.{after_segment, segment_answer, segment_cause, AreOf};

use crate::Uploads;
use crate::pieces::next_piece;
use crate::upload::{advance, upload_of};
use domain_load::Domains;
use mms_types::{Memory, Segment, ServiceError};
use std::alloc::Global;

impl Uploads {
    /// Why no piece is sent (ISO 9506-2, UploadSegment): object-non-existent where this client has no upload of that
    /// number; object-state-conflict where its last piece was sent.
    pub fn segment_cause(&self, by: u32, number: i32) -> Option<ServiceError>
        ensures { result ≡ segment_cause by number self.now }
    {
        match upload_of(by, number, &self.rows) {
            None => Some(ServiceError::OBJECT_NON_EXISTENT),
            Some(upload) if upload.ended => Some(ServiceError::OBJECT_STATE_CONFLICT),
            Some(_) => None,
        }
    }

    /// The next piece of the client's upload of that number, by the size of a PDU that was negotiated with the client
    /// (ISO 9506-2, UploadSegment-Response): the next octets of the domain, 64 less than the size, at most 4,096 and no
    /// more than are left; more follow unless all are sent with it. Nothing changes yet. The one refusal is want of
    /// memory.
    pub fn segment(
        &self,
        alloc: Global,
        by: u32,
        domains: &Domains,
        number: i32,
        size: u32,
    ) -> Result<Segment, Memory>
        requires cause { segment_cause by number self.now ≡ None }
        requires domains { AreOf self.now domains.now }
        ensures { IfOk result (λ piece.
            segment_answer by number size domains.now self.now ≡ Some piece) }
    {
        let Some(upload) = upload_of(by, number, &self.rows) else {
            unreachable!()
        };
        let Some(domain) = domains.named(&upload.domain) else {
            unreachable!()
        };
        next_piece(alloc, size, upload.sent, domain)
    }

    /// The next piece of the client's upload of that number was sent: its octets count as sent, and the last piece ends
    /// the upload, which stays open until it is terminated. It takes no memory.
    pub fn sent(&mut self, by: u32, domains: &Domains, number: i32, size: u32)
        ensures { self.new ≡ after_segment by number size domains.now self.old }
    {
        advance(&mut self.rows, by, number, size, domains);
    }
}
