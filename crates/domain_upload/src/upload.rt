ghost use Rattle.std.specs.Prelude.{◌≡◌, ◌==◌, IfOk, filter, find, map, not};
ghost use Rattle.std.specs.Option.{option_copied};
ghost use Rattle.domain_upload.specs.Uploads.{is_upload, upload_after};

use crate::pieces::sent_after;
use domain_load::Domains;
use mms_types::{Identifier, Memory};
use std::alloc::Global;

/// An upload of a domain by a client (ISO 9506-1, upload state machine).
pub struct Upload {
    /// Its number, by which the client names it (ulsmID).
    pub number: i32,
    /// The client that has it.
    pub client: u32,
    /// The name of the domain.
    pub domain: Identifier,
    /// How many of the domain's octets were sent.
    pub sent: u32,
    /// Whether the last piece was sent.
    pub ended: bool,
}

impl Upload {
    /// Whether it has that number, and is this client's.
    pub(crate) fn is_upload(&self, client: u32, number: i32) -> bool
        ensures { result ≡ is_upload client number self.now }
    {
        self.client == client && self.number == number
    }

    /// Where it has that number and is this client's, its next piece was sent.
    fn advance(&mut self, client: u32, number: i32, size: u32, domains: &Domains)
        ensures { self.new ≡ upload_after client number size domains.now self.old }
    {
        if !self.is_upload(client, number) {
            return;
        }
        if let Some(domain) = domains.named(&self.domain) {
            let sent = sent_after(size, self.sent, domain);
            self.ended = sent >= domain.octets();
            self.sent = sent;
        }
    }

    /// A copy. The one refusal is want of memory.
    pub fn copy(&self, alloc: Global) -> Result<Upload, Memory>
        ensures { IfOk result (λ upload. upload ≡ self.now) }
    {
        Ok(Upload {
            number: self.number,
            client: self.client,
            domain: self.domain.copy(alloc)?,
            sent: self.sent,
            ended: self.ended,
        })
    }
}

/// The upload of that number that this client has.
pub(crate) fn upload_of(client: u32, number: i32, rows: &[Upload]) -> Option<&Upload>
    ensures { option_copied result ≡ find (is_upload client number) rows.now }
{
    rows.iter().find(|upload| upload.is_upload(client, number))
}

/// The next piece of the client's upload of that number was sent.
pub(crate) fn advance(rows: &mut [Upload], client: u32, number: i32, size: u32, domains: &Domains)
    ensures { rows.new ≡ map (upload_after client number size domains.now) rows.old }
{
    for upload in rows.iter_mut() {
        upload.advance(client, number, size, domains);
    }
}

/// The client's upload of that number goes.
pub(crate) fn remove(rows: &mut Vec<Upload>, client: u32, number: i32)
    ensures { rows.new.items ≡ filter (λ u. not (is_upload client number u)) rows.old.items }
{
    rows.retain(|upload| !upload.is_upload(client, number));
}

/// The client's uploads go.
pub(crate) fn remove_all(rows: &mut Vec<Upload>, client: u32)
    ensures { rows.new.items ≡ filter (λ u. not (u.client == client)) rows.old.items }
{
    rows.retain(|upload| upload.client != client);
}

/// The uploads, copied.
pub(crate) fn copied(alloc: Global, rows: &[Upload]) -> Result<Vec<Upload>, Memory>
    ensures { IfOk result (λ copies. copies.items ≡ rows.now) }
{
    let mut copies = Vec::new(alloc);
    for upload in rows {
        copies.push(upload.copy(alloc)?)?;
    }
    Ok(copies)
}

impl Drop for Upload {
    fn drop(self) {
        let Upload {
            number: _,
            client: _,
            domain: _domain,
            sent: _,
            ended: _,
        } = self;
    }
}
