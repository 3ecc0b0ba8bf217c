//! The tables of the area: domains, and the uploads of them that are open.

ghost use Rattle.std.specs.Prelude.{◌≡◌, Bool, IfOk, None, OnErr, OnOk, length, nat_lt, take, true};
ghost use Rattle.std.specs.Option.{option_copied};
ghost use Rattle.domain_load.specs.Domains.{delete_cause, names_after, without};
ghost use Rattle.domain_load.specs.Loading.{answers_load, initiate_after, initiate_cause, is_of_load, reply_after};
ghost use Rattle.domain_load.specs.Used.{AreFreeFor, after_unused, after_used};
ghost use Rattle.domain_upload.specs.Uploads.{AreOf, after_initiate, after_segment, after_terminate, has_upload, uploads_of};
ghost use Rattle.domain_upload.specs.Uploads as upload;
ghost use Rattle.serve_domains.specs.Tables.{is_scope_live, lost, no_domains};

use domain_load::Domains;
use domain_upload::Uploads;
use mms_types::{Identifier, Identifiers, InitiateDownloadSequence, Memory, Reply, Scope};
use object_names::Names;
use std::alloc::Global;
use std::marker::Model;

/// The domains of a device, and the uploads of them that are open. The domain of each open upload is there and isn't
/// LOADING, and no more octets of it were sent than it has.
pub struct DomainTables {
    domains: Domains,
    uploads: Uploads,
}

impl Model for DomainTables {
    ghost use Rattle.serve_domains.specs.Tables.{DomainTables as Rows};

    ghost Value = { Rows };

    ghost use Rattle.domain_upload.specs.Uploads.{AreOf};

    ghost view = { λ tables. record { domains = tables.domains; uploads = tables.uploads } };

    ghost invariant = { λ tables. AreOf tables.uploads tables.domains };
}

impl DomainTables {
    /// No domain, and no upload was ever begun. Nothing is allocated.
    #[tactic(auto, using(domain_upload::proofs::Kept::none_kept))]
    pub fn empty(alloc: Global) -> DomainTables
        ensures { result ≡ no_domains }
    {
        DomainTables {
            domains: Domains::new(alloc),
            uploads: Uploads::new(alloc),
        }
    }

    /// The domains. At any time that of each open upload is there and isn't LOADING, and no more octets of it were sent
    /// than it has.
    pub fn domains(&self) -> &Domains
        ensures rows { result.now ≡ self.now.domains }
        ensures always { AreOf self.now.uploads self.now.domains }
    {
        &self.domains
    }

    /// The uploads that are open.
    pub fn uploads(&self) -> &Uploads
        ensures { result.now ≡ self.now.uploads }
    {
        &self.uploads
    }

    /// Whether the domain that is that scope is live: READY or IN-USE. No other scope is.
    pub fn is_live(&self, scope: &Scope) -> bool
        ensures { result ≡ is_scope_live scope.now self.now }
    {
        match scope {
            Scope::Domain(domain) => self.domains.is_live(domain),
            Scope::Vmd | Scope::Association(_) => false,
        }
    }

    /// Whether a client has an open upload.
    pub fn has_upload(&self, client: u32) -> bool
        ensures { result ≡ has_upload client self.now.uploads }
    {
        self.uploads.has(client)
    }

    /// The names of domains, in whatever state, that come after that one, which need not be there, in order of octets:
    /// the first `most` of them, and whether more are left (ISO 9506-2, GetNameList). The one refusal is want of
    /// memory.
    pub fn names_after(
        &self,
        alloc: Global,
        after: Option<&Identifier>,
        most: usize,
    ) -> Result<Names, Memory>
        ensures list { IfOk result (λ names. names.list
            ≡ take most (names_after (option_copied after.entry) self.now.domains)) }
        ensures more { IfOk result (λ names. names.more
            ≡ nat_lt most (length (names_after (option_copied after.entry) self.now.domains))) }
    {
        self.domains.names_after(alloc, after, most)
    }

    /// A client is lost: the domains that it loads are removed, and its uploads. It takes no memory.
    pub fn lose(&mut self, client: u32)
        ensures { self.new ≡ lost client self.old }
    {
        self.domains.lose(client);
        self.uploads.lose(client);
    }

    /// A program invocation has come to have these domains, which are free for it. Without memory all is as before.
    pub fn used(
        &mut self,
        alloc: Global,
        domains: &Identifiers,
        by: &Identifier,
    ) -> Result<(), Memory>
        requires { AreFreeFor by.now domains.now self.old.domains }
        ensures used { OnOk result (self.new ≡ record self.old {
          domains = after_used domains.now by.now self.old.domains;
        }) }
        ensures kept { OnErr result (self.new ≡ self.old) }
    {
        self.domains.used(alloc, domains, by)
    }

    /// A program invocation has left these domains. It takes no memory.
    pub fn unused(&mut self, domains: &Identifiers, by: &Identifier)
        ensures { self.new ≡ record self.old {
          domains = after_unused domains.now by.now self.old.domains;
        } }
    {
        self.domains.unused(domains, by);
    }

    /// A load begins, against which nothing stands. Without memory all is as before.
    pub(crate) fn begin_load(
        &mut self,
        alloc: Global,
        client: u32,
        asked: &InitiateDownloadSequence,
    ) -> Result<(), Memory>
        requires { (left : Bool) × (initiate_cause left asked.now self.old.domains ≡ None) }
        ensures begun { OnOk result (self.new
            ≡ record self.old { domains = initiate_after client asked.now self.old.domains }) }
        ensures kept { OnErr result (self.new ≡ self.old) }
    {
        let _also = self.domains.initiate_download(alloc, client, asked)?;
        Ok(())
    }

    /// The client that loads a domain has answered what was asked of it. Without memory all is as before.
    pub(crate) fn replied(
        &mut self,
        alloc: Global,
        client: u32,
        reply: &Reply,
    ) -> Result<(), Memory>
        requires loads { answers_load client reply.now self.old.domains ≡ true }
        requires of_load { is_of_load reply.now ≡ true }
        ensures after { OnOk result (self.new
            ≡ record self.old { domains = reply_after reply.now self.old.domains }) }
        ensures kept { OnErr result (self.new ≡ self.old) }
    {
        let _also = self.domains.replied(alloc, client, reply)?;
        Ok(())
    }

    /// An upload of a domain begins, against which nothing stands. Without memory all is as before.
    #[tactic(auto, using(domain_upload::proofs::Kept::initiate_keeps))]
    pub(crate) fn begin_upload(
        &mut self,
        alloc: Global,
        client: u32,
        name: &Identifier,
    ) -> Result<(), Memory>
        requires { upload.initiate_cause name.now self.old.domains self.old.uploads ≡ None }
        ensures begun { OnOk result (self.new
            ≡ record self.old { uploads = after_initiate client name.now self.old.uploads }) }
        ensures kept { OnErr result (self.new ≡ self.old) }
    {
        self.uploads.initiate(alloc, client, name)
    }

    /// The next piece of an upload was sent. It takes no memory.
    pub(crate) fn sent(&mut self, client: u32, number: i32, size: u32)
        ensures { self.new ≡ record self.old {
          uploads = after_segment client number size self.old.domains self.old.uploads;
        } }
    {
        self.uploads.sent(client, &self.domains, number, size);
    }

    /// An upload ends. It takes no memory.
    pub(crate) fn end_upload(&mut self, client: u32, number: i32)
        ensures { self.new
            ≡ record self.old { uploads = after_terminate client number self.old.uploads } }
    {
        self.uploads.terminate(client, number);
    }

    /// A domain is deleted, against which nothing stands. It takes no memory.
    pub(crate) fn delete(&mut self, name: &Identifier)
        requires { (in_scope : Bool) × (delete_cause name.now
            (uploads_of name.now self.old.uploads) in_scope self.old.domains ≡ None) }
        ensures { self.new ≡ record self.old { domains = without name.now self.old.domains } }
    {
        self.domains.delete(name);
    }
}

impl Drop for DomainTables {
    fn drop(self) {
        let DomainTables {
            domains: _domains,
            uploads: _uploads,
        } = self;
    }
}
