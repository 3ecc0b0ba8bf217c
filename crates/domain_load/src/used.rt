//! Which program invocations have a domain: their names stand in it, in order of octets.
ghost use Rattle.std.specs.Prelude.{◌≡◌, length, OnErr, OnOk};
ghost use Rattle.domain_load.specs.Domains.{is_there};
ghost use Rattle.domain_load.specs.Loading.{changed};
ghost use Rattle.domain_load.specs.Used.{AreFreeFor, after_unused, after_used, had_by, is_taken, left_by};

use crate::{Domain, Domains};
use indexmap::IndexMap;
use mms_types::{Identifier, Identifiers, Memory};
use std::alloc::Global;

impl Domains {
    /// Whether the domain of that name is there, IN-USE and not sharable: one program invocation has it, and no other
    /// may.
    pub fn is_taken(&self, name: &Identifier) -> bool
        ensures { result ≡ is_there is_taken name.now self.now }
    {
        match self.named(name) {
            None => false,
            Some(domain) => domain.is_taken(),
        }
    }

    /// A program invocation has come to have these domains (ISO 9506-1, CreateProgramInvocation): its name stands among
    /// those of each, in order of octets, so each is IN-USE. Each is there, READY or IN-USE and sharable, and hasn't
    /// that name yet. The one refusal is want of memory; then all domains are as before.
    pub fn used(
        &mut self,
        alloc: Global,
        domains: &Identifiers,
        by: &Identifier,
    ) -> Result<(), Memory>
        requires { AreFreeFor by.now domains.now self.old }
        ensures used { OnOk result (self.new ≡ after_used domains.now by.now self.old) }
        ensures kept { OnErr result (self.new ≡ self.old) }
    {
        put_all(alloc, &mut self.rows, domains.as_slice(), by)
    }

    /// A program invocation is gone (ISO 9506-1, DeleteProgramInvocation): its name is gone from these domains, and one
    /// that no other has is READY again. It takes no memory.
    pub fn unused(&mut self, domains: &Identifiers, by: &Identifier)
        ensures { self.new ≡ after_unused domains.now by.now self.old }
    {
        take_all(&mut self.rows, domains.as_slice(), by);
    }
}

impl Domain {
    /// Whether it is IN-USE and not sharable.
    pub fn is_taken(&self) -> bool
        ensures { result ≡ is_taken self.now }
    {
        !self.sharable && !self.invocations.is_empty()
    }

    /// The invocation of that name has it too. The one refusal is want of memory; then all is as before.
    fn put_name(&mut self, name: Identifier) -> Result<(), Memory>
        ensures put { OnOk result (self.new ≡ had_by name self.old) }
        ensures kept { OnErr result (self.new ≡ self.old) }
    {
        self.invocations.put(name)
    }

    /// The invocation of that name doesn't have it any more.
    fn take_name(&mut self, name: &Identifier)
        ensures { self.new ≡ left_by name.now self.old }
    {
        self.invocations.take(name);
    }
}

/// The invocation has the domain of that name too. The one refusal is want of memory; then all is as before.
fn put_one(
    alloc: Global,
    rows: &mut IndexMap<Identifier, Domain>,
    domain: &Identifier,
    by: &Identifier,
) -> Result<(), Memory>
    ensures put { OnOk result (rows.new.entries
        ≡ changed domain.now (had_by by.now) rows.old.entries) }
    ensures kept { OnErr result (rows.new.entries ≡ rows.old.entries) }
    ensures many { length rows.new.entries ≡ length rows.old.entries }
{
    let name = by.copy(alloc)?;
    match rows.get_mut(domain) {
        Some(found) => found.put_name(name),
        None => Ok(()),
    }
}

/// The invocation doesn't have the domain of that name any more.
fn take_one(rows: &mut IndexMap<Identifier, Domain>, domain: &Identifier, by: &Identifier)
    ensures taken { rows.new.entries ≡ changed domain.now (left_by by.now) rows.old.entries }
    ensures many { length rows.new.entries ≡ length rows.old.entries }
{
    if let Some(found) = rows.get_mut(domain) {
        found.take_name(by);
    }
}

/// The invocation has these domains too, or, where memory is wanting, none of them.
fn put_all(
    alloc: Global,
    rows: &mut IndexMap<Identifier, Domain>,
    domains: &[Identifier],
    by: &Identifier,
) -> Result<(), Memory>
    requires { AreFreeFor by.now domains.now rows.old.entries }
    ensures used { OnOk result (rows.new.entries
        ≡ after_used domains.now by.now rows.old.entries) }
    ensures kept { OnErr result (rows.new.entries ≡ rows.old.entries) }
    ensures many { length rows.new.entries ≡ length rows.old.entries }
{
    let [first, rest @ ..] = domains else {
        return Ok(());
    };
    put_one(alloc, rows, first, by)?;
    let put = put_all(alloc, rows, rest, by);
    if put.is_err() {
        take_one(rows, first, by);
    }
    put
}

/// The invocation doesn't have these domains any more.
fn take_all(rows: &mut IndexMap<Identifier, Domain>, domains: &[Identifier], by: &Identifier)
    ensures taken { rows.new.entries ≡ after_unused domains.now by.now rows.old.entries }
    ensures many { length rows.new.entries ≡ length rows.old.entries }
{
    for domain in domains {
        take_one(rows, domain, by);
    }
}
