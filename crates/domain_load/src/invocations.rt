//! The names of the program invocations that have a domain, in order of octets.

ghost use Rattle.std.specs.Prelude.{◌≡◌, ◌==◌, ◌≤◌, [], filter, length, not, IfOk, OnErr, OnOk};
ghost use Rattle.object_names.specs.Listing.{insert_name};
ghost use Rattle.object_names.proofs.Ordered.{IsOrdered};
ghost use Rattle.domain_load.specs.Domains.{name_eq};
ghost use Rattle.domain_load.specs.UserNames.{AreBefore, AreUpTo};

use mms_types::{Identifier, Memory};
use std::alloc::Global;
use std::marker::Model;

/// The names of the program invocations that have a domain, in order of octets. Contracts see the list of them.
pub struct Invocations {
    names: Vec<Identifier>,
}

impl Model for Invocations {
    ghost use Rattle.std.specs.Prelude.{ℕ, List};
    ghost use Rattle.object_names.proofs.Ordered.{IsOrdered};

    ghost Value = { List (List ℕ) };

    ghost view = { λ invocations. invocations.names.items };

    ghost invariant = { λ users. IsOrdered users.names.items };
}

impl Invocations {
    /// No names. Nothing is allocated.
    pub(crate) fn new(alloc: Global) -> Invocations
        ensures { result ≡ [] }
    {
        Invocations {
            names: Vec::new(alloc),
        }
    }

    /// The names.
    pub fn as_slice(&self) -> &[Identifier]
        ensures { result.now ≡ self.now }
    {
        &self.names
    }

    /// Whether there is none.
    pub fn is_empty(&self) -> bool
        ensures { result ≡ (length self.now == 0) }
    {
        self.names.is_empty()
    }

    /// One name more stands at its place. The one refusal is want of memory; then all is as before. How many names are
    /// compared doesn't grow as they do.
    pub(crate) fn put(&mut self, name: Identifier) -> Result<(), Memory>
        ensures put { OnOk result (self.new ≡ insert_name name self.old) }
        ensures kept { OnErr result (self.new ≡ self.old) }
    {
        put_in(&mut self.names, name)
    }

    /// That name is gone. It takes no memory. How many names are compared doesn't grow as they do.
    pub(crate) fn take(&mut self, name: &Identifier)
        ensures { self.new ≡ filter (λ other. not (name_eq other name.now)) self.old }
    {
        take_out(&mut self.names, name);
    }

    /// A copy. The one refusal is want of memory.
    pub fn copy(&self, alloc: Global) -> Result<Invocations, Memory>
        ensures { IfOk result (λ invocations. invocations ≡ self.now) }
    {
        let names = copied(alloc, &self.names)?;
        Ok(Invocations { names })
    }
}

/// How many names come before that one, which stand first.
fn before(names: &[Identifier], name: &Identifier) -> usize
    requires { IsOrdered names.now }
    ensures { AreBefore name.now names.now result }
{
    names.partition_point(|other| *other < *name)
}

/// How many names come before that one, or are it.
fn up_to(names: &[Identifier], name: &Identifier) -> usize
    requires { IsOrdered names.now }
    ensures { AreUpTo name.now names.now result }
{
    names.partition_point(|other| *other <= *name)
}

/// The names, copied.
fn copied(alloc: Global, names: &[Identifier]) -> Result<Vec<Identifier>, Memory>
    ensures { IfOk result (λ copies. copies.items ≡ names.now) }
{
    let mut copies = Vec::new(alloc);
    for name in names {
        copies.push(name.copy(alloc)?)?;
    }
    Ok(copies)
}

/// A name is put at its place among names in order.
fn put_in(names: &mut Vec<Identifier>, name: Identifier) -> Result<(), Memory>
    requires { IsOrdered names.old.items }
    ensures put { OnOk result (names.new.items ≡ insert_name name names.old.items) }
    ensures kept { OnErr result (names.new.items ≡ names.old.items) }
{
    let place = before(names, &name);
    names.insert(place, name)?;
    Ok(())
}

/// A name is taken out of names in order.
fn take_out(names: &mut Vec<Identifier>, name: &Identifier)
    requires { IsOrdered names.old.items }
    ensures { names.new.items ≡ filter (λ other. not (name_eq other name.now)) names.old.items }
{
    let place = before(names, name);
    let mut end = up_to(names, name);
    while place < end {
        end -= 1;
        names.remove(end);
    }
}

impl Drop for Invocations {
    fn drop(self) {
        let Invocations { names: _names } = self;
    }
}
