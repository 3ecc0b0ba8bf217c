//! Program invocations are made of domains, and deleted (ISO 9506-1, CreateProgramInvocation and
//! DeleteProgramInvocation).

ghost use Rattle.std.specs.Prelude.{◌≡◌, None, OnErr, OnOk, Some, if◌then◌else◌};
ghost use Rattle.domain_load.specs.Used.{AreFreeFor, after_used};
ghost use Rattle.program_inv.specs.Programs.{after_create, after_delete, create_cause, delete_cause, named};
ghost use Rattle.cell_client.specs.Areas.{IsServedIn};
ghost use Rattle.cell_client.specs.Effects.{felt_all, settled};
ghost use Rattle.cell_client.specs.Facts.{Facts};
ghost use Rattle.cell_client.specs.Requests.{fits, request_told, size_of};
ghost use Rattle.serve_programs.specs.Programs.{create, delete, freed, with_domains};
ghost use Rattle.serve_programs.specs.Users.{AreUsed};

use cell_client::Client;
use mms_types::{Answer, CreateProgramInvocation, Identifier, Memory};
use program_inv::Programs;
use serve_domains::DomainTables;
use std::alloc::Global;

/// A program invocation is made that nothing is against, and has its domains. Without memory all is as before.
fn put(
    alloc: Global,
    domains: &mut DomainTables,
    programs: &mut Programs,
    asked: &CreateProgramInvocation,
) -> Result<(), Memory>
    requires free { create_cause asked.now domains.old.domains programs.old ≡ None }
    requires has { AreFreeFor asked.now.name asked.now.domains domains.old.domains }
    ensures used { OnOk result (domains.new ≡ with_domains
        (after_used asked.now.domains asked.now.name domains.old.domains) domains.old) }
    ensures made { OnOk result (programs.new ≡ after_create asked.now programs.old) }
    ensures same { OnErr result (domains.new ≡ domains.old) }
    ensures unmade { OnErr result (programs.new ≡ programs.old) }
{
    programs.create(alloc, asked)?;
    if let Err(error) = domains.used(alloc, &asked.domains, &asked.name) {
        programs.delete(&asked.name);
        return Err(error);
    }
    Ok(())
}

/// A program invocation is made that nothing is against, and the client is answered, unless the answer is too long.
fn create_new(
    alloc: Global,
    own: &mut Client,
    domains: &mut DomainTables,
    programs: &mut Programs,
    invoke: u32,
    asked: &CreateProgramInvocation,
) -> Result<(), Memory>
    requires settled { own.old ≡ settled own.old.row }
    requires free { create_cause asked.now domains.old.domains programs.old ≡ None }
    requires has { AreFreeFor asked.now.name asked.now.domains domains.old.domains }
    ensures told { OnOk result (own.new ≡ settled (felt_all
        (request_told (size_of own.old.row.association) invoke None
        (Some Answer.CreateProgramInvocation)) own.old.row)) }
    ensures used { OnOk result (domains.new ≡ (if fits (size_of own.old.row.association) invoke
        (Some Answer.CreateProgramInvocation) then with_domains
        (after_used asked.now.domains asked.now.name domains.old.domains) domains.old
        else domains.old)) }
    ensures made { OnOk result (programs.new ≡ (if fits (size_of own.old.row.association) invoke
        (Some Answer.CreateProgramInvocation) then after_create asked.now programs.old
        else programs.old)) }
    ensures kept { OnErr result (own.new ≡ own.old) }
    ensures same { OnErr result (domains.new ≡ domains.old) }
    ensures unmade { OnErr result (programs.new ≡ programs.old) }
{
    let Some(octets) = own.ready(alloc, invoke, &Answer::CreateProgramInvocation)? else {
        return Ok(());
    };
    if let Err(error) = put(alloc, domains, programs, asked) {
        own.release();
        return Err(error);
    }
    own.push(octets);
    Ok(())
}

/// A program invocation is made.
pub(crate) fn create(
    alloc: Global,
    own: &mut Client,
    domains: &mut DomainTables,
    programs: &mut Programs,
    invoke: u32,
    asked: &CreateProgramInvocation,
) -> Result<(), Memory>
    requires settled { own.old ≡ settled own.old.row }
    requires used { AreUsed domains.old.domains programs.old }
    ensures served { OnOk result ((facts : Facts)
        → IsServedIn (create asked.now) facts invoke own.old.row
        (domains.old, programs.old) (domains.new, programs.new) own.new) }
    ensures kept { OnErr result (own.new ≡ own.old) }
    ensures same { OnErr result (domains.new ≡ domains.old) }
    ensures unmade { OnErr result (programs.new ≡ programs.old) }
{
    match programs.create_cause(asked, domains.domains()) {
        Some(error) => own.refuse(alloc, invoke, error),
        None => create_new(alloc, own, domains, programs, invoke, asked),
    }
}

/// The domains of a program invocation are free of it, where it is there.
fn free(domains: &mut DomainTables, programs: &Programs, name: &Identifier)
    ensures { domains.new ≡ freed name.now programs.now domains.old }
{
    if let Some(found) = programs.named(name) {
        domains.unused(&found.domains, name);
    }
}

/// A program invocation is deleted that nothing is against, and the client is answered, unless the answer is too long.
fn delete_there(
    alloc: Global,
    own: &mut Client,
    domains: &mut DomainTables,
    programs: &mut Programs,
    invoke: u32,
    name: &Identifier,
) -> Result<(), Memory>
    requires { delete_cause name.now programs.old ≡ None }
    ensures told { OnOk result (own.new ≡ settled (felt_all
        (request_told (size_of own.old.row.association) invoke None
        (Some Answer.DeleteProgramInvocation)) own.old.row)) }
    ensures freed { OnOk result (domains.new ≡ (if fits (size_of own.old.row.association) invoke
        (Some Answer.DeleteProgramInvocation) then freed name.now programs.old domains.old
        else domains.old)) }
    ensures deleted { OnOk result (programs.new ≡ (if fits (size_of own.old.row.association) invoke
        (Some Answer.DeleteProgramInvocation) then after_delete name.now programs.old
        else programs.old)) }
    ensures kept { OnErr result (own.new ≡ own.old) }
    ensures same { OnErr result (domains.new ≡ domains.old) }
    ensures undeleted { OnErr result (programs.new ≡ programs.old) }
{
    let Some(octets) = own.ready(alloc, invoke, &Answer::DeleteProgramInvocation)? else {
        return Ok(());
    };
    free(domains, programs, name);
    programs.delete(name);
    own.push(octets);
    Ok(())
}

/// A program invocation is deleted.
pub(crate) fn delete(
    alloc: Global,
    own: &mut Client,
    domains: &mut DomainTables,
    programs: &mut Programs,
    invoke: u32,
    name: &Identifier,
) -> Result<(), Memory>
    ensures served { OnOk result ((facts : Facts)
        → IsServedIn (delete name.now) facts invoke own.old.row
        (domains.old, programs.old) (domains.new, programs.new) own.new) }
    ensures kept { OnErr result (own.new ≡ own.old) }
    ensures same { OnErr result (domains.new ≡ domains.old) }
    ensures undeleted { OnErr result (programs.new ≡ programs.old) }
{
    match programs.delete_cause(name) {
        Some(error) => own.refuse(alloc, invoke, error),
        None => delete_there(alloc, own, domains, programs, invoke, name),
    }
}
