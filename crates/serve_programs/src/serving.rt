//! A request for program invocations is served.

ghost use Rattle.std.specs.Prelude.{◌≡◌, OnErr, OnOk};
ghost use Rattle.cell_client.specs.Areas.{IsServedIn};
ghost use Rattle.cell_client.specs.Effects.{settled};
ghost use Rattle.cell_client.specs.Facts.{Facts};
ghost use Rattle.serve_programs.specs.Programs.{invocation_in, program_in};
ghost use Rattle.serve_programs.specs.Users.{AreUsed};

use crate::commands::{attributes, command, resume, start};
use crate::making::{create, delete};
use cell_client::Client;
use mms_types::{Answer, InvocationRequest, Memory, ProgramRequest};
use program_inv::{Command, Programs};
use serve_domains::DomainTables;
use std::alloc::Global;

/// Serves a request that makes or deletes a program invocation, on the tables of domains and of program invocations and
/// on the part of its client: it is refused, or done and answered. The domains of which a program invocation is made are
/// IN-USE from then on, and one that no other has is READY again when it is deleted. Without memory all is as before.
pub fn make(
    alloc: Global,
    own: &mut Client,
    domains: &mut DomainTables,
    programs: &mut Programs,
    invoke: u32,
    asked: InvocationRequest<'_>,
) -> Result<(), Memory>
    requires settled { own.old ≡ settled own.old.row }
    requires used { AreUsed domains.old.domains programs.old }
    ensures served { OnOk result ((facts : Facts)
        → IsServedIn (invocation_in asked.entry) facts invoke own.old.row
        (domains.old, programs.old) (domains.new, programs.new) own.new) }
    ensures kept { OnErr result (own.new ≡ own.old) }
    ensures same { OnErr result (domains.new ≡ domains.old) }
    ensures unmade { OnErr result (programs.new ≡ programs.old) }
{
    match asked {
        InvocationRequest::CreateProgramInvocation(asked) => {
            create(alloc, own, domains, programs, invoke, asked)
        }
        InvocationRequest::DeleteProgramInvocation(name) => {
            delete(alloc, own, domains, programs, invoke, name)
        }
    }
}

/// Serves a request for program invocations that are there, on the table of them and the part of its client: it is
/// refused, or done and answered. Without memory all is as before.
pub fn serve(
    alloc: Global,
    own: &mut Client,
    programs: &mut Programs,
    invoke: u32,
    asked: ProgramRequest<'_>,
) -> Result<(), Memory>
    requires settled { own.old ≡ settled own.old.row }
    ensures served { OnOk result ((facts : Facts)
        → IsServedIn (program_in asked.entry) facts invoke own.old.row
        programs.old programs.new own.new) }
    ensures kept { OnErr result (own.new ≡ own.old) }
    ensures same { OnErr result (programs.new ≡ programs.old) }
{
    match asked {
        ProgramRequest::Start(asked) => start(alloc, own, programs, invoke, asked),
        ProgramRequest::Stop(name) => {
            let answer = Answer::Stop;
            command(alloc, own, programs, invoke, Command::Stop, name, &answer)
        }
        ProgramRequest::Resume(asked) => resume(alloc, own, programs, invoke, asked),
        ProgramRequest::Reset(name) => {
            let answer = Answer::Reset;
            command(alloc, own, programs, invoke, Command::Reset, name, &answer)
        }
        ProgramRequest::Kill(name) => {
            let answer = Answer::Kill;
            command(alloc, own, programs, invoke, Command::Kill, name, &answer)
        }
        ProgramRequest::GetProgramInvocationAttributes(name) => {
            attributes(alloc, own, programs, invoke, name)
        }
    }
}
