//! Program invocations are commanded, and told of (ISO 9506-1, Start, Stop, Resume, Reset, Kill and
//! GetProgramInvocationAttributes).

ghost use Rattle.std.specs.Prelude.{◌≡◌, ◌∷◌, [], None, OnErr, OnOk, Some, if◌then◌else◌, is_none};
ghost use Rattle.std.specs.Option.{option_map};
ghost use Rattle.mms_types.specs.Errors.{first_of, object_non_existent};
ghost use Rattle.mms_types.specs.Serves.{Serves};
ghost use Rattle.program_inv.specs.Programs.{after_command, after_resume, after_start, attributes, command_cause, named};
ghost use Rattle.program_inv.specs.declared.command.Command.TheVariants as bid;
ghost use Rattle.cell_client.specs.Areas.{IsServedIn};
ghost use Rattle.cell_client.specs.Effects.{felt_all, settled};
ghost use Rattle.cell_client.specs.Facts.{Facts};
ghost use Rattle.cell_client.specs.Requests.{fits, request_told, size_of};
ghost use Rattle.serve_programs.specs.Programs.{attributes as attributes_asked, command as command_asked, resume, start};

use cell_client::Client;
use mms_types::{Answer, Identifier, Memory, Refuse, RunProgram, ServiceError};
use program_inv::{Command, Programs};
use std::alloc::Global;

/// A program invocation follows a command that nothing is against, and the client is answered, unless the answer is too
/// long.
fn command_there(
    alloc: Global,
    own: &mut Client,
    programs: &mut Programs,
    invoke: u32,
    command: Command,
    name: &Identifier,
    answer: &Answer,
) -> Result<(), Memory>
    ensures told { OnOk result (own.new ≡ settled (felt_all
        (request_told (size_of own.old.row.association) invoke None (Some answer.now))
        own.old.row)) }
    ensures followed { OnOk result (programs.new
        ≡ (if fits (size_of own.old.row.association) invoke (Some answer.now)
        then after_command command name.now programs.old else programs.old)) }
    ensures kept { OnErr result (own.new ≡ own.old) }
    ensures same { OnErr result (programs.new ≡ programs.old) }
{
    let Some(octets) = own.ready(alloc, invoke, answer)? else {
        return Ok(());
    };
    programs.command(command, name);
    own.push(octets);
    Ok(())
}

/// A program invocation is stopped, reset or killed.
pub(crate) fn command(
    alloc: Global,
    own: &mut Client,
    programs: &mut Programs,
    invoke: u32,
    command: Command,
    name: &Identifier,
    answer: &Answer,
) -> Result<(), Memory>
    ensures served { OnOk result ((facts : Facts)
        → IsServedIn (command_asked command answer.now name.now) facts invoke own.old.row
        programs.old programs.new own.new) }
    ensures kept { OnErr result (own.new ≡ own.old) }
    ensures same { OnErr result (programs.new ≡ programs.old) }
{
    match programs.command_cause(command, name) {
        Some(error) => own.refuse(alloc, invoke, error),
        None => command_there(alloc, own, programs, invoke, command, name, answer),
    }
}

/// A program invocation is started that nothing is against, and the client is answered, unless the answer is too long.
fn start_there(
    alloc: Global,
    own: &mut Client,
    programs: &mut Programs,
    invoke: u32,
    asked: &RunProgram,
) -> Result<(), Memory>
    requires settled { own.old ≡ settled own.old.row }
    requires free { command_cause Command.Start asked.now.name programs.old ≡ None }
    ensures told { OnOk result (own.new ≡ settled (felt_all
        (request_told (size_of own.old.row.association) invoke None (Some Answer.Start))
        own.old.row)) }
    ensures started { OnOk result (programs.new
        ≡ (if fits (size_of own.old.row.association) invoke (Some Answer.Start)
        then after_start asked.now programs.old else programs.old)) }
    ensures kept { OnErr result (own.new ≡ own.old) }
    ensures same { OnErr result (programs.new ≡ programs.old) }
{
    let Some(octets) = own.ready(alloc, invoke, &Answer::Start)? else {
        return Ok(());
    };
    if let Err(error) = programs.start(alloc, asked) {
        own.release();
        return Err(error);
    }
    own.push(octets);
    Ok(())
}

/// A program invocation is started.
pub(crate) fn start(
    alloc: Global,
    own: &mut Client,
    programs: &mut Programs,
    invoke: u32,
    asked: &RunProgram,
) -> Result<(), Memory>
    requires settled { own.old ≡ settled own.old.row }
    ensures served { OnOk result ((facts : Facts)
        → IsServedIn (start asked.now) facts invoke own.old.row
        programs.old programs.new own.new) }
    ensures kept { OnErr result (own.new ≡ own.old) }
    ensures same { OnErr result (programs.new ≡ programs.old) }
{
    match programs.command_cause(Command::Start, &asked.name) {
        Some(error) => own.refuse(alloc, invoke, error),
        None => start_there(alloc, own, programs, invoke, asked),
    }
}

/// A program invocation goes on that nothing is against, and the client is answered, unless the answer is too long.
fn resume_there(
    alloc: Global,
    own: &mut Client,
    programs: &mut Programs,
    invoke: u32,
    asked: &RunProgram,
) -> Result<(), Memory>
    requires settled { own.old ≡ settled own.old.row }
    requires free { command_cause Command.Resume asked.now.name programs.old ≡ None }
    ensures told { OnOk result (own.new ≡ settled (felt_all
        (request_told (size_of own.old.row.association) invoke None (Some Answer.Resume))
        own.old.row)) }
    ensures resumed { OnOk result (programs.new
        ≡ (if fits (size_of own.old.row.association) invoke (Some Answer.Resume)
        then after_resume asked.now programs.old else programs.old)) }
    ensures kept { OnErr result (own.new ≡ own.old) }
    ensures same { OnErr result (programs.new ≡ programs.old) }
{
    let Some(octets) = own.ready(alloc, invoke, &Answer::Resume)? else {
        return Ok(());
    };
    if let Err(error) = programs.resume(alloc, asked) {
        own.release();
        return Err(error);
    }
    own.push(octets);
    Ok(())
}

/// A program invocation goes on.
pub(crate) fn resume(
    alloc: Global,
    own: &mut Client,
    programs: &mut Programs,
    invoke: u32,
    asked: &RunProgram,
) -> Result<(), Memory>
    requires settled { own.old ≡ settled own.old.row }
    ensures served { OnOk result ((facts : Facts)
        → IsServedIn (resume asked.now) facts invoke own.old.row
        programs.old programs.new own.new) }
    ensures kept { OnErr result (own.new ≡ own.old) }
    ensures same { OnErr result (programs.new ≡ programs.old) }
{
    match programs.command_cause(Command::Resume, &asked.name) {
        Some(error) => own.refuse(alloc, invoke, error),
        None => resume_there(alloc, own, programs, invoke, asked),
    }
}

/// What the program invocation of that name is, or why it isn't told.
fn attributes_said(alloc: Global, programs: &Programs, name: &Identifier) -> Result<Answer, Refuse>
    ensures { Serves result
        (first_of ((is_none (named name.now programs.now), object_non_existent) ∷ []))
        (option_map Answer.GetProgramInvocationAttributes (attributes name.now programs.now)) }
{
    match programs.attributes(alloc, name)? {
        None => Err(Refuse::Service(ServiceError::OBJECT_NON_EXISTENT)),
        Some(told) => Ok(Answer::GetProgramInvocationAttributes(told)),
    }
}

/// What a program invocation is is told.
pub(crate) fn attributes(
    alloc: Global,
    own: &mut Client,
    programs: &Programs,
    invoke: u32,
    name: &Identifier,
) -> Result<(), Memory>
    ensures served { OnOk result ((facts : Facts)
        → IsServedIn (attributes_asked name.now) facts invoke own.old.row
        programs.now programs.now own.new) }
    ensures kept { OnErr result (own.new ≡ own.old) }
{
    let said = attributes_said(alloc, programs, name);
    let _answered = own.settle(alloc, invoke, &said)?;
    Ok(())
}
