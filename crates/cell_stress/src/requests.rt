//! What the clients ask.

ghost use Rattle.std.specs.Prelude.{◌≡◌, ◌<◌, ◌≤◌, ◌^◌, true, IfOk};
ghost use Rattle.mms_types.specs.Spelling.{is_identifier};
ghost use Rattle.mms_types.specs.declared.identifier.Edition.TheVariants.{One};
ghost use Rattle.cell_stress.specs.Requests.{asked, define, invoke_of, proposal, read};
ghost use Rattle.cell_stress.specs.Requests.{relinquish, semaphore, take, variable, write};

use mms_types::{
    Access, Boxed, Data, DataKind, DataList, DefineSemaphore, Edition, Identifier, Initiate,
    InitiateDetail, Memory, ObjectName, ParameterOptions, Read, RelinquishControl, Request,
    ServiceOptions, Spec, Specs, TakeControl, Unnamed, Write,
};
use std::alloc::Global;

/// A name of these octets.
pub(crate) fn name(alloc: Global, octets: &[u8]) -> Result<Identifier, Memory>
    requires { is_identifier One octets.now ≡ true }
    ensures { IfOk result (λ name. name ≡ octets.now) }
{
    match Identifier::read(alloc, octets, Edition::One) {
        Ok(name) => Ok(name),
        Err(Unnamed::Memory) => Err(Memory::wanting()),
        Err(Unnamed::Bad(_)) => unreachable!(),
    }
}

/// What each client proposes for its association.
pub(crate) fn proposal() -> Initiate
    ensures { result ≡ proposal }
{
    Initiate {
        size: Some(65_000),
        calling: 10,
        called: 10,
        nesting: Some(5),
        detail: InitiateDetail {
            version: 1,
            parameters: ParameterOptions {
                octets: [0xF1, 0x00],
            },
            services: ServiceOptions {
                octets: [
                    0xEE, 0x1C, 0x00, 0x00, 0x04, 0x08, 0x00, 0x00, 0x79, 0xEF, 0x18,
                ],
            },
        },
    }
}

/// The semaphore.
fn semaphore(alloc: Global) -> Result<ObjectName, Memory>
    ensures { IfOk result (λ name. name ≡ semaphore) }
{
    Ok(ObjectName::Vmd(name(alloc, b"T")?))
}

/// The variable.
fn variable(alloc: Global) -> Result<Access, Memory>
    ensures { IfOk result (λ access. access ≡ variable) }
{
    let mut specs = Specs::new(alloc);
    specs.push(Spec::Name(ObjectName::Vmd(name(alloc, b"V")?)))?;
    Ok(Access::Specs(specs))
}

/// The semaphore is made.
pub(crate) fn define(alloc: Global) -> Result<Request, Memory>
    ensures { IfOk result (λ request. request ≡ define) }
{
    Ok(Request::DefineSemaphore(DefineSemaphore {
        name: semaphore(alloc)?,
        tokens: 1,
    }))
}

fn read(alloc: Global) -> Result<Request, Memory>
    ensures { IfOk result (λ request. request ≡ read) }
{
    Ok(Request::Read(Read {
        with_access: false,
        access: variable(alloc)?,
    }))
}

fn write(alloc: Global, number: u32) -> Result<Request, Memory>
    ensures { IfOk result (λ request. request ≡ write number) }
{
    let access = variable(alloc)?;
    let mut values = DataList::new(alloc);
    values.push(Data {
        kind: DataKind::Integer(i64::from(number)),
    })?;
    Ok(Request::Write(Write { access, values }))
}

fn take(alloc: Global) -> Result<Request, Memory>
    ensures { IfOk result (λ request. request ≡ take) }
{
    let take = TakeControl {
        name: semaphore(alloc)?,
        token: None,
        priority: 64,
        delay: Some(5),
        control: None,
        abort: None,
        relinquish: true,
        preempt: None,
    };
    Ok(Request::TakeControl(Boxed::new(alloc, take)?))
}

fn relinquish(alloc: Global) -> Result<Request, Memory>
    ensures { IfOk result (λ request. request ≡ relinquish) }
{
    Ok(Request::RelinquishControl(RelinquishControl {
        name: semaphore(alloc)?,
        token: None,
    }))
}

/// What a random word has a client ask in a round.
pub(crate) fn asked(alloc: Global, word: u32, round: u32) -> Result<Request, Memory>
    ensures { IfOk result (λ request. request ≡ asked word round) }
{
    match word % 4 {
        0 => read(alloc),
        1 => write(alloc, round),
        2 => take(alloc),
        _ => relinquish(alloc),
    }
}

/// The invokeID of a client's request in a round.
pub(crate) fn invoke_of(client: u32, round: u32) -> u32
    requires { round < 2 ^ 31 }
    ensures { result ≡ invoke_of client round }
{
    if client == 1 { round + 1 } else { round }
}
