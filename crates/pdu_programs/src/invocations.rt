//! Program invocations are made and deleted, run and told of.
#![tactic(auto, unfolding(ber_forms::specs::Spelling::appended), using(ber_forms::proofs::Joined::writing))]

ghost use Rattle.std.specs.Prelude.{◌≡◌, refl, true, false, Ok, Err};
ghost use Rattle.ber_forms.specs.Reads.{NeedsNoMemory};
ghost use Rattle.pdu_names.specs.Editions.{lengths_of};
ghost use Rattle.pdu_names.specs.Gives.{GivesNext};
ghost use Rattle.pdu_names.specs.Kinds.{context};
ghost use Rattle.pdu_programs.specs.Invocations.{argument, create_program, invocation_attributes, invocation_state, named_program, run_program, some_domains};

use ber_core::{Memory as Full, Tag, Writer};
use ber_forms::{
    Cursor, Unread, put_boolean, put_defaulted_boolean, put_integer, put_octets, unsigned8_in,
};
use mms_types::{
    CreateProgramInvocation, Edition, Identifier, Identifiers, InvocationAttributes,
    InvocationState, Octets, RunProgram,
};
use pdu_names::{
    Formed, VisibleString, cursor, optional, put_each, put_optional, read_each, required,
};
use std::alloc::Global;

/// The form of the names of the domains of a program invocation: 1 to 16. They are copied.
pub struct SomeDomains;

impl Formed for SomeDomains {
    type Item = Identifiers;

    ghost kind = { some_domains };

    ghost needs_no_memory = { false };

    fn is_constructed() -> bool {
        true
    }

    fn read(alloc: Global, contents: &[u8], edition: Edition) -> Result<Identifiers, Unread> {
        let found = read_each::<Identifier>(alloc, contents, edition)?;
        if found.is_empty() || found.len() > 16 {
            return Err(Unread::Malformed);
        }
        Ok(Identifiers::from(found))
    }

    #[tactic(auto, unfolding(ber_forms::specs::Spelling::appended))]
    fn put(out: &mut Writer, x: &Identifiers) -> Result<(), Full> {
        put_each::<Identifier>(out, x.as_slice())
    }

    ghost sound = { λ _. refl };
}

/// The form of a CreateProgramInvocation request: reusable where it doesn't say. Names are copied.
pub struct CreateProgramInvocationRequest;

impl Formed for CreateProgramInvocationRequest {
    type Item = CreateProgramInvocation;

    ghost kind = { create_program };

    ghost needs_no_memory = { false };

    fn is_constructed() -> bool {
        true
    }

    fn read(
        alloc: Global,
        contents: &[u8],
        edition: Edition,
    ) -> Result<CreateProgramInvocation, Unread> {
        let mut parts = cursor(edition, contents);
        let name = required::<Identifier>(alloc, &mut parts, edition, 0)?;
        let domains = required::<SomeDomains>(alloc, &mut parts, edition, 1)?;
        let reusable = parts.defaulted_boolean(2, true)?;
        parts.end()?;
        Ok(CreateProgramInvocation {
            name,
            domains,
            reusable,
        })
    }

    fn put(out: &mut Writer, x: &CreateProgramInvocation) -> Result<(), Full> {
        Identifier::put_part(out, 0, &x.name)?;
        SomeDomains::put_part(out, 1, &x.domains)?;
        put_defaulted_boolean(out, 2, x.reusable, true)
    }

    ghost sound = { λ _. refl };
}

/// The form of a DeleteProgramInvocation request. The name is copied.
pub type DeleteProgramInvocationRequest = Identifier;

/// The form of what a program invocation is told when it is started or resumed: a VisibleString of at most 255 octets,
/// which may have none. It is copied.
pub struct ExecutionArgument;

impl Formed for ExecutionArgument {
    type Item = Octets;

    ghost kind = { argument };

    ghost needs_no_memory = { false };

    fn is_constructed() -> bool {
        false
    }

    fn read(alloc: Global, contents: &[u8], edition: Edition) -> Result<Octets, Unread> {
        if contents.len() > 255 {
            return Err(Unread::Malformed);
        }
        VisibleString::read(alloc, contents, edition)
    }

    fn put(out: &mut Writer, x: &Octets) -> Result<(), Full> {
        out.raw(x.as_slice())
    }

    fn put_part(out: &mut Writer, number: u32, x: &Octets) -> Result<(), Full> {
        put_octets(out, number, x.as_slice())
    }

    ghost sound = { λ _. refl };
}

/// The form of a Start request. An argument that is absent is another thing than an empty one. Both are copied.
pub struct StartRequest;

impl Formed for StartRequest {
    type Item = RunProgram;

    ghost kind = { run_program };

    ghost needs_no_memory = { false };

    fn is_constructed() -> bool {
        true
    }

    fn read(alloc: Global, contents: &[u8], edition: Edition) -> Result<RunProgram, Unread> {
        let mut parts = cursor(edition, contents);
        let name = required::<Identifier>(alloc, &mut parts, edition, 0)?;
        let argument = optional::<ExecutionArgument>(alloc, &mut parts, edition, 1)?;
        parts.end()?;
        Ok(RunProgram { name, argument })
    }

    fn put(out: &mut Writer, x: &RunProgram) -> Result<(), Full> {
        Identifier::put_part(out, 0, &x.name)?;
        put_optional::<ExecutionArgument>(out, 1, x.argument.as_ref())
    }

    ghost sound = { λ _. refl };
}

/// The form of a Resume request.
pub type ResumeRequest = StartRequest;

/// The form of a Stop request. The name is copied.
pub struct StopRequest;

impl Formed for StopRequest {
    type Item = Identifier;

    ghost kind = { named_program };

    ghost needs_no_memory = { false };

    fn is_constructed() -> bool {
        true
    }

    fn read(alloc: Global, contents: &[u8], edition: Edition) -> Result<Identifier, Unread> {
        let mut parts = cursor(edition, contents);
        let name = required::<Identifier>(alloc, &mut parts, edition, 0)?;
        parts.end()?;
        Ok(name)
    }

    fn put(out: &mut Writer, x: &Identifier) -> Result<(), Full> {
        Identifier::put_part(out, 0, x)
    }

    ghost sound = { λ _. refl };
}

/// The form of a Reset request.
pub type ResetRequest = StopRequest;

/// The form of a Kill request.
pub type KillRequest = StopRequest;

/// The form of a GetProgramInvocationAttributes request. The name is copied.
pub type GetProgramInvocationAttributesRequest = Identifier;

/// The next element, a state of program invocations.
#[tactic(auto, unfolding(ber_forms::specs::Reading::required_by))]
fn state(parts: &mut Cursor<'_>, edition: Edition) -> Result<InvocationState, Unread>
    requires { parts.old.lengths ≡ lengths_of edition }
    ensures exact { GivesNext (context 0 invocation_state) edition parts.old parts.new result }
    ensures kept { parts.new.lengths ≡ parts.old.lengths }
    ensures no_memory { NeedsNoMemory result }
{
    let element = parts.required(Tag::primitive(0))?;
    let number = unsigned8_in(element.contents, 1, 4)?;
    Ok(InvocationState::numbered(number))
}

/// The form of a GetProgramInvocationAttributes answer. Names and the argument are copied, names in their order.
pub struct GetProgramInvocationAttributesResponse;

impl Formed for GetProgramInvocationAttributesResponse {
    type Item = InvocationAttributes;

    ghost kind = { invocation_attributes };

    ghost needs_no_memory = { false };

    fn is_constructed() -> bool {
        true
    }

    fn read(
        alloc: Global,
        contents: &[u8],
        edition: Edition,
    ) -> Result<InvocationAttributes, Unread> {
        let mut parts = cursor(edition, contents);
        let state = state(&mut parts, edition)?;
        let domains = required::<Identifiers>(alloc, &mut parts, edition, 1)?;
        let deletable = parts.required_boolean(2)?;
        let reusable = parts.required_boolean(3)?;
        let monitor = parts.required_boolean(4)?;
        let argument = required::<VisibleString>(alloc, &mut parts, edition, 5)?;
        parts.end()?;
        Ok(InvocationAttributes {
            state,
            domains,
            deletable,
            reusable,
            monitor,
            argument,
        })
    }

    fn put(out: &mut Writer, x: &InvocationAttributes) -> Result<(), Full> {
        put_integer(out, 0, i64::from(x.state.number()))?;
        Identifiers::put_part(out, 1, &x.domains)?;
        put_boolean(out, 2, x.deletable)?;
        put_boolean(out, 3, x.reusable)?;
        put_boolean(out, 4, x.monitor)?;
        VisibleString::put_part(out, 5, &x.argument)
    }

    ghost sound = { λ _. refl };
}
