//! Requests for program invocations, on the part of their client and that of the program invocations, as they are held;
//! what makes and deletes them, on that of the domains, too; and a program invocation that ends by itself.

ghost use Rattle.std.specs.Prelude.{◌≡◌, ◌≤◌, Some, OnErr, OnOk};
ghost use Rattle.mms_types.specs.Areas.{invocation_request};
ghost use Rattle.part_table.specs.Held.{held_at};
ghost use Rattle.program_inv.specs.Programs.{after_ends};
ghost use Rattle.cell_client.specs.Association.{Takes};
ghost use Rattle.cell_services.specs.Tables.{Tables};
ghost use Rattle.serve_programs.specs.Users.{AreUsed};
ghost use Rattle.step_parts.specs.Partition.{domains_in, domains_place, programs_in, programs_place, IsClient, IsDomains, IsPrograms};
ghost use Rattle.step_apply.specs.Lifting.{placed_at};
ghost use Rattle.step_apply.specs.Tasks.{heard_in_place, AreMade, IsRoomless, IsServing};

use crate::placing::{OnParts, Serving};
use cell_client::{Client, ClientTold};
use mms_types::{Identifier, InvocationRequest, Memory, ProgramRequest};
use part_table::Hand;
use program_inv::Programs;
use std::alloc::Global;
use step_parts::slots::{put, take};
use step_parts::tables::{BEFORE_CLIENTS, PROGRAMS};
use step_parts::{Cell, Part};

/// Serves a request that makes or deletes a program invocation on the part of its client, and those of the domains and
/// of the program invocations.
fn make_in_parts(
    alloc: Global,
    part: &mut Part,
    domains: &mut Part,
    programs: &mut Part,
    invoke: u32,
    asked: InvocationRequest<'_>,
) -> Result<(), Memory>
    requires client { IsClient (Some part.old) }
    requires domains { IsDomains (Some domains.old) }
    requires programs { IsPrograms (Some programs.old) }
    requires settled { IsRoomless part.old }
    requires used { AreUsed (domains_in (Some domains.old)).domains
        (programs_in (Some programs.old)) }
    ensures served { OnOk result ((t : Tables) → t.domains ≡ domains_in (Some domains.old)
        → t.programs ≡ programs_in (Some programs.old)
        → AreMade t (Takes invoke (invocation_request asked.entry))
        part.old part.new domains.new programs.new) }
    ensures kept { OnErr result (part.new ≡ part.old) }
    ensures same { OnErr result (domains.new ≡ domains.old) }
    ensures unmade { OnErr result (programs.new ≡ programs.old) }
{
    match (part, domains, programs) {
        (Part::Client(own), Part::Domains(domains), Part::Programs(programs)) => {
            serve_programs::make(alloc, own, domains, programs, invoke, asked)
        }
        _ => unreachable!(),
    }
}

/// Serves a client's request that makes or deletes a program invocation, where domains and program invocations are
/// held.
pub(crate) fn make_on_programs(
    who: Serving,
    held: &mut Hand<Cell>,
    invoke: u32,
    asked: InvocationRequest<'_>,
) -> Result<(), Memory>
    requires serving { IsServing who.clients who.client held.old }
    requires domains { IsDomains (held_at held.old domains_place) }
    requires programs { IsPrograms (held_at held.old programs_place) }
    ensures put { OnOk result (held.new
        ≡ heard_in_place who.client (Takes invoke (invocation_request asked.entry)) held.old) }
    ensures kept { OnErr result (held.new ≡ held.old) }
{
    let mut part = take(held, BEFORE_CLIENTS + who.client);
    let mut domains = take(held, 2);
    let mut programs = take(held, 3);
    let done = make_in_parts(
        who.alloc,
        &mut part,
        &mut domains,
        &mut programs,
        invoke,
        asked,
    );
    put(held, 3, programs);
    put(held, 2, domains);
    put(held, BEFORE_CLIENTS + who.client, part);
    done
}

impl OnParts for ProgramRequest<'_> {
    ghost use Rattle.std.proofs.Common.{ap, refl};
    ghost use Rattle.mms_types.specs.Areas.{program_request};
    ghost use Rattle.parted_state.specs.Cut.{is_in};
    ghost use Rattle.cell_client.specs.Association.{Takes};
    ghost use Rattle.cell_services.specs.Services.{asks_of};
    ghost use Rattle.cell_services.specs.Tables.{own_programs};
    ghost use Rattle.cell_services.proofs.AreaTableLaws.{in_programs};
    ghost use Rattle.step_parts.specs.AfterLaws.{is_programs};

    type Table = Programs;

    type Facts = ();

    type Rest = ();

    ghost own = { λ asked. own_programs };

    ghost its = { λ asked. is_programs };

    ghost verdict = { λ asked invoke. Takes invoke (program_request asked) };

    fn place(&self, _clients: u32) -> u32 {
        u32::from(PROGRAMS)
    }

    fn facts(&self, _who: Serving, _held: &Hand<Cell>) -> Result<(), Memory> {
        Ok(())
    }

    #[tactic(auto, using(cell_services::proofs::AreaLaws::programs_served))]
    fn serve(
        &self,
        who: Serving,
        _held: &Hand<Cell>,
        invoke: u32,
        _facts: (),
        client: &mut Client,
        table: &mut Part,
    ) -> Result<Option<(Vec<(u32, ClientTold)>, ())>, Memory> {
        match table {
            Part::Programs(rows) => {
                serve_programs::serve(who.alloc, client, rows, invoke, *self)?;
                Ok(None)
            }
            _ => unreachable!(),
        }
    }

    fn finish(&self, _client: u32, _facts: (), _rest: &(), _table: &mut Part) {}

    ghost stands = { λ asked t. refl };

    ghost asks = { λ asked invoke. ap (λ a. is_in (asks_of a) 3) (in_programs asked) };
}

/// A program invocation ends by itself, in their part.
fn end_in_part(table: &mut Part, name: &Identifier)
    requires { IsPrograms (Some table.old) }
    ensures { table.new ≡ Part.Programs (after_ends name.now (programs_in (Some table.old))) }
{
    match table {
        Part::Programs(programs) => programs.ends(name),
        _ => unreachable!(),
    }
}

/// The program invocation of that name ends by itself, where it is there and runs. They are held. It takes no memory.
pub(crate) fn end_program(held: &mut Hand<Cell>, name: &Identifier)
    requires { IsPrograms (held_at held.old programs_place) }
    ensures { held.new ≡ placed_at (Part.Programs
        (after_ends name.now (programs_in (held_at held.old programs_place))))
        held.old programs_place }
{
    let place = u32::from(PROGRAMS);
    let mut table = take(held, place);
    end_in_part(&mut table, name);
    put(held, place, table);
}
