//! What a client sends is served on its part and that of one table, whichever it is.

ghost use Rattle.std.specs.Prelude.{◌≡◌, ℕ, ◌<◌, ◌≤◌, length, slice_get, true, OnErr, OnOk, OnSome, IfNone, IfOk, IfSome, Some};
ghost use Rattle.part_table.specs.Held.{held_at};
ghost use Rattle.parted_state.specs.Area.{Own, IsTable};
ghost use Rattle.parted_state.specs.Cut.{is_in};
ghost use Rattle.parted_state.specs.Lifted.{put_in_place, tables_shown};
ghost use Rattle.parted_state.specs.Served.{table_place};
ghost use Rattle.association.specs.Client.{ClientRow};
ghost use Rattle.cell_client.specs.Association.{Verdict};
ghost use Rattle.cell_client.specs.Effects.{settled};
ghost use Rattle.cell_services.specs.Acts.{all_done, IsDoneIn, TellsSeveral};
ghost use Rattle.cell_services.specs.Serving.{heard_asks, hears};
ghost use Rattle.cell_services.specs.Tables.{Tables};
ghost use Rattle.step_parts.specs.Partition.{cell, clients_among, tables_many};
ghost use Rattle.step_parts.specs.Found.{row_held};
ghost use Rattle.step_apply.specs.Tasks.{heard_in_place, IsReady, IsServing};
ghost use Rattle.step_apply.specs.Placing.{AreBeside, IsPartOf};

use crate::telling::{make_rooms, tell_all};
use cell_client::{Client, ClientTold};
use mms_types::Memory;
use part_table::Hand;
use std::alloc::Global;
use step_parts::slots::{put, take};
use step_parts::tables::BEFORE_CLIENTS;
use step_parts::{Cell, Part};

/// Who is served.
#[derive(Clone, Copy)]
pub(crate) struct Serving {
    /// Where memory is taken.
    pub alloc: Global,
    /// How many clients there are.
    pub clients: u32,
    /// The client.
    pub client: u32,
}

/// What a client sends, under a number, that is served on its part and that of one table. Where others are told
/// something, too, the table changes after room was made for that.
pub(crate) trait OnParts {
    /// The table.
    type Table;

    /// What other tables tell it.
    type Facts: Copy;

    /// What else is left to be done on the table where others are told something.
    type Rest: Drop;

    /// The table that it is for, among all: that of its area, or one of these.
    ghost own: { Self → Own Tables Self.Table };

    /// The part of that.
    ghost its: { (asked : Self) → IsTable cell (own asked) };

    /// What it comes to, by its number.
    ghost verdict: { Self → ℕ → Verdict };

    /// What has to be so of the row of its client and of the table.
    ghost may: { Self → ℕ → ClientRow → Self.Table → Type 0 } = { λ asked number row table.
        Unit {0} };

    /// What holds of whatever other tables tell.
    ghost sound: { Self.Facts → Type 0 } = { λ facts. Unit {0} };

    /// What these tables tell it, of the client of that number.
    ghost is_told: { Self → Self.Facts → ℕ → Tables → Type 0 } = { λ asked facts client t.
        Unit {0} };

    /// What becomes of the table where others are told something, by the number of its client.
    ghost becomes: { Self → Self.Facts → ℕ → Self.Table → Self.Table } = { λ asked facts
        client table. table };

    /// What is left is what that takes. By default that is nothing, as nothing becomes of the table.
    ghost fits: { Self → Self.Facts → Self.Rest → ℕ → Self.Table → Type 0 } = { λ asked
        facts rest client table. Unit {0} };

    /// The place of its table, with so many clients.
    fn place(&self, clients: u32) -> u32
        requires { clients ≤ 64 }
        ensures { result ≡ table_place cell clients (its self.now).number };

    /// What other tables tell it, as they are held.
    fn facts(&self, who: Serving, held: &Hand<Cell>) -> Result<Self::Facts, Memory>
        requires serving { IsServing who.clients who.client held.now }
        ensures sound { IfOk result (λ facts. sound facts) }
        ensures told { IfOk result (λ facts.
            is_told self.now facts who.client (tables_shown cell held.now)) };

    /// Serves it, where other tables are those that are held. Where others are told something, too, that is answered,
    /// with what is left; then all is as before, as it is without memory.
    fn serve(
        &self,
        who: Serving,
        held: &Hand<Cell>,
        number: u32,
        facts: Self::Facts,
        client: &mut Client,
        table: &mut Part,
    ) -> Result<Option<(Vec<(u32, ClientTold)>, Self::Rest)>, Memory>
        requires few { who.clients ≤ 64 }
        requires many { who.clients ≡ clients_among (length held.now) }
        requires settled { client.old ≡ settled client.old.row }
        requires table { IsPartOf (its self.now) (Some table.old) }
        requires may { may self.now number client.old.row
            ((its self.now).part_in (Some table.old)) }
        requires sound { sound facts }
        ensures served { IfOk result (λ left. IfNone left ((t : Tables) → cell.InOrder t
            → (own self.now).of t ≡ (its self.now).part_in (Some table.old)
            → AreBeside (its self.now).number held.now t
            → is_told self.now facts client.old.row.client t
            → IsDoneIn (own self.now) t client.old.row ((its self.now).part_in (Some table.new))
            client.new (verdict self.now number))) }
        ensures left { IfOk result (λ left. IfSome left (λ l. (t : Tables) → cell.InOrder t
            → (own self.now).of t ≡ (its self.now).part_in (Some table.old)
            → is_told self.now facts client.old.row.client t
            → TellsSeveral (own self.now) t client.old.row (becomes self.now facts
            client.old.row.client ((its self.now).part_in (Some table.old))) l.0.items
            (verdict self.now number))) }
        ensures fits { IfOk result (λ left. IfSome left (λ l. fits self.now facts l.1
            client.old.row.client ((its self.now).part_in (Some table.old)))) }
        ensures table { IsPartOf (its self.now) (Some table.new) }
        ensures same { IfOk result (λ left. OnSome left (
            (client.new ≡ client.old) × (table.new ≡ table.old))) }
        ensures kept { OnErr result ((client.new ≡ client.old) × (table.new ≡ table.old)) };

    /// Does on the table what is left where others are told something. It takes no memory.
    fn finish(&self, client: u32, facts: Self::Facts, rest: &Self::Rest, table: &mut Part)
        requires table { IsPartOf (its self.now) (Some table.old) }
        requires sound { sound facts }
        requires fits { fits self.now facts rest.now client
            ((its self.now).part_in (Some table.old)) }
        ensures { table.new
            ≡ (its self.now).part (becomes self.now facts client
            ((its self.now).part_in (Some table.old))) };

    /// Its part is that of its table.
    ghost stands: { (asked : Self) (t : Tables)
        → IsPartOf (its asked) (slice_get (cell.table_parts t) (its asked).number) };

    /// Its words ask for its table.
    ghost asks: { (asked : Self) (number : ℕ)
        → is_in (heard_asks (verdict asked number)) (its asked).number ≡ true };
}

/// Serves what a client sends on its part and that of the table that is held in that place. Where others are told
/// something, too, that is answered, with what is left; then all is as before.
fn serve_alone<S: OnParts>(
    who: Serving,
    held: &mut Hand<Cell>,
    place: u32,
    number: u32,
    asked: &S,
    facts: S::Facts,
) -> Result<Option<(Vec<(u32, ClientTold)>, S::Rest)>, Memory>
    requires serving { IsServing who.clients who.client held.old }
    requires below { (S.its asked.now).number < tables_many }
    requires place { place ≡ table_place cell who.clients (S.its asked.now).number }
    requires table { IsPartOf (S.its asked.now) (held_at held.old place) }
    requires may { S.may asked.now number (row_held held.old who.client)
        ((S.its asked.now).part_in (held_at held.old place)) }
    requires sound { S.sound facts }
    requires told { S.is_told asked.now facts who.client (tables_shown cell held.old) }
    ensures put { IfOk result (λ left. IfNone left (held.new
        ≡ heard_in_place who.client (S.verdict asked.now number) held.old)) }
    ensures left { IfOk result (λ left. IfSome left (λ l. hears (tables_shown cell held.old)
        (row_held held.old who.client) who.client (S.verdict asked.now number)
        ≡ all_done ((S.own asked.now).put (S.becomes asked.now facts who.client
        ((S.its asked.now).part_in (held_at held.old place))) (tables_shown cell held.old))
        l.0.items)) }
    ensures fits { IfOk result (λ left. IfSome left (λ l.
        S.fits asked.now facts l.1 who.client
        ((S.its asked.now).part_in (held_at held.old place)))) }
    ensures same { IfOk result (λ left. OnSome left (held.new ≡ held.old)) }
    ensures kept { OnErr result (held.new ≡ held.old) }
{
    let mut part = take(held, BEFORE_CLIENTS + who.client);
    let mut table = take(held, place);
    let left = match &mut *part {
        Part::Client(own) => asked.serve(who, held, number, facts, own, &mut table),
        _ => unreachable!(),
    };
    put(held, place, table);
    put(held, BEFORE_CLIENTS + who.client, part);
    left
}

/// Does on the table in that place what is left of what a client sent that tells others something, and tells them. Room
/// is made first, which alone may want memory; then all is as before.
fn finish_and_tell<S: OnParts>(
    who: Serving,
    held: &mut Hand<Cell>,
    place: u32,
    asked: &S,
    facts: S::Facts,
    left: (Vec<(u32, ClientTold)>, S::Rest),
) -> Result<(), Memory>
    requires serving { IsServing who.clients who.client held.old }
    requires below { (S.its asked.now).number < tables_many }
    requires place { place ≡ table_place cell who.clients (S.its asked.now).number }
    requires table { IsPartOf (S.its asked.now) (held_at held.old place) }
    requires sound { S.sound facts }
    requires fits { S.fits asked.now facts left.1 who.client
        ((S.its asked.now).part_in (held_at held.old place)) }
    ensures put { OnOk result (held.new ≡ put_in_place cell (all_done ((S.own asked.now).put
        (S.becomes asked.now facts who.client
        ((S.its asked.now).part_in (held_at held.old place)))
        (tables_shown cell held.old)) left.0.items) held.old) }
    ensures kept { OnErr result (held.new ≡ held.old) }
{
    let (told, rest) = left;
    make_rooms(held, who.clients, told.as_slice())?;
    let mut table = take(held, place);
    asked.finish(who.client, facts, &rest, &mut table);
    put(held, place, table);
    tell_all(held, who.clients, told);
    Ok(())
}

/// Serves what a client sends on the part of its table, where all is held that it needs.
pub(crate) fn serve_on<S: OnParts>(
    who: Serving,
    held: &mut Hand<Cell>,
    number: u32,
    asked: &S,
) -> Result<(), Memory>
    requires serving { IsServing who.clients who.client held.old }
    requires below { (S.its asked.now).number < tables_many }
    requires ready { IsReady who.clients who.client (S.verdict asked.now number) held.old }
    requires may { S.may asked.now number (row_held held.old who.client)
        ((S.its asked.now).part_in
        (held_at held.old (table_place cell who.clients (S.its asked.now).number))) }
    ensures put { OnOk result (held.new
        ≡ heard_in_place who.client (S.verdict asked.now number) held.old) }
    ensures kept { OnErr result (held.new ≡ held.old) }
{
    let facts = asked.facts(who, held)?;
    let place = asked.place(who.clients);
    match serve_alone(who, held, place, number, asked, facts)? {
        None => Ok(()),
        Some(left) => finish_and_tell(who, held, place, asked, facts, left),
    }
}
