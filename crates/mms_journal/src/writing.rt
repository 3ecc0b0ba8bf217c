//! WriteJournal: all of the entries or none.

ghost use Rattle.std.specs.Prelude.{◌≡◌, ◌+◌, ◌++◌, ◌≤◌, Err, IfOk, IsOk, None, OnErr, OnOk, Some, false, length, nat_lt, sum_by, vec_capacity, vec_len};
ghost use Rattle.std.specs.Option.{SomeIff};
ghost use Rattle.mms_types.specs.declared.refuse.Refuse.TheVariants.{Memory as OutOfMemory};
ghost use Rattle.mms_journal.specs.Entries.{entry_length};
ghost use Rattle.mms_journal.specs.Journals.{journal, most_entries};
ghost use Rattle.mms_journal.specs.Services.{IsPrepared, after_write, early_cause, has_no_number, has_no_room, numbered, write_cause, written_by};

use crate::journal::Written;
use crate::kept::Kept;
use crate::{Journal, Journals};
use ber_core::Writer;
use mms_types::{JournalEntry, Memory, ObjectName, Refuse, ServiceError, WriteJournal};
use object_names::Named;
use std::alloc::Global;
use std::marker::Model;

/// The most entries of a journal.
const MOST_ENTRIES: usize = 65_536;

/// The most octets of a journal.
const MOST_OCTETS: u64 = 16_777_216;

/// Entries that are to be written, as journals keep them. Contracts see the list of them.
#[derive(Drop)]
pub struct Prepared {
    entries: Vec<Kept>,
    /// How many octets they have.
    octets: u64,
}

impl Model for Prepared {
    ghost use Rattle.std.specs.Prelude.{◌≡◌, List, sum_by};
    ghost use Rattle.mms_types.specs.declared.journal.JournalEntry.{JournalEntry};
    ghost use Rattle.mms_journal.specs.Entries.{entry_length};
    ghost use Rattle.std.specs.Coded.{codes};
    ghost use Rattle.mms_types.specs.DatumCode.{datum_code};

    ghost Value = { List JournalEntry };

    ghost coded = { Prim.hlevel (codes, datum_code) };

    ghost view = { λ p. p.entries.items };

    ghost invariant = { λ p. p.octets ≡ sum_by entry_length p.entries.items };
}

/// So many and so many more. None exactly where 64 bits don't tell as many.
fn sum(count: u64, more: usize) -> Option<u64>
    ensures { SomeIff result (count + more ≤ 18446744073709551615) (count + more) }
{
    count.checked_add(more as u64)
}

/// Entries as journals keep them. The one refusal is want of memory, as which it counts that they have more octets than
/// 64 bits tell; no memory holds as many.
fn each_kept(alloc: Global, entries: &[JournalEntry]) -> Result<Prepared, Memory>
    ensures { IfOk result (λ prepared. prepared ≡ entries.now) }
{
    let mut out = Writer::new(alloc);
    let mut kept = Vec::with_capacity(alloc, entries.len())?;
    let mut octets = 0u64;
    for entry in entries {
        let one = Kept::of(alloc, &mut out, entry)?;
        let Some(all) = sum(octets, one.len()) else {
            return Err(Memory::wanting());
        };
        octets = all;
        kept.push(one)?;
    }
    Ok(Prepared {
        entries: kept,
        octets,
    })
}

/// Appends entries with the numbers that come after that one. There is room for them.
fn append(rows: &mut Vec<Written>, client: u32, number: u64, entries: Vec<Kept>)
    requires room { vec_len rows.old + vec_len entries ≤ vec_capacity rows.old }
    requires numbers { number + length entries.items ≤ 18446744073709551615 }
    ensures { rows.new.items ≡ rows.old.items ++ numbered client number entries.items }
{
    let mut last = number;
    for entry in entries {
        last += 1;
        rows.push_reserved(Written {
            number: last,
            client,
            entry,
        });
    }
}

/// Makes room for so many entries, and answers how many were written with them. It wants memory only where there is no
/// room for them, and where 64 bits don't tell how many were written.
fn reserved(rows: &mut Vec<Written>, written: u64, count: usize) -> Result<u64, Memory>
    ensures written { IfOk result (λ all. all ≡ written + count) }
    ensures fits { IfOk result (λ all. all ≤ 18446744073709551615) }
    ensures room { OnOk result (vec_len rows.new + count ≤ vec_capacity rows.new) }
    ensures items { rows.new.items ≡ rows.old.items }
    ensures enough { vec_len rows.old + count ≤ vec_capacity rows.old
        → written + count ≤ 18446744073709551615 → IsOk result }
{
    let Some(all) = sum(written, count) else {
        return Err(Memory::wanting());
    };
    rows.reserve(count)?;
    Ok(all)
}

impl Journal {
    /// Whether it would have too many entries with those.
    fn has_no_number(&self, count: usize) -> bool
        ensures { result ≡ nat_lt most_entries (length self.now.entries + count) }
    {
        self.entries.len() > MOST_ENTRIES || MOST_ENTRIES - self.entries.len() < count
    }

    /// Whether it would have too many octets with those.
    fn has_no_room(&self, prepared: &Prepared) -> bool
        ensures { result ≡ has_no_room prepared.now self.now }
    {
        self.octets > MOST_OCTETS || MOST_OCTETS - self.octets < prepared.octets
    }

    /// Appends entries, for which there is room. The one refusal is want of memory; then all is as before. That more
    /// were written than 64 bits tell counts as want of memory.
    fn write(&mut self, client: u32, prepared: Prepared) -> Result<(), Memory>
        requires number { has_no_number prepared self.old ≡ false }
        requires room { has_no_room prepared self.old ≡ false }
        ensures written { OnOk result (self.new ≡ written_by client prepared self.old) }
        ensures kept { OnErr result (self.new ≡ self.old) }
    {
        let Prepared { entries, octets } = prepared;
        let written = reserved(&mut self.entries, self.written, entries.len())?;
        append(&mut self.entries, client, self.written, entries);
        self.written = written;
        self.octets += octets;
        Ok(())
    }
}

impl Journals {
    /// What is to be written into a journal (ISO 9506-2, WriteJournal), as it keeps it: object-non-existent where the
    /// journal is missing; capability-unavailable where it would have more than 65,536 entries, or else more than
    /// 16,777,216 octets, the contents of its entries in output spelling. Nothing changes. Memory may be wanting before
    /// the octets are counted, where the first two causes don't hold, and is so where an entry is not of its form,
    /// which none is that was read.
    pub fn prepare(
        &self,
        alloc: Global,
        client: u32,
        asked: &WriteJournal,
    ) -> Result<Prepared, Refuse>
        ensures prepared { IsPrepared result
            (write_cause client asked.now.name asked.now.entries self.now) asked.now.entries }
        ensures wants { result ≡ Err OutOfMemory
            → early_cause client asked.now.name asked.now.entries self.now ≡ None }
    {
        let Some(journal) = self.named(client, &asked.name) else {
            return Err(Refuse::Service(ServiceError::OBJECT_NON_EXISTENT));
        };
        if journal.has_no_number(asked.entries.len()) {
            return Err(Refuse::Service(ServiceError::CAPABILITY_UNAVAILABLE));
        }
        let prepared = each_kept(alloc, asked.entries.as_slice())?;
        if journal.has_no_room(&prepared) {
            return Err(Refuse::Service(ServiceError::CAPABILITY_UNAVAILABLE));
        }
        Ok(prepared)
    }

    /// Writes entries into a journal (ISO 9506-1, WriteJournal): they are its last, in their order, with the numbers
    /// that come next. All others stay as they are. The one refusal is want of memory; then all is as before.
    pub fn write(
        &mut self,
        client: u32,
        name: &ObjectName,
        prepared: Prepared,
    ) -> Result<(), Memory>
        requires { write_cause client name.now prepared self.old ≡ None }
        ensures written { OnOk result (self.new ≡ after_write client name.now prepared self.old) }
        ensures kept { OnErr result (self.new ≡ self.old) }
    {
        write_named(&mut self.rows, client, name, prepared)
    }
}

/// Writes entries into the journal that a client names so. The one refusal is want of memory; then all is as before.
fn write_named(
    rows: &mut Named<Journal>,
    client: u32,
    name: &ObjectName,
    prepared: Prepared,
) -> Result<(), Memory>
    requires { write_cause client name.now prepared rows.old ≡ None }
    ensures written { OnOk result (rows.new ≡ after_write client name.now prepared rows.old) }
    ensures kept { OnErr result (rows.new ≡ rows.old) }
    ensures many { length rows.new ≡ length rows.old }
{
    match rows.named_mut(client, name) {
        None => Ok(()),
        Some(journal) => journal.write(client, prepared),
    }
}
