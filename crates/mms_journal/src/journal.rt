//! A journal.

ghost use Rattle.std.specs.Prelude.{◌≡◌, ◌==◌, IfOk, length};
ghost use Rattle.mms_journal.specs.Journals.{IsJournal, octets_in};
ghost use Rattle.mms_journal.specs.Services.{created};

use crate::kept::Kept;
use mms_types::Memory;
use object_names::Copied;
use std::alloc::Global;
use std::marker::Model;

/// An entry of a journal.
pub(crate) struct Written {
    /// Its number.
    pub(crate) number: u64,
    /// The number of the client that wrote it.
    pub(crate) client: u32,
    /// What it says.
    pub(crate) entry: Kept,
}

/// A journal (ISO 9506-1, journal object). Contracts see its entries in order of writing, each with its number and the
/// client that wrote it, and how many were written.
pub struct Journal {
    pub(crate) entries: Vec<Written>,
    pub(crate) written: u64,
    /// How many octets the entries have.
    pub(crate) octets: u64,
}

impl Model for Journal {
    ghost use Rattle.std.specs.Prelude.{◌≡◌};
    ghost use Rattle.mms_journal.specs.Journals.{IsJournal, Log, octets_in};
    ghost use Rattle.std.specs.Coded.{codes};
    ghost use Rattle.mms_types.specs.DatumCode.{datum_code};

    ghost Value = { Log };

    ghost coded = { Prim.hlevel (codes, datum_code) };

    ghost view = { λ j. record { entries = j.entries.items; written = j.written } };

    ghost invariant = { λ j.
        IsJournal (record { entries = j.entries.items; written = j.written })
        × (j.octets ≡ octets_in j.entries.items) };
}

impl Journal {
    /// A journal without entries, whose first will have number 1. Nothing is allocated.
    pub(crate) fn new(alloc: Global) -> Journal
        ensures { result ≡ created }
    {
        Journal {
            entries: Vec::new(alloc),
            written: 0,
            octets: 0,
        }
    }

    /// How many entries it has. At any time they are at most 65,536, of at most 16,777,216 octets together; their
    /// numbers rise, from 1 on, and none is greater than how many were written.
    pub fn len(&self) -> usize
        ensures count { result ≡ length self.now.entries }
        ensures always { IsJournal self.now }
    {
        self.entries.len()
    }

    /// Whether it has no entry.
    pub fn is_empty(&self) -> bool
        ensures { result ≡ (length self.now.entries == 0) }
    {
        self.entries.is_empty()
    }

    /// How many entries were written, also those that are gone: the number of the last.
    pub fn written(&self) -> u64
        ensures { result ≡ self.now.written }
    {
        self.written
    }

    /// How many octets its entries have: the sum of their contents in output spelling. The time doesn't grow with the
    /// journal.
    pub fn octets(&self) -> u64
        ensures { result ≡ octets_in self.now.entries }
    {
        self.octets
    }
}

/// The entries, copied.
fn copied_entries(alloc: Global, entries: &[Written]) -> Result<Vec<Written>, Memory>
    ensures { IfOk result (λ copies. copies.items ≡ entries.now) }
{
    let mut copies = Vec::with_capacity(alloc, entries.len())?;
    for written in entries {
        copies.push(Written {
            number: written.number,
            client: written.client,
            entry: written.entry.copied(alloc)?,
        })?;
    }
    Ok(copies)
}

impl Copied for Journal {
    fn copied(&self, alloc: Global) -> Result<Journal, Memory> {
        Ok(Journal {
            entries: copied_entries(alloc, &self.entries)?,
            written: self.written,
            octets: self.octets,
        })
    }
}

impl Drop for Journal {
    fn drop(self) {
        let Journal {
            entries: _entries,
            written: _,
            octets: _,
        } = self;
    }
}

impl Drop for Written {
    fn drop(self) {
        let Written {
            number: _,
            client: _,
            entry: _entry,
        } = self;
    }
}
