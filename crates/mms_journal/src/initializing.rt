//! InitializeJournal.

ghost use Rattle.std.specs.Prelude.{◌≡◌, ◌≤◌, filter, not};
ghost use Rattle.mms_types.specs.Serves.{ServesAlways};
ghost use Rattle.mms_journal.specs.Journals.{octets_in};
ghost use Rattle.mms_journal.specs.Selection.{number_of};
ghost use Rattle.mms_journal.specs.Services.{after_initialize, goes, initialized, missing_cause, removed, removed_of};

use crate::journal::Written;
use crate::kept::moment_of;
use crate::{Journal, Journals};
use mms_types::{EntryNumber, InitializeJournal, JournalLimit, ServiceError};

/// The number that eight octets spell.
pub(crate) fn number_of(number: EntryNumber) -> u64
    ensures { result ≡ number_of number }
{
    u64::from_be_bytes(number.octets)
}

impl Written {
    /// Whether the entry goes.
    fn goes(&self, limit: Option<JournalLimit>) -> bool
        ensures { result ≡ goes limit self.now }
    {
        match limit {
            None => true,
            Some(limit) => {
                self.entry.moment() <= moment_of(limit.time)
                    && match limit.number {
                        None => true,
                        Some(number) => self.number <= number_of(number),
                    }
            }
        }
    }
}

/// How many octets those have that stay.
#[tactic(auto, using(crate::proofs::Counted::left_more))]
fn octets_left(entries: &[Written], limit: Option<JournalLimit>) -> u64
    requires { octets_in entries.now ≤ 18446744073709551615 }
    ensures { result ≡ octets_in (filter (λ w. not (goes limit w)) entries.now) }
{
    let mut octets = 0u64;
    for written in entries {
        if !written.goes(limit) {
            octets += written.entry.len() as u64;
        }
    }
    octets
}

/// Takes those out that go.
fn take_out(entries: &mut Vec<Written>, limit: Option<JournalLimit>)
    ensures { entries.new.items ≡ filter (λ w. not (goes limit w)) entries.old.items }
{
    entries.retain(|written| !written.goes(limit));
}

impl Journal {
    /// How many entries go.
    fn removed(&self, limit: Option<JournalLimit>) -> u32
        ensures { result ≡ removed_of limit self.now }
    {
        self.entries
            .iter()
            .filter(|written| written.goes(limit))
            .count() as u32
    }

    /// The entries go that a limit says.
    fn initialize(&mut self, limit: Option<JournalLimit>)
        ensures { self.new ≡ initialized limit self.old }
    {
        self.octets = octets_left(&self.entries, limit);
        take_out(&mut self.entries, limit);
    }
}

impl Journals {
    /// How many entries of a journal go (ISO 9506-2, InitializeJournal): object-non-existent where it is missing.
    /// Nothing changes. It takes no memory.
    pub fn initialize_told(
        &self,
        client: u32,
        asked: &InitializeJournal,
    ) -> Result<u32, ServiceError>
        ensures { ServesAlways result (missing_cause client asked.now.name self.now)
            (removed client asked.now self.now) }
    {
        match self.named(client, &asked.name) {
            None => Err(ServiceError::OBJECT_NON_EXISTENT),
            Some(journal) => Ok(journal.removed(asked.limit)),
        }
    }

    /// Empties a journal (ISO 9506-1, InitializeJournal): all its entries go, or those of a moment or of an earlier
    /// one, and of these, where a number is given, those of it or of a lower one. The others stay as they are, in their
    /// order, and numbers go on. Where the journal is missing, nothing changes. It takes no memory.
    #[tactic(auto, using(crate::proofs::Rows::still_many))]
    pub fn initialize(&mut self, client: u32, asked: &InitializeJournal)
        ensures { self.new ≡ after_initialize client asked.now self.old }
    {
        if let Some(journal) = self.rows.named_mut(client, &asked.name) {
            journal.initialize(asked.limit);
        }
    }
}
