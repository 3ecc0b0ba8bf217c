//! Journals: what is read of them and written into them, and what they are.
#![tactic(auto, unfolding(ber_forms::specs::Spelling::appended), using(ber_forms::proofs::Joined::writing))]

ghost use Rattle.std.specs.Prelude.{refl, true, false};
ghost use Rattle.pdu_names.specs.Names.{names_sound};
ghost use Rattle.pdu_events.specs.Entries.{entry_contents_sound};
ghost use Rattle.pdu_events.specs.Journals.{initialize_journal, journal_limit, journal_named, journal_status, read_entry, read_journal_answer, write_journal};

use crate::entries::JournalEntryContents;
use crate::times::TimeOfDayContents;
use ber_core::{Memory as Full, Writer};
use ber_forms::{Unread, put_boolean, put_integer};
use mms_types::{
    Edition, InitializeJournal, JournalLimit, JournalStatus, ObjectName, ReadEntry,
    ReadJournalAnswer, WriteJournal,
};
use pdu_names::{
    AnyNumber, ApplicationReference, Formed, InSequence, ListOf, Name, OctetString, Unsigned32,
    Within, cursor, optional, put_optional, required,
};
use pdu_sems::EntryNumberContents;
use std::alloc::Global;

/// The form of an entry that was read. Its number and what it says are copied. It is too deep exactly where all before
/// some data in it is of its form, and that data nests deeper than 10.
pub struct ReadEntryContents;

impl Formed for ReadEntryContents {
    type Item = ReadEntry;

    ghost kind = { read_entry };

    ghost needs_no_memory = { false };

    fn is_constructed() -> bool {
        true
    }

    fn read(alloc: Global, contents: &[u8], edition: Edition) -> Result<ReadEntry, Unread> {
        let mut parts = cursor(edition, contents);
        let number = required::<OctetString>(alloc, &mut parts, edition, 0)?;
        let client = required::<ApplicationReference>(alloc, &mut parts, edition, 1)?;
        let entry = required::<JournalEntryContents>(alloc, &mut parts, edition, 2)?;
        parts.end()?;
        Ok(ReadEntry {
            number,
            client,
            entry,
        })
    }

    fn put(out: &mut Writer, x: &ReadEntry) -> Result<(), Full> {
        OctetString::put_part(out, 0, &x.number)?;
        ApplicationReference::put_part(out, 1, &x.client)?;
        JournalEntryContents::put_part(out, 2, &x.entry)
    }

    ghost sound = { λ e. rw (entry_contents_sound e) refl };
}

/// The entries of a journal, in an answer.
type Entries = ListOf<InSequence<ReadEntryContents>, AnyNumber>;

/// The form of a ReadJournal answer. Entries are copied, in their order. It is too deep exactly where all before some
/// data in it is of its form, and that data nests deeper than 10.
pub struct ReadJournalResponse;

impl Formed for ReadJournalResponse {
    type Item = ReadJournalAnswer;

    ghost kind = { read_journal_answer };

    ghost needs_no_memory = { false };

    fn is_constructed() -> bool {
        true
    }

    fn read(alloc: Global, contents: &[u8], edition: Edition) -> Result<ReadJournalAnswer, Unread> {
        let mut parts = cursor(edition, contents);
        let entries = required::<Entries>(alloc, &mut parts, edition, 0)?;
        let more = parts.required_boolean(1)?;
        parts.end()?;
        Ok(ReadJournalAnswer { entries, more })
    }

    fn put(out: &mut Writer, x: &ReadJournalAnswer) -> Result<(), Full> {
        Entries::put_part(out, 0, &x.entries)?;
        put_boolean(out, 1, x.more)
    }

    ghost sound = { λ e. rw (entry_contents_sound e) refl };
}

/// The entries that are written into a journal: 1 to 64. All are read before they are counted.
type Written = ListOf<InSequence<JournalEntryContents>, Within<1, 64>>;

/// The form of a WriteJournal request. Entries are copied, in their order. It is too deep exactly where all before some
/// data in it is of its form, and that data nests deeper than 10.
pub struct WriteJournalRequest;

impl Formed for WriteJournalRequest {
    type Item = WriteJournal;

    ghost kind = { write_journal };

    ghost needs_no_memory = { false };

    fn is_constructed() -> bool {
        true
    }

    fn read(alloc: Global, contents: &[u8], edition: Edition) -> Result<WriteJournal, Unread> {
        let mut parts = cursor(edition, contents);
        let name = required::<Name>(alloc, &mut parts, edition, 0)?;
        let entries = required::<Written>(alloc, &mut parts, edition, 1)?;
        parts.end()?;
        Ok(WriteJournal { name, entries })
    }

    fn put(out: &mut Writer, x: &WriteJournal) -> Result<(), Full> {
        Name::put_part(out, 0, &x.name)?;
        Written::put_part(out, 1, &x.entries)
    }

    ghost sound = { λ e. rw (names_sound e, entry_contents_sound e) refl };
}

/// The form of which entries go.
pub struct JournalLimitContents;

impl Formed for JournalLimitContents {
    type Item = JournalLimit;

    ghost kind = { journal_limit };

    ghost needs_no_memory = { true };

    fn is_constructed() -> bool {
        true
    }

    fn read(alloc: Global, contents: &[u8], edition: Edition) -> Result<JournalLimit, Unread> {
        let mut parts = cursor(edition, contents);
        let time = required::<TimeOfDayContents>(alloc, &mut parts, edition, 0)?;
        let number = optional::<EntryNumberContents>(alloc, &mut parts, edition, 1)?;
        parts.end()?;
        Ok(JournalLimit { time, number })
    }

    fn put(out: &mut Writer, x: &JournalLimit) -> Result<(), Full> {
        TimeOfDayContents::put_part(out, 0, &x.time)?;
        put_optional::<EntryNumberContents>(out, 1, x.number.as_ref())
    }

    ghost sound = { λ _. refl };
}

/// The form of an InitializeJournal request. The name is copied.
pub struct InitializeJournalRequest;

impl Formed for InitializeJournalRequest {
    type Item = InitializeJournal;

    ghost kind = { initialize_journal };

    ghost needs_no_memory = { false };

    fn is_constructed() -> bool {
        true
    }

    fn read(alloc: Global, contents: &[u8], edition: Edition) -> Result<InitializeJournal, Unread> {
        let mut parts = cursor(edition, contents);
        let name = required::<Name>(alloc, &mut parts, edition, 0)?;
        let limit = optional::<JournalLimitContents>(alloc, &mut parts, edition, 1)?;
        parts.end()?;
        Ok(InitializeJournal { name, limit })
    }

    fn put(out: &mut Writer, x: &InitializeJournal) -> Result<(), Full> {
        Name::put_part(out, 0, &x.name)?;
        put_optional::<JournalLimitContents>(out, 1, x.limit.as_ref())
    }

    ghost sound = { λ e. rw (names_sound e) refl };
}

/// The form of an InitializeJournal answer: how many entries went.
pub type InitializeJournalResponse = Unsigned32;

/// The form of a ReportJournalStatus request. The name is copied.
pub type ReportJournalStatusRequest = Name;

/// The form of a ReportJournalStatus answer.
pub struct ReportJournalStatusResponse;

impl Formed for ReportJournalStatusResponse {
    type Item = JournalStatus;

    ghost kind = { journal_status };

    ghost needs_no_memory = { true };

    fn is_constructed() -> bool {
        true
    }

    fn read(_alloc: Global, contents: &[u8], edition: Edition) -> Result<JournalStatus, Unread> {
        let mut parts = cursor(edition, contents);
        let entries = parts.required_u32(0)?;
        let deletable = parts.required_boolean(1)?;
        parts.end()?;
        Ok(JournalStatus { entries, deletable })
    }

    fn put(out: &mut Writer, x: &JournalStatus) -> Result<(), Full> {
        put_integer(out, 0, i64::from(x.entries))?;
        put_boolean(out, 1, x.deletable)
    }

    ghost sound = { λ _. refl };
}

/// The form of a journal's name as the one component of a request, copied.
pub struct JournalNamed;

impl Formed for JournalNamed {
    type Item = ObjectName;

    ghost kind = { journal_named };

    ghost needs_no_memory = { false };

    fn is_constructed() -> bool {
        true
    }

    fn read(alloc: Global, contents: &[u8], edition: Edition) -> Result<ObjectName, Unread> {
        let mut parts = cursor(edition, contents);
        let name = required::<Name>(alloc, &mut parts, edition, 0)?;
        parts.end()?;
        Ok(name)
    }

    fn put(out: &mut Writer, x: &ObjectName) -> Result<(), Full> {
        Name::put_part(out, 0, x)
    }

    ghost sound = { λ e. rw (names_sound e) refl };
}

/// The form of a CreateJournal request. The name is copied.
pub type CreateJournalRequest = JournalNamed;

/// The form of a DeleteJournal request. The name is copied.
pub type DeleteJournalRequest = JournalNamed;
