//! The entries of a semaphore.
#![tactic(auto, unfolding(ber_forms::specs::Spelling::appended), using(ber_forms::proofs::Joined::writing))]

ghost use Rattle.std.specs.Prelude.{◌≡◌, refl, true, false, Ok, Err};
ghost use Rattle.ber_forms.specs.Reads.{NeedsNoMemory};
ghost use Rattle.pdu_names.specs.Editions.{lengths_of};
ghost use Rattle.pdu_names.specs.Gives.{GivesNext};
ghost use Rattle.pdu_names.specs.Names.{names_sound};
ghost use Rattle.pdu_names.specs.Kinds.{context};
ghost use Rattle.pdu_sems.specs.Entries.{entry_state, entry_number, report_entries, entry_class, entry_status, entry_statuses};

use crate::control::priority;
use ber_core::{Memory as Full, Tag, Writer};
use ber_forms::{
    Cursor, Unread, put_boolean, put_defaulted_boolean, put_defaulted_integer, put_integer,
    put_optional_boolean, put_optional_u32, unsigned8_in,
};
use mms_types::{
    Edition, EntryClass, EntryNumber, EntryState, EntryStatus, EntryStatuses, Identifier,
    ReportSemaphoreEntryStatus,
};
use pdu_names::{
    AnyNumber, ApplicationReference, Formed, InSequence, ListOf, Name, OctetString, cursor,
    optional, put_optional, required,
};
use std::alloc::Global;

/// The form of an entry's number in a request: 8 octets.
pub struct EntryNumberContents;

impl Formed for EntryNumberContents {
    type Item = EntryNumber;

    ghost kind = { entry_number };

    ghost needs_no_memory = { true };

    fn is_constructed() -> bool {
        false
    }

    fn read(_alloc: Global, contents: &[u8], _edition: Edition) -> Result<EntryNumber, Unread> {
        if contents.len() != 8 {
            return Err(Unread::Malformed);
        }
        let mut octets = [0u8; 8];
        octets.copy_from_slice(contents);
        Ok(EntryNumber { octets })
    }

    fn put(out: &mut Writer, x: &EntryNumber) -> Result<(), Full> {
        out.raw(&x.octets)
    }

    ghost sound = { λ _. refl };
}

/// The next element, a state of entries.
#[tactic(auto, unfolding(ber_forms::specs::Reading::required_by))]
fn state(parts: &mut Cursor<'_>, edition: Edition) -> Result<EntryState, Unread>
    requires { parts.old.lengths ≡ lengths_of edition }
    ensures exact { GivesNext (context 1 entry_state) edition parts.old parts.new result }
    ensures kept { parts.new.lengths ≡ parts.old.lengths }
    ensures no_memory { NeedsNoMemory result }
{
    let element = parts.required(Tag::primitive(1))?;
    let number = unsigned8_in(element.contents, 0, 2)?;
    Ok(EntryState::numbered(number))
}

/// The form of a ReportSemaphoreEntryStatus request. The name is copied.
pub struct ReportSemaphoreEntryStatusRequest;

impl Formed for ReportSemaphoreEntryStatusRequest {
    type Item = ReportSemaphoreEntryStatus;

    ghost kind = { report_entries };

    ghost needs_no_memory = { false };

    fn is_constructed() -> bool {
        true
    }

    fn read(
        alloc: Global,
        contents: &[u8],
        edition: Edition,
    ) -> Result<ReportSemaphoreEntryStatus, Unread> {
        let mut parts = cursor(edition, contents);
        let name = required::<Name>(alloc, &mut parts, edition, 0)?;
        let state = state(&mut parts, edition)?;
        let after = optional::<EntryNumberContents>(alloc, &mut parts, edition, 2)?;
        parts.end()?;
        Ok(ReportSemaphoreEntryStatus { name, state, after })
    }

    fn put(out: &mut Writer, x: &ReportSemaphoreEntryStatus) -> Result<(), Full> {
        Name::put_part(out, 0, &x.name)?;
        put_integer(out, 1, i64::from(x.state.number()))?;
        put_optional::<EntryNumberContents>(out, 2, x.after.as_ref())
    }

    ghost sound = { λ e. rw (names_sound e) refl };
}

/// The next element, a class of entries.
#[tactic(auto, unfolding(ber_forms::specs::Reading::required_by))]
fn class(parts: &mut Cursor<'_>, edition: Edition) -> Result<EntryClass, Unread>
    requires { parts.old.lengths ≡ lengths_of edition }
    ensures exact { GivesNext (context 1 entry_class) edition parts.old parts.new result }
    ensures kept { parts.new.lengths ≡ parts.old.lengths }
    ensures no_memory { NeedsNoMemory result }
{
    let element = parts.required(Tag::primitive(1))?;
    let number = unsigned8_in(element.contents, 0, 1)?;
    Ok(EntryClass::numbered(number))
}

/// The form of an entry (ISO 9506-2, SemaphoreEntry). Its number and the token's name are copied.
pub struct SemaphoreEntry;

impl Formed for SemaphoreEntry {
    type Item = EntryStatus;

    ghost kind = { entry_status };

    ghost needs_no_memory = { false };

    fn is_constructed() -> bool {
        true
    }

    fn read(alloc: Global, contents: &[u8], edition: Edition) -> Result<EntryStatus, Unread> {
        let mut parts = cursor(edition, contents);
        let number = required::<OctetString>(alloc, &mut parts, edition, 0)?;
        let class = class(&mut parts, edition)?;
        let client = required::<ApplicationReference>(alloc, &mut parts, edition, 2)?;
        let token = optional::<Identifier>(alloc, &mut parts, edition, 3)?;
        let priority = priority(&mut parts, edition, 4)?;
        let remaining = parts.optional_u32(5)?;
        let abort = parts.optional_boolean(6)?;
        let relinquish = parts.defaulted_boolean(7, true)?;
        parts.end()?;
        Ok(EntryStatus {
            number,
            class,
            client,
            token,
            priority,
            remaining,
            abort,
            relinquish,
        })
    }

    fn put(out: &mut Writer, x: &EntryStatus) -> Result<(), Full> {
        OctetString::put_part(out, 0, &x.number)?;
        put_integer(out, 1, i64::from(x.class.number()))?;
        ApplicationReference::put_part(out, 2, &x.client)?;
        put_optional::<Identifier>(out, 3, x.token.as_ref())?;
        put_defaulted_integer(out, 4, i64::from(x.priority), 64)?;
        put_optional_u32(out, 5, x.remaining)?;
        put_optional_boolean(out, 6, x.abort)?;
        put_defaulted_boolean(out, 7, x.relinquish, true)
    }

    ghost sound = { λ _. refl };
}

/// The entries of a semaphore, in an answer.
type Entries = ListOf<InSequence<SemaphoreEntry>, AnyNumber>;

/// The form of a ReportSemaphoreEntryStatus answer. Numbers and names are copied, in their order.
pub struct ReportSemaphoreEntryStatusResponse;

impl Formed for ReportSemaphoreEntryStatusResponse {
    type Item = EntryStatuses;

    ghost kind = { entry_statuses };

    ghost needs_no_memory = { false };

    fn is_constructed() -> bool {
        true
    }

    fn read(alloc: Global, contents: &[u8], edition: Edition) -> Result<EntryStatuses, Unread> {
        let mut parts = cursor(edition, contents);
        let entries = required::<Entries>(alloc, &mut parts, edition, 0)?;
        let more = parts.required_boolean(1)?;
        parts.end()?;
        Ok(EntryStatuses { entries, more })
    }

    fn put(out: &mut Writer, x: &EntryStatuses) -> Result<(), Full> {
        Entries::put_part(out, 0, &x.entries)?;
        put_boolean(out, 1, x.more)
    }

    ghost sound = { λ _. refl };
}
