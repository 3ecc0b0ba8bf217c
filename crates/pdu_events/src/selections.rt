//! Which entries of a journal are read.
#![tactic(auto, unfolding(ber_forms::specs::Spelling::appended), using(ber_forms::proofs::Joined::writing))]

ghost use Rattle.std.specs.Prelude.{refl, true, false, pos};
ghost use Rattle.ber_forms.specs.Reading.{Gives, number_value};
ghost use Rattle.ber_forms.specs.Reads.{NeedsNoMemory};
ghost use Rattle.ber_forms.specs.Value as value;
ghost use Rattle.pdu_names.specs.Names.{names_sound};
ghost use Rattle.pdu_events.specs.Journals.{journal_starts, journal_stops, read_journal, start_after};

use crate::times::TimeOfDayContents;
use ber_core::{Element, Memory as Full, Tag, Writer};
use ber_forms::{Unread, has_tag, integer, put_integer};
use mms_types::{Edition, EntryToStartAfter, JournalStart, JournalStop, ReadJournal};
use pdu_names::{
    AnyNumber, Chosen, Formed, ListOf, Name, OneOf, VisibleString, cursor, optional, put_optional,
    required,
};
use pdu_programs::InText;
use pdu_sems::EntryNumberContents;
use std::alloc::Global;

/// The alternatives of where the entries begin that are read.
pub struct JournalStartAlternatives;

impl Chosen for JournalStartAlternatives {
    type Item = JournalStart;

    ghost arms = { journal_starts };

    ghost needs_no_memory = { true };

    fn of(alloc: Global, element: Element<'_>, edition: Edition) -> Result<JournalStart, Unread> {
        let Element { tag, contents } = element;
        if has_tag(tag, Tag::primitive(0)) {
            Ok(JournalStart::Time(TimeOfDayContents::read(alloc, contents, edition)?))
        } else if has_tag(tag, Tag::primitive(1)) {
            Ok(JournalStart::Entry(EntryNumberContents::read(alloc, contents, edition)?))
        } else {
            Err(Unread::Malformed)
        }
    }

    fn put_chosen(out: &mut Writer, x: &JournalStart) -> Result<(), Full> {
        match x {
            JournalStart::Time(time) => TimeOfDayContents::put_part(out, 0, time),
            JournalStart::Entry(number) => EntryNumberContents::put_part(out, 1, number),
        }
    }

    ghost sound = { λ _. refl };
}

/// A number of entries, from 1 to 2,147,483,647.
fn count(contents: &[u8]) -> Result<u32, Unread>
    ensures exact { Gives (λ n. value.number (pos n)) result
        (number_value (pos 1) (pos 2147483647) contents.now) }
    ensures no_memory { NeedsNoMemory result }
{
    Ok(integer(contents, 1, 2147483647)? as u32)
}

/// The alternatives of where the entries end that are read.
pub struct JournalStopAlternatives;

impl Chosen for JournalStopAlternatives {
    type Item = JournalStop;

    ghost arms = { journal_stops };

    ghost needs_no_memory = { true };

    fn of(alloc: Global, element: Element<'_>, edition: Edition) -> Result<JournalStop, Unread> {
        let Element { tag, contents } = element;
        if has_tag(tag, Tag::primitive(0)) {
            Ok(JournalStop::Time(TimeOfDayContents::read(alloc, contents, edition)?))
        } else if has_tag(tag, Tag::primitive(1)) {
            Ok(JournalStop::Count(count(contents)?))
        } else {
            Err(Unread::Malformed)
        }
    }

    fn put_chosen(out: &mut Writer, x: &JournalStop) -> Result<(), Full> {
        match x {
            JournalStop::Time(time) => TimeOfDayContents::put_part(out, 0, time),
            JournalStop::Count(n) => put_integer(out, 1, i64::from(*n)),
        }
    }

    ghost sound = { λ _. refl };
}

/// The form of the entry after which those begin that are read.
pub struct EntryToStartAfterContents;

impl Formed for EntryToStartAfterContents {
    type Item = EntryToStartAfter;

    ghost kind = { start_after };

    ghost needs_no_memory = { true };

    fn is_constructed() -> bool {
        true
    }

    fn read(alloc: Global, contents: &[u8], edition: Edition) -> Result<EntryToStartAfter, Unread> {
        let mut parts = cursor(edition, contents);
        let time = required::<TimeOfDayContents>(alloc, &mut parts, edition, 0)?;
        let number = required::<EntryNumberContents>(alloc, &mut parts, edition, 1)?;
        parts.end()?;
        Ok(EntryToStartAfter { time, number })
    }

    fn put(out: &mut Writer, x: &EntryToStartAfter) -> Result<(), Full> {
        TimeOfDayContents::put_part(out, 0, &x.time)?;
        EntryNumberContents::put_part(out, 1, &x.number)
    }

    ghost sound = { λ _. refl };
}

/// Where entries begin, and where they end.
type Starts = OneOf<JournalStartAlternatives>;

type Stops = OneOf<JournalStopAlternatives>;

/// The tags of which entries have one.
type Tags = ListOf<InText<VisibleString>, AnyNumber>;

/// The form of a ReadJournal request. The name and the tags are copied.
pub struct ReadJournalRequest;

impl Formed for ReadJournalRequest {
    type Item = ReadJournal;

    ghost kind = { read_journal };

    ghost needs_no_memory = { false };

    fn is_constructed() -> bool {
        true
    }

    fn read(alloc: Global, contents: &[u8], edition: Edition) -> Result<ReadJournal, Unread> {
        let mut parts = cursor(edition, contents);
        let name = required::<Name>(alloc, &mut parts, edition, 0)?;
        let start = optional::<Starts>(alloc, &mut parts, edition, 1)?;
        let stop = optional::<Stops>(alloc, &mut parts, edition, 2)?;
        let tags = optional::<Tags>(alloc, &mut parts, edition, 4)?;
        let after = optional::<EntryToStartAfterContents>(alloc, &mut parts, edition, 5)?;
        parts.end()?;
        Ok(ReadJournal {
            name,
            start,
            stop,
            tags,
            after,
        })
    }

    fn put(out: &mut Writer, x: &ReadJournal) -> Result<(), Full> {
        Name::put_part(out, 0, &x.name)?;
        put_optional::<Starts>(out, 1, x.start.as_ref())?;
        put_optional::<Stops>(out, 2, x.stop.as_ref())?;
        put_optional::<Tags>(out, 4, x.tags.as_ref())?;
        put_optional::<EntryToStartAfterContents>(out, 5, x.after.as_ref())
    }

    ghost sound = { λ e. rw (names_sound e) refl };
}
