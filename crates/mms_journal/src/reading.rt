//! ReadJournal.

ghost use Rattle.std.specs.Prelude.{◌≡◌, ◌≤◌, false, nat_lt, not, IfOk, None, Some, drop, filter, length, map, take};
ghost use Rattle.mms_types.specs.Serves.{Serves};
ghost use Rattle.mms_journal.specs.Entries.{content_shown, is_tagged};
ghost use Rattle.mms_journal.specs.Journals.{Rises};
ghost use Rattle.mms_journal.specs.Range.{IsRangeOf, count_of, first_counted, in_range, is_before, is_by, since_of, until_of};
ghost use Rattle.mms_journal.specs.Selection.{listed, read, shown, told};
ghost use Rattle.mms_journal.specs.Services.{missing_cause, read_answer};

use crate::initializing::number_of;
use crate::journal::Written;
use crate::kept::moment_of;
use crate::tags::Tags;
use crate::{Journal, Journals};
use mms_types::{
    EntryContent, EntryToStartAfter, JournalEntry, JournalStart, JournalStop, JournalVariables,
    Listed, Memory, Octets, ReadEntry, ReadJournal, ReadJournalAnswer, Refuse, ServiceError, Texts,
};
use std::alloc::Global;
use std::mem::replace;

/// The most entries that are told at once.
const MOST_TOLD: usize = 16;

/// What is asked of an entry besides its number.
#[derive(Drop)]
pub(crate) struct Range<'a> {
    /// Its moment is this one or a later one.
    since: u64,
    /// Its moment is this one or an earlier one, if there is one.
    until: Option<u64>,
    /// It has one of these tags, if there are any.
    tags: Option<Tags<'a>>,
}

/// The least moment that is asked for.
fn since_of(start: Option<JournalStart>) -> u64
    ensures { result ≡ since_of start }
{
    match start {
        Some(JournalStart::Time(time)) => moment_of(time),
        _ => 0,
    }
}

/// The greatest moment that is asked for, if there is one.
fn until_of(stop: Option<JournalStop>) -> Option<u64>
    ensures { result ≡ until_of stop }
{
    match stop {
        Some(JournalStop::Time(time)) => Some(moment_of(time)),
        _ => None,
    }
}

/// How many entries are asked for, if that is said.
fn count_of(stop: Option<JournalStop>) -> Option<u32>
    ensures { result ≡ count_of stop }
{
    match stop {
        Some(JournalStop::Count(count)) => Some(count),
        _ => None,
    }
}

/// Whether a moment is that one or an earlier one, if there is one.
#[inline(always)]
fn is_by(until: Option<u64>, moment: u64) -> bool
    ensures { result ≡ is_by until moment }
{
    match until {
        None => true,
        Some(until) => moment <= until,
    }
}

/// The tags that are listed: an empty list counts as none. The one refusal is want of memory.
fn listed<'a>(alloc: Global, tags: &'a Option<Texts>) -> Result<Option<Tags<'a>>, Memory>
    ensures { IfOk result (λ found. found ≡ listed tags.entry.now) }
{
    match tags {
        None => Ok(None),
        Some(tags) => {
            if tags.is_empty() {
                return Ok(None);
            }
            Ok(Some(Tags::of(alloc, tags.as_slice())?))
        }
    }
}

/// Whether an entry of that number comes before those that are asked for by their numbers.
fn is_before(number: u64, start: Option<JournalStart>, after: Option<EntryToStartAfter>) -> bool
    ensures { result ≡ is_before start after number }
{
    let too_low = match start {
        Some(JournalStart::Entry(first)) => number < number_of(first),
        _ => false,
    };
    too_low
        || match after {
            None => false,
            Some(after) => number <= number_of(after.number),
        }
}

/// How many entries come before those that are asked for by their numbers.
fn place_of(
    entries: &[Written],
    start: Option<JournalStart>,
    after: Option<EntryToStartAfter>,
) -> usize
    requires { (high : _) × Rises 0 entries.now high }
    ensures within { result ≤ length entries.now }
    ensures behind { drop result entries.now
        ≡ filter (λ w. not (is_before start after w.number)) entries.now }
{
    entries.partition_point(|written| is_before(written.number, start, after))
}

/// Those of the variables that have one of the tags are left.
fn keep_tagged(alloc: Global, variables: &mut JournalVariables, tags: &Tags<'_>)
    ensures { variables.new ≡ filter (is_tagged tags.entry.now) variables.old }
{
    let mut list = replace(variables, Listed::new(alloc)).into_vec();
    list.retain(|variable| tags.has(variable.tag.as_slice()));
    *variables = Listed::from(list);
}

/// What an entry says with the variables of the tags alone.
fn keep_shown(alloc: Global, content: &mut EntryContent, tags: &Tags<'_>)
    ensures { content.new ≡ content_shown tags.entry.now content.old }
{
    match content {
        EntryContent::Data {
            event: _,
            variables: Some(variables),
        } => keep_tagged(alloc, variables, tags),
        EntryContent::Data {
            event: _,
            variables: None,
        } => {}
        EntryContent::Text(_) => {}
    }
}

/// What is shown of an entry.
fn shown(alloc: Global, entry: JournalEntry, tags: &Option<Tags<'_>>) -> JournalEntry
    ensures { result ≡ shown tags.entry.now entry }
{
    let mut entry = entry;
    if let Some(tags) = tags {
        keep_shown(alloc, &mut entry.content, tags);
    }
    entry
}

impl<'a> Range<'a> {
    /// What is asked of entries besides their numbers. The one refusal is want of memory.
    fn of(alloc: Global, asked: &'a ReadJournal) -> Result<Range<'a>, Memory>
        ensures { IfOk result (IsRangeOf asked.entry.now) }
    {
        Ok(Range {
            since: since_of(asked.start),
            until: until_of(asked.stop),
            tags: listed(alloc, &asked.tags)?,
        })
    }

    /// Whether an entry is asked for.
    fn has(&self, written: &Written) -> bool
        ensures { result ≡ in_range self.entry.now written.now }
    {
        let moment = written.entry.moment();
        self.since <= moment
            && is_by(self.until, moment)
            && match &self.tags {
                None => true,
                Some(tags) => written.entry.has_any(tags),
            }
    }

    /// What is told of an entry. The one refusal is want of memory.
    fn told(&self, alloc: Global, written: &Written) -> Result<ReadEntry, Memory>
        ensures { IfOk result (λ entry. entry ≡ told self.entry.now.tags written.now) }
    {
        let entry = written.entry.read(alloc)?;
        Ok(ReadEntry {
            number: Octets::from_slice(alloc, &written.number.to_be_bytes())?,
            client: written.client,
            entry: shown(alloc, entry, &self.tags),
        })
    }
}

/// The first so many of the entries that are in a range, and whether there are more. Where no more are wanted, none is
/// looked for behind them.
#[tactic(auto, using(crate::proofs::Told::listed_all, crate::proofs::Told::listed_last))]
fn first_told(
    alloc: Global,
    entries: &[Written],
    range: &Range<'_>,
    most: usize,
    no_more: bool,
) -> Result<ReadJournalAnswer, Memory>
    ensures entries { IfOk result (λ answer. answer.entries
        ≡ map (told range.entry.now.tags)
        (take most (filter (in_range range.entry.now) entries.now))) }
    ensures more { no_more ≡ false → IfOk result (λ answer. answer.more
        ≡ nat_lt most (length (filter (in_range range.entry.now) entries.now))) }
{
    let mut list = Listed::new(alloc);
    for written in entries {
        if range.has(written) {
            if list.len() == most {
                return Ok(ReadJournalAnswer {
                    entries: list,
                    more: true,
                });
            }
            list.push(range.told(alloc, written)?)?;
            if no_more && list.len() == most {
                return Ok(ReadJournalAnswer {
                    entries: list,
                    more: false,
                });
            }
        }
    }
    Ok(ReadJournalAnswer {
        entries: list,
        more: false,
    })
}

/// The first of the entries that are in a range, and of these so many, where it is said how many are asked for.
#[tactic(auto, using(crate::proofs::Told::many_counted, crate::proofs::Told::few_counted))]
fn counted(
    alloc: Global,
    entries: &[Written],
    range: &Range<'_>,
    count: Option<u32>,
) -> Result<ReadJournalAnswer, Memory>
    ensures { IfOk result (λ answer. answer ≡ first_counted range.entry.now count entries.now) }
{
    let Some(count) = count else {
        return first_told(alloc, entries, range, MOST_TOLD, false);
    };
    if count as usize > MOST_TOLD {
        return first_told(alloc, entries, range, MOST_TOLD, false);
    }
    let mut answer = first_told(alloc, entries, range, count as usize, true)?;
    answer.more = false;
    Ok(answer)
}

impl Journal {
    /// What is told of its entries. The one refusal is want of memory.
    fn read(&self, alloc: Global, asked: &ReadJournal) -> Result<ReadJournalAnswer, Memory>
        ensures { IfOk result (λ answer. answer ≡ read asked.now self.now) }
    {
        let range = Range::of(alloc, asked)?;
        let place = place_of(&self.entries, asked.start, asked.after);
        let (_, entries) = self.entries.split_at(place);
        counted(alloc, entries, &range, count_of(asked.stop))
    }
}

impl Journals {
    /// Reads entries of a journal (ISO 9506-2, ReadJournal): of those that are asked for, in order of writing, the
    /// first 16, and whether there are more. Where tags are listed, an entry is shown with the variables that have one
    /// of them, all of them and in order. Object-non-existent where the journal is missing.
    pub fn read(
        &self,
        alloc: Global,
        client: u32,
        asked: &ReadJournal,
    ) -> Result<ReadJournalAnswer, Refuse>
        ensures { Serves result (missing_cause client asked.now.name self.now)
            (read_answer client asked.now self.now) }
    {
        match self.named(client, &asked.name) {
            None => Err(Refuse::Service(ServiceError::OBJECT_NON_EXISTENT)),
            Some(journal) => Ok(journal.read(alloc, asked)?),
        }
    }
}
