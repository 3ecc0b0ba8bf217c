//! An entry as a journal keeps it.

ghost use Rattle.std.specs.Prelude.{◌≡◌, IfOk, length};
ghost use Rattle.mms_journal.specs.Entries.{entry_length, entry_octets, has_any, moment_in, moment_of, variables_of};
ghost use Rattle.mms_journal.specs.Kept.{BeginAt, variables_octets};

use crate::formed::is_formed;
use crate::tags::Tags;
use crate::walking::any_tagged;
use ber_core::Writer;
use ber_forms::Unread;
use mms_types::{Edition, EntryContent, JournalEntry, JournalVariables, Memory, Octets, TimeOfDay};
use object_names::Copied;
use pdu_events::{JournalEntryContents, JournalVariableContents};
use pdu_names::{AnyNumber, InSequence, ListOf, read_form, write_form};
use std::alloc::Global;
use std::marker::Model;

/// An entry, kept as its contents are spelled. Contracts see the entry.
pub(crate) struct Kept {
    octets: Octets,
    /// Its moment, in milliseconds.
    moment: u64,
    /// The place at which its variables begin, if it has any.
    variables: Option<u32>,
}

impl Model for Kept {
    ghost use Rattle.mms_types.specs.declared.journal.JournalEntry.{JournalEntry};
    ghost use Rattle.mms_journal.specs.Kept.{IsKept, entry_in};
    ghost use Rattle.std.specs.Coded.{codes};
    ghost use Rattle.mms_types.specs.DatumCode.{datum_code};

    ghost Value = { JournalEntry };

    ghost coded = { Prim.hlevel (codes, datum_code) };

    ghost view = { λ kept. entry_in kept.octets };

    ghost invariant = { λ kept. IsKept kept.octets kept.moment kept.variables };
}

/// The moment of a time, in milliseconds.
pub(crate) fn moment_of(time: TimeOfDay) -> u64
    ensures { result ≡ moment_of time }
{
    u64::from(time.day) * 86_400_000 + u64::from(time.ms)
}

/// The variables of an entry, in order.
type Variables = ListOf<InSequence<JournalVariableContents>, AnyNumber>;

/// The octets of an entry. What was written before is gone. The one refusal is want of memory.
#[tactic(auto, unfolding(crate::specs::Entries::entry_octets))]
fn spelled(alloc: Global, out: &mut Writer, entry: &JournalEntry) -> Result<Octets, Memory>
    ensures { IfOk result (λ octets. octets ≡ entry_octets entry.now) }
{
    out.truncate(0);
    write_form::<JournalEntryContents>(out, entry)?;
    Octets::from_slice(alloc, out.octets())
}

/// How many octets variables have. What was written before is gone. The one refusal is want of memory.
#[tactic(auto, unfolding(crate::specs::Kept::variables_octets))]
fn spelled_length(out: &mut Writer, variables: &JournalVariables) -> Result<usize, Memory>
    ensures { IfOk result (λ n. n ≡ length (variables_octets variables.now)) }
{
    out.truncate(0);
    write_form::<Variables>(out, variables)?;
    Ok(out.len())
}

/// The place at which the variables of an entry begin, if it has any. The one refusal is want of memory.
fn place_of_variables(
    out: &mut Writer,
    entry: &JournalEntry,
    len: usize,
) -> Result<Option<u32>, Memory>
    requires { len ≡ entry_length entry.now }
    ensures { IfOk result (λ place. BeginAt place (entry_octets entry.now)
        (variables_of entry.now.content)) }
{
    let EntryContent::Data {
        event: _,
        variables,
    } = &entry.content
    else {
        return Ok(None);
    };
    let Some(variables) = variables else {
        return Ok(None);
    };
    let n = spelled_length(out, variables)?;
    let Ok(place) = u32::try_from(len - n) else {
        return Err(Memory::wanting());
    };
    Ok(Some(place))
}

impl Kept {
    /// An entry. What was written before is gone. The one refusal is want of memory, as which it counts that the entry
    /// is not of its form.
    pub(crate) fn of(alloc: Global, out: &mut Writer, entry: &JournalEntry) -> Result<Kept, Memory>
        ensures { IfOk result (λ kept. kept ≡ entry.now) }
    {
        if !is_formed(entry) {
            return Err(Memory::wanting());
        }
        let octets = spelled(alloc, out, entry)?;
        let variables = place_of_variables(out, entry, octets.len())?;
        Ok(Kept {
            octets,
            moment: moment_of(entry.time),
            variables,
        })
    }

    /// How many octets it has.
    pub(crate) fn len(&self) -> usize
        ensures { result ≡ entry_length self.now }
    {
        self.octets.len()
    }

    /// Its moment.
    #[inline(always)]
    pub(crate) fn moment(&self) -> u64
        ensures { result ≡ moment_in self.now }
    {
        self.moment
    }

    /// Whether some variable of it has one of the tags. It isn't read for this.
    pub(crate) fn has_any(&self, tags: &Tags<'_>) -> bool
        ensures { result ≡ has_any tags.entry.now self.now }
    {
        match self.variables {
            None => false,
            Some(place) => {
                let (_, variables) = self.octets.as_slice().split_at(place as usize);
                any_tagged(variables, tags)
            }
        }
    }

    /// The entry, read. The one refusal is want of memory.
    pub(crate) fn read(&self, alloc: Global) -> Result<JournalEntry, Memory>
        ensures { IfOk result (λ entry. entry ≡ self.now) }
    {
        match read_form::<JournalEntryContents>(alloc, self.octets.as_slice(), Edition::Two) {
            Ok(entry) => Ok(entry),
            Err(Unread::Memory) => Err(Memory::wanting()),
            Err(Unread::Malformed) => unreachable!(),
            Err(Unread::TooDeep) => unreachable!(),
        }
    }
}

impl Copied for Kept {
    fn copied(&self, alloc: Global) -> Result<Kept, Memory> {
        Ok(Kept {
            octets: self.octets.copy(alloc)?,
            moment: self.moment,
            variables: self.variables,
        })
    }
}

impl Drop for Kept {
    fn drop(self) {
        let Kept {
            octets: _octets,
            moment: _,
            variables: _,
        } = self;
    }
}
