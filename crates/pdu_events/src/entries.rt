//! The entries of journals.
#![tactic(auto, unfolding(ber_forms::specs::Spelling::appended), using(ber_forms::proofs::Joined::writing))]

ghost use Rattle.std.specs.Prelude.{◌≡◌, ◌++◌, refl, true, false, Ok, Err, OnErr};
ghost use Rattle.std.specs.Option.{option_copied};
ghost use Rattle.ber_forms.specs.Spelling.{Begins};
ghost use Rattle.pdu_data.specs.Data.{data_sound};
ghost use Rattle.pdu_names.specs.Gives.{GivesContents, Puts, PutsContents};
ghost use Rattle.pdu_names.specs.Kinds.{context};
ghost use Rattle.pdu_names.specs.Names.{names_sound};
ghost use Rattle.pdu_events.specs.Entries.{entry_contents, entry_contents_sound, entry_data, journal_entry, journal_event, journal_event_sound, journal_variable};

use crate::conditions::ConditionStateContents;
use crate::times::TimeOfDayContents;
use ber_core::{Element, Memory as Full, Tag, Writer};
use ber_forms::{Unread, enclose, has_tag};
use mms_types::{
    Edition, EntryContent, JournalEntry, JournalEvent, JournalVariable, JournalVariables,
};
use pdu_data::DataValue;
use pdu_names::{
    AnyNumber, Chosen, Formed, InSequence, ListOf, Name, OneOf, Own, VisibleString, cursor,
    optional, put_optional, required,
};
use std::alloc::Global;

/// The form of a variable in an entry. Its tag and its data are copied. It is too deep exactly where all before some
/// data in it is of its form, and that data nests deeper than 10.
pub struct JournalVariableContents;

impl Formed for JournalVariableContents {
    type Item = JournalVariable;

    ghost kind = { journal_variable };

    ghost needs_no_memory = { false };

    fn is_constructed() -> bool {
        true
    }

    fn read(alloc: Global, contents: &[u8], edition: Edition) -> Result<JournalVariable, Unread> {
        let mut parts = cursor(edition, contents);
        let tag = required::<VisibleString>(alloc, &mut parts, edition, 0)?;
        let value = required::<DataValue>(alloc, &mut parts, edition, 1)?;
        parts.end()?;
        Ok(JournalVariable { tag, value })
    }

    fn put(out: &mut Writer, x: &JournalVariable) -> Result<(), Full> {
        VisibleString::put_part(out, 0, &x.tag)?;
        DataValue::put_part(out, 1, &x.value)
    }

    ghost sound = { λ e. rw (data_sound e) refl };
}

/// The form of an event in an entry. The name is copied.
pub struct JournalEventContents;

#[tactic(auto, unfolding(crate::specs::Entries::journal_event, ber_forms::specs::Spelling::appended), using(ber_forms::proofs::Joined::writing))]
impl Formed for JournalEventContents {
    type Item = JournalEvent;

    ghost kind = { journal_event };

    ghost needs_no_memory = { false };

    fn is_constructed() -> bool {
        true
    }

    fn read(alloc: Global, contents: &[u8], edition: Edition) -> Result<JournalEvent, Unread> {
        let mut parts = cursor(edition, contents);
        let name = required::<Name>(alloc, &mut parts, edition, 0)?;
        let state = required::<ConditionStateContents>(alloc, &mut parts, edition, 1)?;
        parts.end()?;
        Ok(JournalEvent { name, state })
    }

    fn put(out: &mut Writer, x: &JournalEvent) -> Result<(), Full> {
        Name::put_part(out, 0, &x.name)?;
        ConditionStateContents::put_part(out, 1, &x.state)
    }

    ghost sound = { journal_event_sound };
}

/// The variables of an entry, in order.
type Variables = ListOf<InSequence<JournalVariableContents>, AnyNumber>;

/// What an entry says that is no text: an event, and variables.
#[derive(Drop)]
pub(crate) struct EntryData {
    event: Option<JournalEvent>,
    variables: Option<JournalVariables>,
}

/// What contents say that are no text.
fn data(alloc: Global, contents: &[u8], edition: Edition) -> Result<EntryData, Unread>
    ensures { GivesContents entry_data edition contents.now result }
{
    let mut parts = cursor(edition, contents);
    let event = optional::<JournalEventContents>(alloc, &mut parts, edition, 0)?;
    let variables = optional::<Variables>(alloc, &mut parts, edition, 1)?;
    parts.end()?;
    Ok(EntryData { event, variables })
}

/// Appends the contents of what is no text.
fn put_data(
    out: &mut Writer,
    event: Option<&JournalEvent>,
    variables: Option<&JournalVariables>,
) -> Result<(), Full>
    ensures ok { PutsContents entry_data (record {
      event = option_copied event.entry;
      variables = option_copied variables.entry;
    }) out.old out.new result }
    ensures begins { Begins out.old out.new }
{
    put_optional::<JournalEventContents>(out, 0, event)?;
    put_optional::<Variables>(out, 1, variables)
}

/// Appends what is no text as one element, or nothing where memory runs out.
#[tactic(auto, using(ber_forms::proofs::Joined::writing))]
fn put_data_part(
    out: &mut Writer,
    event: Option<&JournalEvent>,
    variables: Option<&JournalVariables>,
) -> Result<(), Full>
    ensures ok { Puts (context 2 entry_data) (record {
      event = option_copied event.entry;
      variables = option_copied variables.entry;
    }) out.old out.new result }
    ensures err { OnErr result (out.new ≡ out.old) }
{
    let since = out.len();
    let written = put_data(out, event, variables);
    enclose(out, since, written, Tag::constructed(2))
}

/// The alternatives of what an entry says (ISO 9506-2, entryForm). Names, tags, data and texts are copied. It is too
/// deep exactly where all before some data in it is of its form, and that data nests deeper than 10.
pub struct EntryContentAlternatives;

#[tactic(auto, unfolding(crate::specs::Entries::entry_contents))]
impl Chosen for EntryContentAlternatives {
    type Item = EntryContent;

    ghost arms = { entry_contents };

    ghost needs_no_memory = { false };

    fn of(alloc: Global, element: Element<'_>, edition: Edition) -> Result<EntryContent, Unread> {
        let Element { tag, contents } = element;
        if has_tag(tag, Tag::constructed(2)) {
            let EntryData { event, variables } = data(alloc, contents, edition)?;
            Ok(EntryContent::Data { event, variables })
        } else if has_tag(tag, Tag::primitive(3)) {
            Ok(EntryContent::Text(VisibleString::read(alloc, contents, edition)?))
        } else {
            Err(Unread::Malformed)
        }
    }

    fn put_chosen(out: &mut Writer, x: &EntryContent) -> Result<(), Full> {
        match x {
            EntryContent::Data { event, variables } => {
                put_data_part(out, event.as_ref(), variables.as_ref())
            }
            EntryContent::Text(text) => VisibleString::put_part(out, 3, text),
        }
    }

    ghost sound = { entry_contents_sound };
}

/// The form of an entry of a journal. What it says is copied. It is too deep exactly where all before some data in it
/// is of its form, and that data nests deeper than 10.
pub struct JournalEntryContents;

impl Formed for JournalEntryContents {
    type Item = JournalEntry;

    ghost kind = { journal_entry };

    ghost needs_no_memory = { false };

    fn is_constructed() -> bool {
        true
    }

    fn read(alloc: Global, contents: &[u8], edition: Edition) -> Result<JournalEntry, Unread> {
        let mut parts = cursor(edition, contents);
        let time = required::<TimeOfDayContents>(alloc, &mut parts, edition, 0)?;
        let content = OneOf::<EntryContentAlternatives>::take(alloc, &mut parts, edition)?;
        parts.end()?;
        Ok(JournalEntry { time, content })
    }

    fn put(out: &mut Writer, x: &JournalEntry) -> Result<(), Full> {
        TimeOfDayContents::put_part(out, 0, &x.time)?;
        OneOf::<EntryContentAlternatives>::put_own(out, &x.content)
    }

    ghost sound = { λ e. rw (entry_contents_sound e) refl };
}
