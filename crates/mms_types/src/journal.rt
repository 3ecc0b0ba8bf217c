//! The requests and answers of the services for journals (ISO 9506-2, journal management).

use crate::{ConditionState, Data, EntryNumber, Listed, ObjectName, Octets, Texts, TimeOfDay};

/// A variable as an entry of a journal tells it (ISO 9506-2, JournalEntry, listOfVariables).
#[derive(Drop)]
pub struct JournalVariable {
    /// The text by which entries are asked for (variableTag): octets of a VisibleString, 20 to 7E each.
    pub tag: Octets,
    /// The value.
    pub value: Data,
}

/// Variables of an entry in order. Contracts see the list of them.
pub type JournalVariables = Listed<JournalVariable>;

/// The event of which an entry tells (ISO 9506-2, JournalEntry, event).
pub struct JournalEvent {
    /// The event condition, as the client that wrote the entry names it. Nobody looks it up.
    pub name: ObjectName,
    /// Where it stands.
    pub state: ConditionState,
}

/// What an entry of a journal says (ISO 9506-2, JournalEntry, entryForm).
pub enum EntryContent {
    /// An event, and values of variables.
    Data {
        /// The event, where there is one.
        event: Option<JournalEvent>,
        /// The variables, where they are given: they may be none.
        variables: Option<JournalVariables>,
    },
    /// A text (annotation): octets of a VisibleString, 20 to 7E each.
    Text(Octets),
}

/// An entry of a journal, as it is written and read (ISO 9506-2, JournalEntry, occurrenceTime and entryForm).
pub struct JournalEntry {
    /// When what it tells of took place, as its client has it.
    pub time: TimeOfDay,
    /// What it says.
    pub content: EntryContent,
}

/// Entries in order. Contracts see the list of them.
pub type JournalEntries = Listed<JournalEntry>;

/// Where the entries begin that are read (ISO 9506-2, ReadJournal-Request, rangeStartSpecification).
#[derive(Clone, Copy)]
pub enum JournalStart {
    /// With those of that time, or of a later one (startingTime).
    Time(TimeOfDay),
    /// With that number (startingEntry).
    Entry(EntryNumber),
}

/// Where the entries end that are read (ISO 9506-2, ReadJournal-Request, rangeStopSpecification).
#[derive(Clone, Copy)]
pub enum JournalStop {
    /// With those of that time, or of an earlier one (endingTime).
    Time(TimeOfDay),
    /// With so many, at least 1 and at most 2,147,483,647 in what is read (numberOfEntries).
    Count(u32),
}

/// The entry after which those begin that are read (ISO 9506-2, ReadJournal-Request, entryToStartAfter).
#[derive(Clone, Copy)]
pub struct EntryToStartAfter {
    /// Its time. It has no effect (timeSpecification).
    pub time: TimeOfDay,
    /// Its number (entrySpecification).
    pub number: EntryNumber,
}

/// Which entries of a journal are read (ISO 9506-2, ReadJournal-Request).
pub struct ReadJournal {
    /// The journal.
    pub name: ObjectName,
    /// Where they begin. With the first where it is absent.
    pub start: Option<JournalStart>,
    /// Where they end. With the last where it is absent.
    pub stop: Option<JournalStop>,
    /// The tags of which they have one, where any are listed (listOfVariables). Only variables of these are shown then.
    pub tags: Option<Texts>,
    /// The entry that they come after, where they have to (entryToStartAfter).
    pub after: Option<EntryToStartAfter>,
}

/// An entry that was read (ISO 9506-2, ReadJournal-Response, listOfJournalEntry).
pub struct ReadEntry {
    /// Its number, in 8 octets where the server tells it, the most significant first (entryIdentifier).
    pub number: Octets,
    /// The number of the client that wrote it (originatingApplication).
    pub client: u32,
    /// The entry.
    pub entry: JournalEntry,
}

/// Entries that were read, in order. Contracts see the list of them.
pub type ReadEntries = Listed<ReadEntry>;

/// What is read of a journal (ISO 9506-2, ReadJournal-Response).
pub struct ReadJournalAnswer {
    /// The entries, in the order in which they were written.
    pub entries: ReadEntries,
    /// Whether more entries were asked for than these.
    pub more: bool,
}

/// What is written into a journal (ISO 9506-2, WriteJournal-Request).
pub struct WriteJournal {
    /// The journal.
    pub name: ObjectName,
    /// The entries, 1 to 64 in what is read.
    pub entries: JournalEntries,
}

/// Which entries go (ISO 9506-2, InitializeJournal-Request, limitSpecification).
#[derive(Clone, Copy)]
pub struct JournalLimit {
    /// Those of that time, or of an earlier one (limitingTime).
    pub time: TimeOfDay,
    /// Of these those of that number, or of a lower one, where it is given (limitingEntry).
    pub number: Option<EntryNumber>,
}

/// Which journal loses entries (ISO 9506-2, InitializeJournal-Request).
pub struct InitializeJournal {
    /// The journal.
    pub name: ObjectName,
    /// Which entries go. All where it is absent.
    pub limit: Option<JournalLimit>,
}

/// What a journal is (ISO 9506-2, ReportJournalStatus-Response).
#[derive(Clone, Copy)]
pub struct JournalStatus {
    /// How many entries it has.
    pub entries: u32,
    /// Whether it can be deleted.
    pub deletable: bool,
}

impl Drop for JournalEvent {
    fn drop(self) {
        let JournalEvent {
            name: _name,
            state: _,
        } = self;
    }
}

impl Drop for EntryContent {
    fn drop(self) {
        match self {
            EntryContent::Data {
                event: _event,
                variables: _variables,
            } => {}
            EntryContent::Text(_text) => {}
        }
    }
}

impl Drop for JournalEntry {
    fn drop(self) {
        let JournalEntry {
            time: _,
            content: _content,
        } = self;
    }
}

impl Drop for ReadJournal {
    fn drop(self) {
        let ReadJournal {
            name: _name,
            start: _,
            stop: _,
            tags: _tags,
            after: _,
        } = self;
    }
}

impl Drop for ReadEntry {
    fn drop(self) {
        let ReadEntry {
            number: _number,
            client: _,
            entry: _entry,
        } = self;
    }
}

impl Drop for ReadJournalAnswer {
    fn drop(self) {
        let ReadJournalAnswer {
            entries: _entries,
            more: _,
        } = self;
    }
}

impl Drop for WriteJournal {
    fn drop(self) {
        let WriteJournal {
            name: _name,
            entries: _entries,
        } = self;
    }
}

impl Drop for InitializeJournal {
    fn drop(self) {
        let InitializeJournal {
            name: _name,
            limit: _,
        } = self;
    }
}
