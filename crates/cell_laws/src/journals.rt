//! Journals.

ghost use Rattle.std.specs.Prelude.{◌≡◌, ◌⊎◌, ◌∷◌, ◌++◌, Contains, List, Some, false};
ghost use Rattle.mms_types.specs.declared.event.CellEvent.{CellEvent};
ghost use Rattle.mms_types.specs.declared.journal.EntryToStartAfter.{EntryToStartAfter};
ghost use Rattle.mms_types.specs.declared.journal.ReadJournal.{ReadJournal};
ghost use Rattle.mms_types.specs.declared.key.Key.{Key};
ghost use Rattle.cell_config.specs.declared.config.Config.{Config};
ghost use Rattle.cell_config.specs.Said.{IsConfig};
ghost use Rattle.mms_journal.specs.Journals.{Log, named};
ghost use Rattle.mms_journal.specs.Selection.{number_of, selected};
ghost use Rattle.mms_journal.specs.declared.journal.Written.{Written};
ghost use Rattle.step_parts.specs.Step.{replay, step};
ghost use Rattle.cell_laws.specs.ReadOn.{is_counted, reading_on};
ghost use Rattle.cell_laws.specs.Recorded.{GoesBy, recorded};

/// An entry of a journal stays as it was written, with its number and the client that wrote it, whatever comes after any
/// history: until its journal is initialized and it is one of those that this is about, its journal is deleted, or the
/// association ends whose journal it is. Where one of these comes, it is there no more.
pub fn an_entry_stays_as_it_was_written()
    ensures stays { (config : Config) (history : List CellEvent) (event : CellEvent) (key : Key)
        (entry : Written) → IsConfig config
        → Contains (recorded key (replay config history).journals) entry
        → Contains (recorded key (step (replay config history) event).journals) entry
        ⊎ GoesBy (replay config history) event key entry }
    ensures goes { (config : Config) (history : List CellEvent) (event : CellEvent) (key : Key)
        (entry : Written) → IsConfig config → GoesBy (replay config history) event key entry
        → Contains (recorded key (step (replay config history) event).journals) entry → ⊥ }
{}

/// Who reads a journal on by entryToStartAfter is told each entry once while nothing changes, after any history: of what
/// a request selects, that which comes behind an entry is what the same request selects after that entry. It is so
/// whatever else is asked for, but for a number of entries, which each request counts anew.
pub fn a_journal_is_read_on_from_an_entry()
    ensures { (config : Config) (history : List CellEvent) (key : Key) (journal : Log)
        (asked : ReadJournal) (front : List Written) (entry : Written) (rest : List Written)
        (last : EntryToStartAfter) → IsConfig config
        → named key (replay config history).journals ≡ Some journal
        → is_counted asked.stop ≡ false
        → selected asked journal.entries ≡ front ++ entry ∷ rest
        → number_of last.number ≡ entry.number
        → selected (reading_on last asked) journal.entries ≡ rest }
{}
