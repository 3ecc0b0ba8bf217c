//! Laws over journals.

ghost use Rattle.std.specs.Prelude.{All};
ghost use Rattle.mms_journal.specs.Journals.{IsJournal};

use crate::{Journal, Journals};

/// What holds of a journal.
fn journal_is_sound(journal: &Journal)
    ensures { IsJournal journal.now }
{
    let _ = journal.len();
}

/// Of every journal it holds at any time, so after each call too: numbers rise, from 1 on, and none is greater than how
/// many were written; it has at most 65,536 entries, of at most 16,777,216 octets together.
pub fn each_journal_is_sound(journals: &Journals)
    ensures { All (λ row. IsJournal row.1) journals.now }
{
    for place in 0..journals.rows.len() {
        let Some((_, journal)) = journals.rows.at(place) else {
            unreachable!()
        };
        journal_is_sound(journal);
    }
}
