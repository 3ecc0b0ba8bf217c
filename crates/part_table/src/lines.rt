//! Where the words and slots of a table lie that different callers write.
ghost use Rattle.std.specs.Prelude.{◌≡◌, ◌≤◌};
ghost use Rattle.part_table.specs.Lines.{owner_word, slot_of};

/// Words that different callers write lie so far apart. A word has 8 octets, so these are 128 octets.
/// Processors fetch lines of 64 octets, and some of them two lines at once: of two words that lie
/// nearer, the writing of the one would take the other from whoever reads it.
pub(crate) const WORDS_APART: usize = 16;

/// Slots that different callers write lie as far apart: a slot has 16 octets, a tag and the address of
/// its part.
pub(crate) const SLOTS_APART: usize = 8;

/// The owner word of a part. That of the number of parts is how many words there are, so that the last
/// one has its line for itself, too.
pub(crate) fn owner_word_at(part: usize) -> usize
    requires { part ≤ 256 }
    ensures { result ≡ owner_word part }
{
    WORDS_APART * (part + 1)
}

/// The slot of a part. That of the number of parts is how many slots there are.
pub(crate) fn slot_at(part: usize) -> usize
    requires { part ≤ 256 }
    ensures { result ≡ slot_of part }
{
    SLOTS_APART * part
}
