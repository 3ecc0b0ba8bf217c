//! Tags that are listed, each of which is looked up.

ghost use Rattle.std.specs.Prelude.{◌≡◌, ◌<◌, ℕ, List, IfOk};
ghost use Rattle.mms_journal.specs.Entries.{is_among};
ghost use Rattle.mms_journal.specs.Tags.{AreSlots, slot_of, tags_in};

use indexmap::IndexSet;
use mms_types::{Memory, Octets};
use std::alloc::Global;
use std::marker::Model;

/// Tags that are listed. Contracts see the list of them.
#[derive(Drop)]
pub(crate) struct Tags<'a> {
    listed: &'a [Octets],
    /// The tags that are asked for, each once.
    set: IndexSet<&'a [u8]>,
    /// Whether a slot has one of them: most others are told from them by it.
    slots: [bool; 256],
}

impl<'a> Model for Tags<'a> {
    ghost use Rattle.std.specs.Prelude.{◌≡◌, ℕ, List};
    ghost use Rattle.mms_journal.specs.Entries.{is_among};
    ghost use Rattle.mms_journal.specs.Tags.{AreSlots, tags_in};

    ghost Value = { List (List ℕ) };

    ghost view = { λ tags. tags.listed.now };

    ghost invariant = { λ tags.
        ((tag : List ℕ) → is_among (tags_in tags.set.keys) tag ≡ is_among tags.listed.now tag)
        × AreSlots tags.slots tags.listed.now };
}

/// The texts, each once. The one refusal is want of memory.
fn set_of<'a>(alloc: Global, texts: &'a [Octets]) -> Result<IndexSet<&'a [u8]>, Memory>
    ensures { IfOk result (λ set. (tag : List ℕ) → is_among (tags_in set.keys) tag
        ≡ is_among texts.entry.now tag) }
{
    let mut set = IndexSet::new(alloc);
    for text in texts {
        set.insert(text.as_slice())?;
    }
    Ok(set)
}

/// The slot of a tag.
#[inline(always)]
fn slot_of(tag: &[u8]) -> usize
    ensures slot { result ≡ slot_of tag.now }
    ensures within { result < 256 }
{
    match tag {
        [] => 0,
        [.., last] => {
            let ends = 3 * usize::from(tag[0]) + 5 * usize::from(*last);
            (tag.len() % 256 + ends) % 256
        }
    }
}

/// Which slots have one of the texts.
fn slots_of(texts: &[Octets]) -> [bool; 256]
    ensures { AreSlots result texts.now }
{
    let mut slots = [false; 256];
    for text in texts {
        slots[slot_of(text.as_slice())] = true;
    }
    slots
}

impl<'a> Tags<'a> {
    /// Those that are listed. The one refusal is want of memory.
    pub(crate) fn of(alloc: Global, listed: &'a [Octets]) -> Result<Tags<'a>, Memory>
        ensures { IfOk result (λ tags. tags ≡ listed.entry.now) }
    {
        Ok(Tags {
            listed,
            set: set_of(alloc, listed)?,
            slots: slots_of(listed),
        })
    }

    /// Whether one of them is that one. The time doesn't grow with how many there are.
    fn is_listed(&self, tag: &[u8]) -> bool
        ensures { result ≡ is_among self.entry.now tag.now }
    {
        self.set.contains(&tag)
    }

    /// Whether a tag is one of them: of most others that is told by their slot alone.
    #[tactic(auto, using(crate::proofs::Tagged::slot_told))]
    #[inline(always)]
    pub(crate) fn has(&self, tag: &[u8]) -> bool
        ensures { result ≡ is_among self.entry.now tag.now }
    {
        self.slots[slot_of(tag)] && self.is_listed(tag)
    }
}
