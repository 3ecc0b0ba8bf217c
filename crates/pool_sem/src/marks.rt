//! Which tokens of a pool entries have, as bits.

ghost use Rattle.std.specs.Prelude.{◌≡◌, ◌≢◌, ◌≤◌, ◌<◌, ◌||◌, ◌&&◌, ℕ, Some, [], false, nat_eq, not, true};
ghost use Rattle.std.specs.Int.{bit_at};
ghost use Rattle.std.specs.Option.{option_eq};
ghost use Rattle.pool_sem.specs.Marks.{AreMarks, is_marked};
ghost use Rattle.pool_sem.specs.Pools.{has, is_place};

use token_sem::SemEntry;

/// So many tokens have a bit: as many as a pool has at most.
const MARKED: u32 = 256;

/// A word of which each bit is set.
const FULL: u64 = u64::MAX;

/// A bit for each token that an entry has.
#[derive(Clone, Copy)]
pub struct Marks {
    had: [u64; 4],
}

/// The lowest bit that isn't set of a word that has one.
fn first_zero(word: u64) -> u32
    requires { word ≢ FULL }
    ensures within { result < 64 }
    ensures before { (bit : ℕ) → bit < result → bit_at word bit ≡ 1 }
    ensures there { bit_at word result ≡ 0 }
{
    word.trailing_ones()
}

impl Marks {
    /// The marks where there is no entry.
    pub(crate) fn new() -> Marks
        ensures { AreMarks result [] }
    {
        Marks { had: [0; 4] }
    }

    /// The marks of these entries.
    pub(crate) fn of(entries: &[SemEntry]) -> Marks
        ensures { AreMarks result entries.now }
    {
        let mut marks = Marks::new();
        for entry in entries {
            marks.see(entry);
        }
        marks
    }

    /// Marks the token that the entry has.
    fn see(&mut self, entry: &SemEntry)
        ensures { (token : ℕ) → token < MARKED
            → is_marked self.new token ≡ (is_marked self.old token || has token entry.now) }
    {
        if let Some(token) = entry.token {
            if token < MARKED && entry.holds() {
                self.set(token);
            }
        }
    }

    /// Whether an entry has the token.
    pub(crate) fn has(&self, token: u32) -> bool
        requires { token < MARKED }
        ensures { result ≡ is_marked self.now token }
    {
        (self.had[(token / 64) as usize] >> (token % 64)) & 1 == 1
    }

    /// An entry has the token.
    pub(crate) fn set(&mut self, token: u32)
        requires { token < MARKED }
        ensures { (other : ℕ) → other < MARKED
            → is_marked self.new other ≡ (nat_eq other token || is_marked self.old other) }
    {
        let place = (token / 64) as usize;
        self.had[place] |= 1 << (token % 64);
    }

    /// No entry has the token.
    pub(crate) fn clear(&mut self, token: u32)
        requires { token < MARKED }
        ensures { (other : ℕ) → other < MARKED
            → is_marked self.new other ≡ (not (nat_eq other token) && is_marked self.old other) }
    {
        let place = (token / 64) as usize;
        self.had[place] &= !(1 << (token % 64));
    }

    /// The token of an entry that went is granted, or free.
    pub(crate) fn free(&mut self, token: Option<u32>, granted: bool)
        requires { is_place MARKED token ≡ true }
        ensures { (other : ℕ) → other < MARKED → is_marked self.new other
            ≡ ((granted || not (option_eq nat_eq token (Some other))) && is_marked self.old other) }
    {
        if granted {
            return;
        }
        if let Some(token) = token {
            self.clear(token);
        }
    }

    /// The first token that no entry has, or as many as have a bit.
    pub(crate) fn first_free(&self) -> u32
        ensures within { result ≤ MARKED }
        ensures before { (token : ℕ) → token < result → is_marked self.now token ≡ true }
        ensures there { result < MARKED → is_marked self.now result ≡ false }
    {
        for place in 0..4 {
            let word = self.had[place];
            if word != FULL {
                return 64 * place as u32 + first_zero(word);
            }
        }
        MARKED
    }
}
