//! Sets of parts.

ghost use Rattle.std.specs.Prelude.{◌≡◌, ◌==◌, ◌↔◌, ℕ, List, ◌<◌, ◌≤◌, true, false, [], ◌∷◌, ◌++◌, length, IfSome, IfNone};
ghost use Rattle.std.specs.List.Sorted.{IsStrictlyIncreasing};
ghost use Rattle.parted_state.specs.Cut.{is_in, missing};
ghost use Rattle.parted_state.specs.Sets.{IsSetOf, is_bit};

use part_table::{Hand, Object};
use std::marker::Model;

/// How many words of 64 bits hold a set.
const WORDS: usize = 4;

/// A set of parts, by their numbers, which are below 256. It takes no memory. Contracts see the list of its numbers, in
/// increasing order.
#[derive(Drop)]
pub struct Parts {
    words: [u64; 4],
}

impl Model for Parts {
    ghost use Rattle.std.specs.Prelude.{ℕ, List};
    ghost use Rattle.parted_state.specs.Sets.{numbers_of};

    ghost Value = { List ℕ };

    ghost view = { λ parts. numbers_of parts.words };
}

/// The least number of a set, and None exactly where there is none.
fn least(words: &[u64; 4]) -> Option<u8>
    ensures within { IfSome result (λ number. number < 256) }
    ensures found { IfSome result (λ number. is_bit words.now number ≡ true) }
    ensures first { IfSome result (λ number.
        (other : ℕ) → other < number → is_bit words.now other ≡ false) }
    ensures none { IfNone result ((other : ℕ) → other < 256 → is_bit words.now other ≡ false) }
{
    'words: for word in 0..WORDS {
        let bits = words[word];
        if bits != 0 {
            return Some(word as u8 * 64 + bits.trailing_zeros() as u8);
        }
    }
    None
}

impl Parts {
    /// No parts.
    pub fn new() -> Parts
        ensures empty { result ≡ [] }
        ensures set { IsSetOf result [] }
    {
        Parts { words: [0; 4] }
    }

    /// The parts of these numbers.
    pub fn of(numbers: &[u8]) -> Parts
        ensures { IsSetOf result numbers.now }
    {
        let mut parts = Parts::new();
        for &number in numbers {
            parts.push(number);
        }
        parts
    }

    /// One more part, or the same where it is among them.
    pub fn push(&mut self, part: u8)
        ensures { IsSetOf self.new (self.old ++ part ∷ []) }
    {
        self.words[usize::from(part / 64)] |= 1 << (part % 64);
    }

    /// The numbers, in increasing order.
    pub fn iter(&self) -> Numbers
        ensures numbers { result ≡ self.now }
        ensures increasing { IsStrictlyIncreasing self.now }
        ensures few { length self.now ≤ 256 }
    {
        Numbers {
            left: Parts { words: self.words },
        }
    }

    /// How many parts there are.
    pub fn len(&self) -> usize
        ensures { result ≡ length self.now }
    {
        self.iter().count()
    }

    /// Whether there is none.
    pub fn is_empty(&self) -> bool
        ensures { result ≡ (length self.now == 0) }
    {
        match least(&self.words) {
            None => true,
            Some(_) => false,
        }
    }

    /// Whether the part is among them.
    pub fn contains(&self, part: u32) -> bool
        ensures { result ≡ is_in self.now part }
    {
        part < 256 && self.words[part as usize / 64] >> (part % 64) & 1 == 1
    }

    /// Takes the least number away.
    fn take_first(&mut self) -> Option<u8>
        ensures first { IfSome result (λ number. self.old ≡ number ∷ self.new) }
        ensures none { IfNone result (self.old ≡ []) }
        ensures kept { IfNone result (self.new ≡ []) }
    {
        match least(&self.words) {
            None => None,
            Some(number) => {
                self.words[usize::from(number / 64)] &= !(1 << (number % 64));
                Some(number)
            }
        }
    }

    /// Those of the parts that are not held.
    pub fn missing<O: Object>(&self, held: &Hand<O>) -> Parts
        ensures { IsSetOf result (missing held.now self.now) }
    {
        let mut missing = Parts::new();
        for number in self.iter() {
            if !held.holds(u32::from(number)) {
                missing.push(number);
            }
        }
        missing
    }
}

/// The numbers of a set of parts, in increasing order. Contracts see the list of those that are left.
#[derive(Drop)]
pub struct Numbers {
    left: Parts,
}

impl Model for Numbers {
    ghost use Rattle.std.specs.Prelude.{ℕ, List};

    ghost Value = { List ℕ };

    ghost view = { λ numbers. numbers.left };
}

impl Iterator for Numbers {
    ghost use Rattle.std.specs.Iterator.{YieldsFirst, item_count};

    type Item = u8;

    ghost next_gives = { YieldsFirst (λ left. left) };

    ghost remaining = { item_count (λ left. left) };

    fn next(&mut self) -> Option<u8> {
        self.left.take_first()
    }
}

/// The set of some parts is one list, and it is empty exactly where there are none of them.
pub fn a_set_is_one_list()
    ensures one { (one other places : List ℕ) → IsSetOf one places → IsSetOf other places
        → one ≡ other }
    ensures empty { (set places : List ℕ) → IsSetOf set places → (set ≡ []) ↔ (places ≡ []) }
{}
