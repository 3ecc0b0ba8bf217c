ghost use Rattle.std.specs.Prelude.{◌≡◌, ◌≤◌, decimal, length, take};

use itoa::Buffer;
use std::marker::Model;

/// The most digits that a number has.
pub const WIDTH: usize = 20;

/// A number that is spelled, and kept so until another one is asked for. Contracts see the number.
#[derive(Drop)]
pub struct Spelled {
    number: u64,
    digits: [u8; WIDTH],
    size: usize,
}

impl Model for Spelled {
    ghost use Rattle.std.specs.Prelude.{ℕ, ◌≡◌, ◌≤◌, decimal, take};

    ghost Value = { ℕ };

    ghost view = { λ spelled. spelled.number };

    ghost invariant = { λ spelled. (spelled.size ≤ 20) × (take spelled.size spelled.digits ≡ decimal spelled.number) };
}

impl Spelled {
    /// Nothing but 0 is spelled.
    pub fn new() -> Spelled
        ensures { result ≡ 0 }
    {
        let mut digits = [0; WIDTH];
        digits[0] = b'0';
        Spelled {
            number: 0,
            digits,
            size: 1,
        }
    }

    /// Spells a number, where it isn't spelled already.
    #[inline(always)]
    pub fn spell(&mut self, number: u64)
        ensures { self.new ≡ number }
    {
        if number != self.number {
            self.respell(number);
        }
    }

    /// Spells a number.
    #[inline(never)]
    fn respell(&mut self, number: u64)
        ensures { self.new ≡ number }
    {
        let mut buffer = Buffer::new();
        let digits = buffer.format(number).as_bytes();
        self.size = digits.len();
        self.digits[..digits.len()].copy_from_slice(digits);
        self.number = number;
    }

    /// Puts the number's digits to the front of a piece, and tells how many they are. What stands behind them is of no
    /// account: so many octets are written as a number has at most, since a copy of known length costs least.
    #[inline(always)]
    pub fn put(&self, to: &mut [u8]) -> usize
        requires { length to.old ≡ 20 }
        ensures digits { take result to.new ≡ decimal self.now }
        ensures within { result ≤ 20 }
        ensures length { length to.new ≡ 20 }
    {
        to.copy_from_slice(&self.digits);
        self.size
    }
}
