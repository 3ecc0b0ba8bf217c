ghost use Rattle.std.specs.Prelude.{◌<◌, ℕ, List, length, IfOk};
ghost use Rattle.std.specs.Io.{ReadsAtMost, WritesAtMost};
ghost use Rattle.std.specs.Io.KnownBytes.{ReadConsumes, WriteAppends};
ghost use Rattle.std.specs.declared.option.Option.{Option};
ghost use Rattle.cell_io.specs.Faults.{CountsFault};

use thiserror::Error;

/// A source or a sink failed. Its count of faults tells when.
#[derive(Clone, Copy, Debug, PartialEq, Eq, Drop, Error)]
#[error("a source or a sink failed")]
pub struct Failed;

/// What octets come from. It may tell what is left, and it counts its faults from 0: each read that
/// fails, and nothing else.
pub trait Source {
    /// The octets that are left, where the source tells them.
    ghost left: { Self → Option (List ℕ) };

    /// How many faults there were, up to the last value of a u64, at which the count stands.
    ghost faults: { Self → ℕ };

    /// Reads the first octets of what is left into the front of `buf`, and answers how many: at
    /// most the length of `buf`, and 0 into a `buf` that isn't empty exactly where nothing is
    /// left. `Failed` raises the count of faults by one, and leaves what is left as it was; any other
    /// answer leaves the count as it was.
    fn read(&mut self, buf: &mut [u8]) -> Result<usize, Failed>
        ensures bound { ReadsAtMost result buf.new }
        ensures bytes { ReadConsumes (left self.old) (left self.new) result buf.new }
        ensures cause { CountsFault (faults self.old) (faults self.new) result };
}

/// What octets go to. It may tell what it holds, and it counts its faults from 0: each write that
/// fails, and nothing else.
pub trait Sink {
    /// The octets that it holds, where the sink tells them.
    ghost held: { Self → Option (List ℕ) };

    /// How many faults there were, up to the last value of a u64, at which the count stands.
    ghost faults: { Self → ℕ };

    /// Appends the first octets of `bytes`, and answers how many: at most the length of `bytes`,
    /// and at least 1 where `bytes` isn't empty. `Failed` raises the count of faults by one, and
    /// leaves what is held as it was; any other answer leaves the count as it was.
    fn write(&mut self, bytes: &[u8]) -> Result<usize, Failed>
        ensures bound { WritesAtMost result bytes.now }
        ensures some { IfOk result (λ n. 0 < length bytes.now → 0 < n) }
        ensures bytes { WriteAppends (held self.old) (held self.new) result bytes.now }
        ensures cause { CountsFault (faults self.old) (faults self.new) result };
}
