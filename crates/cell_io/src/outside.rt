ghost use Rattle.std.specs.Prelude.{◌≡◌};

use crate::{Failed, Sink, Source};
use std::io::{Read, Write};

/// A reader of std as a source. Each error of the reader raises the count of faults, which stops
/// at 2^64 - 1. It tells of what is left what the reader tells.
#[derive(Drop)]
pub struct StdSource<R: Drop> {
    inner: R,
    faults: u64,
}

impl<R: Read + Drop> StdSource<R> {
    /// The reader as a source that hasn't failed yet.
    pub fn new(inner: R) -> StdSource<R>
        ensures count { ⟦<StdSource<R> as Source>⟧.faults result ≡ 0 }
        ensures left { ⟦<StdSource<R> as Source>⟧.left result ≡ R.remaining inner }
    {
        StdSource { inner, faults: 0 }
    }
}

impl<R: Read + Drop> Source for StdSource<R> {
    ghost left = { λ s. R.remaining s.inner };

    ghost faults = { λ s. s.faults };

    fn read(&mut self, buf: &mut [u8]) -> Result<usize, Failed> {
        match self.inner.read(buf) {
            Ok(count) => Ok(count),
            Err(_) => {
                self.faults = self.faults.saturating_add(1);
                Err(Failed)
            }
        }
    }
}

/// A writer of std as a sink. Each error of the writer raises the count of faults, which stops at
/// 2^64 - 1, and so does a write that takes nothing of a piece that isn't empty. It tells of what
/// it holds what the writer tells.
#[derive(Drop)]
pub struct StdSink<W: Drop> {
    inner: W,
    faults: u64,
}

impl<W: Write + Drop> StdSink<W> {
    /// The writer as a sink that hasn't failed yet.
    pub fn new(inner: W) -> StdSink<W>
        ensures count { ⟦<StdSink<W> as Sink>⟧.faults result ≡ 0 }
        ensures held { ⟦<StdSink<W> as Sink>⟧.held result ≡ W.contents inner }
    {
        StdSink { inner, faults: 0 }
    }
}

impl<W: Write + Drop> Sink for StdSink<W> {
    ghost held = { λ s. W.contents s.inner };

    ghost faults = { λ s. s.faults };

    fn write(&mut self, bytes: &[u8]) -> Result<usize, Failed> {
        match self.inner.write(bytes) {
            Ok(count) if count > 0 || bytes.is_empty() => Ok(count),
            _ => {
                self.faults = self.faults.saturating_add(1);
                Err(Failed)
            }
        }
    }
}
