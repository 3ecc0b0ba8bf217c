//! Sources and sinks over readers and writers of std.

use cell_io::{Failed, Sink, Source, StdSink, StdSource};
use std::io;
use std::io::{ErrorKind, Read, Write};

/// A reader that gives `a` in each read, and fails in the second.
#[derive(Drop)]
struct FailingReader {
    reads: u8,
}

impl Read for FailingReader {
    fn read(&mut self, buf: &mut [u8]) -> io::Result<usize> {
        self.reads = self.reads.saturating_add(1);
        if self.reads == 2 {
            return Err(ErrorKind::Other.into());
        }
        if buf.is_empty() {
            return Ok(0);
        }
        buf[0] = b'a';
        Ok(1)
    }
}

/// A writer that takes one octet in each write, fails in the second, and takes none in the fourth.
#[derive(Drop)]
struct FailingWriter {
    writes: u8,
}

impl Write for FailingWriter {
    fn write(&mut self, buf: &[u8]) -> io::Result<usize> {
        self.writes = self.writes.saturating_add(1);
        if self.writes == 2 {
            return Err(ErrorKind::Other.into());
        }
        if self.writes == 4 {
            return Ok(0);
        }
        Ok(buf.len().min(1))
    }

    fn flush(&mut self) -> io::Result<()> {
        Ok(())
    }
}

#[test]
fn an_error_of_std_in_mid_stream_is_a_fault(rt: HostRuntime) {
    let mut source = StdSource::new(FailingReader { reads: 0 });
    let mut buf = [0u8; 2];
    for want in [Ok(1), Err(Failed), Ok(1)] {
        assert_eq!(rt; source.read(&mut buf), want);
    }
    let mut sink = StdSink::new(FailingWriter { writes: 0 });
    for want in [Ok(1), Err(Failed), Ok(1), Err(Failed), Ok(1)] {
        assert_eq!(rt; sink.write(&[1, 2]), want);
    }
}
