//! Readers and writers that misbehave.

use std::io;
use std::io::{ErrorKind, Read, Write};

/// A reader that gives one byte a read. One of its reads may fail, as this kind of error.
#[derive(Drop)]
pub struct Feed<'a> {
    pub text: &'a [u8],
    pub at: usize,
    pub reads: u64,
    pub failed_read: u64,
    pub kind: ErrorKind,
}

impl Read for Feed<'_> {
    fn read(&mut self, buf: &mut [u8]) -> io::Result<usize> {
        self.reads = self.reads.wrapping_add(1);
        if self.reads == self.failed_read {
            return Err(self.kind.into());
        }
        if buf.is_empty() || self.at >= self.text.len() {
            return Ok(0);
        }
        buf[0] = self.text[self.at];
        self.at += 1;
        Ok(1)
    }
}

/// A reader of this text, of whose reads the one of this number fails so; 0 for none.
pub fn feed_of(text: &[u8], failed_read: u64, kind: ErrorKind) -> Feed<'_> {
    Feed {
        text,
        at: 0,
        reads: 0,
        failed_read,
        kind,
    }
}

/// A writer that takes one byte a write. One of its writes may fail, or take no byte.
#[derive(Drop)]
pub struct Sink {
    pub bytes: Vec<u8>,
    pub writes: u64,
    pub failed_write: u64,
    pub gives_up: bool,
}

impl Write for Sink {
    fn write(&mut self, buf: &[u8]) -> io::Result<usize> {
        self.writes = self.writes.wrapping_add(1);
        if self.writes == self.failed_write {
            return if self.gives_up {
                Ok(0)
            } else {
                Err(ErrorKind::BrokenPipe.into())
            };
        }
        let taken = buf.len().min(1);
        if self.bytes.extend_from_slice(&buf[..taken]).is_err() {
            return Err(ErrorKind::OutOfMemory.into());
        }
        Ok(taken)
    }

    fn flush(&mut self) -> io::Result<()> {
        Ok(())
    }
}
