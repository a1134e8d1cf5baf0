//! Readers and writers that misbehave.

use std::alloc::Global;
use std::io;
use std::io::{ErrorKind, Read, Write};

/// A reader that gives one byte a read. Its text may go on without an end, and one of its reads may fail.
#[derive(Drop)]
pub struct Feed<'a> {
    pub text: &'a [u8],
    pub at: usize,
    pub endless: Option<u8>,
    pub reads: u64,
    pub failed_read: u64,
}

impl Read for Feed<'_> {
    fn read(&mut self, buf: &mut [u8]) -> io::Result<usize> {
        self.reads = self.reads.wrapping_add(1);
        if self.reads == self.failed_read {
            return Err(ErrorKind::BrokenPipe.into());
        }
        if buf.is_empty() {
            return Ok(0);
        }
        if self.at < self.text.len() {
            buf[0] = self.text[self.at];
            self.at += 1;
            Ok(1)
        } else if let Some(byte) = self.endless {
            buf[0] = byte;
            Ok(1)
        } else {
            Ok(0)
        }
    }
}

/// A reader of this text, of whose reads the one of this number fails; 0 for none.
pub fn feed_of(text: &[u8], failed_read: u64) -> Feed<'_> {
    Feed {
        text,
        at: 0,
        endless: None,
        reads: 0,
        failed_read,
    }
}

/// A writer that takes a few bytes a write. One of its writes may fail, or take no byte.
#[derive(Drop)]
pub struct Sink {
    pub bytes: Vec<u8>,
    pub step: usize,
    pub writes: u64,
    pub failed_write: u64,
    pub gives_up: bool,
}

impl Write for Sink {
    fn write(&mut self, buf: &[u8]) -> io::Result<usize> {
        self.writes = self.writes.wrapping_add(1);
        if self.writes == self.failed_write {
            return if self.gives_up {
                Ok(0)
            } else {
                Err(ErrorKind::BrokenPipe.into())
            };
        }
        let taken = buf.len().min(self.step);
        if self.bytes.extend_from_slice(&buf[..taken]).is_err() {
            return Err(ErrorKind::OutOfMemory.into());
        }
        Ok(taken)
    }

    fn flush(&mut self) -> io::Result<()> {
        Ok(())
    }
}

/// A writer that takes so many bytes a write.
pub fn sink_by(alloc: Global, step: usize) -> Sink {
    Sink {
        bytes: Vec::new(alloc),
        step,
        writes: 0,
        failed_write: 0,
        gives_up: false,
    }
}
