//! A reader that keeps a copy of what is read through it.

ghost use Rattle.std.specs.Prelude.{◌≡◌};

use std::alloc::{AllocError, Global};
use std::io;
use std::io::Read;

/// A reader that keeps a copy of each byte that is read through it, and reads nothing else from its own reader.
#[derive(Drop)]
pub(crate) struct Tee<R> {
    reader: R,
    text: Vec<u8>,
    out_of_memory: bool,
}

impl<R> Tee<R> {
    /// A tee before its first read.
    pub(crate) fn new(alloc: Global, reader: R) -> Self
        ensures { result.reader ≡ reader }
    {
        Tee {
            reader,
            text: Vec::new(alloc),
            out_of_memory: false,
        }
    }

    /// The bytes that were read.
    pub(crate) fn text(&self) -> &[u8] {
        self.text.as_slice()
    }

    /// Whether bytes were read that couldn't be kept, as memory ran out. Each read fails from then on.
    pub(crate) fn is_out_of_memory(&self) -> bool {
        self.out_of_memory
    }
}

impl<R: Read> Read for Tee<R> {
    ghost remaining = { λ tee. R.remaining tee.reader };

    fn read(&mut self, buf: &mut [u8]) -> io::Result<usize> {
        if self.out_of_memory {
            return Err(io::Error::from(AllocError));
        }
        let count = self.reader.read(buf)?;
        self.out_of_memory = self.text.extend_from_slice(&buf[..count]).is_err();
        Ok(count)
    }
}
