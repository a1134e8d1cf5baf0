//! A reader that is read byte by byte from memory.

ghost use Rattle.std.specs.Prelude.{◌≡◌, [], IfOk, OnOk};
ghost use Rattle.std.specs.Io.KnownBytes.{Keeps, IsAtEnd};
ghost use Rattle.meet_run.specs.Texts.Blocks.{known_of};

use std::alloc::{AllocError, Global};
use std::io;
use std::io::Read;
use std::marker::Model;

/// How many bytes are read at once.
const BLOCK: usize = 8192;

/// A buffered reader, whose bytes come from another in blocks. A read takes one byte, and reads the other only if the
/// block has none left: so a program that reads on a terminal line by line waits for no more than that line.
#[derive(Drop)]
pub struct Blocks<R> {
    reader: R,
    block: Vec<u8>,
    at: usize,
    end: usize,
}

impl<R> Model for Blocks<R> {
    ghost use Rattle.std.specs.Prelude.{◌<◌, ◌≤◌, slice_range, vec_len};
    ghost use Rattle.meet_run.specs.Texts.Blocks.{Blocked};

    ghost Value = { Blocked R };

    ghost view = { λ b. record { unread = slice_range b.block.items b.at b.end; reader = b.reader } };

    ghost invariant = { λ b. (0 < vec_len b.block) × (b.at ≤ b.end) × (b.end ≤ vec_len b.block) };
}

impl<R: Read> Blocks<R> {
    /// Creates a reader in front of this one.
    ///
    /// # Errors
    /// - `AllocError`, if the allocation fails: the reader is dropped.
    pub fn new(alloc: Global, reader: R) -> Result<Self, AllocError>
    where
        R: Drop,
        ensures known { IfOk result (λ blocks. Keeps (R.remaining reader) (known_of R.remaining blocks)) }
    {
        let mut block = Vec::with_capacity(alloc, BLOCK)?;
        block.resize(BLOCK, 0)?;
        Ok(Blocks {
            reader,
            block,
            at: 0,
            end: 0,
        })
    }

    /// Reads the next block.
    fn fill(&mut self) -> io::Result<()>
        requires { self.old.unread ≡ [] }
        ensures known { Keeps (known_of R.remaining self.old) (known_of R.remaining self.new) }
        ensures end { OnOk result (self.new.unread ≡ [] → IsAtEnd (known_of R.remaining self.new)) }
    {
        self.at = 0;
        self.end = 0;
        self.end = self.reader.read(self.block.as_mut_slice())?;
        Ok(())
    }

    /// Sees that the block has a byte left, unless there is none.
    #[inline(always)]
    fn ready(&mut self) -> io::Result<()>
        ensures known { Keeps (known_of R.remaining self.old) (known_of R.remaining self.new) }
        ensures end { OnOk result (self.new.unread ≡ [] → IsAtEnd (known_of R.remaining self.new)) }
    {
        if self.at < self.end {
            return Ok(());
        }
        self.fill()
    }
}

impl<R: Read> Read for Blocks<R> {
    ghost remaining = { known_of R.remaining };

    #[inline(always)]
    fn read(&mut self, buf: &mut [u8]) -> io::Result<usize> {
        if buf.is_empty() {
            return Ok(0);
        }
        self.ready()?;
        if self.at == self.end {
            return Ok(0);
        }
        buf[0] = self.block[self.at];
        self.at += 1;
        Ok(1)
    }
}
