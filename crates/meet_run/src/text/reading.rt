//! Reading a text line by line, without an allocation.

ghost use Rattle.std.specs.Prelude.{◌≤◌};
ghost use Rattle.std.specs.Vec.{vec_capacity};
ghost use Rattle.meet_run.specs.Texts.Reading.{ReadsByte, ReadsLine, UsesTurns, SpendsTurn};

use std::io::Read;

/// The most bytes of a line.
pub const LONGEST_LINE: usize = 128;

/// The most reads of a text: 2^32.
pub const MOST_READS: u64 = 1 << 32;

/// The result of reading a byte.
#[derive(Clone, Copy, PartialEq, Eq, Debug)]
pub enum ByteRead {
    /// This byte was read.
    Byte(u8),
    /// The input has ended.
    End,
    /// The read failed, or no turn was left for it.
    Failed,
}

/// The result of reading a line.
#[derive(Clone, Copy, PartialEq, Eq, Debug)]
pub enum LineRead {
    /// A line was read.
    Line,
    /// The input has ended, and there is no further line.
    End,
    /// The line has more than 128 bytes. The first 129 were read.
    TooLong,
    /// A read failed, or no turn was left for it. The bytes before it stand in the line.
    Failed,
}

/// Reads a byte. Each read costs a turn.
fn read_byte<R: Read>(reader: &mut R, turns: &mut u64) -> ByteRead
    ensures { ReadsByte result (R.remaining reader.old) (R.remaining reader.new) turns.old turns.new }
{
    if *turns == 0 {
        return ByteRead::Failed;
    }
    *turns -= 1;
    let mut byte = [0];
    match reader.read(&mut byte) {
        Ok(0) => ByteRead::End,
        Ok(_) => ByteRead::Byte(byte[0]),
        Err(_) => ByteRead::Failed,
    }
}

/// Reads the next line, without the byte 10 at its end, into `line`, which has room for it. Each byte costs a turn.
pub fn read_line<R: Read>(reader: &mut R, turns: &mut u64, line: &mut Vec<u8>) -> LineRead
    requires { LONGEST_LINE ≤ vec_capacity line.old }
    ensures read { ReadsLine result (R.remaining reader.old) (R.remaining reader.new) turns.old turns.new
        line.new.items }
    ensures uses { UsesTurns (R.remaining reader.old) (R.remaining reader.new) turns.old turns.new }
    ensures spends { SpendsTurn result turns.old turns.new }
    ensures room { LONGEST_LINE ≤ vec_capacity line.new }
{
    line.clear();
    loop {
        match read_byte(reader, turns) {
            ByteRead::Byte(b'\n') => return LineRead::Line,
            ByteRead::Byte(byte) => {
                if line.len() >= LONGEST_LINE {
                    return LineRead::TooLong;
                }
                line.push_reserved(byte);
            }
            ByteRead::End => {
                return if line.is_empty() {
                    LineRead::End
                } else {
                    LineRead::Line
                };
            }
            ByteRead::Failed => return LineRead::Failed,
        }
    }
}
