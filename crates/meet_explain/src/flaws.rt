//! What is wrong with the bytes of a line, whatever its words are.

use meet_run::text::reading::LONGEST_LINE;
use std::alloc::{AllocError, Global};

/// How many bytes of a line are shown at most: of a longer one this many were read.
pub(crate) const MOST_SHOWN: usize = 1024;

/// The mark that some editors put before a text.
const BYTE_ORDER_MARK: &[u8] = b"\xEF\xBB\xBF";

/// What is wrong with the bytes of a line.
#[derive(Clone, Copy, PartialEq, Eq, Debug)]
pub(crate) enum Flaw {
    /// It is empty.
    Nothing,
    /// It begins with a byte order mark.
    ByteOrderMark,
    /// It ends with a carriage return.
    CarriageReturn,
    /// It has a tab.
    Tab,
    /// It begins with a space.
    SpaceBefore,
    /// It ends with a space.
    SpaceBehind,
    /// It has two spaces together.
    TwoSpaces,
    /// It has a byte that is no printable ASCII.
    Unprintable,
    /// It has more than 128 bytes.
    TooLong,
}

/// Whether two spaces stand together.
fn has_two_spaces(line: &[u8]) -> bool {
    let behind = line.get(1..).unwrap_or(line);
    line.iter()
        .zip(behind.iter())
        .any(|both| *both.0 == b' ' && *both.1 == b' ')
}

/// Whether a byte is printable ASCII, or a space.
fn is_plain(byte: u8) -> bool {
    byte.is_ascii_graphic() || byte == b' '
}

impl Flaw {
    /// The first that is wrong with a line, if one is. A line that was read only in part has no end.
    pub(crate) fn of(line: &[u8]) -> Option<Flaw> {
        let ends = |byte: Option<&u8>, with: u8| byte.copied() == Some(with);
        let last = if line.len() < MOST_SHOWN {
            line.last()
        } else {
            None
        };
        if line.is_empty() {
            Some(Flaw::Nothing)
        } else if line.starts_with(BYTE_ORDER_MARK) {
            Some(Flaw::ByteOrderMark)
        } else if ends(last, b'\r') {
            Some(Flaw::CarriageReturn)
        } else if line.contains(&b'\t') {
            Some(Flaw::Tab)
        } else if ends(line.first(), b' ') {
            Some(Flaw::SpaceBefore)
        } else if ends(last, b' ') {
            Some(Flaw::SpaceBehind)
        } else if has_two_spaces(line) {
            Some(Flaw::TwoSpaces)
        } else if line.iter().any(|byte| !is_plain(*byte)) {
            Some(Flaw::Unprintable)
        } else if line.len() > LONGEST_LINE {
            Some(Flaw::TooLong)
        } else {
            None
        }
    }

    /// Its text.
    pub(crate) fn told(self) -> &'static [u8] {
        match self {
            Flaw::Nothing => b"an empty line",
            Flaw::ByteOrderMark => b"a byte order mark before the first word",
            Flaw::CarriageReturn => b"a carriage return at the end",
            Flaw::Tab => b"a tab",
            Flaw::SpaceBefore => b"a space before the first word",
            Flaw::SpaceBehind => b"a space behind the last word",
            Flaw::TwoSpaces => b"two spaces together",
            Flaw::Unprintable => b"a byte that is no printable ASCII",
            Flaw::TooLong => b"more than 128 bytes",
        }
    }
}

/// The words of a line, each parted from the next by one space, without bytes that aren't printable ASCII.
pub(crate) fn mended(alloc: Global, line: &[u8]) -> Result<Vec<u8>, AllocError> {
    let mut out: Vec<u8> = Vec::new(alloc);
    let mut parted = false;
    for byte in line {
        if byte.is_ascii_whitespace() {
            parted = true;
        } else if byte.is_ascii_graphic() {
            if parted && !out.is_empty() {
                out.push(b' ')?;
            }
            out.push(*byte)?;
            parted = false;
        }
    }
    Ok(out)
}
