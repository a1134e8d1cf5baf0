//! Lines of a text, by their numbers.

const NEWLINE: u8 = b'\n';

/// How many lines there are; the last may lack its end.
pub(crate) fn count_lines(text: &[u8]) -> u64 {
    let ends = text.iter().filter(|byte| **byte == NEWLINE).count() as u64;
    match text.last() {
        Some(last) if *last != NEWLINE => ends.saturating_add(1),
        _ => ends,
    }
}

/// Where the line of this number begins, from 1; the end of the text if there are fewer.
pub(crate) fn begin_of(text: &[u8], number: u64) -> usize {
    let mut line = 1u64;
    for (index, byte) in text.iter().enumerate() {
        if line >= number {
            return index;
        }
        if *byte == NEWLINE {
            line = line.saturating_add(1);
        }
    }
    text.len()
}

/// What stands before the line of this number.
pub(crate) fn before(text: &[u8], number: u64) -> &[u8] {
    text.get(..begin_of(text, number)).unwrap_or(text)
}

/// The line of this number, without its end.
pub(crate) fn line_at(text: &[u8], number: u64) -> &[u8] {
    let rest = text.get(begin_of(text, number)..).unwrap_or(text);
    match rest.iter().position(|byte| *byte == NEWLINE) {
        Some(end) => rest.get(..end).unwrap_or(rest),
        None => rest,
    }
}
