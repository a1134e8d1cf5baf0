//! The words that texts are made of, and which of them a misspelt one may have been meant for.

use meet_run::text::words::split_word;
use std::alloc::{AllocError, Global};

/// A word, and the words after it, each number by a letter.
pub(crate) type Form = (&'static [u8], &'static [u8]);

/// The deeds of a trace.
pub(crate) const DEEDS: [Form; 15] = [
    (b"give-waits", b" M"),
    (b"give-meets", b" M U"),
    (b"give-fails", b" M"),
    (b"give-kept", b" M"),
    (b"take-waits", b""),
    (b"take-meets", b" M U"),
    (b"take-fails", b""),
    (b"entry-interrupted", b" give"),
    (b"entry-interrupted", b" take"),
    (b"done", b""),
    (b"got", b" M U"),
    (b"withdrawn", b" cancelled"),
    (b"withdrawn", b" expired"),
    (b"withdrawn", b" interrupted"),
    (b"interrupt", b" S"),
];

/// The lines of a base.
pub(crate) const BASES: [Form; 9] = [
    (b"base", b" N T"),
    (b"line", b" S T give M waits"),
    (b"line", b" S T give M kept"),
    (b"line", b" S T take"),
    (b"pair", b" S T give U M"),
    (b"pair", b" S T take U M"),
    (b"cut", b" S T give M"),
    (b"cut", b" S T take"),
    (b"flag", b" S"),
];

/// The verbs of a script.
pub(crate) const VERBS: [Form; 16] = [
    (b"put", b" M"),
    (b"offer", b" M"),
    (b"take", b""),
    (b"poll", b""),
    (b"follow", b""),
    (b"cancel", b""),
    (b"expire", b""),
    (b"interrupt", b" S"),
    (b"drain", b" N"),
    (b"size", b""),
    (b"room", b""),
    (b"peek", b""),
    (b"checkpoint", b""),
    (b"transfer", b" M"),
    (b"try", b" M"),
    (b"consumers", b""),
];

/// What a text begins with.
pub(crate) const HEADS: [Form; 6] = [
    (b"trace", b" 1 fair"),
    (b"fair", b""),
    (b"unfair", b""),
    (b"transfer", b""),
    (b"pool", b""),
    (b"calls", b""),
];

/// The word of this number of a line, from 0; nothing if there are fewer.
pub(crate) fn word_at(line: &[u8], number: usize) -> &[u8] {
    let mut rest = line;
    for _ in 0..number {
        let (_, behind) = split_word(rest);
        rest = behind.get(1..).unwrap_or(behind);
    }
    split_word(rest).0
}

/// What two words differ in, from their first unlike byte on.
fn behind_common<'a>(one: &'a [u8], other: &'a [u8]) -> (&'a [u8], &'a [u8]) {
    let common = one
        .iter()
        .zip(other.iter())
        .take_while(|both| both.0 == both.1)
        .count();
    (
        one.get(common..).unwrap_or(one),
        other.get(common..).unwrap_or(other),
    )
}

/// All after the first byte.
fn tail(word: &[u8]) -> &[u8] {
    word.get(1..).unwrap_or(word)
}

/// Whether one word becomes the other by one byte that is put in, left out or changed, or by none.
fn is_one_off(one: &[u8], other: &[u8]) -> bool {
    let (here, there) = behind_common(one, other);
    tail(here) == there || here == tail(there) || tail(here) == tail(there)
}

/// The same by two bytes.
fn is_two_off(one: &[u8], other: &[u8]) -> bool {
    let (here, there) = behind_common(one, other);
    is_one_off(tail(here), there)
        || is_one_off(here, tail(there))
        || is_one_off(tail(here), tail(there))
}

/// The same word in small letters.
fn lowered(alloc: Global, word: &[u8]) -> Result<Vec<u8>, AllocError> {
    let mut small = Vec::new(alloc);
    for byte in word {
        small.push(byte.to_ascii_lowercase())?;
    }
    Ok(small)
}

/// The first of these words that is this one, in small letters; else the first that it becomes by one byte, or by two
/// if it has at least four.
pub(crate) fn nearest(
    alloc: Global,
    word: &[u8],
    forms: &[Form],
) -> Result<Option<&'static [u8]>, AllocError> {
    let small = lowered(alloc, word)?;
    let small = small.as_slice();
    if let Some(form) = forms.iter().find(|form| form.0 == small) {
        return Ok(Some(form.0));
    }
    if let Some(form) = forms.iter().find(|form| is_one_off(small, form.0)) {
        return Ok(Some(form.0));
    }
    let near = forms
        .iter()
        .find(|form| small.len() > 3 && is_two_off(small, form.0));
    Ok(near.map(|form| form.0))
}

/// Whether this is one of these words, as it is written.
pub(crate) fn is_among(word: &[u8], forms: &[Form]) -> bool {
    forms.iter().any(|form| form.0 == word)
}
