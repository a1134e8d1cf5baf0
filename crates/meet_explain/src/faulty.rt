//! The explanation of a line that can't be read: what was found there, and what can stand.

use crate::flaws::{Flaw, mended};
use crate::lines::{count_lines, line_at};
use crate::words::{BASES, DEEDS, Form, HEADS, VERBS, is_among, nearest, word_at};
use meet_history::Setup;
use meet_run::script::first_line::read_setup;
use meet_run::script::grammar::read_call;
use meet_run::text::grammar::read_seat;
use meet_run::text::wording::push_numbered;
use meet_run::text::words::{behind_prefix, read_number};
use meet_run::trace::grammar::{read_kind, read_record, read_ticket};
use meet_tickets::Order;
use std::alloc::{AllocError, Global};

/// The kinds of place that a trace's first line names.
const PLACES: [Form; 4] = [
    (b"fair", b""),
    (b"unfair", b""),
    (b"transfer", b""),
    (b"transfer", b" bound N"),
];

/// As what a line is read.
#[derive(Clone, Copy, PartialEq, Eq, Debug)]
enum Reads {
    /// The first line of a text.
    Head,
    /// A record of a trace.
    Record,
    /// A call of a script about a place of this order.
    Call(Order),
}

/// Appends a line with what was found.
fn push_found(out: &mut Vec<u8>, found: &[u8]) -> Result<(), AllocError> {
    out.extend_from_slice(b"found: ")?;
    out.extend_from_slice(found)?;
    out.extend_from_slice(b"\n")
}

/// Appends a line with what a word is.
fn push_word(out: &mut Vec<u8>, word: &[u8], is: &[u8]) -> Result<(), AllocError> {
    out.extend_from_slice(b"found: ")?;
    if word.is_empty() {
        out.extend_from_slice(b"nothing, ")?;
    } else {
        out.extend_from_slice(b"`")?;
        out.extend_from_slice(word)?;
        out.extend_from_slice(b"`, ")?;
    }
    out.extend_from_slice(is)?;
    out.extend_from_slice(b"\n")
}

/// Appends a line that can stand: these words, and then a form.
fn push_can(out: &mut Vec<u8>, before: &[u8], form: Form) -> Result<(), AllocError> {
    out.extend_from_slice(b"can stand: ")?;
    out.extend_from_slice(before)?;
    out.extend_from_slice(form.0)?;
    out.extend_from_slice(form.1)?;
    out.extend_from_slice(b"\n")
}

/// Appends each form of this word.
fn push_forms(
    out: &mut Vec<u8>,
    before: &[u8],
    word: &[u8],
    forms: &[Form],
) -> Result<(), AllocError> {
    for form in forms {
        if form.0 == word {
            push_can(out, before, *form)?;
        }
    }
    Ok(())
}

/// What is wrong with a word that is to be a number.
fn number_flaw(word: &[u8]) -> &'static [u8] {
    match word {
        [] => b"where a number is to stand",
        [b'0', _, ..] if word.iter().all(|byte| byte.is_ascii_digit()) =>
            b"a number with a 0 in front",
        _ => {
            if word.iter().all(|byte| byte.is_ascii_digit()) {
                b"a number that is too large"
            } else {
                b"which is no number"
            }
        }
    }
}

/// These words, each with a space after it.
fn spaced(alloc: Global, words: &[&[u8]]) -> Result<Vec<u8>, AllocError> {
    let mut out = Vec::new(alloc);
    for word in words {
        out.extend_from_slice(word)?;
        out.push(b' ')?;
    }
    Ok(out)
}

/// Appends what is wrong with a word that is none of these, and what it may have been meant for.
fn push_misspelt(
    alloc: Global,
    out: &mut Vec<u8>,
    before: &[u8],
    word: &[u8],
    is: &[u8],
    forms: &[Form],
) -> Result<(), AllocError> {
    push_word(out, word, is)?;
    match nearest(alloc, word, forms)? {
        Some(near) => push_forms(out, before, near, forms),
        None => {
            for form in forms {
                push_can(out, before, *form)?;
            }
            Ok(())
        }
    }
}

/// What is wrong with a word that is none of those that can stand there: it is missing, or it is none of them.
fn missing_or(word: &[u8], missing: &'static [u8], unknown: &'static [u8]) -> &'static [u8] {
    if word.is_empty() { missing } else { unknown }
}

/// Appends what is wrong with a word that is to be a seat.
fn push_seat_flaw(out: &mut Vec<u8>, seat: &[u8]) -> Result<(), AllocError> {
    push_word(
        out,
        seat,
        if read_number(seat).is_some() {
            b"past the last seat"
        } else {
            number_flaw(seat)
        },
    )?;
    push_can(out, b"", (b"a seat from 0 to 65535", b""))
}

/// Appends what is wrong with the words of a record: its seat, its ticket, its deed, or the words after that.
fn push_record_flaw(alloc: Global, out: &mut Vec<u8>, line: &[u8]) -> Result<(), AllocError> {
    let (seat, ticket, deed) = (word_at(line, 0), word_at(line, 1), word_at(line, 2));
    if seat == b"trace".as_slice() {
        push_word(
            out,
            seat,
            b"the first line of one more trace: `meet chain` reads traces one behind another",
        )
    } else if is_among(seat, &BASES) {
        push_word(
            out,
            seat,
            b"a line of a base, where none can stand that is so",
        )?;
        push_forms(out, b"", seat, &BASES)
    } else if is_among(seat, &DEEDS) {
        push_word(out, seat, b"a deed before its seat and its ticket")?;
        push_forms(out, b"S T ", seat, &DEEDS)
    } else if read_seat(seat).is_none() {
        push_seat_flaw(out, seat)
    } else if is_among(ticket, &VERBS) && !is_among(ticket, &DEEDS) {
        push_word(out, ticket, b"a call of a script, which `meet run` reads")
    } else if is_among(ticket, &DEEDS) {
        push_word(out, ticket, b"a deed before its ticket")?;
        push_forms(
            out,
            spaced(alloc, &[seat, b"T"])?.as_slice(),
            ticket,
            &DEEDS,
        )
    } else if read_ticket(ticket).is_none() {
        push_word(out, ticket, number_flaw(ticket))?;
        push_can(out, b"", (b"a ticket from 0 to 9223372036854775807", b""))
    } else {
        let before = spaced(alloc, &[seat, ticket])?;
        if !is_among(deed, &DEEDS) {
            let is = missing_or(deed, b"where a deed is to stand", b"which is no deed");
            push_misspelt(alloc, out, before.as_slice(), deed, is, &DEEDS)
        } else if read_record(line).is_some() {
            push_found(
                out,
                b"a record that can't stand in this line, as one behind the 1048576th can't",
            )
        } else {
            push_word(out, deed, b"which has other words behind it")?;
            push_forms(out, before.as_slice(), deed, &DEEDS)
        }
    }
}

/// Appends what is wrong with the words of a call: its seat, its verb, or the words after that.
fn push_call_flaw(
    alloc: Global,
    out: &mut Vec<u8>,
    order: Order,
    line: &[u8],
) -> Result<(), AllocError> {
    let (seat, verb) = (word_at(line, 0), word_at(line, 1));
    if is_among(seat, &VERBS) {
        push_word(out, seat, b"a verb before its seat")?;
        push_forms(out, b"S ", seat, &VERBS)
    } else if read_seat(seat).is_none() {
        push_seat_flaw(out, seat)
    } else if is_among(word_at(line, 2), &DEEDS) && read_number(verb).is_some() {
        push_word(
            out,
            word_at(line, 2),
            b"a record of a trace, which `meet check` reads",
        )
    } else {
        let before = spaced(alloc, &[seat])?;
        if !is_among(verb, &VERBS) {
            let is = missing_or(verb, b"where a verb is to stand", b"which is no verb");
            push_misspelt(alloc, out, before.as_slice(), verb, is, &VERBS)
        } else if read_call(Order::Transfer, line).is_some() && !order.keeps() {
            push_word(out, verb, b"which a transfer queue alone has")
        } else {
            push_word(out, verb, b"which has other words behind it")?;
            push_forms(out, before.as_slice(), verb, &VERBS)
        }
    }
}

/// Appends what is wrong with a trace's first line.
fn push_trace_flaw(alloc: Global, out: &mut Vec<u8>, line: &[u8]) -> Result<(), AllocError> {
    let (form, place) = (word_at(line, 1), word_at(line, 2));
    if form != b"1".as_slice() && form != b"2".as_slice() {
        push_word(
            out,
            form,
            b"which is no form: 1 is that of a trace without a base, 2 of one with a base",
        )?;
        return push_can(out, b"", (b"trace 1 fair", b""));
    }
    if place == b"pool".as_slice() {
        return push_word(
            out,
            place,
            b"of a pool's trace, which `meet pool check` reads",
        );
    }
    let before = spaced(alloc, &[b"trace", form])?;
    if !is_among(place, &PLACES) {
        return push_misspelt(
            alloc,
            out,
            before.as_slice(),
            place,
            b"which is no place",
            &PLACES,
        );
    }
    push_word(out, place, b"which has other words behind it")?;
    push_forms(out, before.as_slice(), place, &PLACES)
}

/// Appends what is wrong with a text's first line.
fn push_head_flaw(alloc: Global, out: &mut Vec<u8>, line: &[u8]) -> Result<(), AllocError> {
    let first = word_at(line, 0);
    match nearest(alloc, first, &HEADS)? {
        Some(b"trace") if first == b"trace".as_slice() => push_trace_flaw(alloc, out, line),
        Some(b"pool") => push_word(out, first, b"a pool's script, which `meet pool run` reads"),
        Some(b"calls") => push_word(out, first, b"calls that overlap, which `meet judge` reads"),
        Some(near) if is_among(near, &PLACES) && near == first => {
            push_word(
                out,
                first,
                b"a script's place, which has other options behind it",
            )?;
            push_can(out, first, (b" seats N cap N first N", b""))?;
            if near == b"transfer".as_slice() {
                push_can(out, first, (b" bound N", b""))?;
            }
            Ok(())
        }
        Some(near) => {
            push_word(out, first, b"with which no text begins")?;
            push_forms(out, b"", near, &HEADS)
        }
        None => {
            push_word(out, first, b"with which no text begins")?;
            for form in &HEADS {
                push_can(out, b"", *form)?;
            }
            Ok(())
        }
    }
}

/// Appends a line of a text by its number, each byte that can't be printed as `?`.
fn push_shown(out: &mut Vec<u8>, number: u64, line: &[u8]) -> Result<(), AllocError> {
    push_numbered(out, b"line ", number)?;
    out.extend_from_slice(b": ")?;
    for byte in line {
        let plain = byte.is_ascii_graphic() || *byte == b' ';
        out.push(if plain { *byte } else { b'?' })?;
    }
    out.extend_from_slice(b"\n")
}

/// Whether a line is a trace's first.
fn is_trace(line: &[u8]) -> bool {
    let place = match behind_prefix(b"trace 1 ", line) {
        Some(place) => Some(place),
        None => behind_prefix(b"trace 2 ", line),
    };
    match place {
        Some(place) => read_kind(place).is_some(),
        None => false,
    }
}

/// Whether a line can be read so.
fn can_stand(reads: Reads, line: &[u8]) -> bool {
    match reads {
        Reads::Head => read_setup(line).is_some() || is_trace(line),
        Reads::Record => read_record(line).is_some(),
        Reads::Call(order) => read_call(order, line).is_some(),
    }
}

/// Appends what is wrong with a line that can't be read so.
fn push_flaws(
    alloc: Global,
    out: &mut Vec<u8>,
    reads: Reads,
    number: u64,
    line: &[u8],
) -> Result<(), AllocError> {
    push_shown(out, number, line)?;
    let whole = mended(alloc, line)?;
    if let Some(flaw) = Flaw::of(line) {
        push_found(out, flaw.told())?;
        if whole.is_empty() {
            return Ok(());
        }
        if can_stand(reads, whole.as_slice()) {
            return push_can(out, whole.as_slice(), (b"", b""));
        }
    }
    match reads {
        Reads::Head => push_head_flaw(alloc, out, whole.as_slice()),
        Reads::Record => push_record_flaw(alloc, out, whole.as_slice()),
        Reads::Call(order) => push_call_flaw(alloc, out, order, whole.as_slice()),
    }
}

/// Appends what is wrong with a script: its first line that can't be read as a call, or else the first whose seat it
/// doesn't have; or that it is a script.
fn push_script(
    alloc: Global,
    out: &mut Vec<u8>,
    text: &[u8],
    setup: &Setup,
) -> Result<(), AllocError> {
    let order = setup.kind.order;
    let mut absent = 0u64;
    for (index, line) in text.split(|byte| *byte == b'\n').enumerate().skip(1) {
        let number = (index as u64).saturating_add(1);
        if line.is_empty() && number > count_lines(text) {
            break;
        }
        match read_call(order, line) {
            None => return push_flaws(alloc, out, Reads::Call(order), number, line),
            Some(call) => {
                if absent == 0 && call.seat.number() >= setup.seats {
                    absent = number;
                }
            }
        }
    }
    if absent > 0 {
        let line = line_at(text, absent);
        push_shown(out, absent, line)?;
        push_word(
            out,
            word_at(line, 0),
            b"a seat that this place doesn't have",
        )?;
        out.extend_from_slice(b"can stand: a seat from 0 to ")?;
        return push_numbered(out, b"", setup.seats.saturating_sub(1)).and_then(
            |_| out.extend_from_slice(b"\n"),
        );
    }
    push_shown(out, 1, line_at(text, 1))?;
    push_found(out, b"a script, which `meet run` reads")?;
    push_can(out, b"", (b"trace 1 fair", b""))
}

/// Appends the explanation of a text in which this line can't be read as a trace's.
pub(crate) fn push_faulty(
    alloc: Global,
    out: &mut Vec<u8>,
    text: &[u8],
    number: u64,
) -> Result<(), AllocError> {
    let line = line_at(text, number);
    if text.is_empty() {
        push_found(out, b"no text")?;
        return push_can(out, b"", (b"trace 1 fair", b""));
    }
    if number > 1 {
        return push_flaws(alloc, out, Reads::Record, number, line);
    }
    match read_setup(line) {
        Some(setup) => push_script(alloc, out, text, &setup),
        None => push_flaws(alloc, out, Reads::Head, number, line),
    }
}
