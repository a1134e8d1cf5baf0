//! Reading a text on after its first fault, as far as the explanation of the fault takes.

use crate::flaws::MOST_SHOWN;
use crate::lines::line_at;
use crate::tee::Tee;
use meet_run::RunFault;
use meet_run::script::first_line::read_setup;
use meet_run::script::grammar::read_call;
use meet_run::text::faults::cut_short;
use meet_run::text::reading::{LONGEST_LINE, LineRead, MOST_READS, read_line};
use meet_run::text::room::room_for_lines;
use meet_tickets::{Order, Refusal};
use std::alloc::Global;
use std::io::Read;

/// Reads a line on that is too long, after its first 129 bytes: to its end, or until as many bytes were read as are
/// shown.
fn read_long<R: Read>(tee: &mut Tee<R>) -> Result<(), RunFault> {
    let mut byte = [0];
    for _ in LONGEST_LINE + 1..MOST_SHOWN {
        match tee.read(&mut byte) {
            Ok(0) => return Ok(()),
            Ok(_) => {
                if byte[0] == b'\n' {
                    return Ok(());
                }
            }
            Err(_) => return Err(cut_short(Refusal::ReadFault)),
        }
    }
    Ok(())
}

/// Reads a script about a place of this order on after its first line, to the first line that is no call.
fn read_calls<R: Read>(alloc: Global, tee: &mut Tee<R>, order: Order) -> Result<(), RunFault> {
    let mut turns = MOST_READS;
    let mut line = room_for_lines(alloc, turns)?;
    for _ in 0..MOST_READS {
        match read_line(tee, &mut turns, &mut line) {
            LineRead::Line => {
                if read_call(order, line.as_slice()).is_none() {
                    return Ok(());
                }
            }
            LineRead::End => return Ok(()),
            LineRead::TooLong => return read_long(tee),
            LineRead::Failed => return Err(cut_short(Refusal::ReadFault)),
        }
    }
    Ok(())
}

/// Reads a text on after its faulty line of this number, as far as the explanation takes: a line that is too long to
/// its end, or until as many bytes were read as are shown; a script, if this is its first line, to the first that is no
/// call.
pub(crate) fn read_on<R: Read>(
    alloc: Global,
    tee: &mut Tee<R>,
    number: u64,
) -> Result<(), RunFault> {
    let line = line_at(tee.text(), number);
    if line.len() > LONGEST_LINE {
        return read_long(tee);
    }
    // After a line without an end the text has ended: a terminal would ask for more.
    if number > 1 || tee.text().last() != Some(&b'\n') {
        return Ok(());
    }
    match read_setup(line) {
        Some(setup) => read_calls(alloc, tee, setup.kind.order),
        None => Ok(()),
    }
}
