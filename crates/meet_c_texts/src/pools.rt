//! Traces of pools, checked, as text.

ghost use Rattle.std.specs.Prelude.{◌≡◌, [], Some};
ghost use Rattle.meet_run.specs.Texts.Reading.{lines_of};
ghost use Rattle.pool_run.specs.Checks.{PoolCheckEnds};
ghost use Rattle.meet_c_texts.specs.Written.{IsWrittenBy};

use crate::judges::{Written, write_out};
use pool_run::check_pool_trace;
use std::alloc::Global;

/// Checks the text of a pool's trace, and writes the line that `meet pool check` prints. Returns the status: 0 if the
/// records are legal, 31 if one can't stand, whose number and reason that line has.
///
/// # Errors
/// - 15 if a line can't be read, with its number.
/// - 1 if memory runs out.
/// - 16 if the text is longer than 2^32 - 1 bytes.
#[unsafe(no_mangle)]
pub extern "C" fn ibis_pool_check(
    alloc: Global,
    text: &[u8],
    out: &mut [u8],
    written: &mut Written,
) -> u64
    ensures checked { IsWrittenBy (λ ended all. PoolCheckEnds (lines_of text.now) ended (Some []) (Some all))
        out.old written.new out.new }
    ensures status { result ≡ written.new.status }
{
    let mut reader = text;
    let mut all = Vec::new(alloc);
    let ended = check_pool_trace(alloc, &mut reader, &mut all);
    write_out(ended, all.as_slice(), out, written)
}
