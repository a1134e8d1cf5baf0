//! Items that nobody can have got by a time, also where a call that may have got them had begun by then.

ghost use Rattle.std.specs.Prelude.{◌<◌, length, IsTrue};
ghost use Rattle.meet_overlap.specs.Marks.{IsGotLater, NoneGot};

use super::marks::{gives_alone, none_took, takes};
use crate::calls::{Answer, Call};

/// Whether a call got an item of this mark that began after this time.
fn is_got_later(calls: &[Call], mark: u64, by: u64) -> bool
    ensures { IsTrue result → IsGotLater calls.now mark by }
{
    for number in 0..calls.len() {
        let call = &calls[number];
        let Some(returned) = call.returned else {
            continue;
        };
        let Answer::Got(item) = returned.answer else {
            continue;
        };
        if item == mark && by < call.begin && takes(call.verb) {
            return true;
        }
    }
    false
}

/// Whether nobody can have got an item of this mark by this time, as far as the call of this number gives it alone.
pub(crate) fn none_got(calls: &[Call], mark: u64, giver: usize, by: u64) -> bool
    ensures { IsTrue result → NoneGot calls.now mark by }
{
    if none_took(calls, mark, by) {
        return true;
    }
    gives_alone(calls, mark, giver) && is_got_later(calls, mark, by)
}
