//! What comes of a queue where it does otherwise than a story tells.

use crate::asks::Told;
use crate::plays::Found;
use crate::steps::Probe;
use meet_history::{CheckFault, Standing};
use meet_sync::Tally;

/// What came of a queue, otherwise than a story tells.
#[derive(Clone, Copy, PartialEq, Debug)]
pub enum Unlike {
    /// A queue was not made, or not closed: why.
    Why(&'static str),
    /// A seat of this number was told this.
    Told(u64, Told),
    /// A seat of this number drained so many items, or was refused.
    Drained(u64, Option<usize>),
    /// A queue shows this.
    Shown(Probe),
    /// The checker finds this.
    Checked(Result<Standing, CheckFault>),
    /// There are so many records.
    Records(usize),
    /// There are so many lists of receipts.
    Lists(usize),
    /// A receipt of this seat's list, for the record at this place, is not that record's.
    Receipt(usize, usize),
    /// There are so many receipts.
    Receipts(usize),
    /// The tally of the gives is this.
    Counted(Tally),
    /// So many records are left once the records are erased, or they aren't legal.
    Erased(usize),
    /// So many items are left.
    Left(usize),
    /// This item is left.
    Found(Found),
}

impl From<&'static str> for Unlike {
    fn from(why: &'static str) -> Unlike {
        Unlike::Why(why)
    }
}
