//! What is left in the slots of a closed arena.

ghost use Rattle.std.specs.Prelude.{◌≡◌, ◌≤◌, ◌<◌, ◌+◌, [], vec_len};
ghost use Rattle.std.specs.Vec.{vec_capacity};
ghost use Rattle.std.specs.Mem.Slots.{slots_items, slots_len, IsFull};
ghost use Rattle.meet_exchange.specs.Closed.{Adds, TakenUpTo};

use crate::words::{POSTED, code, round};
use atomic_table::Closed;
use std::alloc::Global;

/// The status of an item that is left.
#[derive(Clone, Copy, PartialEq, Eq, Debug)]
pub enum Standing {
    /// It was posted, and no seat took it.
    Offered,
    /// It answers a posted one, and wasn't collected.
    Ready,
}

/// An item that is left in a slot.
#[derive(Debug, Drop)]
pub struct LeftIn<T> {
    /// The slot.
    pub slot: usize,
    /// The number of the round there, the slot's last.
    pub round: u64,
    /// The item.
    pub item: T,
    /// Its status.
    pub standing: Standing,
}

/// Adds the item of a slot that had this word, if there is one.
fn keep<T>(left: &mut Vec<LeftIn<T>>, slot: usize, word: u64, value: Option<T>)
    requires { vec_len left.old < vec_capacity left.old }
    ensures added { Adds slot word value left.old.items left.new.items }
    ensures room { vec_len left.new ≤ vec_len left.old + 1 }
    ensures capacity { vec_capacity left.new ≡ vec_capacity left.old }
{
    if let Some(item) = value {
        let standing = if code(word) == POSTED {
            Standing::Offered
        } else {
            Standing::Ready
        };
        left.push_reserved(LeftIn {
            slot,
            round: round(word),
            item,
            standing,
        });
    }
}

/// Takes each item that is still there, by rising slot.
pub(crate) fn take_left<T>(
    mut closed: Closed<Option<T>, Global>,
    slots: usize,
    left: &mut Vec<LeftIn<T>>,
)
    requires closed { IsFull closed.words × IsFull closed.slots }
    requires sizes { (slots_len closed.words ≡ slots) × (slots_len closed.slots ≡ slots) }
    requires empty { (left.old.items ≡ []) × (vec_len left.old ≡ 0) }
    requires room { slots ≤ vec_capacity left.old }
    ensures { TakenUpTo (slots_items closed.words) (slots_items closed.slots) slots left.new.items }
{
    for slot in 0..slots {
        let word = closed.word(slot);
        let value = closed.take(slot);
        keep(left, slot, word, value);
    }
    closed.free();
}
