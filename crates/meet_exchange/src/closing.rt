//! The end of an arena.

ghost use Rattle.std.specs.Prelude.{◌≡◌, ◌≤◌, ◌<◌, ◌↔◌, ◌⊎◌, ℕ, [], map, length, IfSome, IfOk, IfErr, vec_len};
ghost use Rattle.std.specs.Prelude.{slice_set, replicate};
ghost use Rattle.std.specs.Vec.{vec_capacity};
ghost use Rattle.meet_tickets.specs.declared.refusals.Refusal.TheVariants.{Memory, SeatMissing};
ghost use Rattle.meet_exchange.specs.Rounds.{IsHistory, in_slot, parts_of};
ghost use Rattle.meet_exchange.specs.Rebuild.{blank as nothing_known, posts_of};
ghost use Rattle.meet_exchange.specs.Closing.{AllSettled, lists_of, put_all};
ghost use Rattle.meet_exchange.specs.Closed.{AreOf, AreAt, AreBack, Covers, HasList, IsLeft, back_lists, entry_at};

use crate::arena::Arena;
use crate::left::{LeftIn, take_left};
use crate::plays::{Enter, Glue};
use crate::rebuild::{blanks, fill_all};
use crate::records::{Part, Round};
use crate::seats::{Back, Inner};
use crate::steps::{Board, Token};
use meet_tickets::{Marked, Refusal};
use std::alloc::Global;
use std::fmt;
use std::fmt::{Debug, Display, Formatter, Write};

/// What a closed arena leaves.
#[derive(Debug, Drop)]
pub struct Closed<T> {
    /// The rounds of each slot, in order.
    pub slots: Vec<Vec<Round>>,
    /// What each seat did, in order, by the number of the seat.
    pub lists: Vec<Vec<Part>>,
    /// The items that no seat has, by rising slot.
    pub left: Vec<LeftIn<T>>,
}

/// The error of an arena that wasn't closed: SeatMissing or Memory. The arena and the seats are returned. Its text is
/// the name of the reason. It is no error type: a `?` returns it whole or doesn't compile.
#[derive(Drop)]
pub struct CloseFault<T: Marked> {
    /// The reason.
    pub why: Refusal,
    /// The arena, as it was.
    pub arena: Arena<T>,
    /// The seats that were given back.
    pub seats: Vec<Back<T>>,
}

/// The name of the reason.
impl<T: Marked> Display for CloseFault<T> {
    ghost use Rattle.std.specs.Prelude.{Some};
    ghost use Rattle.meet_tickets.specs.Refusals.{name_of};

    ghost output = { λ fault. Some (name_of fault.why) };

    fn fmt<W: Write>(&self, f: &mut Formatter<W>) -> fmt::Result {
        f.write_str(self.why.name())
    }
}

/// The reason alone: what is returned need not be one that can be shown.
impl<T: Marked> Debug for CloseFault<T> {
    fn fmt<W: Write>(&self, f: &mut Formatter<W>) -> fmt::Result {
        write!(f, "CloseFault({})", self.why)
    }
}

impl<T: Marked + Drop> CloseFault<T> {
    /// Returns the reason alone, and drops the arena and the seats: match the fault to keep them.
    pub fn into_why(self) -> Refusal
        ensures { result ≡ self.why }
    {
        self.why
    }
}

/// Puts a list at its seat's number.
fn put(lists: &mut Vec<Vec<Part>>, number: usize, list: Vec<Part>)
    ensures lists { map (λ l. l.items) lists.new.items
        ≡ slice_set (map (λ l. l.items) lists.old.items) number list.items }
    ensures count { length lists.new.items ≡ length lists.old.items }
{
    if number < lists.len() {
        lists[number] = list;
    }
}

/// Joins the trails of all seats in one token, and puts their lists in order.
fn gather<T: Marked>(
    board: &Board<T>,
    master: &mut Token<T>,
    mut seats: Vec<Back<T>>,
    lists: &mut Vec<Vec<Part>>,
)
    requires place { (master.old.table_id ≡ board.now.table_id) × AreOf board.now.table_id seats.items }
    requires words { 0 < board.now.table_id.words }
    requires start { master.old.me ≡ ([], []) }
    ensures place { master.new.table_id ≡ board.now.table_id }
    ensures held { master.new.me.1 ≡ [] }
    ensures settled { AllSettled master.new.me.0 }
    ensures views { length master.new.me.0 ≡ vec_len seats }
    ensures lists { map (λ l. l.items) lists.new.items
        ≡ put_all (lists_of master.new.me.0) (map (λ l. l.items) lists.old.items) }
    ensures count { length lists.new.items ≡ length lists.old.items }
    ensures own { Covers master.new.me.0 seats.items }
    ensures back { AreBack master.new.me.0 seats.items }
    ensures posts { (k : ℕ) → posts_of k (lists_of master.new.me.0) ≡ posts_of k (back_lists seats.items) }
{
    while let Some(back) = seats.pop() {
        let Inner {
            number,
            list,
            token,
        } = back.open();
        board.join_seat::<Glue>(master, token);
        put(lists, number.number() as usize, list);
    }
    seats.destroy_empty();
}

/// An empty list for each seat, or none if an allocation fails.
fn empty_lists(alloc: Global, seats: u64) -> Option<Vec<Vec<Part>>>
    ensures count { IfSome result (λ lists. length lists.items ≡ seats) }
    ensures empty { IfSome result (λ lists. map (λ list. list.items) lists.items ≡ replicate seats []) }
{
    let mut lists = Vec::with_capacity(alloc, seats as usize).ok()?;
    for number in 0..seats {
        lists.push_reserved(Vec::new(alloc));
    }
    Some(lists)
}

/// What a close fills in.
#[derive(Drop)]
struct Room<T> {
    slots: Vec<Vec<Round>>,
    lists: Vec<Vec<Part>>,
    left: Vec<LeftIn<T>>,
}

/// Room for what the seats will have come to, or none if an allocation fails.
fn room_for<T>(alloc: Global, slots: usize, seats: u64, backs: &[Back<T>]) -> Option<Room<T>>
    ensures slots { IfSome result (λ room. length room.slots.items ≡ slots) }
    ensures blank { IfSome result (λ room. (k : ℕ) → k < slots
        → entry_at (map (λ rounds. rounds.items) room.slots.items) k
        ≡ replicate (posts_of k (back_lists backs.now)) nothing_known) }
    ensures lists { IfSome result (λ room. length room.lists.items ≡ seats) }
    ensures empty { IfSome result (λ room. map (λ list. list.items) room.lists.items ≡ replicate seats []) }
    ensures left { IfSome result (λ room. (room.left.items ≡ []) × (vec_len room.left ≡ 0)
        × (slots ≤ vec_capacity room.left)) }
{
    let lists = empty_lists(alloc, seats)?;
    let rounds = blanks(alloc, slots, backs)?;
    let left = Vec::with_capacity(alloc, slots).ok()?;
    Some(Room {
        slots: rounds,
        lists,
        left,
    })
}

impl<T: Marked> Arena<T> {
    /// Closes the arena: takes all seats back, in any order. Returns the rounds of each slot, what each seat did, which
    /// is the list of the seat that is given back, and the items that no seat has.
    ///
    /// # Errors
    /// The arena and the seats are returned, and `close` can be called again.
    /// - SeatMissing, exactly if fewer seats are given back than were made.
    /// - Memory, if an allocation fails.
    ///
    /// # Example
    /// From `crates/examples/src/buffers.rt`:
    ///
    ///     let closed = arena.close(alloc, backs).map_err(CloseFault::into_why)?;
    pub fn close(self, alloc: Global, seats: Vec<Back<T>>) -> Result<Closed<T>, CloseFault<T>>
        requires place { AreOf self.id seats.items }
        ensures slots { IfOk result (λ c. length c.slots.items ≡ self.slots) }
        ensures history { IfOk result (λ c. (k : ℕ)
            → IsHistory self.seats (entry_at (map (λ rounds. rounds.items) c.slots.items) k)) }
        ensures count { IfOk result (λ c. length c.lists.items ≡ self.seats) }
        ensures lists { IfOk result (λ c. (x k : ℕ) → x < self.seats
            → in_slot k (entry_at (map (λ list. list.items) c.lists.items) x)
            ≡ parts_of x k self.start (entry_at (map (λ rounds. rounds.items) c.slots.items) k)) }
        ensures own { IfOk result (λ c. AreAt (map (λ list. list.items) c.lists.items) (back_lists seats.items)) }
        ensures each { IfOk result (λ _. (x : ℕ) → x < self.seats → HasList x (back_lists seats.items)) }
        ensures left { IfOk result (λ c. IsLeft T.mark_of self.start
            (entry_at (map (λ rounds. rounds.items) c.slots.items)) self.slots c.left.items) }
        ensures missing { IfErr result (λ fault. fault.why ≡ SeatMissing ↔ (vec_len seats < self.seats)) }
        ensures memory { IfErr result (λ fault. (fault.why ≡ SeatMissing) ⊎ (fault.why ≡ Memory)) }
        ensures all { IfOk result (λ _. self.seats ≤ vec_len seats) }
        ensures back { IfErr result (λ fault. (fault.arena ≡ self) × (fault.seats ≡ seats)) }
    {
        if (seats.len() as u64) < self.seats {
            return Err(CloseFault {
                why: Refusal::SeatMissing,
                arena: self,
                seats,
            });
        }
        let Some(room) = room_for(alloc, self.slots, self.seats, seats.as_slice()) else {
            return Err(CloseFault {
                why: Refusal::Memory,
                arena: self,
                seats,
            });
        };
        let Room {
            slots: mut rounds,
            mut lists,
            mut left,
        } = room;
        let Arena {
            table,
            slots,
            seats: _,
            start,
        } = self;
        let mut master = table.shared.load_new_seat::<Enter>(0).1;
        gather(&table.shared, &mut master, seats, &mut lists);
        take_left(table.close_with(master), slots, &mut left);
        fill_all(lists.as_slice(), start, &mut rounds);
        Ok(Closed {
            slots: rounds,
            lists,
            left,
        })
    }
}
