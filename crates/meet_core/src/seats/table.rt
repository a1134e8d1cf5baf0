//! The table of a place's seats: what each holds, which are flagged, and how many requests are pending.

ghost use Rattle.std.specs.Prelude.{◌≡◌, ℕ, ◌+◌, ◌++◌, ◌≤◌, ◌<◌, false, true, is_some, length, replicate, count_by, vec_len};
ghost use Rattle.std.specs.Prelude.{IsOk, IfOk, OnOk, OnErr};
ghost use Rattle.std.specs.Vec.{vec_capacity};
ghost use Rattle.meet_tickets.specs.BySeat.{put_at, owed_of, settled_of, is_settled};
ghost use Rattle.meet_tickets.specs.Limits.{most_seats};
ghost use Rattle.meet_tickets.specs.declared.lines.Hold.TheVariants.{Free, Waiting};
ghost use Rattle.meet_core.specs.Table.{grown, hold_at};
ghost use Rattle.meet_core.specs.Left.{left_of_hold, left_at_seats};

use crate::left::{Left, push_left};
use crate::seats::itemless::let_go_hold;
use meet_tickets::{Hold, MOST_SEATS, SeatNo};
use std::alloc::{AllocError, Global};
use std::marker::Model;
use std::mem;

/// The table of a place's seats. What each call writes stands first.
#[derive(Drop)]
pub struct SeatTable<T> {
    owed: u64,
    settled: u64,
    changed: Option<SeatNo>,
    holds: Vec<Hold<T>>,
    flags: Vec<bool>,
}

impl<T> Model for SeatTable<T> {
    ghost use Rattle.std.specs.Prelude.{◌≡◌, ◌≤◌, count_by, length};
    ghost use Rattle.meet_tickets.specs.BySeat.{is_open, is_settled};
    ghost use Rattle.meet_tickets.specs.Limits.{most_seats};
    ghost use Rattle.meet_core.specs.Table.{Table};

    ghost Value = { Table T };

    ghost view = { λ table. record { holds = table.holds.items; flags = table.flags.items } };

    ghost invariant = { λ table.
        (length table.flags.items ≡ length table.holds.items)
        × (length table.holds.items ≤ most_seats)
        × (table.owed ≡ count_by is_open table.holds.items)
        × (table.settled ≡ count_by is_settled table.holds.items) };
}

impl<T> SeatTable<T> {
    ghost use Rattle.meet_core.specs.Table.{flag_at, HasNoItem};

    /// Creates a table of this many seats, at most 65,536, none of which holds anything or is flagged.
    ///
    /// # Errors
    /// - `AllocError`, if an allocation fails.
    pub fn new(alloc: Global, count: u64) -> Result<Self, AllocError>
        requires { count ≤ most_seats }
        ensures count { IfOk result (λ table. length table.holds ≡ count) }
        ensures holds { IfOk result (λ table. hold_at table.holds ≡ (λ _. Free)) }
        ensures flags { IfOk result (λ table. flag_at table.flags ≡ (λ _. false)) }
    {
        let flags = vec![in alloc; false; count as usize]?;
        let mut holds = Vec::with_capacity(alloc, count as usize)?;
        for _ in 0..count {
            holds.push_reserved(Hold::Free);
        }
        Ok(SeatTable {
            owed: 0,
            holds,
            flags,
            settled: 0,
            changed: None,
        })
    }

    /// Grows the table to `count` seats at least, at most 65,536. The new ones hold nothing and aren't flagged. It
    /// grows by what it was, or more, so that a seat's share of all growth is a constant.
    ///
    /// # Errors
    /// - `AllocError`, if an allocation fails: nothing has changed.
    #[inline(never)]
    pub fn grow(&mut self, count: u64) -> Result<(), AllocError>
        requires { count ≤ most_seats }
        ensures holds { hold_at self.new.holds ≡ hold_at self.old.holds }
        ensures flags { flag_at self.new.flags ≡ flag_at self.old.flags }
        ensures count { OnOk result (length self.new.holds ≡ grown (length self.old.holds) count) }
        ensures there { OnOk result (count ≤ length self.new.holds) }
        ensures more { length self.old.holds ≤ length self.new.holds }
        ensures unchanged { OnErr result (self.new ≡ self.old) }
        ensures enough { count ≤ length self.old.holds → IsOk result }
    {
        let was = self.count();
        if count <= was {
            return Ok(());
        }
        let more = grown_to(was, count) - was;
        self.holds.reserve(more as usize)?;
        self.flags.reserve(more as usize)?;
        add_seats(&mut self.holds, &mut self.flags, more);
        Ok(())
    }

    /// Returns how many seats there are.
    pub fn count(&self) -> u64
        ensures value { result ≡ length self.now.holds }
        ensures in_range { length self.now.holds ≤ most_seats }
        ensures flags { length self.now.flags ≡ length self.now.holds }
    {
        self.holds.len() as u64
    }

    /// Returns how many seats have a pending request (an open ticket).
    pub fn owed(&self) -> u64
        ensures value { result ≡ owed_of (length self.now.holds) (hold_at self.now.holds) }
        ensures few { result ≤ most_seats }
    {
        self.owed
    }

    /// Returns what this seat holds.
    pub fn hold(&self, seat: SeatNo) -> &Hold<T>
        requires { seat < length self.now.holds }
        ensures { result.now ≡ hold_at self.now.holds seat }
    {
        &self.holds[seat.number() as usize]
    }

    /// Returns true if this seat has a pending interrupt (is flagged).
    pub fn is_flagged(&self, seat: SeatNo) -> bool
        requires { seat < length self.now.holds }
        ensures flag { result ≡ flag_at self.now.flags seat }
        ensures in_range { seat < length self.now.flags }
    {
        self.flags[seat.number() as usize]
    }

    /// Sets or clears this seat's flag.
    pub fn set_flag(&mut self, seat: SeatNo, flag: bool)
        requires { seat < length self.old.holds }
        ensures flags { flag_at self.new.flags ≡ put_at (flag_at self.old.flags) seat flag }
        ensures holds { self.new.holds ≡ self.old.holds }
    {
        self.flags[seat.number() as usize] = flag;
    }

    /// Replaces what this seat holds, and returns what it held.
    #[inline(always)]
    pub fn replace(&mut self, seat: SeatNo, hold: Hold<T>) -> Hold<T>
        requires { seat < length self.old.holds }
        ensures was { result ≡ hold_at self.old.holds seat }
        ensures holds { hold_at self.new.holds ≡ put_at (hold_at self.old.holds) seat hold }
        ensures count { length self.new.holds ≡ length self.old.holds }
        ensures flags { self.new.flags ≡ self.old.flags }
    {
        let owed = self.owed + u64::from(hold.is_open());
        let settled = self.settled + u64::from(hold.is_settled());
        let was = mem::replace(&mut self.holds[seat.number() as usize], hold);
        self.owed = owed - u64::from(was.is_open());
        self.settled = settled - u64::from(was.is_settled());
        self.changed = Some(seat);
        was
    }

    /// Replaces what this seat holds; what it held has no item.
    #[inline(always)]
    pub fn put(&mut self, seat: SeatNo, hold: Hold<T>)
        requires seat { seat < length self.old.holds }
        requires no_item { HasNoItem (hold_at self.old.holds seat) }
        ensures holds { hold_at self.new.holds ≡ put_at (hold_at self.old.holds) seat hold }
        ensures count { length self.new.holds ≡ length self.old.holds }
        ensures flags { self.new.flags ≡ self.old.flags }
    {
        let_go_hold(self.replace(seat, hold));
    }

    /// Sets what this seat holds, which held nothing.
    #[inline(always)]
    pub fn enter(&mut self, seat: SeatNo, hold: Hold<T>)
        requires seat { seat < length self.old.holds }
        requires free { hold_at self.old.holds seat ≡ Free }
        ensures holds { hold_at self.new.holds ≡ put_at (hold_at self.old.holds) seat hold }
        ensures count { length self.new.holds ≡ length self.old.holds }
        ensures flags { self.new.flags ≡ self.old.flags }
    {
        self.owed += u64::from(hold.is_open());
        self.settled += u64::from(hold.is_settled());
        let was = mem::replace(&mut self.holds[seat.number() as usize], hold);
        self.changed = Some(seat);
        let_go_hold(was);
    }

    /// Sets what this seat holds, which is settled, after its ticket stood in the wait queue.
    #[inline(always)]
    pub fn settle(&mut self, seat: SeatNo, hold: Hold<T>)
        requires seat { seat < length self.old.holds }
        requires waited { (t : ℕ) × (hold_at self.old.holds seat ≡ Waiting t) }
        requires settled { is_settled hold ≡ true }
        ensures holds { hold_at self.new.holds ≡ put_at (hold_at self.old.holds) seat hold }
        ensures count { length self.new.holds ≡ length self.old.holds }
        ensures flags { self.new.flags ≡ self.old.flags }
    {
        self.settled += 1;
        let was = mem::replace(&mut self.holds[seat.number() as usize], hold);
        self.changed = Some(seat);
        let_go_hold(was);
    }

    /// Takes what this seat holds, which is settled.
    #[inline(always)]
    pub fn free_up(&mut self, seat: SeatNo) -> Hold<T>
        requires seat { seat < length self.old.holds }
        requires settled { is_settled (hold_at self.old.holds seat) ≡ true }
        ensures was { result ≡ hold_at self.old.holds seat }
        ensures holds { hold_at self.new.holds ≡ put_at (hold_at self.old.holds) seat Free }
        ensures count { length self.new.holds ≡ length self.old.holds }
        ensures flags { self.new.flags ≡ self.old.flags }
    {
        self.owed -= 1;
        self.settled -= 1;
        self.changed = Some(seat);
        mem::replace(&mut self.holds[seat.number() as usize], Hold::Free)
    }

    /// Returns how many seats have an open ticket that isn't in the wait queue.
    pub fn settled(&self) -> u64
        ensures value { result ≡ settled_of (length self.now.holds) (hold_at self.now.holds) }
        ensures few { result ≤ most_seats }
    {
        self.settled
    }

    /// Returns the seat whose hold was changed last, if one was and that wasn't forgotten: a hint, of which nothing is
    /// promised.
    pub fn changed(&self) -> Option<SeatNo> {
        self.changed
    }

    /// Forgets which seat's hold was changed last.
    pub fn forget_changed(&mut self)
        ensures same { self.new ≡ self.old }
    {
        self.changed = None;
    }

    /// Returns how many items the seats hold. It looks at every seat.
    pub fn left(&self) -> u64
        ensures value { result ≡ length (left_at_seats self.now.holds) }
        ensures few { result ≤ most_seats }
    {
        items_in(&self.holds) as u64
    }

    /// Takes the table apart, and moves the items that its seats hold to the end of the list, by rising seat. The list
    /// must have room for them: it doesn't allocate.
    pub fn into_left(self, left: &mut Vec<Left<T>>)
        requires { vec_len left.old + length (left_at_seats self.holds) ≤ vec_capacity left.old }
        ensures items { left.new.items ≡ left.old.items ++ left_at_seats self.holds }
        ensures capacity { vec_capacity left.new ≡ vec_capacity left.old }
    {
        let SeatTable {
            holds,
            flags,
            owed: _,
            settled: _,
            changed: _,
        } = self;
        drop(flags);
        let mut holds = holds.into_iter();
        while let Some(hold) = holds.next() {
            push_left(left, Left::of_hold(hold));
        }
        holds.destroy_empty();
    }

    /// Drops a table whose seats hold nothing, even if items can't be dropped.
    pub fn destroy_empty(self)
        requires empty { hold_at self.holds ≡ (λ _. Free) }
    {
        let SeatTable {
            holds,
            flags,
            owed: _,
            settled: _,
            changed: _,
        } = self;
        drop(flags);
        destroy_holds(holds);
    }
}

/// Lets go what seats hold, where it is nothing.
fn destroy_holds<T>(holds: Vec<Hold<T>>)
    requires empty { hold_at holds.items ≡ (λ _. Free) }
{
    let mut holds = holds.into_iter();
    while let Some(hold) = holds.next() {
        let_go_hold(hold);
    }
    holds.destroy_empty();
}

/// How many items there are in what seats hold.
fn items_in<T>(holds: &[Hold<T>]) -> usize
    ensures { result ≡ count_by (λ hold. is_some (left_of_hold hold)) holds.now }
{
    holds.iter().filter(|hold| Left::is_in(*hold)).count()
}

/// How many seats a table of so many has, once it has grown to more.
fn grown_to(was: u64, count: u64) -> u64
    requires more { was < count }
    requires in_range { count ≤ most_seats }
    ensures { result ≡ grown was count }
{
    let doubled = 2 * was;
    if doubled <= count {
        count
    } else if doubled <= MOST_SEATS {
        doubled
    } else {
        MOST_SEATS
    }
}

/// Adds so many seats, which hold nothing and aren't flagged, where there is room for them.
fn add_seats<T>(holds: &mut Vec<Hold<T>>, flags: &mut Vec<bool>, count: u64)
    requires holds { vec_len holds.old + count ≤ vec_capacity holds.old }
    requires flags { vec_len flags.old + count ≤ vec_capacity flags.old }
    ensures holds { holds.new.items ≡ holds.old.items ++ replicate count Free }
    ensures flags { flags.new.items ≡ flags.old.items ++ replicate count false }
{
    for _ in 0..count {
        holds.push_reserved(Hold::Free);
        flags.push_reserved(false);
    }
}
