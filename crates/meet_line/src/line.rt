//! The wait queue (the line) of a place's unmatched tickets, however it is kept.

ghost use Rattle.std.specs.Prelude.{◌≡◌, ◌≢◌, ℕ, ◌+◌, ◌<◌, ◌≤◌, ◌==◌, List, [], ◌∷◌, ◌++◌, length, map, find, All};
ghost use Rattle.std.specs.Prelude.{AllPairs, IsOk, IfOk, IfErr, OnOk, OnErr, option_map, option_to_list};
ghost use Rattle.std.specs.Prelude.{true, false};
ghost use Rattle.std.specs.Slice.{IsItemAt};
ghost use Rattle.meet_tickets.specs.Limits.{most_seats};
ghost use Rattle.meet_tickets.specs.Meeting.{met};
ghost use Rattle.meet_tickets.specs.BySeat.{unmet, without_first};
ghost use Rattle.meet_tickets.specs.declared.lines.Entry.{Entry};
ghost use Rattle.meet_tickets.specs.declared.places.End.{End};
ghost use Rattle.meet_tickets.specs.declared.refusals.Refusal.TheVariants.{Memory};

use meet_tickets::{Entry, Refusal, SeatNo, Ticket};
use std::alloc::Global;

/// A wait queue: a list of nodes (entries) in order of arrival, no two of one ticket, with room for some more. Only
/// `reserve`, `widen` and `list` allocate.
pub trait Line<T> {
    /// The nodes, in order of arrival.
    ghost entries: { Self → List (Entry T) };

    /// How many more nodes may come without growth.
    ghost spare: { Self → ℕ };

    /// The end at which a node is met.
    ghost end: { End };

    /// How many seats there are places for, if nodes have the places of their seats; else the most that there may be.
    ghost width: { Self → ℕ };

    /// A node may come to a wait queue of this width with these nodes.
    ghost fits: { (width : ℕ) → List (Entry T) → Entry T → Type 0 };

    /// Returns an empty wait queue, without room.
    fn empty(alloc: Global) -> Self
        ensures entries { entries result ≡ [] }
        ensures room { spare result ≡ 0 };

    /// Makes places for the nodes of this many seats.
    ///
    /// # Errors
    /// - Memory, if an allocation fails: nothing has changed.
    fn widen(&mut self, seats: u64) -> Result<(), Refusal>
        requires { seats ≤ most_seats }
        ensures entries { entries self.new ≡ entries self.old }
        ensures wide { OnOk result (seats ≤ width self.new) }
        ensures width { width self.old ≤ width self.new }
        ensures room { spare self.new ≡ spare self.old }
        ensures unchanged { OnErr result (width self.new ≡ width self.old) }
        ensures memory { IfErr result (λ why. why ≡ Memory) };

    /// Makes room for this many more nodes.
    ///
    /// # Errors
    /// - Memory, if an allocation fails, and never if there is that room.
    fn reserve(&mut self, count: u64) -> Result<(), Refusal>
        ensures entries { entries self.new ≡ entries self.old }
        ensures room { OnOk result (count ≤ spare self.new) }
        ensures more { spare self.old ≤ spare self.new }
        ensures width { width self.old ≤ width self.new }
        ensures unchanged { OnErr result (spare self.new ≡ spare self.old) }
        ensures memory { IfErr result (λ why. why ≡ Memory) }
        ensures enough { count ≤ spare self.old → IsOk result };

    /// Puts a node at the end.
    fn push_back(&mut self, entry: Entry<T>)
        requires room { 0 < spare self.old }
        requires fresh { All (λ e. e.ticket ≢ entry.ticket) (entries self.old) }
        requires fits { fits (width self.old) (entries self.old) entry }
        ensures entries { entries self.new ≡ entries self.old ++ entry ∷ [] }
        ensures room { spare self.new + 1 ≡ spare self.old }
        ensures width { width self.new ≡ width self.old };

    /// Removes the node that is met, if there is one.
    fn meet(&mut self) -> Option<Entry<T>>
        ensures entry { result ≡ met end (entries self.old) }
        ensures entries { entries self.new ≡ unmet end (entries self.old) }
        ensures room { spare self.new ≡ spare self.old + length (option_to_list result) }
        ensures width { width self.new ≡ width self.old };

    /// Removes the node of this ticket, if it is there; the others keep their order.
    fn remove(&mut self, ticket: Ticket) -> Option<Entry<T>>
        ensures entry { result ≡ find (λ e. e.ticket == ticket) (entries self.old) }
        ensures entries { entries self.new ≡ without_first (λ e. e.ticket == ticket) (entries self.old) }
        ensures room { spare self.new ≡ spare self.old + length (option_to_list result) }
        ensures width { width self.new ≡ width self.old };

    /// Removes the node of this ticket as `remove` does. It is looked for at this seat first, if nodes have the places
    /// of their seats.
    fn remove_at(&mut self, seat: SeatNo, ticket: Ticket) -> Option<Entry<T>>
        ensures entry { result ≡ find (λ e. e.ticket == ticket) (entries self.old) }
        ensures entries { entries self.new ≡ without_first (λ e. e.ticket == ticket) (entries self.old) }
        ensures room { spare self.new ≡ spare self.old + length (option_to_list result) }
        ensures width { width self.new ≡ width self.old };

    /// Returns the node that came first, if there is one.
    fn first(&self) -> Option<&Entry<T>>
        ensures { IsItemAt (entries self.now) 0 result };

    /// Returns the node of this ticket, if it is there.
    fn entry(&self, ticket: Ticket) -> Option<&Entry<T>>
        ensures { option_map (λ e. e.now) result ≡ find (λ e. e.ticket == ticket) (entries self.now) };

    /// Returns the node of this ticket as `entry` does. It is looked for at this seat first, if nodes have the places of
    /// their seats.
    fn entry_at(&self, seat: SeatNo, ticket: Ticket) -> Option<&Entry<T>>
        ensures { option_map (λ e. e.now) result ≡ find (λ e. e.ticket == ticket) (entries self.now) };

    /// Returns the nodes in order of arrival, borrowed.
    ///
    /// # Errors
    /// - Memory, if an allocation fails.
    fn list(&self, alloc: Global) -> Result<Vec<&Entry<T>>, Refusal>
        ensures entries { IfOk result (λ list. map (λ e. e.now) list.items ≡ entries self.now) }
        ensures memory { IfErr result (λ why. why ≡ Memory) };

    /// Returns how many nodes there are.
    fn len(&self) -> u64
        ensures count { result ≡ length (entries self.now) }
        ensures distinct { AllPairs (λ e f. e.ticket ≢ f.ticket) (entries self.now) };

    /// Returns how many more nodes may come without growth.
    fn room(&self) -> u64
        ensures { result ≡ spare self.now };

    /// Drops an empty wait queue, even if its items can't be dropped.
    fn destroy_empty(self)
        requires { entries self ≡ [] };

    /// A node that waits may come, if its seat is below the width, no node that waits is of its seat, and its ticket is
    /// above all others.
    ghost seated: { (width : ℕ) (line : List (Entry T)) (entry : Entry T) → entry.waits ≡ true → entry.seat < width
        → All (λ e. e.waits ≡ true → e.seat ≢ entry.seat) line → All (λ e. e.ticket < entry.ticket) line
        → fits width line entry };
}

/// A wait queue that buffers: a node that doesn't wait may come, also many of one seat, since a buffered item's producer
/// goes on.
pub trait BufferLine<T>: Line<T> {
    /// A node that doesn't wait may come, if its ticket is above all others.
    ghost any: { (width : ℕ) (line : List (Entry T)) (entry : Entry T) → entry.waits ≡ false
        → All (λ e. e.ticket < entry.ticket) line → Self.fits width line entry };
}
