//! The moves that the steps of a queue are made of.

ghost use Rattle.std.specs.Prelude.{◌≡◌, ◌≢◌, ℕ, ◌+◌, ◌<◌, ◌≤◌, ◌↔◌, ⊤, Some, None, IsOk, IfOk, OnOk, OnErr, IfErr};
ghost use Rattle.std.specs.Prelude.{IfSome, IfNone};
ghost use Rattle.std.specs.Prelude.{MatchOption, All, true, false, is_some, if◌then◌else◌};
ghost use Rattle.meet_tickets.specs.Meeting.{partner, kept_count, IsAlone};
ghost use Rattle.meet_tickets.specs.BySeat.{queued, open_ticket, entry_of, withdrawn};
ghost use Rattle.meet_tickets.specs.Limits.{last_ticket};
ghost use Rattle.meet_core.specs.Bounded.{IsBuffering};
ghost use Rattle.meet_tickets.specs.declared.refusals.Refusal.TheVariants.{TicketsSpent};
ghost use Rattle.meet_tickets.specs.declared.lines.Hold.TheVariants.{Free};
ghost use Rattle.meet_tickets.specs.declared.places.Side.TheVariants.{Giver, Taker};

use crate::meetings::Meetings;
use crate::meetings::partners::{collect, release, serve};
use meet_line::{Line, meet};
use meet_tickets::{Entry, Hold, Marked, Refusal, SeatNo, Side, Ticket};

/// One for a giver, which presents an item, else 0.
fn count_if_gives<T>(item: &Option<T>) -> u64
    ensures { result ≡ (if is_some item.now then 1 else 0) }
{
    u64::from(item.is_some())
}

impl<T: Marked, L: Line<T>> Meetings<T, L> {
    ghost use Rattle.meet_core.specs.Queue.{seats_of, count_of, places_of};
    ghost use Rattle.meet_core.specs.Steps.{Leaves, HandsOver, Fetches};

    /// Uses up the next ticket, and changes nothing else.
    ///
    /// # Errors
    /// - TicketsSpent, exactly if none is left: nothing has changed.
    pub fn spend(&mut self) -> Result<Ticket, Refusal>
        ensures ticket { IfOk result (λ ticket. ticket ≡ self.old.next) }
        ensures tickets { IsOk result ↔ (self.old.next ≤ last_ticket) }
        ensures next { OnOk result (self.new ≡ record self.old { last = self.old.next; next = self.old.next + 1 }) }
        ensures why { IfErr result (λ why. why ≡ TicketsSpent) }
        ensures unchanged { OnErr result (self.new ≡ self.old) }
    {
        if self.tickets_left() == 0 {
            return Err(Refusal::TicketsSpent);
        }
        Ok(self.draw())
    }

    /// Uses up the next ticket.
    pub(super) fn draw(&mut self) -> Ticket
        requires { self.old.next ≤ last_ticket }
        ensures ticket { result ≡ self.old.next }
        ensures newest { All (λ e. e.ticket < result) self.old.line }
        ensures unopened { (seat : ℕ) → open_ticket ((seats_of self.old).holds seat) ≢ Some result }
        ensures countable { kept_count self.old.line + 1 < self.new.next }
        ensures next { self.new ≡ record self.old { last = self.old.next; next = self.old.next + 1 } }
    {
        let ticket = Ticket::new(self.next).unwrap();
        self.last = ticket;
        self.next += 1;
        ticket
    }

    /// Hands the item to the taker that is met, and answers its ticket; without one the item comes back.
    #[inline(always)]
    pub(super) fn hand(&mut self, ticket: Ticket, item: T) -> Result<Ticket, T>
        ensures met { IfOk result (λ with. HandsOver T.mark_of L.end self.old item ticket with self.new) }
        ensures places { IfOk result (λ _. places_of self.new ≡ places_of self.old) }
        ensures kept { kept_count self.new.line ≡ kept_count self.old.line }
        ensures alone { IfErr result (λ _. partner L.end self.old.line Giver ≡ None) }
        ensures back { IfErr result (λ back. back ≡ item) }
        ensures unchanged { IfErr result (λ _. self.new ≡ self.old) }
    {
        match meet(&mut self.line, self.givers, Side::Giver) {
            Some(taker) => Ok(serve(&mut self.seats, taker, ticket, item)),
            None => Err(item),
        }
    }

    /// Fetches the item of the giver that is met, with its ticket.
    #[inline(always)]
    pub(super) fn fetch(&mut self, ticket: Ticket) -> Option<(Ticket, T)>
        ensures met { IfSome result (λ got. Fetches T.mark_of L.end self.old ticket got.0 got.1 self.new) }
        ensures places { places_of self.new ≡ places_of self.old }
        ensures kept { kept_count self.new.line ≤ kept_count self.old.line }
        ensures alone { IfNone result (partner L.end self.old.line Taker ≡ None) }
        ensures unchanged { IfNone result (self.new ≡ self.old) }
    {
        let giver = meet(&mut self.line, self.givers, Side::Taker)?;
        self.givers -= 1;
        if giver.waits {
            Some(collect(&mut self.seats, giver, ticket))
        } else {
            self.kept -= 1;
            // Nobody waits for this item.
            self.seats.forget_changed();
            Some(release(giver))
        }
    }

    /// The seat's new ticket goes to the line's end.
    #[inline(always)]
    pub(super) fn wait(&mut self, seat: SeatNo, ticket: Ticket, item: Option<T>)
        requires seat { seat < count_of self.old }
        requires free { (seats_of self.old).holds seat ≡ Free }
        requires room { 0 < self.old.room }
        requires new { All (λ e. e.ticket < ticket) self.old.line }
        requires used { ticket < self.old.next }
        requires alone { IsAlone L.end self.old.line item }
        ensures queued { Leaves self.old self.new (queued (seats_of self.old) seat ticket item true) }
        ensures kept { kept_count self.new.line ≡ kept_count self.old.line }
        ensures places { places_of self.new ≡ places_of self.old }
    {
        let gives = count_if_gives(&item);
        self.seats.enter(seat, Hold::Waiting(ticket));
        self.line.push_back(Entry {
            ticket,
            seat,
            item,
            waits: true,
        });
        let _entries = self.line.len();
        self.givers += gives;
    }

    /// Whether as many items are kept as the bound says.
    pub(super) fn is_full(&self, bound: Option<u64>) -> bool
        ensures full { result ≡ true → MatchOption bound ⊥ (λ most. most ≤ kept_count self.now.line) }
        ensures not_full { result ≡ false → MatchOption bound ⊤ (λ most. kept_count self.now.line < most) }
    {
        match bound {
            None => false,
            Some(most) => self.kept >= most,
        }
    }

    /// Takes what stands in the line for this seat out of it, and ends its ticket.
    pub(super) fn withdraw(&mut self, seat: SeatNo) -> Option<Entry<T>>
        requires { seat < count_of self.old }
        ensures entry { result ≡ entry_of self.old.line ((seats_of self.old).holds seat) }
        ensures leaves { IfSome result
            (λ entry. Leaves self.old self.new (withdrawn (seats_of self.old) seat entry.ticket)) }
        ensures places { places_of self.new ≡ places_of self.old }
        ensures waited { IfSome result (λ entry. entry.waits ≡ true) }
        ensures apart { IfSome result (λ entry. All (λ e. e.ticket ≢ entry.ticket) self.new.line) }
        ensures used { IfSome result (λ entry. entry.ticket < self.new.next) }
        ensures kept { kept_count self.new.line ≡ kept_count self.old.line }
        ensures unchanged { IfNone result (self.new ≡ self.old) }
    {
        let ticket = match self.seats.hold(seat) {
            Hold::Waiting(ticket) => *ticket,
            _ => return None,
        };
        match self.line.remove_at(seat, ticket) {
            None => None,
            Some(entry) => {
                self.givers -= count_if_gives(&entry.item);
                self.seats.put(seat, Hold::Free);
                Some(entry)
            }
        }
    }

    /// The giver's item goes to the line's end and is kept there; its seat has nothing open.
    pub(super) fn keep(&mut self, seat: SeatNo, ticket: Ticket, item: T)
        requires buffers { IsBuffering L.fits }
        requires room { 0 < self.old.room }
        requires new { All (λ e. e.ticket < ticket) self.old.line }
        requires unopened { (seat : ℕ) → open_ticket ((seats_of self.old).holds seat) ≢ Some ticket }
        requires used { ticket < self.old.next }
        requires countable { kept_count self.old.line + 1 < self.old.next }
        requires alone { partner L.end self.old.line Giver ≡ None }
        ensures queued { Leaves self.old self.new (queued (seats_of self.old) seat ticket (Some item) false) }
        ensures places { places_of self.new ≡ places_of self.old }
    {
        self.kept += 1;
        self.line.push_back(Entry {
            ticket,
            seat,
            item: Some(item),
            waits: false,
        });
        let _entries = self.line.len();
        self.givers += 1;
    }
}
