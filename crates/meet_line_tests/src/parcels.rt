//! Items that a test knows again, and lines of them.

ghost use Rattle.std.specs.Prelude.{◌≡◌, ◌+◌, ◌<◌, true, false, All};

use meet_line::{BufferLine, Line};
use meet_tickets::{Entry, Marked, SeatNo, Ticket};
use std::process::Abort;

/// An item with a serial number, by which a test knows it again.
#[derive(Drop)]
pub struct Parcel {
    pub serial: u64,
}

impl Marked for Parcel {
    ghost mark_of = { λ parcel. parcel.serial };

    fn mark(&self) -> u64 {
        self.serial
    }
}

/// The seat of this number.
pub fn seat(rt: &impl Abort, number: u64) -> SeatNo
    ensures { result ≡ number }
{
    SeatNo::new(number).expect(rt, "no such seat number")
}

/// The ticket of this number.
pub fn ticket(rt: &impl Abort, number: u64) -> Ticket
    ensures { result ≡ number }
{
    Ticket::new(number).expect(rt, "no such ticket number")
}

/// The serial number of an entry's item.
pub fn serial(entry: Option<Entry<Parcel>>) -> Option<u64> {
    Some(entry?.item?.serial)
}

/// The serial number of the item of an entry that stays.
pub fn serial_of(entry: Option<&Entry<Parcel>>) -> Option<u64> {
    Some(entry?.item.as_ref()?.serial)
}

/// The serial number of the item that came first.
pub fn first_serial<L: Line<Parcel>>(line: &L) -> Option<u64> {
    serial_of(line.first())
}

/// An entry that waits, of this ticket and this seat.
pub fn entry_of(ticket: Ticket, seat: SeatNo, serial: u64) -> Entry<Parcel>
    ensures ticket { result.ticket ≡ ticket }
    ensures seat { result.seat ≡ seat }
    ensures waits { result.waits ≡ true }
{
    Entry {
        ticket,
        seat,
        item: Some(Parcel { serial }),
        waits: true,
    }
}

/// An entry that doesn't wait, a buffered item, of this ticket and this seat.
pub fn buffered_of(ticket: Ticket, seat: SeatNo, serial: u64) -> Entry<Parcel>
    ensures ticket { result.ticket ≡ ticket }
    ensures seat { result.seat ≡ seat }
    ensures waits { result.waits ≡ false }
{
    Entry {
        ticket,
        seat,
        item: Some(Parcel { serial }),
        waits: false,
    }
}

/// An entry whose ticket is the newest comes to the line; its seat has the number of its ticket.
pub fn join<L: Line<Parcel>>(rt: &impl Abort, line: &mut L, number: u64, serial: u64)
    requires room { 0 < L.spare line.old }
    requires width { number < L.width line.old }
    requires newest { All (λ e. e.ticket < number) (L.entries line.old) }
    requires seats { All (λ e. e.seat < number) (L.entries line.old) }
    ensures room { L.spare line.new + 1 ≡ L.spare line.old }
    ensures width { L.width line.new ≡ L.width line.old }
    ensures newest { All (λ e. e.ticket < number + 1) (L.entries line.new) }
    ensures seats { All (λ e. e.seat < number + 1) (L.entries line.new) }
{
    line.push_back(entry_of(ticket(rt, number), seat(rt, number), serial));
}

/// An entry whose ticket is the newest comes to a line that buffers, and doesn't wait; its seat is 0, as that of all
/// others.
pub fn join_seat_0<L: BufferLine<Parcel>>(rt: &impl Abort, line: &mut L, number: u64, serial: u64)
    requires room { 0 < L.spare line.old }
    requires newest { All (λ e. e.ticket < number) (L.entries line.old) }
    ensures room { L.spare line.new + 1 ≡ L.spare line.old }
    ensures newest { All (λ e. e.ticket < number + 1) (L.entries line.new) }
{
    line.push_back(buffered_of(ticket(rt, number), seat(rt, 0), serial));
}

/// The entries are met in this order, each gives its room back, and then nobody is there.
pub fn meets_in_order<L: Line<Parcel>>(rt: &impl Abort, line: &mut L, serials: &[u64]) {
    for wanted in serials {
        let room = line.room();
        assert_eq!(rt; serial(line.meet()), Some(*wanted));
        assert_eq!(rt; line.room() - room, 1);
    }
    assert_eq!(rt; serial(line.meet()), None);
    assert_eq!(rt; line.len(), 0);
    assert_eq!(rt; first_serial(line), None);
}
