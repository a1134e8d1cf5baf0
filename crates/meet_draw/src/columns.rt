//! The columns of a picture: whose each is, and what its seat has open.

ghost use Rattle.std.specs.Prelude.{◌≡◌, ◌==◌, OnOk};
ghost use Rattle.std.specs.List.{list_any, position};
ghost use Rattle.meet_draw.specs.Columns.{change_of, is_clear, waits_as, clear_column, with_column, column_after};
ghost use Rattle.meet_draw.specs.Columns.{changed, between, span_of};

use meet_tickets::{Deed, SeatNo, Ticket};
use std::alloc::AllocError;

/// What is drawn in a column.
#[derive(Clone, Copy)]
pub(crate) enum Lane {
    /// Nothing: its seat has no ticket open.
    Clear,
    /// A bar: this ticket waits in the wait queue.
    Waits(Ticket),
    /// Dots: the ticket was matched or interrupted, and isn't completed.
    Settled,
}

/// A column.
#[derive(Clone, Copy)]
pub(crate) struct Column {
    /// Its seat.
    pub seat: SeatNo,
    /// What is drawn in it.
    pub lane: Lane,
}

/// What a row changes in the columns.
#[derive(Clone, Copy)]
pub(crate) enum Change {
    /// Nothing.
    Nothing,
    /// This ticket of the row's seat waits from now on.
    Opens(Ticket),
    /// The open ticket of the row's seat is completed.
    Ends,
    /// The row's seat has an open ticket that was matched or interrupted.
    Owed,
    /// This ticket, which waits, is matched or interrupted.
    Settles(Ticket),
}

/// What a record changes.
pub(crate) fn change_by(ticket: Ticket, deed: Deed) -> Change
    ensures { result ≡ change_of ticket deed }
{
    match deed {
        Deed::GiveWaits(_) => Change::Opens(ticket),
        Deed::TakeWaits => Change::Opens(ticket),
        Deed::GiveMeets(_, taker) => Change::Settles(taker),
        Deed::TakeMeets(_, giver) => Change::Settles(giver),
        Deed::Interrupt(_) => Change::Settles(ticket),
        Deed::Done => Change::Ends,
        Deed::Got(_, _) => Change::Ends,
        Deed::Withdrawn(_) => Change::Ends,
        Deed::GiveFails(_) => Change::Nothing,
        Deed::GiveKept(_) => Change::Nothing,
        Deed::TakeFails => Change::Nothing,
        Deed::EntryInterrupted(_) => Change::Nothing,
    }
}

impl Lane {
    ghost use Rattle.std.specs.Prelude.{if◌then◌else◌};
    ghost use Rattle.meet_draw.specs.Columns.{is_clear, waits_as, lane_after};

    /// Whether nothing is drawn there.
    fn is_clear(self) -> bool
        ensures { result ≡ is_clear self }
    {
        match self {
            Lane::Clear => true,
            Lane::Waits(_) => false,
            Lane::Settled => false,
        }
    }

    /// Whether this ticket waits there.
    fn waits_as(self, ticket: Ticket) -> bool
        ensures { result ≡ waits_as ticket self }
    {
        match self {
            Lane::Clear => false,
            Lane::Waits(own) => own.number() == ticket.number(),
            Lane::Settled => false,
        }
    }

    /// What is left in a column if this ticket is matched or interrupted.
    fn settled(self, ticket: Ticket) -> Lane
        ensures { result ≡ (if waits_as ticket self then Lane.Settled else self) }
    {
        match self {
            Lane::Clear => Lane::Clear,
            Lane::Waits(own) => {
                if own.number() == ticket.number() {
                    Lane::Settled
                } else {
                    Lane::Waits(own)
                }
            }
            Lane::Settled => Lane::Settled,
        }
    }

    /// What a change leaves in a column, of its own seat or another's.
    fn after(self, change: &Change, own: bool) -> Lane
        ensures { result ≡ lane_after change.now own self }
    {
        match change {
            Change::Nothing => self,
            Change::Opens(ticket) => if own { Lane::Waits(*ticket) } else { self },
            Change::Ends => if own { Lane::Clear } else { self },
            Change::Owed => if own { Lane::Settled } else { self },
            Change::Settles(ticket) => self.settled(*ticket),
        }
    }
}

/// A seat's column in which nothing is drawn.
fn clear(seat: SeatNo) -> Column
    ensures { result ≡ clear_column seat }
{
    Column {
        seat,
        lane: Lane::Clear,
    }
}

/// Whether this seat has a column.
fn has_column(columns: &[Column], seat: SeatNo) -> bool
    ensures { result ≡ list_any (λ c. c.seat == seat) columns.now }
{
    columns
        .iter()
        .any(|column| column.seat.number() == seat.number())
}

/// The index of this seat's column.
fn place_of(columns: &[Column], seat: SeatNo) -> Option<usize>
    ensures { result ≡ position (λ c. c.seat == seat) columns.now }
{
    columns
        .iter()
        .position(|column| column.seat.number() == seat.number())
}

/// The index of the first column that is clear.
fn clear_place(columns: &[Column]) -> Option<usize>
    ensures { result ≡ position (λ c. is_clear c.lane) columns.now }
{
    columns.iter().position(|column| column.lane.is_clear())
}

/// The index of the column in which this ticket waits.
fn place_of_ticket(columns: &[Column], ticket: Ticket) -> Option<usize>
    ensures { result ≡ position (λ c. waits_as ticket c.lane) columns.now }
{
    columns
        .iter()
        .position(|column| column.lane.waits_as(ticket))
}

/// Gives a column to a seat that has none: a new one if there are fewer than `most`, else the first that is clear, if
/// one is.
pub(crate) fn give_column(
    columns: &mut Vec<Column>,
    most: usize,
    seat: SeatNo,
) -> Result<(), AllocError>
    ensures { OnOk result (columns.new.items ≡ with_column most seat columns.old.items) }
{
    if has_column(columns.as_slice(), seat) {
        return Ok(());
    }
    if columns.len() < most {
        columns.push(clear(seat))?;
        return Ok(());
    }
    if let Some(at) = clear_place(columns.as_slice()) {
        columns[at] = clear(seat);
    }
    Ok(())
}

/// A column after a change by this seat.
fn behind(column: Column, seat: SeatNo, change: &Change) -> Column
    ensures { result ≡ column_after seat change.now column }
{
    let own = column.seat.number() == seat.number();
    Column {
        seat: column.seat,
        lane: column.lane.after(change, own),
    }
}

/// Changes what is drawn in each column, by a row of this seat.
pub(crate) fn change_columns(columns: &mut Vec<Column>, seat: SeatNo, change: &Change)
    ensures { columns.new.items ≡ changed seat change.now columns.old.items }
{
    for column in columns.iter_mut() {
        *column = behind(*column, seat, change);
    }
}

/// From the left one of two indexes up to the right one, if there are both.
fn span_between(one: Option<usize>, other: Option<usize>) -> (usize, usize)
    ensures { result ≡ between one other }
{
    match one {
        Some(one) => match other {
            Some(other) => (one.min(other), one.max(other)),
            None => (0, 0),
        },
        None => (0, 0),
    }
}

/// From where to where a row of this seat links: its column, and the column of the ticket that it meets or interrupts.
pub(crate) fn span(columns: &[Column], seat: SeatNo, change: &Change) -> (usize, usize)
    ensures { result ≡ span_of seat change.now columns.now }
{
    match change {
        Change::Settles(ticket) => {
            span_between(place_of(columns, seat), place_of_ticket(columns, *ticket))
        }
        Change::Nothing => (0, 0),
        Change::Opens(_) => (0, 0),
        Change::Ends => (0, 0),
        Change::Owed => (0, 0),
    }
}
