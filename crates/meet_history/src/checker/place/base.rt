//! A place as a base leaves it, and the base that stands for a place.

ghost use Rattle.std.specs.Prelude.{◌≡◌, ◌<◌, ◌≤◌, length, map, IfOk, IfErr, OnOk};
ghost use Rattle.meet_tickets.specs.Bases.{paired_held, cut_held, hold_met, moment_of_base, IsWellFormed, IsBaseOf};
ghost use Rattle.meet_tickets.specs.BySeat.{put_at};
ghost use Rattle.meet_tickets.specs.declared.refusals.Refusal.TheVariants.{Memory};
ghost use Rattle.meet_core.specs.Table.{hold_at, flag_at};
ghost use Rattle.meet_history.specs.Checking.{AreSeated, moment_at};
ghost use Rattle.meet_history.specs.Laid.{held_once, waiting_in_line, flagged_once};

use crate::checker::place::CheckedPlace;
use crate::checker::place::line::MarkLine;
use meet_core::{SeatTable, open_tickets};
use meet_tickets::{Base, Entry, Hold, Kind, OpenCut, OpenPair, Refusal, SeatNo, Side, Ticket};
use std::alloc::Global;

/// Sees that a table has this seat. Fails only if an allocation fails.
fn make_seat(table: &mut SeatTable<u64>, seat: SeatNo) -> Result<(), Refusal>
    ensures holds { hold_at table.new.holds ≡ hold_at table.old.holds }
    ensures flags { flag_at table.new.flags ≡ flag_at table.old.flags }
    ensures seat { OnOk result (seat < length table.new.holds) }
    ensures more { length table.old.holds ≤ length table.new.holds }
    ensures memory { IfErr result (λ why. why ≡ Memory) }
{
    match table.grow(seat.number() + 1) {
        Ok(()) => Ok(()),
        Err(_) => Err(Refusal::Memory),
    }
}

/// A seat holds this from now on. Fails only if an allocation fails.
fn hold(table: &mut SeatTable<u64>, seat: SeatNo, hold: Hold<u64>) -> Result<(), Refusal>
    ensures holds { OnOk result (hold_at table.new.holds ≡ put_at (hold_at table.old.holds) seat hold) }
    ensures flags { flag_at table.new.flags ≡ flag_at table.old.flags }
    ensures seat { OnOk result (seat < length table.new.holds) }
    ensures more { length table.old.holds ≤ length table.new.holds }
    ensures memory { IfErr result (λ why. why ≡ Memory) }
{
    make_seat(table, seat)?;
    table.replace(seat, hold);
    Ok(())
}

/// The seats of a line's entries hold their tickets where these wait. Fails only if an allocation fails.
fn hold_line(table: &mut SeatTable<u64>, line: &[Entry<u64>]) -> Result<(), Refusal>
    ensures holds { OnOk result (hold_at table.new.holds
        ≡ held_once (hold_at table.old.holds) (waiting_in_line line.now)) }
    ensures flags { flag_at table.new.flags ≡ flag_at table.old.flags }
    ensures seated { OnOk result (AreSeated (length table.new.holds) line.now) }
    ensures memory { IfErr result (λ why. why ≡ Memory) }
{
    for entry in line {
        if entry.waits {
            hold(table, entry.seat, Hold::Waiting(entry.ticket))?;
        } else {
            make_seat(table, entry.seat)?;
        }
    }
    Ok(())
}

/// What the seat of a ticket of this side holds, once it was met.
fn hold_met(side: Side, ticket: Ticket, partner: Ticket, mark: u64) -> Hold<u64>
    ensures { result ≡ hold_met side ticket partner mark }
{
    match side {
        Side::Giver => Hold::Handed(ticket, partner, mark),
        Side::Taker => Hold::Served(ticket, partner, mark),
    }
}

/// The seats of tickets that were met hold them. Fails only if an allocation fails.
fn hold_pairs(table: &mut SeatTable<u64>, pairs: &[OpenPair]) -> Result<(), Refusal>
    ensures holds { OnOk result (hold_at table.new.holds
        ≡ held_once (hold_at table.old.holds) (map paired_held pairs.now)) }
    ensures flags { flag_at table.new.flags ≡ flag_at table.old.flags }
    ensures more { length table.old.holds ≤ length table.new.holds }
    ensures memory { IfErr result (λ why. why ≡ Memory) }
{
    for pair in pairs {
        let held = hold_met(pair.side, pair.ticket, pair.partner, pair.mark);
        hold(table, pair.seat, held)?;
    }
    Ok(())
}

/// The seats of tickets that were cut hold them. Fails only if an allocation fails.
fn hold_cut(table: &mut SeatTable<u64>, cuts: &[OpenCut]) -> Result<(), Refusal>
    ensures holds { OnOk result (hold_at table.new.holds
        ≡ held_once (hold_at table.old.holds) (map cut_held cuts.now)) }
    ensures flags { flag_at table.new.flags ≡ flag_at table.old.flags }
    ensures more { length table.old.holds ≤ length table.new.holds }
    ensures memory { IfErr result (λ why. why ≡ Memory) }
{
    for cut in cuts {
        hold(table, cut.seat, Hold::Cut(cut.ticket, cut.item))?;
    }
    Ok(())
}

/// These seats are flagged. Fails only if an allocation fails.
fn flag_all(table: &mut SeatTable<u64>, seats: &[SeatNo]) -> Result<(), Refusal>
    ensures holds { hold_at table.new.holds ≡ hold_at table.old.holds }
    ensures flags { OnOk result (flag_at table.new.flags ≡ flagged_once (flag_at table.old.flags) seats.now) }
    ensures more { length table.old.holds ≤ length table.new.holds }
    ensures memory { IfErr result (λ why. why ≡ Memory) }
{
    for seat in seats {
        make_seat(table, *seat)?;
        table.set_flag(*seat, true);
    }
    Ok(())
}

impl CheckedPlace {
    /// The place that a well-formed base stands for. Fails only if an allocation fails.
    pub(crate) fn on(alloc: Global, kind: Kind, base: &Base) -> Result<Self, Refusal>
        requires { IsWellFormed kind base.now }
        ensures kind { IfOk result (λ place. place.kind ≡ kind) }
        ensures moment { IfOk result (λ place. moment_at place ≡ moment_of_base base.now) }
        ensures memory { IfErr result (λ why. why ≡ Memory) }
    {
        let line = MarkLine::of(alloc, kind.order.end(), base.line.as_slice())?;
        let mut seats = match SeatTable::new(alloc, 0) {
            Ok(seats) => seats,
            Err(_) => return Err(Refusal::Memory),
        };
        hold_line(&mut seats, base.line.as_slice())?;
        hold_pairs(&mut seats, base.pairs.as_slice())?;
        hold_cut(&mut seats, base.cut.as_slice())?;
        flag_all(&mut seats, base.flags.as_slice())?;
        Ok(CheckedPlace {
            kind,
            last: base.last,
            line,
            seats,
        })
    }

    /// The base that stands for this place after `gone` records were folded away. Fails only if an allocation fails.
    pub(crate) fn base(&self, alloc: Global, gone: u64) -> Result<Base, Refusal>
        ensures base { IfOk result (IsBaseOf (moment_at self.now) gone) }
        ensures memory { IfErr result (λ why. why ≡ Memory) }
    {
        let line = self.line.entries(alloc)?;
        let opened = open_tickets(alloc, &self.seats)?;
        Ok(Base {
            gone,
            last: self.last,
            line,
            pairs: opened.pairs,
            cut: opened.cut,
            flags: opened.flags,
        })
    }
}
