//! A base as records: the requests of its entries, before the first record.

ghost use Rattle.std.specs.Prelude.{◌≡◌, ◌++◌, ◌∷◌, [], IfOk, OnOk, map};
ghost use Rattle.std.specs.List.{flat_map};
ghost use Rattle.meet_tickets.specs.Fates.{line_record, pair_records, cut_records, opening, entered_in, tickets_of};
ghost use Rattle.meet_tickets.specs.Fates.{asked_for, asked_on, met_on};
ghost use Rattle.meet_sum.specs.Stories.{AreRequested};

use meet_tickets::{Base, Deed, Entry, OpenCut, OpenPair, Record, Side, Ticket};
use std::alloc::{AllocError, Global};

/// The deed of the request that presents this item, or none.
fn asked_for(item: Option<u64>, waits: bool) -> Deed
    ensures { result ≡ asked_for item waits }
{
    match item {
        None => Deed::TakeWaits,
        Some(mark) => {
            if waits {
                Deed::GiveWaits(mark)
            } else {
                Deed::GiveKept(mark)
            }
        }
    }
}

/// The deed of the request of a ticket of this side, which waited.
fn asked_on(side: Side, mark: u64) -> Deed
    ensures { result ≡ asked_on side mark }
{
    match side {
        Side::Giver => Deed::GiveWaits(mark),
        Side::Taker => Deed::TakeWaits,
    }
}

/// The deed of the request that met it.
fn met_on(side: Side, mark: u64, ticket: Ticket) -> Deed
    ensures { result ≡ met_on side mark ticket }
{
    match side {
        Side::Giver => Deed::TakeMeets(mark, ticket),
        Side::Taker => Deed::GiveMeets(mark, ticket),
    }
}

/// Appends the request of a node of the wait queue.
fn push_entry(out: &mut Vec<Record<Deed>>, entry: &Entry<u64>) -> Result<(), AllocError>
    ensures { OnOk result (out.new.items ≡ out.old.items ++ line_record entry.now ∷ []) }
{
    out.push(Record {
        seat: entry.seat,
        ticket: entry.ticket,
        deed: asked_for(entry.item, entry.waits),
    })?;
    Ok(())
}

/// Appends the two requests of a pair.
fn push_pair(out: &mut Vec<Record<Deed>>, pair: &OpenPair) -> Result<(), AllocError>
    ensures { OnOk result (out.new.items ≡ out.old.items ++ pair_records pair.now) }
{
    out.push(Record {
        seat: pair.seat,
        ticket: pair.ticket,
        deed: asked_on(pair.side, pair.mark),
    })?;
    out.push(Record {
        seat: pair.seat,
        ticket: pair.partner,
        deed: met_on(pair.side, pair.mark, pair.ticket),
    })?;
    Ok(())
}

/// Appends the request and the interrupt of a ticket that was cut.
fn push_cut(out: &mut Vec<Record<Deed>>, cut: &OpenCut) -> Result<(), AllocError>
    ensures { OnOk result (out.new.items ≡ out.old.items ++ cut_records cut.now) }
{
    out.push(Record {
        seat: cut.seat,
        ticket: cut.ticket,
        deed: asked_for(cut.item, true),
    })?;
    out.push(Record {
        seat: cut.seat,
        ticket: cut.ticket,
        deed: Deed::Interrupt(cut.seat),
    })?;
    Ok(())
}

/// Appends the records of a wait queue.
fn push_line(out: &mut Vec<Record<Deed>>, line: &[Entry<u64>]) -> Result<(), AllocError>
    ensures { OnOk result (out.new.items ≡ out.old.items ++ map line_record line.now) }
{
    for entry in line {
        push_entry(out, entry)?;
    }
    Ok(())
}

/// Appends the records of pairs.
fn push_pairs(out: &mut Vec<Record<Deed>>, pairs: &[OpenPair]) -> Result<(), AllocError>
    ensures { OnOk result (out.new.items ≡ out.old.items ++ flat_map pair_records pairs.now) }
{
    for pair in pairs {
        push_pair(out, pair)?;
    }
    Ok(())
}

/// Appends the records of tickets that were cut.
fn push_cuts(out: &mut Vec<Record<Deed>>, cuts: &[OpenCut]) -> Result<(), AllocError>
    ensures { OnOk result (out.new.items ≡ out.old.items ++ flat_map cut_records cuts.now) }
{
    for cut in cuts {
        push_cut(out, cut)?;
    }
    Ok(())
}

/// The records of a base's entries.
pub(crate) fn opening(alloc: Global, base: &Base) -> Result<Vec<Record<Deed>>, AllocError>
    ensures { IfOk result (λ records. records.items ≡ opening base.now) }
{
    let mut records = Vec::new(alloc);
    push_line(&mut records, base.line.as_slice())?;
    push_pairs(&mut records, base.pairs.as_slice())?;
    push_cuts(&mut records, base.cut.as_slice())?;
    Ok(records)
}

/// Appends the tickets of a wait queue.
fn enter_line(tickets: &mut Vec<u64>, line: &[Entry<u64>]) -> Result<(), AllocError>
    ensures { OnOk result (tickets.new.items ≡ tickets.old.items ++ map (λ e. e.ticket) line.now) }
{
    for entry in line {
        tickets.push(entry.ticket.number())?;
    }
    Ok(())
}

/// Appends the tickets of pairs.
fn enter_pairs(tickets: &mut Vec<u64>, pairs: &[OpenPair]) -> Result<(), AllocError>
    ensures { OnOk result (tickets.new.items ≡ tickets.old.items ++ map (λ p. p.ticket) pairs.now) }
{
    for pair in pairs {
        tickets.push(pair.ticket.number())?;
    }
    Ok(())
}

/// Appends the tickets that were cut.
fn enter_cuts(tickets: &mut Vec<u64>, cuts: &[OpenCut]) -> Result<(), AllocError>
    ensures { OnOk result (tickets.new.items ≡ tickets.old.items ++ map (λ c. c.ticket) cuts.now) }
{
    for cut in cuts {
        tickets.push(cut.ticket.number())?;
    }
    Ok(())
}

/// Appends the tickets of the requests among these records.
fn enter_requests(tickets: &mut Vec<u64>, records: &[Record<Deed>]) -> Result<(), AllocError>
    ensures { OnOk result (tickets.new.items ≡ tickets.old.items ++ tickets_of records.now) }
{
    for entry in records {
        if entry.deed.is_request() {
            tickets.push(entry.ticket.number())?;
        }
    }
    Ok(())
}

/// The tickets of a base's entries, and those of the requests since.
fn entered(alloc: Global, base: &Base, records: &[Record<Deed>]) -> Result<Vec<u64>, AllocError>
    ensures { IfOk result (λ tickets. tickets.items ≡ entered_in base.now ++ tickets_of records.now) }
{
    let mut tickets = Vec::new(alloc);
    enter_line(&mut tickets, base.line.as_slice())?;
    enter_pairs(&mut tickets, base.pairs.as_slice())?;
    enter_cuts(&mut tickets, base.cut.as_slice())?;
    enter_requests(&mut tickets, records)?;
    Ok(tickets)
}

/// The tickets that a base and the records since name as requested, each once and rising. Those of a legal trace
/// without a base come so, and need no sorting.
pub(crate) fn requested(
    alloc: Global,
    base: &Base,
    records: &[Record<Deed>],
) -> Result<Vec<u64>, AllocError>
    ensures { IfOk result (λ tickets. AreRequested base.now records.now tickets.items) }
{
    let mut tickets = entered(alloc, base, records)?;
    tickets.sort_unstable();
    tickets.dedup();
    Ok(tickets)
}
