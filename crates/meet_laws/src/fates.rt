//! The outcome of a ticket (its fate), computed from a base and records.

ghost use Rattle.std.specs.Prelude.{◌≡◌, ℕ, ◌==◌, Some, None, ◌++◌, ◌∷◌, [], List, map};
ghost use Rattle.std.specs.List.{flat_map, list_any};
ghost use Rattle.std.specs.Option.{option_map_or};
ghost use Rattle.meet_tickets.specs.declared.fates.Fate.TheVariants.{Withdrawn, Cut, Kept, Waiting};
ghost use Rattle.std.specs.Prelude.{if◌then◌else◌};
ghost use Rattle.meet_tickets.specs.BySeat.{is_request};
ghost use Rattle.meet_tickets.specs.Fates.{line_record, pair_records, cut_records, opening, is_past, fate, fate_on};
ghost use Rattle.meet_tickets.specs.Fates.{tells_of_meeting};
ghost use Rattle.meet_tickets.specs.declared.records.Deed.{Deed};
ghost use Rattle.meet_tickets.specs.declared.records.Record.{Record};
ghost use Rattle.meet_tickets.specs.Fates.{asked_for, asked_on, met_on, entered_in, waits_first};
ghost use Rattle.meet_laws.specs.Hearing.{told_in, fate_told, fate_settled};

use meet_tickets::{
    Base, Cause, Deed, Entry, Fate, OpenCut, OpenPair, Record, SeatNo, Side, Ticket,
};

/// What records state of one ticket.
#[derive(Clone, Copy)]
struct Told {
    /// Its request.
    asked: Option<Deed>,
    /// The ticket whose request names it.
    met: Option<Ticket>,
    /// Whether it is completed as matched.
    learned: bool,
    /// Why it was withdrawn.
    back: Option<Cause>,
    /// Whether it was interrupted in the wait queue.
    cut: bool,
}

/// Whether a record is of this ticket.
fn is_of(entry: &Record<Deed>, ticket: Ticket) -> bool
    ensures { result ≡ (entry.now.ticket == ticket) }
{
    entry.ticket == ticket
}

/// What is stated of a ticket after this record too.
fn hear(told: Told, ticket: Ticket, entry: Record<Deed>) -> Told
    ensures { (history : List (Record Deed)) → told ≡ told_in history ticket
        → result ≡ told_in (history ++ entry ∷ []) ticket }
{
    let own = is_of(&entry, ticket);
    let asks = entry.deed.is_request() & own;
    let tells = entry.deed.tells_of_meeting() & own;
    let meets = entry.meets(ticket);
    Told {
        asked: told.asked.or(asks.then_some(entry.deed)),
        met: told.met.or(meets.then_some(entry.ticket)),
        learned: told.learned | tells,
        back: told.back.or(entry.takes_back(ticket)),
        cut: told.cut | entry.cuts(ticket),
    }
}

/// The deed of the request that presents this item, or none.
fn asked_for(item: Option<u64>, waits: bool) -> Deed
    ensures { result ≡ asked_for item waits }
{
    match item {
        None => Deed::TakeWaits,
        Some(mark) => {
            if waits {
                Deed::GiveWaits(mark)
            } else {
                Deed::GiveKept(mark)
            }
        }
    }
}

/// The request of a node of a base's wait queue.
fn line_record(entry: &Entry<u64>) -> Record<Deed>
    ensures { result ≡ line_record entry.now }
{
    Record {
        seat: entry.seat,
        ticket: entry.ticket,
        deed: asked_for(entry.item, entry.waits),
    }
}

/// The deed of the request of a ticket of this side, which waited.
fn asked_on(side: Side, mark: u64) -> Deed
    ensures { result ≡ asked_on side mark }
{
    match side {
        Side::Giver => Deed::GiveWaits(mark),
        Side::Taker => Deed::TakeWaits,
    }
}

/// The deed of the request that met it.
fn met_on(side: Side, mark: u64, ticket: Ticket) -> Deed
    ensures { result ≡ met_on side mark ticket }
{
    match side {
        Side::Giver => Deed::TakeMeets(mark, ticket),
        Side::Taker => Deed::GiveMeets(mark, ticket),
    }
}

/// Hears the request of a node of a base's wait queue.
fn hear_entry(told: Told, ticket: Ticket, entry: &Entry<u64>) -> Told
    ensures { (history : List (Record Deed)) → told ≡ told_in history ticket
        → result ≡ told_in (history ++ line_record entry.now ∷ []) ticket }
{
    hear(told, ticket, line_record(entry))
}

/// Hears the two requests of a pair of a base.
fn hear_pair(told: Told, ticket: Ticket, pair: &OpenPair) -> Told
    ensures { (history : List (Record Deed)) → told ≡ told_in history ticket
        → result ≡ told_in (history ++ pair_records pair.now) ticket }
{
    let own = Record {
        seat: pair.seat,
        ticket: pair.ticket,
        deed: asked_on(pair.side, pair.mark),
    };
    let other = Record {
        seat: pair.seat,
        ticket: pair.partner,
        deed: met_on(pair.side, pair.mark, pair.ticket),
    };
    hear(hear(told, ticket, own), ticket, other)
}

/// Hears the request and the interrupt of a ticket of a base that was interrupted.
fn hear_cut(told: Told, ticket: Ticket, cut: &OpenCut) -> Told
    ensures { (history : List (Record Deed)) → told ≡ told_in history ticket
        → result ≡ told_in (history ++ cut_records cut.now) ticket }
{
    let own = Record {
        seat: cut.seat,
        ticket: cut.ticket,
        deed: asked_for(cut.item, true),
    };
    let interrupt = Record {
        seat: cut.seat,
        ticket: cut.ticket,
        deed: Deed::Interrupt(cut.seat),
    };
    hear(hear(told, ticket, own), ticket, interrupt)
}

/// Hears a base's wait queue.
fn hear_line(start: Told, ticket: Ticket, line: &[Entry<u64>]) -> Told
    ensures { (history : List (Record Deed)) → start ≡ told_in history ticket
        → result ≡ told_in (history ++ map line_record line.now) ticket }
{
    let mut told = start;
    for entry in line {
        told = hear_entry(told, ticket, entry);
    }
    told
}

/// Hears a base's pairs.
fn hear_pairs(start: Told, ticket: Ticket, pairs: &[OpenPair]) -> Told
    ensures { (history : List (Record Deed)) → start ≡ told_in history ticket
        → result ≡ told_in (history ++ flat_map pair_records pairs.now) ticket }
{
    let mut told = start;
    for pair in pairs {
        told = hear_pair(told, ticket, pair);
    }
    told
}

/// Hears a base's tickets that were interrupted.
fn hear_cuts(start: Told, ticket: Ticket, cuts: &[OpenCut]) -> Told
    ensures { (history : List (Record Deed)) → start ≡ told_in history ticket
        → result ≡ told_in (history ++ flat_map cut_records cuts.now) ticket }
{
    let mut told = start;
    for cut in cuts {
        told = hear_cut(told, ticket, cut);
    }
    told
}

/// Hears records.
fn hear_all(start: Told, ticket: Ticket, records: &[Record<Deed>]) -> Told
    ensures { (history : List (Record Deed)) → start ≡ told_in history ticket
        → result ≡ told_in (history ++ records.now) ticket }
{
    let mut told = start;
    for entry in records {
        told = hear(told, ticket, *entry);
    }
    told
}

/// What no record states.
fn nothing() -> Told
    ensures { (ticket : ℕ) → result ≡ told_in [] ticket }
{
    Told {
        asked: None,
        met: None,
        learned: false,
        back: None,
        cut: false,
    }
}

/// What a base and the records since state of a ticket.
fn told_on(base: &Base, records: &[Record<Deed>], ticket: Ticket) -> Told
    ensures { result ≡ told_in (opening base.now ++ records.now) ticket }
{
    let lined = hear_line(nothing(), ticket, base.line.as_slice());
    let paired = hear_pairs(lined, ticket, base.pairs.as_slice());
    let cut = hear_cuts(paired, ticket, base.cut.as_slice());
    hear_all(cut, ticket, records)
}

/// Whether a deed is a request that waits.
fn waits_first(deed: &Deed) -> bool
    ensures { result ≡ waits_first deed.now }
{
    matches!(deed, Deed::GiveWaits(_) | Deed::TakeWaits)
}

/// The fate of a ticket of which this is stated, whose request neither failed nor was refused.
fn settled(told: &Told, deed: &Deed) -> Fate
    ensures { result ≡ fate_settled told.now deed.now }
{
    match deed.partner().or(told.met) {
        Some(partner) => {
            if told.learned {
                Fate::Collected(partner)
            } else {
                Fate::Paired(partner)
            }
        }
        None => unmet(told, deed),
    }
}

/// The fate of one that met no counterpart.
fn unmet(told: &Told, deed: &Deed) -> Fate
    ensures { result ≡ option_map_or (λ cause. Withdrawn cause) told.now.back
        (if told.now.cut then Cut else (if waits_first deed.now then Waiting else Kept)) }
{
    match told.back {
        Some(cause) => Fate::Withdrawn(cause),
        None => {
            if told.cut {
                Fate::Cut
            } else if waits_first(deed) {
                Fate::Waiting
            } else {
                Fate::Kept
            }
        }
    }
}

/// The fate of a ticket of which this is stated.
fn fate_told(told: &Told) -> Fate
    ensures { result ≡ fate_told told.now }
{
    match told.asked {
        None => Fate::Never,
        Some(Deed::GiveFails(_)) => Fate::Failed,
        Some(Deed::TakeFails) => Fate::Failed,
        Some(Deed::EntryInterrupted(_)) => Fate::EntryRefused,
        Some(deed) => settled(told, &deed),
    }
}

/// Whether a base's wait queue has a node of this ticket.
fn is_in_line(line: &[Entry<u64>], ticket: Ticket) -> bool
    ensures { result ≡ list_any (λ u. u == ticket) (map (λ e. e.ticket) line.now) }
{
    let mut found = false;
    for entry in line {
        found |= entry.ticket == ticket;
    }
    found
}

/// Whether a pair of a base is this ticket's.
fn is_in_pairs(pairs: &[OpenPair], ticket: Ticket) -> bool
    ensures { result ≡ list_any (λ u. u == ticket) (map (λ p. p.ticket) pairs.now) }
{
    let mut found = false;
    for pair in pairs {
        found |= pair.ticket == ticket;
    }
    found
}

/// Whether a base has this ticket as one that was interrupted.
fn is_in_cut(cut: &[OpenCut], ticket: Ticket) -> bool
    ensures { result ≡ list_any (λ u. u == ticket) (map (λ c. c.ticket) cut.now) }
{
    let mut found = false;
    for one in cut {
        found |= one.ticket == ticket;
    }
    found
}

/// Whether a base has an entry of this ticket.
fn is_entered(base: &Base, ticket: Ticket) -> bool
    ensures { result ≡ list_any (λ u. u == ticket) (entered_in base.now) }
{
    is_in_line(base.line.as_slice(), ticket)
        | is_in_pairs(base.pairs.as_slice(), ticket)
        | is_in_cut(base.cut.as_slice(), ticket)
}

/// Whether a ticket is of the time before a base, and none of its entries'.
fn is_past(base: &Base, ticket: Ticket) -> bool
    ensures { result ≡ is_past base.now ticket }
{
    (ticket.number() > 0) & (ticket.number() <= base.last.number()) & !is_entered(base, ticket)
}

/// Returns the fate of a ticket by a base and the records since. It doesn't allocate, and reads each record once.
pub fn fate(base: &Base, records: &[Record<Deed>], ticket: Ticket) -> Fate
    ensures { result ≡ fate_on base.now records.now ticket }
{
    if is_past(base, ticket) {
        return Fate::Past;
    }
    fate_told(&told_on(base, records, ticket))
}
