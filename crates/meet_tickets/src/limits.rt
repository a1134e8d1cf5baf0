//! The limits of a place's numbers, as the code has them. `specs/Limits` states where each comes from.

ghost use Rattle.std.specs.Prelude.{◌≡◌};
ghost use Rattle.meet_tickets.specs.Limits.{most_seats, most_records, most_kept, last_ticket, most_gone, told_capacity};
ghost use Rattle.meet_tickets.specs.Limits.{most_slots, last_round};

/// The most seats of a place, which are numbered from 0.
pub const MOST_SEATS: u64 = 65_536;

/// The most records of a place, and of a script or a trace.
pub const MOST_RECORDS: u64 = 1_048_576;

/// The greatest bound on the items that a transfer queue buffers.
pub const MOST_KEPT: u64 = 1_048_576;

/// The last ticket.
pub const LAST_TICKET: u64 = 9_223_372_036_854_775_807;

/// The most records that may be compacted.
pub const MOST_GONE: u64 = 9_223_372_036_854_775_807;

/// What `remaining_capacity` returns of every transfer queue.
pub const TOLD_CAPACITY: u64 = 2_147_483_647;

/// The most slots of an exchanger, which are numbered from 0.
pub const MOST_SLOTS: u64 = 64;

/// The last round of an exchanger's slot.
pub const LAST_ROUND: u64 = 17_592_186_044_415;

/// States that the limits of the code are those of the specification. It does nothing.
pub fn limits_agree()
    ensures seats { MOST_SEATS ≡ most_seats }
    ensures records { MOST_RECORDS ≡ most_records }
    ensures kept { MOST_KEPT ≡ most_kept }
    ensures ticket { LAST_TICKET ≡ last_ticket }
    ensures gone { MOST_GONE ≡ most_gone }
    ensures capacity { TOLD_CAPACITY ≡ told_capacity }
    ensures slots { MOST_SLOTS ≡ most_slots }
    ensures round { LAST_ROUND ≡ last_round }
{}
