//! Snapshots of the compacted records (bases).

ghost use Rattle.std.specs.Prelude.{◌≡◌, IfOk, IfErr};
ghost use Rattle.meet_tickets.specs.declared.refusals.Refusal.TheVariants.{Memory};

use crate::lines::Entry;
use crate::names::{SeatNo, Ticket};
use crate::places::Side;
use crate::refusals::Refusal;
use std::alloc::Global;
use std::marker::Model;

/// A pending request (an open ticket) that was matched, and isn't completed.
#[derive(Clone, Copy, PartialEq, Eq, Hash, Debug)]
pub struct OpenPair {
    /// The ticket.
    pub ticket: Ticket,
    /// Its seat.
    pub seat: SeatNo,
    /// Whether it gives or takes.
    pub side: Side,
    /// The ticket that it met.
    pub partner: Ticket,
    /// The mark of the producer's item.
    pub mark: u64,
}

/// A pending request (an open ticket) that was interrupted, and isn't completed.
#[derive(Clone, Copy, PartialEq, Eq, Hash, Debug)]
pub struct OpenCut {
    /// The ticket.
    pub ticket: Ticket,
    /// Its seat.
    pub seat: SeatNo,
    /// The mark of a producer's item; a consumer has none.
    pub item: Option<u64>,
}

/// A snapshot (a base): the state in which the compacted records left the place.
#[derive(Debug, Drop)]
pub struct Base {
    /// How many records were compacted.
    pub gone: u64,
    /// The last ticket.
    pub last: Ticket,
    /// The nodes of the wait queue, in order.
    pub line: Vec<Entry<u64>>,
    /// The pending requests that were matched.
    pub pairs: Vec<OpenPair>,
    /// The pending requests that were interrupted.
    pub cut: Vec<OpenCut>,
    /// The seats with a pending interrupt (flagged).
    pub flags: Vec<SeatNo>,
}

impl Model for Base {
    ghost use Rattle.meet_tickets.specs.Bases.{Based};

    ghost Value = { Based };

    ghost view = { λ b. record {
      gone = b.gone;
      last = b.last;
      line = b.line.items;
      pairs = b.pairs.items;
      cut = b.cut.items;
      flags = b.flags.items;
    } };
}

impl Base {
    ghost use Rattle.meet_tickets.specs.Bases.{no_base};

    /// Returns the base of no records. It doesn't allocate.
    pub fn empty(alloc: Global) -> Self
        ensures { result ≡ no_base }
    {
        let none = Ticket::new(0).unwrap();
        Base {
            gone: 0,
            last: none,
            line: Vec::new(alloc),
            pairs: Vec::new(alloc),
            cut: Vec::new(alloc),
            flags: Vec::new(alloc),
        }
    }
    /// Copies the base.
    ///
    /// # Errors
    /// - Memory, if an allocation fails.
    pub fn copy(&self, alloc: Global) -> Result<Self, Refusal>
        ensures same { IfOk result (λ copy. copy ≡ self.now) }
        ensures memory { IfErr result (λ why. why ≡ Memory) }
    {
        Ok(Base {
            gone: self.gone,
            last: self.last,
            line: clones_of(alloc, self.line.as_slice())?,
            pairs: clones_of(alloc, self.pairs.as_slice())?,
            cut: clones_of(alloc, self.cut.as_slice())?,
            flags: clones_of(alloc, self.flags.as_slice())?,
        })
    }
}

/// Returns a list of clones of these items.
///
/// # Errors
/// - Memory, if an allocation fails.
pub fn clones_of<T: Clone>(alloc: Global, items: &[T]) -> Result<Vec<T>, Refusal>
    ensures items { IfOk result (λ list. ((x y : T) → T.is_clone x y → y ≡ x) → list.items ≡ items.now) }
    ensures memory { IfErr result (λ why. why ≡ Memory) }
{
    match items.to_vec(alloc) {
        Ok(list) => Ok(list),
        Err(_) => Err(Refusal::Memory),
    }
}
