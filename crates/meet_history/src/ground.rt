//! A base that is built piece by piece. Each piece takes time by the logarithm of how many there are.

ghost use Rattle.std.specs.Prelude.{◌≡◌, ◌<◌, nat_lt, true, not, is_some, ◌&&◌, AllPairs, IfOk, if◌then◌else◌};
ghost use Rattle.std.specs.List.{list_all};

use crate::numbers::Numbers;
use crate::pieces::Piece;
use meet_tickets::{Base, Entry, Kind, OpenCut, OpenPair, SeatNo, Ticket};
use std::alloc::{AllocError, Global};
use std::marker::Model;

/// A base that is built piece by piece, of a place of some kind. It is well formed.
#[derive(Drop)]
pub struct Ground {
    kind: Kind,
    gone: u64,
    last: Ticket,
    line: Vec<Entry<u64>>,
    pairs: Vec<OpenPair>,
    cut: Vec<OpenCut>,
    flags: Vec<SeatNo>,
    named: Numbers,
    held: Numbers,
    waiting: Numbers,
    kept: u64,
}

impl Model for Ground {
    ghost use Rattle.std.specs.Prelude.{◌≡◌, ℕ};
    ghost use Rattle.meet_tickets.specs.Bases.{Based, IsWellFormed};
    ghost use Rattle.meet_tickets.specs.Meeting.{kept_count};
    ghost use Rattle.meet_history.specs.Grounds.{Grounded, base_of, has_number, named_at, held_at, waiting_at};

    ghost Value = { Grounded };

    ghost view = { λ g. record {
      kind = g.kind;
      base = base_of g.gone g.last g.line.items g.pairs.items g.cut.items g.flags.items;
    } };

    ghost invariant = { λ g.
        let b : Based = base_of g.gone g.last g.line.items g.pairs.items g.cut.items g.flags.items in
        IsWellFormed g.kind b × ((n : ℕ) → has_number g.named n ≡ named_at b n)
        × ((n : ℕ) → has_number g.held n ≡ held_at b n) × ((n : ℕ) → has_number g.waiting n ≡ waiting_at b.line n)
        × (g.kept ≡ kept_count b.line) };
}

/// Whether a ticket is above those of a line.
fn is_above_line(line: &[Entry<u64>], ticket: Ticket) -> bool
    requires rises { AllPairs (λ e f. e.ticket < f.ticket) line.now }
    ensures above { result ≡ list_all (λ f. nat_lt f.ticket ticket) line.now }
{
    match line.last() {
        None => true,
        Some(last) => last.ticket.number() < ticket.number(),
    }
}

/// Whether a line's entries are of this side: givers, or takers.
fn is_of_side(line: &[Entry<u64>], gives: bool) -> bool
    requires one_side { AllPairs (λ e f. is_some e.item ≡ is_some f.item) line.now }
    ensures side { result ≡ list_all (λ f. if is_some f.item then gives else not gives) line.now }
{
    match line.last() {
        None => true,
        Some(last) => { if last.item.is_some() { gives } else { !gives } }
    }
}

/// Whether a ticket is above those that were met.
fn is_above_pairs(pairs: &[OpenPair], ticket: Ticket) -> bool
    requires rises { AllPairs (λ p q. p.ticket < q.ticket) pairs.now }
    ensures above { result ≡ list_all (λ q. nat_lt q.ticket ticket) pairs.now }
{
    match pairs.last() {
        None => true,
        Some(last) => last.ticket.number() < ticket.number(),
    }
}

/// Whether a ticket is above those that were cut.
fn is_above_cut(cut: &[OpenCut], ticket: Ticket) -> bool
    requires rises { AllPairs (λ c d. c.ticket < d.ticket) cut.now }
    ensures above { result ≡ list_all (λ d. nat_lt d.ticket ticket) cut.now }
{
    match cut.last() {
        None => true,
        Some(last) => last.ticket.number() < ticket.number(),
    }
}

/// Whether a seat is above those that are flagged.
fn is_above_flags(flags: &[SeatNo], seat: SeatNo) -> bool
    requires rises { AllPairs (λ i j. i < j) flags.now }
    ensures above { result ≡ list_all (λ j. nat_lt j seat) flags.now }
{
    match flags.last() {
        None => true,
        Some(last) => last.number() < seat.number(),
    }
}

impl Ground {
    ghost use Rattle.meet_history.specs.declared.pieces.Piece.TheVariants.{Stands, Met, Cut, Flagged};
    ghost use Rattle.meet_tickets.specs.Bases.{IsWellFormed};
    ghost use Rattle.meet_history.specs.Pieces.{bare_base, is_new, is_unheld, keeps_more, entry_fits, pair_fits};
    ghost use Rattle.meet_history.specs.Pieces.{cut_fits, flag_fits};
    ghost use Rattle.meet_history.specs.Pieces.{may_follow, with_piece};

    /// Returns a base of nothing but these numbers. It doesn't allocate.
    pub fn new(alloc: Global, kind: Kind, gone: u64, last: Ticket) -> Self
        ensures kind { result.kind ≡ kind }
        ensures base { result.base ≡ bare_base gone last }
    {
        Ground {
            kind,
            gone,
            last,
            line: Vec::new(alloc),
            pairs: Vec::new(alloc),
            cut: Vec::new(alloc),
            flags: Vec::new(alloc),
            named: Numbers::new(alloc),
            held: Numbers::new(alloc),
            waiting: Numbers::new(alloc),
            kept: 0,
        }
    }

    /// Whether a ticket is in its limits, and not named yet.
    fn is_new(&self, ticket: Ticket) -> bool
        ensures { result ≡ is_new self.now.base ticket }
    {
        let number = ticket.number();
        1 <= number && (number <= self.last.number() && !self.named.has(number))
    }

    /// Whether no seat of an open ticket is this one.
    fn is_unheld(&self, seat: SeatNo) -> bool
        ensures { result ≡ is_unheld self.now.base seat }
    {
        !self.held.has(seat.number())
    }

    /// Whether an item more may be kept.
    fn keeps_more(&self) -> bool
        ensures { result ≡ keeps_more self.now.kind self.now.base.line }
    {
        self.kind.order.keeps()
            && match self.kind.bound {
                None => true,
                Some(most) => self.kept < most,
            }
    }

    /// Whether an entry that waits is of a seat without an open ticket, and one that doesn't may be kept.
    fn may_stand(&self, entry: &Entry<u64>) -> bool
        ensures { result ≡ (if entry.now.waits then is_unheld self.now.base entry.now.seat
            else (is_some entry.now.item && keeps_more self.now.kind self.now.base.line)) }
    {
        if entry.waits {
            self.is_unheld(entry.seat)
        } else {
            entry.item.is_some() && self.keeps_more()
        }
    }

    /// Whether an entry fits.
    fn entry_fits(&self, entry: &Entry<u64>) -> bool
        ensures { result ≡ entry_fits self.now.kind self.now.base entry.now }
    {
        is_above_line(self.line.as_slice(), entry.ticket)
            && (is_of_side(self.line.as_slice(), entry.item.is_some())
                && (self.is_new(entry.ticket) && self.may_stand(entry)))
    }

    /// Whether a ticket that was met fits.
    fn pair_fits(&self, pair: OpenPair) -> bool
        ensures { result ≡ pair_fits self.now.base pair }
    {
        is_above_pairs(self.pairs.as_slice(), pair.ticket)
            && (self.is_new(pair.ticket)
                && (self.is_new(pair.partner)
                    && (pair.ticket.number() != pair.partner.number()
                        && self.is_unheld(pair.seat))))
    }

    /// Whether a ticket that was cut fits.
    fn cut_fits(&self, cut: OpenCut) -> bool
        ensures { result ≡ cut_fits self.now.base cut }
    {
        is_above_cut(self.cut.as_slice(), cut.ticket)
            && (self.is_new(cut.ticket) && self.is_unheld(cut.seat))
    }

    /// Whether a flagged seat fits.
    fn flag_fits(&self, seat: SeatNo) -> bool
        ensures { result ≡ flag_fits self.now.base seat }
    {
        is_above_flags(self.flags.as_slice(), seat) && !self.waiting.has(seat.number())
    }

    /// Returns true if the base may go on with this piece: it comes in its order, and the base with it is well formed.
    pub fn may_follow(&self, piece: &Piece) -> bool
        ensures { result ≡ may_follow self.now.kind self.now.base piece.now }
    {
        match piece {
            Piece::Stands(entry) => {
                (self.pairs.is_empty() && (self.cut.is_empty() && self.flags.is_empty()))
                    && self.entry_fits(entry)
            }
            Piece::Met(pair) => {
                (self.cut.is_empty() && self.flags.is_empty()) && self.pair_fits(*pair)
            }
            Piece::Cut(cut) => self.flags.is_empty() && self.cut_fits(*cut),
            Piece::Flagged(seat) => self.flag_fits(*seat),
        }
    }

    /// Adds an entry that may follow. Fails only if an allocation fails.
    fn lay_entry(self, entry: Entry<u64>) -> Result<Self, AllocError>
        requires fits { may_follow self.kind self.base (Stands entry) ≡ true }
        ensures kind { IfOk result (λ ground. ground.kind ≡ self.kind) }
        ensures base { IfOk result (λ ground. ground.base ≡ with_piece self.base (Stands entry)) }
    {
        let Ground {
            kind,
            gone,
            last,
            mut line,
            pairs,
            cut,
            flags,
            mut named,
            mut held,
            mut waiting,
            mut kept,
        } = self;
        named.add(entry.ticket.number())?;
        if entry.waits {
            held.add(entry.seat.number())?;
            waiting.add(entry.seat.number())?;
        } else {
            let _entries = line.len();
            kept += 1;
        }
        match line.push(entry) {
            Ok(()) => {}
            Err(_) => return Err(AllocError),
        }
        Ok(Ground {
            kind,
            gone,
            last,
            line,
            pairs,
            cut,
            flags,
            named,
            held,
            waiting,
            kept,
        })
    }

    /// It goes on with a ticket that was met.
    fn lay_pair(self, pair: OpenPair) -> Result<Self, AllocError>
        requires fits { may_follow self.kind self.base (Met pair) ≡ true }
        ensures kind { IfOk result (λ ground. ground.kind ≡ self.kind) }
        ensures base { IfOk result (λ ground. ground.base ≡ with_piece self.base (Met pair)) }
    {
        let Ground {
            kind,
            gone,
            last,
            line,
            mut pairs,
            cut,
            flags,
            mut named,
            mut held,
            waiting,
            kept,
        } = self;
        named.add(pair.ticket.number())?;
        named.add(pair.partner.number())?;
        held.add(pair.seat.number())?;
        match pairs.push(pair) {
            Ok(()) => {}
            Err(_) => return Err(AllocError),
        }
        Ok(Ground {
            kind,
            gone,
            last,
            line,
            pairs,
            cut,
            flags,
            named,
            held,
            waiting,
            kept,
        })
    }

    /// It goes on with a ticket that was cut.
    fn lay_cut(self, entry: OpenCut) -> Result<Self, AllocError>
        requires fits { may_follow self.kind self.base (Cut entry) ≡ true }
        ensures kind { IfOk result (λ ground. ground.kind ≡ self.kind) }
        ensures base { IfOk result (λ ground. ground.base ≡ with_piece self.base (Cut entry)) }
    {
        let Ground {
            kind,
            gone,
            last,
            line,
            pairs,
            mut cut,
            flags,
            mut named,
            mut held,
            waiting,
            kept,
        } = self;
        named.add(entry.ticket.number())?;
        held.add(entry.seat.number())?;
        match cut.push(entry) {
            Ok(()) => {}
            Err(_) => return Err(AllocError),
        }
        Ok(Ground {
            kind,
            gone,
            last,
            line,
            pairs,
            cut,
            flags,
            named,
            held,
            waiting,
            kept,
        })
    }

    /// It goes on with a flagged seat.
    fn lay_flag(self, seat: SeatNo) -> Result<Self, AllocError>
        requires fits { may_follow self.kind self.base (Flagged seat) ≡ true }
        ensures kind { IfOk result (λ ground. ground.kind ≡ self.kind) }
        ensures base { IfOk result (λ ground. ground.base ≡ with_piece self.base (Flagged seat)) }
    {
        let Ground {
            kind,
            gone,
            last,
            line,
            pairs,
            cut,
            mut flags,
            named,
            held,
            waiting,
            kept,
        } = self;
        match flags.push(seat) {
            Ok(()) => {}
            Err(_) => return Err(AllocError),
        }
        Ok(Ground {
            kind,
            gone,
            last,
            line,
            pairs,
            cut,
            flags,
            named,
            held,
            waiting,
            kept,
        })
    }

    /// Adds a piece that may follow.
    ///
    /// # Errors
    /// - `AllocError`, if an allocation fails.
    pub fn lay(self, piece: Piece) -> Result<Self, AllocError>
        requires fits { may_follow self.kind self.base piece ≡ true }
        ensures kind { IfOk result (λ ground. ground.kind ≡ self.kind) }
        ensures base { IfOk result (λ ground. ground.base ≡ with_piece self.base piece) }
    {
        match piece {
            Piece::Stands(entry) => self.lay_entry(entry),
            Piece::Met(pair) => self.lay_pair(pair),
            Piece::Cut(cut) => self.lay_cut(cut),
            Piece::Flagged(seat) => self.lay_flag(seat),
        }
    }

    /// Returns the base that was built.
    pub fn into_base(self) -> Base
        ensures base { result ≡ self.base }
        ensures well_formed { IsWellFormed self.kind result }
    {
        let Ground {
            gone,
            last,
            line,
            pairs,
            cut,
            flags,
            ..
        } = self;
        Base {
            gone,
            last,
            line,
            pairs,
            cut,
            flags,
        }
    }
}
