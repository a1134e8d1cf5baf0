//! Bells (one-shot flags): each is of one ticket and rung once, with a verdict on that ticket. The waiting thread may
//! read it without a lock.

ghost use Rattle.std.specs.Prelude.{◌≡◌, ◌≢◌, Some, None, IsSome, IfSome, IfNone, IfOk, IfErr, OnOk, OnErr};
ghost use Rattle.once_cell.specs.Once.{Agrees};
ghost use Rattle.meet_tickets.specs.declared.refusals.Refusal.TheVariants.{Memory};
ghost use Rattle.meet_cells.specs.Bells.{KeepsKnown};

use meet_tickets::{Refusal, Ticket};
use once_cell::race::{Note, OnceBox};
use std::alloc::Global;
use std::marker::Model;

/// The outcome of a request that waited, as `SynchronousQueue`'s fulfilling thread leaves it in the waiter's node.
#[derive(Clone, Copy, PartialEq, Eq, Debug)]
pub struct Verdict {
    /// The ticket.
    pub ticket: Ticket,
    /// Whether it was matched, and not interrupted: a hint, of which nothing is promised.
    pub met: bool,
}

/// The ticket 0, which names none.
fn no_ticket() -> Ticket
    ensures { result ≡ 0 }
{
    Ticket::new(0).unwrap()
}

/// Memory for one verdict (an envelope). The thread that waits allocates it before its request, so that the thread that
/// rings needs none. A contract sees it as the verdict that it holds.
#[derive(Drop)]
pub struct Envelope {
    paper: Box<Verdict>,
}

impl Model for Envelope {
    ghost use Rattle.meet_cells.specs.declared.bells.Verdict.{Verdict};

    ghost Value = { Verdict };

    ghost view = { λ e. e.paper.value };
}

impl Envelope {
    /// Creates a blank envelope, with a verdict on the ticket 0, which names none.
    ///
    /// # Errors
    /// - Memory, if an allocation fails.
    pub fn new(alloc: Global) -> Result<Envelope, Refusal>
        ensures blank { IfOk result (λ envelope. envelope.ticket ≡ 0) }
        ensures memory { IfErr result (λ why. why ≡ Memory) }
    {
        let blank = Verdict {
            ticket: no_ticket(),
            met: false,
        };
        match Box::new(alloc, blank) {
            Ok(paper) => Ok(Envelope { paper }),
            Err(_) => Err(Refusal::Memory),
        }
    }

    /// Returns the verdict that it holds.
    pub fn verdict(&self) -> Verdict
        ensures { result ≡ self.now }
    {
        *self.paper
    }

    /// Puts this verdict into it, in the place of the one that it held. It doesn't allocate.
    pub fn fill(&mut self, verdict: Verdict)
        ensures { self.new ≡ verdict }
    {
        *self.paper = verdict;
    }
}

/// A bell (a one-shot flag) of one ticket. It is rung at most once, and never waited for: a thread waits at a gate. A
/// bell is a hint, on which no result rests. A contract sees it as its ticket and the name of its cell, by which its
/// notes are known.
#[derive(Drop)]
pub struct Bell {
    ticket: Ticket,
    cell: OnceBox<Verdict>,
}

impl Model for Bell {
    ghost use Rattle.once_cell.specs.Once.{cell_name};
    ghost use Rattle.meet_cells.specs.Bells.{BellView};

    ghost Value = { BellView };

    ghost view = { λ b. record { ticket = b.ticket; cell = cell_name b.cell } };
}

impl Bell {
    /// Creates a bell of this ticket, which wasn't rung. It doesn't allocate.
    pub fn new(alloc: Global, ticket: Ticket) -> Bell
        ensures { result.ticket ≡ ticket }
    {
        Bell {
            ticket,
            cell: OnceBox::new(alloc),
        }
    }

    /// Returns its ticket.
    pub fn ticket(&self) -> Ticket
        ensures { result ≡ self.now.ticket }
    {
        self.ticket
    }

    /// Returns a note of this bell, which knows nothing yet.
    pub fn note(&self) -> Note<Verdict>
        ensures cell { result.cell ≡ self.now.cell }
        ensures known { result.known ≡ None }
    {
        self.cell.note()
    }

    /// Rings the bell with the verdict in the envelope; the note knows it from then on. It doesn't allocate, and never
    /// waits.
    ///
    /// # Errors
    /// The envelope is returned
    /// - if its verdict is on another ticket;
    /// - if the bell was rung before: then the note knows with what.
    // That the ticket is the bell's own is looked at here, and not required: who rings has the ticket from its own step
    // and the bell from a hint, so it couldn't know it but by looking itself.
    pub fn ring(&self, envelope: Envelope, note: &mut Note<Verdict>) -> Result<(), Envelope>
        requires { note.old.cell ≡ self.now.cell }
        ensures own { OnOk result (envelope.ticket ≡ self.now.ticket) }
        ensures known { OnOk result (note.new.known ≡ Some envelope) }
        ensures first { OnOk result (note.old.known ≡ None) }
        ensures back { IfErr result (λ same. same ≡ envelope) }
        ensures refused { OnErr result (envelope.ticket ≡ self.now.ticket → IsSome note.new.known) }
        ensures keeps { KeepsKnown note.old.known note.new.known }
        ensures cell { note.new.cell ≡ note.old.cell }
    {
        if envelope.verdict().ticket != self.ticket {
            return Err(envelope);
        }
        let Envelope { paper } = envelope;
        match self.cell.set_as(paper, note) {
            Ok(()) => Ok(()),
            Err(paper) => Err(Envelope { paper }),
        }
    }

    /// Returns the verdict with which the bell was rung, on its own ticket; the note knows it from then on. Returns
    /// None if the note knows no verdict on that ticket even then, so never if it knew one before.
    pub fn read(&self, note: &mut Note<Verdict>) -> Option<Verdict>
        requires { note.old.cell ≡ self.now.cell }
        ensures own { IfSome result (λ verdict. verdict.ticket ≡ self.now.ticket) }
        ensures known { IfSome result (λ verdict. note.new.known ≡ Some verdict) }
        ensures none { IfNone result (IfSome note.new.known (λ verdict. verdict.ticket ≢ self.now.ticket)) }
        ensures keeps { KeepsKnown note.old.known note.new.known }
        ensures cell { note.new.cell ≡ note.old.cell }
    {
        let verdict = *self.cell.get_as(note)?;
        if verdict.ticket == self.ticket {
            Some(verdict)
        } else {
            None
        }
    }
}

/// States that notes of one bell that know a verdict know the same one, whichever threads made them. It does nothing; a
/// caller that calls it has the law.
pub fn notes_agree(one: &mut Note<Verdict>, other: &mut Note<Verdict>)
    requires { other.old.cell ≡ one.old.cell }
    ensures agree { IfSome other.old.known (Agrees one.old.known) }
    ensures unchanged { (one.new ≡ one.old) × (other.new ≡ other.old) }
{
    one.compare(other.again());
}
