//! What one thread's records state: laws, each the contract of a function that does nothing.

ghost use Rattle.std.specs.Prelude.{◌≡◌, ◌+◌, ◌≤◌, ℕ, true, IsTrue, All, List, [], ◌∷◌, length};
ghost use Rattle.meet_tickets.specs.declared.records.Record.{Record};
ghost use Rattle.meet_tickets.specs.declared.records.Deed.{Deed};
ghost use Rattle.meet_tickets.specs.ByLists.{IsLegal};
ghost use Rattle.meet_tickets.specs.declared.refusals.Refusal.{Refusal};
ghost use Rattle.meet_tickets.specs.BySeat.{Allows, is_request};
ghost use Rattle.meet_history.specs.Called.{IsOfCall, calls_for, AreNumbered};
ghost use Rattle.meet_history.specs.Limits.{IsInLimits};
ghost use Rattle.meet_history.specs.OneThread.{Place, records, refused, turn_of};
ghost use Rattle.meet_history.specs.Served.{serves};
ghost use Rattle.meet_history.specs.declared.one_thread.verbs.Verb.{Verb};
ghost use Rattle.meet_history.specs.Standings.{IsRecorded};
ghost use Rattle.meet_history.specs.declared.one_thread.verbs.Call.{Call};
ghost use Rattle.meet_history.specs.declared.one_thread.setup.Setup.{Setup};

/// States that what one thread's calls write, on a place of any kind, is legal and leaves the place as they do. How
/// many tickets wait there, are matched or interrupted and not completed, and how many items are buffered, can be read
/// from these records alone.
pub fn one_thread_is_recorded()
    ensures { (setup : Setup) (calls : List Call) → IsInLimits setup → IsRecorded setup calls }
{}

/// States that a call that doesn't fail has one legal deed, the one that it writes, and none if it writes none. What it
/// writes is legal (`one_thread_is_recorded`), and of the deeds that are such a call's (`IsOfCall`), the one that the
/// specification allows next, a request's with the next ticket, is what it writes. It does nothing.
pub fn calls_have_one_deed()
    ensures { (setup : Setup) (p : Place) (seat ticket : ℕ) (verb : Verb) (deed : Deed)
        → IsOfCall setup.kind p.seats.line verb deed → Allows setup.kind p.seats seat ticket deed
        → (is_request deed ≡ true → ticket ≡ p.next)
        → ((why : Refusal) → turn_of setup p seat verb ≡ refused p seat why → ⊥)
        → (turn_of setup p seat verb).records ≡ record { seat = seat; ticket = ticket; deed = deed } ∷ [] }
{}

/// States that each legal history is one that calls write, record by record the call for its deed (`calls_for`). There
/// are three conditions: the history names seats of the place; the tickets of its requests go up by one from the first;
/// and the cap leaves room beside its records for one of each seat and two more. The place has all these calls. So the
/// specification calls nothing legal that no call can do. It does nothing.
pub fn legal_histories_are_made()
    ensures made { (setup : Setup) (history : List (Record Deed)) → IsLegal setup.kind history
        → AreNumbered setup.seats setup.first history → length history + setup.seats + 2 ≤ setup.cap
        → records setup (calls_for setup.kind.order history) ≡ history }
    ensures served { (setup : Setup) (history : List (Record Deed))
        → All (λ call. IsTrue (serves setup.kind.order call.verb)) (calls_for setup.kind.order history) }
{}
