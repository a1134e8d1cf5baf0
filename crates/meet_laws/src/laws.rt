//! Laws of every legal history. Each is the contract of a function that does nothing.
ghost use Rattle.std.specs.Prelude.{◌++◌, ◌∷◌, [], List};
ghost use Rattle.meet_tickets.specs.Bases.{Based, IsWellFormed, IsLegalOn};
ghost use Rattle.meet_tickets.specs.declared.places.Kind.{Kind};
ghost use Rattle.meet_tickets.specs.declared.records.Record.{Record};
ghost use Rattle.meet_tickets.specs.declared.records.Deed.{Deed};
ghost use Rattle.meet_laws.specs.Laws.{FatesMove, AreMutual, IsInOrder};
ghost use Rattle.meet_tickets.specs.ByLists.{IsLegal};
ghost use Rattle.meet_laws.specs.Chapters.{FollowOn, records_in};
ghost use Rattle.meet_laws.specs.Erasing.{IsErased};
ghost use Rattle.meet_laws.specs.Promise.{KeepsPromise};
ghost use Rattle.meet_laws.specs.Tally.{CountsOnce};
ghost use Rattle.meet_laws.specs.Rows.{HasOneFate};

/// States that each record of a legal history leaves each ticket's fate as it was, or moves it on as `MayMove` lists.
/// It does nothing.
pub fn fates_move()
    ensures { (k : Kind) (base : Based) (records : List (Record Deed)) (r : Record Deed) → IsWellFormed k base
        → IsLegalOn k base (records ++ r ∷ []) → FatesMove base records r }
{}

/// States that of two tickets that were matched each is with the other, one is a producer's and the other a consumer's,
/// and each mark that their records state is the producer's. It does nothing.
pub fn partners_are_mutual()
    ensures { (k : Kind) (base : Based) (records : List (Record Deed)) → IsWellFormed k base
        → IsLegalOn k base records → AreMutual base records }
{}

/// States that a request meets the first of the tickets that wait, by the place's order. It does nothing.
pub fn tickets_are_met_in_order()
    ensures { (k : Kind) (base : Based) (records : List (Record Deed)) (r : Record Deed) → IsWellFormed k base
        → IsLegalOn k base (records ++ r ∷ []) → IsInOrder k base records r }
{}

/// States that each ticket has one fate: the one whose row of the table its records fit, and no other. It does nothing.
pub fn tickets_have_one_fate()
    ensures { (k : Kind) (base : Based) (records : List (Record Deed)) → IsWellFormed k base
        → IsLegalOn k base records → HasOneFate base records }
{}

/// States that a legal history stays legal without the tickets that were interrupted or withdrawn, the interrupts and
/// the requests that were refused at their entry; and that each ticket that is left keeps its fate. It does nothing.
pub fn erased_is_legal()
    ensures { (k : Kind) (history : List (Record Deed)) → IsLegal k history → IsErased k history }
{}

/// States that each producer's request counts once, by where its item is: delivered, returned, buffered or offered. It
/// does nothing.
pub fn gives_count_once()
    ensures { (k : Kind) (base : Based) (records : List (Record Deed)) → IsWellFormed k base
        → IsLegalOn k base records → CountsOnce base records }
{}

/// States that each ticket is matched at most once, in the place's order, and never after it was withdrawn. The ticket
/// that a request meets waited in the wait queue, and was the nearest there. No ticket is matched again after it was
/// matched, interrupted or withdrawn. It does nothing.
pub fn promise_is_kept()
    ensures { (k : Kind) (base : Based) (records : List (Record Deed)) → IsWellFormed k base
        → IsLegalOn k base records → KeepsPromise k base records }
{}

/// States that each prefix of a legal history is legal. It does nothing.
pub fn legal_begins_legal()
    ensures { (k : Kind) (base : Based) (before after : List (Record Deed)) → IsLegalOn k base (before ++ after)
        → IsLegalOn k base before }
{}

/// States that chapters are one legal history on the base of the first, if each later one begins with a base that
/// stands for those before it. It does nothing.
pub fn chapters_are_one()
    ensures { (k : Kind) (first : Based × List (Record Deed)) (later : List (Based × List (Record Deed)))
        → IsWellFormed k first.0 → FollowOn k (first ∷ later) → IsLegalOn k first.0 (records_in (first ∷ later)) }
{}
