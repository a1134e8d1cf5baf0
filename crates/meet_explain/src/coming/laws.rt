//! A law: what may come next is legal by the specification as lists. It is the contract of a function that does
//! nothing.

ghost use Rattle.std.specs.Prelude.{◌∷◌, [], ◌↔◌};
ghost use Rattle.meet_tickets.specs.Bases.{Based, IsWellFormed, IsLegalOn};
ghost use Rattle.meet_tickets.specs.declared.places.Kind.{Kind};
ghost use Rattle.meet_tickets.specs.declared.records.Record.{Record};
ghost use Rattle.meet_tickets.specs.declared.records.Deed.{Deed};
ghost use Rattle.meet_explain.specs.Answers.{MayCome};

use meet_tickets::tellings_agree_on;

/// States that what may come next after a well-formed base is exactly what makes a legal history there. It does
/// nothing.
pub fn comers_are_legal()
    ensures { (k : Kind) (base : Based) (r : Record Deed) → IsWellFormed k base
        → MayCome k base r.seat r.ticket r.deed ↔ IsLegalOn k base (r ∷ []) }
{
    // Called for what it says: the rules told by seat are those told by lists.
    tellings_agree_on();
}
