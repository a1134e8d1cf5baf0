//! Laws: that the two styles of the specification are equivalent, what bases stand for, and that what a place holds was
//! asked. Each is the contract of a function that does nothing.
ghost use Rattle.std.specs.Prelude.{◌≡◌, ◌≤◌, ◌++◌, ℕ, List};
ghost use Rattle.meet_tickets.specs.Agreement.{TellingsAgree, TellingsAgreeOn};
ghost use Rattle.meet_tickets.specs.Asked.{request_on, Remembers};
ghost use Rattle.meet_tickets.specs.Bases.{Based, no_base, moment_of_base, IsWellFormed, IsLegalOn, IsBaseOf, Folds};
ghost use Rattle.meet_tickets.specs.BySeat.{beginning, moment_of};
ghost use Rattle.meet_tickets.specs.Fates.{ShowsFates, StandsOn, opening};
ghost use Rattle.meet_tickets.specs.Placed.{TellsPlace};
ghost use Rattle.meet_tickets.specs.declared.lines.Hold.TheVariants.{Free};
ghost use Rattle.meet_tickets.specs.declared.places.Kind.{Kind};
ghost use Rattle.meet_tickets.specs.declared.records.Record.{Record};
ghost use Rattle.meet_tickets.specs.declared.records.Deed.{Deed};

/// States that the specification as lists and the specification as per-seat state are equivalent, for every kind of
/// place and every history. It does nothing.
pub fn tellings_agree()
    ensures { (k : Kind) (history : List (Record Deed)) → TellingsAgree k history }
{}

/// States that they are equivalent after every well-formed base. It does nothing.
pub fn tellings_agree_on()
    ensures { (k : Kind) (base : Based) (records : List (Record Deed)) → IsWellFormed k base
        → TellingsAgreeOn k base records }
{}

/// States that a base of what legal records leave stands for these records: nothing that it leaves out is read again.
/// It does nothing.
pub fn bases_fold()
    ensures { (k : Kind) (old : Based) (records : List (Record Deed)) (count : ℕ) (new : Based)
        → IsWellFormed k old → IsLegalOn k old records
        → IsBaseOf (moment_of k (moment_of_base old) records) count new → Folds k old records new }
{}

/// States that a place has one base: two well-formed ones of as many records, which stand for the same, are one. So
/// that of no records after which nothing had happened is empty. It does nothing.
pub fn bases_are_one()
    ensures one { (k : Kind) (base other : Based) → IsWellFormed k base → IsWellFormed k other → base.gone ≡ other.gone
        → moment_of_base base ≡ moment_of_base other → base ≡ other }
    ensures empty { (k : Kind) (base : Based) → IsWellFormed k base → base.gone ≡ 0 → moment_of_base base ≡ beginning
        → base ≡ no_base }
{}

/// States that each entry of a well-formed base shows its ticket's fate, and any other ticket up to its last is past,
/// and stays so. It does nothing.
pub fn bases_show_fates()
    ensures { (k : Kind) (base : Based) → IsWellFormed k base → ShowsFates base }
{}

/// States that after a well-formed base the numbers of waiting, uncollected and buffered tickets are those that the
/// base and the records state. It does nothing.
pub fn bases_stand()
    ensures { (k : Kind) (base : Based) (records : List (Record Deed)) (seats : ℕ) → IsWellFormed k base
        → IsLegalOn k base records
        → ((i : ℕ) → seats ≤ i → (moment_of k (moment_of_base base) records).seats.holds i ≡ Free)
        → StandsOn k base records seats }
{}

/// States that after a well-formed base and legal records a place holds what was asked. The item of a node, or of a
/// ticket that was interrupted, is the one that its own request brought. That of two that met is the one that the
/// producer's request brought. It does nothing.
pub fn requests_are_remembered()
    ensures { (k : Kind) (base : Based) (records : List (Record Deed)) → IsWellFormed k base → IsLegalOn k base records
        → Remembers (request_on base records) (moment_of k (moment_of_base base) records).seats }
{}

/// States that after a well-formed base and legal records the fates of the tickets are what the place holds, ticket by
/// ticket. Each node of the wait queue, each seat's ticket that was matched or interrupted, and no other ticket waits,
/// is buffered or awaits its completion. It does nothing.
pub fn fates_are_placed()
    ensures { (k : Kind) (base : Based) (records : List (Record Deed)) → IsWellFormed k base → IsLegalOn k base records
        → TellsPlace (opening base ++ records) (moment_of k (moment_of_base base) records).seats }
{}
