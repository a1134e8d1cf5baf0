//! The records of a trace that is read, if they are needed after the check.

ghost use Rattle.std.specs.Prelude.{◌≡◌, ◌↔◌, [], ◌∷◌, ◌++◌, List, Bool, true, false, Err, IsTrue, OnOk, IfErr};
ghost use Rattle.meet_tickets.specs.declared.records.Deed.{Deed};
ghost use Rattle.meet_tickets.specs.declared.records.Record.{Record};
ghost use Rattle.meet_tickets.specs.declared.refusals.Refusal.TheVariants.{Memory};
ghost use Rattle.meet_history.specs.declared.checker.CheckFault.TheVariants.{Memory as NoMemory};
ghost use Rattle.meet_history.specs.Pushing.{TakesIn};
ghost use Rattle.meet_run.specs.Tracing.Keeping.{HasKept};

use meet_history::{CheckFault, Checker};
use meet_tickets::{Deed, Record, Refusal};
use std::alloc::{AllocError, Global};

/// The records that were read, if they are wanted.
#[derive(Drop)]
pub(crate) struct Kept {
    wanted: bool,
    records: Vec<Record<Deed>>,
}

impl Kept {
    /// Keeps all records.
    pub(crate) fn all(alloc: Global) -> Self
        ensures { HasKept true result [] }
    {
        Kept {
            wanted: true,
            records: Vec::new(alloc),
        }
    }

    /// Keeps none, and doesn't allocate.
    pub(crate) fn nothing(alloc: Global) -> Self
        ensures { HasKept false result [] }
    {
        Kept {
            wanted: false,
            records: Vec::new(alloc),
        }
    }

    /// Keeps a record, if they are wanted.
    fn keep(&mut self, entry: &Record<Deed>) -> Result<(), AllocError>
        ensures { OnOk result ((wanted : Bool) (past : List (Record Deed)) → HasKept wanted self.old past
            → HasKept wanted self.new (past ++ entry.now ∷ [])) }
    {
        if self.wanted {
            self.records.push(*entry)?;
        }
        Ok(())
    }

    /// The records that were kept.
    pub(crate) fn into_records(self) -> Vec<Record<Deed>>
        ensures { (past : List (Record Deed)) → HasKept true self past → result.items ≡ past }
    {
        let Kept { wanted: _, records } = self;
        records
    }
}

/// Whether a push found no memory.
fn is_memory(pushed: Result<(), CheckFault>) -> bool
    ensures { IsTrue result ↔ (pushed ≡ Err NoMemory) }
{
    match pushed {
        Err(CheckFault::Memory) => true,
        Err(CheckFault::Illegal { place: _, why: _ }) => false,
        Ok(()) => false,
    }
}

/// Takes in the next record that was read: keeps it, if it is wanted, and pushes it on the checker. Fails only if an
/// allocation fails.
pub(crate) fn take_in(
    kept: &mut Kept,
    checker: &mut Checker,
    entry: &Record<Deed>,
) -> Result<(), Refusal>
    ensures kept { OnOk result ((wanted : Bool) (past : List (Record Deed)) → HasKept wanted kept.old past
        → HasKept wanted kept.new (past ++ entry.now ∷ [])) }
    ensures seen { OnOk result (TakesIn checker.old entry.now checker.new) }
    ensures kind { checker.new.place.kind ≡ checker.old.place.kind }
    ensures memory { IfErr result (λ why. why ≡ Memory) }
{
    match kept.keep(entry) {
        Ok(()) => {}
        Err(_) => return Err(Refusal::Memory),
    }
    if is_memory(checker.push(*entry)) {
        return Err(Refusal::Memory);
    }
    Ok(())
}
