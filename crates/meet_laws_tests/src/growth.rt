//! Records that are erased bear one refusal of memory: the same that is done again succeeds. `dev/check/refuse` runs
//! these tests with each allocation refused in turn.

use crate::rows::{entry, ticket};
use meet_laws::erase;
use meet_tickets::{Cause, Deed, Refusal};
use std::test::Fail;

#[test]
fn records_that_are_erased(rt: HostRuntime) -> Result<(), Fail> {
    let alloc = rt.alloc();
    let records = [
        entry(0, 1, Deed::GiveWaits(1))?,
        entry(1, 2, Deed::GiveWaits(2))?,
        entry(2, 3, Deed::GiveWaits(3))?,
        entry(1, 2, Deed::Withdrawn(Cause::Expired))?,
        entry(3, 4, Deed::TakeMeets(1, ticket(1)?))?,
        entry(2, 3, Deed::Withdrawn(Cause::Cancelled))?,
    ];
    let left = match erase(alloc, &records) {
        Ok(left) => left,
        Err(why) => {
            assert!(rt; why == Refusal::Memory);
            erase(alloc, &records).ok().ok_or("memory")?
        }
    };
    assert_eq!(rt; left.len(), 2);
    assert_eq!(rt; left[0], records[0]);
    assert_eq!(rt; left[1], records[4]);
    Ok(())
}
