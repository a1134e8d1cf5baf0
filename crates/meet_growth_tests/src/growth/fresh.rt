//! A new queue, with room for as many records as there can be, bears a refusal too.

ghost use Rattle.std.specs.Prelude.{◌≡◌, vec_len};
ghost use Rattle.meet_place.specs.Ledgers.{AreOf};
ghost use Rattle.meet_tickets.specs.Limits.{most_records};

use meet_cells::ParkGate;
use meet_shop::{gates, keep};
use meet_sync::{Blanks, Ledgers, NewQueue, TransferQueue};
use meet_tickets::Refusal;
use std::alloc::Global;
use std::marker::Brand;
use std::process::Abort;
use std::test::*;

/// A transfer queue of numbers.
type Store<N> = TransferQueue<u64, ParkGate, N>;

/// A queue with a seat for each of two gates, at the second try where there was no memory at first: then the gates and
/// the blank ledgers came back.
fn is_made<N: Ledgers>(rt: &impl Abort, alloc: Global, parts: NewQueue<ParkGate>)
    requires ledgers { AreOf N.name N.folds N.moments N.parts parts.blanks }
    requires one_each { N.parts ≡ vec_len parts.gates }
    requires cap { N.cap ≡ most_records }
{
    let (queue, seats) = match Store::<N>::new(alloc, parts) {
        Ok(made) => made,
        Err(refused) => {
            assert!(rt; refused.why == Refusal::Memory);
            assert_eq!(rt; refused.back.gates.len(), 2);
            match Store::<N>::new(alloc, refused.back) {
                Ok(made) => made,
                Err(_) => panic!(rt; "it isn't made"),
            }
        }
    };
    assert_eq!(rt; (queue.seats(), seats.len()), (2, 2));
    keep(queue);
    keep(seats);
}

#[test]
fn a_new_queue(rt: HostRuntime) {
    let alloc = rt.alloc();
    let gates = match gates::<ParkGate>(alloc, 2) {
        Ok(gates) => gates,
        Err(_) => gates::<ParkGate>(alloc, 2).expect(&rt, "memory"),
    };
    let blanks = Blanks::new(gates.len() as u64);
    is_made::<Brand>(&rt, alloc, NewQueue { gates, blanks });
}
