//! Tasks at an exchanger.

use meet_exchanger::{ExchangeTask, ExchangerHandle, Finished, run_exchanger};
use meet_tickets::Refusal;
use std::test::*;

/// Each thread brings its number, and has another's in the end or its own.
struct Once {
    limit: u64,
}

impl ExchangeTask<u64> for Once {
    type Output = (u64, bool);

    fn run<X: ExchangerHandle<u64>>(&self, exchanger: &mut X) -> (u64, bool) {
        match exchanger.exchange_for(exchanger.number(), self.limit) {
            Ok(other) => (other, true),
            Err(unmet) => (unmet.into_item(), false),
        }
    }
}

/// Exchanges without a limit, some in a row.
struct Often;

impl ExchangeTask<u64> for Often {
    type Output = u64;

    fn run<X: ExchangerHandle<u64>>(&self, exchanger: &mut X) -> u64 {
        let mut item = exchanger.number();
        for _ in 0..1_001 {
            item = match exchanger.exchange(item) {
                Ok(other) => other,
                Err(unmet) => unmet.into_item(),
            };
        }
        item
    }
}

#[test]
fn two_threads_swap(rt: HostRuntime) {
    let Ok(done) = run_exchanger(&rt, rt.alloc(), 2, &Once { limit: 60_000 }) else {
        panic!(&rt; "no task")
    };
    let Finished { results, log } = done;
    assert_eq!(&rt; results.as_slice(), [(1u64, true), (0, true)].as_slice());
    let Ok(closed) = log else {
        panic!(&rt; "not closed")
    };
    assert_eq!(&rt; (closed.lists.len(), closed.left.len()), (2, 0));
}

/// After an odd number of exchanges each thread has the other's item.
#[test]
fn two_threads_swap_often(rt: HostRuntime) {
    let Ok(done) = run_exchanger(&rt, rt.alloc(), 2, &Often) else {
        panic!(&rt; "no task")
    };
    assert_eq!(&rt; done.results.as_slice(), [1u64, 0].as_slice());
}

/// Of five threads with a limit an even number got another's item; each item is there once, in the end.
#[test]
fn an_odd_number_of_threads(rt: HostRuntime) {
    let Ok(done) = run_exchanger(&rt, rt.alloc(), 5, &Once { limit: 200 }) else {
        panic!(&rt; "no task")
    };
    let mut seen = [false; 5];
    let mut met = 0u64;
    for (item, is_met) in done.results {
        assert!(&rt; item < 5 && !seen[item as usize]);
        seen[item as usize] = true;
        met = met.saturating_add(is_met as u64);
    }
    assert_eq!(&rt; met % 2, 0);
    assert!(&rt; met >= 2);
}

#[test]
fn threads_of_none_or_too_many(rt: HostRuntime) {
    for seats in [0, 65_537] {
        let made = run_exchanger(&rt, rt.alloc(), seats, &Often);
        assert!(&rt; matches!(made, Err(Refusal::BadSizes)));
    }
}
