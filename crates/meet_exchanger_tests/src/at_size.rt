//! Exchanges at size: many threads, some of which park and are woken for earlier offers too.

use meet_exchanger::{ExchangeTask, ExchangerHandle, Finished, run_exchanger};
use std::test::*;

/// How often each thread exchanges.
const EACH: u64 = 5_000;

/// Each thread exchanges what it has, and waits now and then for a time in which nobody may come.
struct Many;

impl ExchangeTask<u64> for Many {
    type Output = u64;

    fn run<X: ExchangerHandle<u64>>(&self, exchanger: &mut X) -> u64 {
        let mut item = exchanger.number();
        for number in 0..EACH {
            item = match exchanger.exchange_for(item, number % 3) {
                Ok(other) => other,
                Err(unmet) => unmet.into_item(),
            };
        }
        item
    }
}

/// Sixteen threads with limits of 0 to 2 milliseconds: each item is there once, in the end.
#[test]
fn each_item_is_there_once(rt: HostRuntime) {
    let Ok(done) = run_exchanger(&rt, rt.alloc(), 16, &Many) else {
        panic!(&rt; "no task")
    };
    let mut seen = [false; 16];
    let Finished { results, log } = done;
    for item in results {
        assert!(&rt; item < 16 && !seen[item as usize]);
        seen[item as usize] = true;
    }
    assert!(&rt; seen.iter().all(|it| *it));
    let Ok(closed) = log else {
        panic!(&rt; "not closed")
    };
    assert_eq!(&rt; closed.left.len(), 0);
}
