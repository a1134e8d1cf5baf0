//! Jobs whose answers are more than their tags.

ghost use Rattle.std.specs.Prelude.{◌*◌, ◌<◌};

use meet_tickets::Refusal;
use pool_callers::{Answer, PoolCaller, PoolHandle, answers_of, run_single_pool};
use pool_threads::{Call, Work};
use std::test::*;

/// What these jobs return: the square of their tag.
struct Squares;

impl Work for Squares {
    ghost worth = { λ tag. tag * tag };
}

/// A job that returns the square of its tag, a small one.
#[derive(Drop)]
struct Square {
    tag: u64,
    ghost small: { tag < 1000 },
}

impl Call<Squares> for Square {
    ghost tag_of = { λ job. job.tag };

    fn tag(&self) -> u64 {
        self.tag
    }

    fn make(self) -> u64 {
        self.tag * self.tag
    }
}

/// Hands in a job of each tag below 20.
struct Twenty;

impl PoolCaller<Squares, Square> for Twenty {
    type Output = Option<Refusal>;

    fn run<P: PoolHandle<Squares, Square>>(&self, pool: &mut P) -> Option<Refusal> {
        for tag in 0..20u64 {
            if let Err(refused) = pool.execute(Square { tag }) {
                return Some(refused.into_why());
            }
        }
        None
    }
}

/// One worker runs the jobs in order of arrival (`Executors.newSingleThreadExecutor`: tasks are guaranteed to execute
/// sequentially), and each answer stands with its job.
#[test]
fn a_single_worker_keeps_order(rt: HostRuntime) {
    let alloc = rt.alloc();
    let done = run_single_pool(&rt, alloc, 1, &Twenty).expect(&rt, "a pool");
    assert_eq!(rt; done.results.as_slice(), [None].as_slice());
    let chronicle = done.log.expect(&rt, "its history");
    let answers = answers_of(alloc, &chronicle).expect(&rt, "the answers");
    assert_eq!(rt; answers.len(), 20);
    for (tag, answer) in (0..20u64).zip(answers) {
        assert_eq!(rt;
            answer,
            Answer {
                job: tag,
                value: tag.saturating_mul(tag)
            }
        );
    }
    assert_eq!(rt; chronicle.left.len(), 0);
}
