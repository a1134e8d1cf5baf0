//! A handle that hands the log of its queue out, chapter by chapter.

use meet_tasks::{KeepLog, QueueHandle, QueueTask, run_queue};
use meet_tickets::Order;

/// A task of one thread, which copies the log, rotates it twice, and calls on.
struct Writing;

impl QueueTask<u64> for Writing {
    type Output = bool;

    fn run<Q: QueueHandle<u64>>(&self, queue: &mut Q) -> bool {
        let _ = queue.put(7);
        let copied = match queue.history() {
            Ok(chapter) => chapter.records.len() == 1,
            Err(_) => false,
        };
        let _ = queue.poll();
        let first = match queue.rotate() {
            Ok(chapter) => chapter.records.len() == 2,
            Err(_) => false,
        };
        let _ = queue.put(8);
        let second = match queue.rotate() {
            Ok(chapter) => chapter.records.len() == 1,
            Err(_) => false,
        };
        let _ = queue.poll();
        copied && first && second
    }
}

/// What was rotated is no record of the closed queue: that has the poll alone.
#[test]
fn a_chapter_has_the_records_since_the_last(rt: HostRuntime) {
    let done = run_queue(&rt, rt.alloc(), Order::Transfer, 1, &Writing).expect(&rt, "a task");
    assert_eq!(&rt; done.results.as_slice(), [true].as_slice());
    let chronicle = done.log.expect(&rt, "the task's history");
    assert_eq!(&rt; chronicle.records.len(), 1);
}

/// A task whose log is kept does what it does otherwise.
#[test]
fn a_log_that_is_kept_has_the_same_chapters(rt: HostRuntime) {
    let done = run_queue(&rt, rt.alloc(), Order::Transfer, 1, &KeepLog(Writing)).expect(
        &rt, "a task",
    );
    assert_eq!(&rt; done.results.as_slice(), [true].as_slice());
    let chronicle = done.log.expect(&rt, "the task's history");
    assert_eq!(&rt; chronicle.records.len(), 1);
}
