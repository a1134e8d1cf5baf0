//! A lock over a queue's book is dropped, whatever the items and the line, with all that waits there.

use crate::parcels::{Ask, Parcel, Told};
use crate::places::plays;
use meet_book::Book;
use meet_core::Dual;
use meet_line::{FairLine, Line, StackLine};
use meet_queues::queue_book;
use meet_tickets::Marked;
use std::alloc::Global;
use std::process::Abort;
use std::sync::{Mutex, Wait};

/// A lock over the book of a queue.
type Locked<T, L> = Mutex<Book<Dual<T, L>>>;

/// Lets anything go that can be let go.
fn let_go<X: Drop>(value: X) {
    let _value = value;
}

/// A lock is dropped as it is.
fn let_go_as_it_is<T: Marked + Drop, L: Line<T> + Drop>(lock: Locked<T, L>) {
    let _lock = lock;
}

/// A lock is made, and let go.
fn let_go_as_it_is_made<T: Marked + Drop, L: Line<T> + Drop>(book: Book<Dual<T, L>>) {
    let _lock = Mutex::new(book);
}

/// A lock is dropped through a bound.
fn let_go_through_a_bound<T: Marked + Drop, L: Line<T> + Drop>(lock: Locked<T, L>) {
    let_go(lock);
}

/// The book of a new queue with two seats.
fn book_of<L: Line<Parcel>>(rt: &impl Abort, alloc: Global) -> Book<Dual<Parcel, L>> {
    queue_book(alloc, 2, 1, 10).expect(rt, "memory")
}

/// A lock over the book of a new queue, in which a taker waits.
fn lock_of<L: Line<Parcel> + Drop>(rt: &(impl Abort + Wait), alloc: Global) -> Locked<Parcel, L> {
    let lock = Mutex::new(book_of(rt, alloc));
    {
        let mut book = lock.lock(rt);
        plays(rt, &mut *book, &[(0, Ask::Take, Told::Waits(1))]);
    }
    lock
}

/// A lock over a queue in which a taker waits is dropped in each way.
fn is_let_go<L: Line<Parcel> + Drop>(rt: &(impl Abort + Wait), alloc: Global) {
    let_go_as_it_is::<Parcel, L>(lock_of(rt, alloc));
    let_go_as_it_is_made::<Parcel, L>(book_of(rt, alloc));
    let_go_through_a_bound::<Parcel, L>(lock_of(rt, alloc));
}

#[test]
fn a_lock_over_a_fair_queue_is_let_go(rt: HostRuntime) {
    is_let_go::<FairLine<Parcel>>(&rt, rt.alloc());
}

#[test]
fn a_lock_over_a_stack_is_let_go(rt: HostRuntime) {
    is_let_go::<StackLine<Parcel>>(&rt, rt.alloc());
}
