//! A cell's records against the receipts that its two seats hold.

ghost use Rattle.std.specs.Prelude.{◌≡◌, length};

use crate::books::{book_of, cut, seat};
use crate::cell::{Call, Cell, Deed};
use meet_book::{Book, Receipt, Same, compare};
use std::alloc::Global;
use std::process::Abort;

impl Same for Deed {
    fn same(&self, other: &Deed) -> bool {
        *self == *other
    }
}

/// What a seat holds.
type List = Vec<Receipt<Deed>>;

/// A seat makes a call, and its list takes the receipt.
fn makes(rt: &impl Abort, book: &mut Book<Cell>, number: u64, list: &mut List, call: Call) {
    if let Ok((_, Some(receipt))) = book.step(seat(rt, number), call) {
        list.push(receipt).expect(rt, "memory");
    }
}

/// The lists as a slice's two, by seat number.
fn both(rt: &impl Abort, alloc: Global, first: List, second: List) -> Vec<List>
    ensures { length result.items ≡ 2 }
{
    let mut lists = Vec::with_capacity(alloc, 2).expect(rt, "memory");
    lists.push_reserved(first);
    lists.push_reserved(second);
    lists
}

/// A book of seven records, of seats 0, 1, 0, 0, 1, 1, 0, and the seats' lists.
fn seven(rt: &impl Abort, alloc: Global) -> (Book<Cell>, List, List) {
    let mut book = book_of(rt, alloc, 9, 5, 20);
    let (mut first, mut second) = (Vec::new(alloc), Vec::new(alloc));
    makes(rt, &mut book, 0, &mut first, Call::Put(2));
    makes(rt, &mut book, 1, &mut second, Call::Take);
    makes(rt, &mut book, 0, &mut first, Call::Take);
    makes(rt, &mut book, 0, &mut first, Call::Take);
    makes(rt, &mut book, 1, &mut second, Call::Take);
    makes(rt, &mut book, 1, &mut second, Call::Put(2));
    makes(rt, &mut book, 0, &mut first, Call::End);
    (book, first, second)
}

/// The seat and the index that `compare` names.
fn first_difference(gone: u64, book: &Book<Cell>, lists: &[List]) -> Option<(u64, u64)>
    requires { length lists.now ≡ 2 }
{
    match compare(gone, book.records(), lists) {
        Some((seat, index)) => Some((seat.number(), index)),
        None => None,
    }
}

#[test]
fn whole_lists_are_the_records(rt: HostRuntime) {
    let (book, first, second) = seven(&rt, rt.alloc());
    assert_eq!(rt; (first.len(), second.len()), (4, 3));
    let lists = both(&rt, rt.alloc(), first, second);
    assert_eq!(rt; first_difference(0, &book, &lists), None);
}

#[test]
fn lists_that_change_places_differ_at_once(rt: HostRuntime) {
    let (book, first, second) = seven(&rt, rt.alloc());
    let lists = both(&rt, rt.alloc(), second, first);
    assert_eq!(rt; first_difference(0, &book, &lists), Some((0, 0)));
}

#[test]
fn receipts_of_folded_records_do_not_count(rt: HostRuntime) {
    let (mut book, mut first, second) = seven(&rt, rt.alloc());
    assert_eq!(rt; cut(&mut book), Ok(7));
    makes(&rt, &mut book, 0, &mut first, Call::Put(1));
    makes(&rt, &mut book, 0, &mut first, Call::Take);
    let lists = both(&rt, rt.alloc(), first, second);
    assert_eq!(rt; first_difference(7, &book, &lists), None);
    // Where fewer were folded away, the seat's list has one too many at its head.
    assert_eq!(rt; first_difference(6, &book, &lists), Some((0, 0)));
    // Where more were, the seat's first record has no receipt.
    assert_eq!(rt; first_difference(8, &book, &lists), Some((0, 0)));
}

#[test]
fn a_receipt_that_is_missing_is_found(rt: HostRuntime) {
    // The last one of a seat.
    let (book, mut first, second) = seven(&rt, rt.alloc());
    assert!(rt; first.pop().is_some());
    let lists = both(&rt, rt.alloc(), first, second);
    assert_eq!(rt; first_difference(0, &book, &lists), Some((0, 3)));
    // One in the midst: behind it, what follows stands one too early.
    let (book, first, mut second) = seven(&rt, rt.alloc());
    let last = second.pop();
    assert!(rt; second.pop().is_some());
    if let Some(receipt) = last {
        second.push(receipt).expect(&rt, "memory");
    }
    let lists = both(&rt, rt.alloc(), first, second);
    assert_eq!(rt; first_difference(0, &book, &lists), Some((1, 1)));
}

#[test]
fn a_receipt_of_another_book_is_found(rt: HostRuntime) {
    let (book, first, second) = seven(&rt, rt.alloc());
    let (_, mut other, _) = seven(&rt, rt.alloc());
    let (mut longer, _, mut third) = seven(&rt, rt.alloc());
    makes(&rt, &mut longer, 1, &mut third, Call::Put(3));
    // One record more than the book has.
    let lists = both(&rt, rt.alloc(), first, third);
    assert_eq!(rt; first_difference(0, &book, &lists), Some((1, 3)));
    // Another book's receipts for the same records can't be told from its own.
    makes(&rt, &mut longer, 0, &mut other, Call::End);
    let lists = both(&rt, rt.alloc(), other, second);
    assert_eq!(rt; first_difference(0, &book, &lists), None);
}

#[test]
fn a_record_of_a_seat_without_a_list_is_found(rt: HostRuntime) {
    let (book, first, _) = seven(&rt, rt.alloc());
    let mut lists = Vec::with_capacity(rt.alloc(), 1).expect(&rt, "memory");
    lists.push_reserved(first);
    let found = compare(0, book.records(), lists.as_slice());
    assert_eq!(rt;
        found.map(|(seat, index)| (seat.number(), index)),
        Some((1, 0))
    );
}
