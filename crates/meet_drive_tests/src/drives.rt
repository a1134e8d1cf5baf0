//! Whole drives. Each giver puts 1, 2, 3 and so on, so what the takers count is known whatever the threads' order: with
//! n givers of m items n * m items, whose sum is n * m * (m + 1) / 2, as many pairs, and three records for each.

use meet_drive::{Drive, drive, drive_in_chapters, drive_within};
use meet_history::Standing;
use meet_tickets::Refusal;
use std::process::Abort;
use std::test::*;

/// What comes of a drive of so many items with this sum.
fn whole(items: u64, sum: u64) -> Result<Drive, Refusal> {
    Ok(Drive {
        items,
        sum,
        pairs: items,
        records: items.saturating_mul(3),
        standing: Standing {
            waiting: 0,
            uncollected: 0,
            kept: 0,
        },
    })
}

#[test]
fn one_item(rt: HostRuntime) {
    assert_eq!(&rt; drive(&rt, rt.alloc(), 1, 1), whole(1, 1));
}

#[test]
fn four_givers_of_a_hundred(rt: HostRuntime) {
    assert_eq!(&rt; drive(&rt, rt.alloc(), 4, 100), whole(400, 20_200));
}

#[test]
fn sixty_four_givers_of_twenty(rt: HostRuntime) {
    assert_eq!(&rt; drive(&rt, rt.alloc(), 64, 20), whole(1_280, 13_440));
}

#[test]
fn two_givers_of_a_thousand(rt: HostRuntime) {
    assert_eq!(&rt; drive(&rt, rt.alloc(), 2, 1_000), whole(2_000, 1_001_000));
}

/// It has 75,000 records.
#[test]
fn twenty_five_givers_of_a_thousand(rt: HostRuntime) {
    assert_eq!(&rt;
        drive(&rt, rt.alloc(), 25, 1_000),
        whole(25_000, 12_512_500)
    );
}

/// Of 6,000 records the queue holds 64 at a time, sixteen a seat: the rest was handed out, and the whole is one
/// history.
#[test]
fn two_givers_of_a_thousand_in_chapters(rt: HostRuntime) {
    assert_eq!(&rt;
        drive_in_chapters(&rt, rt.alloc(), 2, 1_000, 64),
        whole(2_000, 1_001_000)
    );
}

/// As many threads as there may be, whose tickets stand in the bases of the chapters: of 19,200 records there are 2,048
/// at a time.
#[test]
fn sixty_four_givers_of_a_hundred_in_chapters(rt: HostRuntime) {
    assert_eq!(&rt;
        drive_in_chapters(&rt, rt.alloc(), 64, 100, 2_048),
        whole(6_400, 323_200)
    );
}

/// A drive that needs one chapter alone is the same in chapters.
#[test]
fn one_item_in_chapters(rt: HostRuntime) {
    assert_eq!(&rt; drive_in_chapters(&rt, rt.alloc(), 1, 1, 32), whole(1, 1));
}

/// The call that waits has a record, and is owed one; the other needs two, since it might wait as well. So four records
/// are enough for one item, and three aren't, though three are written.
#[test]
fn a_request_needs_its_record_and_its_ending(rt: HostRuntime) {
    assert_eq!(&rt; drive_within(&rt, rt.alloc(), 1, 1, 4), whole(1, 1));
    assert_eq!(&rt;
        drive_within(&rt, rt.alloc(), 1, 1, 3),
        Err(Refusal::HistoryFull)
    );
}

/// The thread that is refused stops all others, whoever waits; all seats come back, since the queue is closed.
#[test]
fn a_full_history_ends_every_thread(rt: HostRuntime) {
    assert_eq!(&rt;
        drive_within(&rt, rt.alloc(), 4, 100, 50),
        Err(Refusal::HistoryFull)
    );
    assert_eq!(&rt;
        drive_within(&rt, rt.alloc(), 32, 1_000, 4_000),
        Err(Refusal::HistoryFull)
    );
    assert_eq!(&rt;
        drive_within(&rt, rt.alloc(), 2, 1_000, 64),
        Err(Refusal::HistoryFull)
    );
}

#[test]
fn a_queue_has_one_record_at_least(rt: HostRuntime) {
    assert_eq!(&rt;
        drive_within(&rt, rt.alloc(), 2, 2, 0),
        Err(Refusal::BadSizes)
    );
    assert_eq!(&rt;
        drive_within(&rt, rt.alloc(), 2, 2, 1_048_577),
        Err(Refusal::BadSizes)
    );
    assert_eq!(&rt;
        drive_in_chapters(&rt, rt.alloc(), 2, 2, 0),
        Err(Refusal::BadSizes)
    );
    assert_eq!(&rt;
        drive_in_chapters(&rt, rt.alloc(), 2, 2, 1_048_577),
        Err(Refusal::BadSizes)
    );
}
