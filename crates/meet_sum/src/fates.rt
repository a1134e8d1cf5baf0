//! How many tickets have which fate.

ghost use Rattle.std.specs.Prelude.{◌≡◌, ◌+◌, ◌<◌, ◌^◌, [], map, if◌then◌else◌};
ghost use Rattle.meet_tickets.specs.declared.fates.Fate.TheVariants.{Kept, Waiting, Withdrawn};
ghost use Rattle.meet_sum.specs.FatesCounted.{fates_counted, numbers_of, with_fate};
ghost use Rattle.meet_sum.specs.Stories.{fate_told, fate_asked, fate_stood, fate_met};

use crate::stories::{AtOnce, Story};
use meet_tickets::Cause;

/// How many tickets have which fate.
#[derive(Clone, Copy, PartialEq, Eq, Debug)]
pub struct FateCounts {
    /// They wait in the wait queue.
    pub waiting: u64,
    /// Their items are buffered.
    pub kept: u64,
    /// They were matched, and aren't completed; those that didn't wait need no completion.
    pub paired: u64,
    /// They waited, were matched, and are completed.
    pub collected: u64,
    /// They were cancelled.
    pub cancelled: u64,
    /// They timed out.
    pub expired: u64,
    /// They were interrupted, and are completed.
    pub interrupted: u64,
    /// They were interrupted, and aren't completed.
    pub cut: u64,
    /// They found no counterpart, and didn't wait.
    pub failed: u64,
    /// They were refused at their entry.
    pub entry_refused: u64,
}

/// The numbers of no fates.
pub(crate) fn no_fates() -> FateCounts
    ensures { result ≡ numbers_of [] }
{
    FateCounts {
        waiting: 0,
        kept: 0,
        paired: 0,
        collected: 0,
        cancelled: 0,
        expired: 0,
        interrupted: 0,
        cut: 0,
        failed: 0,
        entry_refused: 0,
    }
}

/// Counts a ticket more that was matched.
fn add_met(counts: &mut FateCounts, learned: bool)
    requires { fates_counted counts.old + 1 < 2 ^ 64 }
    ensures { counts.new ≡ with_fate counts.old (fate_met learned) }
{
    if learned {
        counts.collected += 1;
    } else {
        counts.paired += 1;
    }
}

/// Counts a ticket more that was taken back.
fn add_back(counts: &mut FateCounts, cause: Cause)
    requires { fates_counted counts.old + 1 < 2 ^ 64 }
    ensures { counts.new ≡ with_fate counts.old (Withdrawn cause) }
{
    match cause {
        Cause::Cancelled => counts.cancelled += 1,
        Cause::Expired => counts.expired += 1,
        Cause::Interrupted => counts.interrupted += 1,
    }
}

/// Counts a ticket more that stood in the wait queue, and whose item was buffered there if `kept`.
fn add_stood(counts: &mut FateCounts, story: &Story, kept: bool)
    requires { fates_counted counts.old + 1 < 2 ^ 64 }
    ensures { counts.new ≡ with_fate counts.old (fate_stood story.now (if kept then Kept else Waiting)) }
{
    if story.met {
        return add_met(counts, story.learned);
    }
    match story.back {
        Some(cause) => add_back(counts, cause),
        None => {
            if story.cut {
                counts.cut += 1;
            } else if kept {
                counts.kept += 1;
            } else {
                counts.waiting += 1;
            }
        }
    }
}

/// Counts the ticket of a story, whose request came to this at once.
fn add_asked(counts: &mut FateCounts, story: &Story, how: AtOnce)
    requires { fates_counted counts.old + 1 < 2 ^ 64 }
    ensures { counts.new ≡ with_fate counts.old (fate_asked story.now how) }
{
    match how {
        AtOnce::Waits => add_stood(counts, story, false),
        AtOnce::IsKept => add_stood(counts, story, true),
        AtOnce::Meets => add_met(counts, story.learned),
        AtOnce::Fails => counts.failed += 1,
        AtOnce::Refused => counts.entry_refused += 1,
    }
}

/// Counts the ticket of a story.
pub(crate) fn add(counts: &mut FateCounts, story: &Story)
    requires { fates_counted counts.old + 1 < 2 ^ 64 }
    ensures { counts.new ≡ with_fate counts.old (fate_told story.now) }
{
    match story.asked {
        None => {}
        Some(asked) => add_asked(counts, story, asked.how),
    }
}

/// How many of these stories end in which fate.
pub(crate) fn count_stories(stories: &[Story]) -> FateCounts
    ensures { result ≡ numbers_of (map fate_told stories.now) }
{
    let mut counts = no_fates();
    for story in stories {
        add(&mut counts, story);
    }
    counts
}
