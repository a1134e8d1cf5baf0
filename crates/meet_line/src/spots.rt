//! The places of seats, and the links between them. A seat's place has the node of its ticket that waits, and the seats
//! of that node's neighbours: all that a change of one node writes of it lies together.

ghost use Rattle.std.specs.Prelude.{◌≡◌, ◌-◌, ◌<◌, None, OnOk, OnErr, length};
ghost use Rattle.meet_line.specs.Nodes.{put_end};
ghost use Rattle.meet_line.specs.Stored.{slot_at};
ghost use Rattle.meet_line.specs.Seated.{slots_of, afters_of, befores_of, after_at, before_at, relinked, IsBelow};
ghost use Rattle.meet_line.specs.Seated.{IsUnlinked, IsLinked, IsPadded};

use crate::itemless::let_go_none;
use crate::nodes::Link;
use meet_tickets::Entry;
use std::alloc::AllocError;

/// The place of a seat.
#[derive(Drop)]
pub(crate) struct Spot<T> {
    /// The node of its ticket that waits, if one does.
    pub(crate) entry: Option<Entry<T>>,
    /// The seat of the node that came just before it.
    pub(crate) before: Link,
    /// The seat of the node that came just after it.
    pub(crate) after: Link,
}

/// Behind the node at `at`, or first where that is none, comes `to`.
#[inline(always)]
fn link_after<T>(spots: &mut Vec<Spot<T>>, first: &mut Link, at: Link, to: Link)
    requires { IsBelow at (length spots.old.items) }
    ensures slots { slots_of spots.new.items ≡ slots_of spots.old.items }
    ensures afters { afters_of spots.new.items ≡ relinked (afters_of spots.old.items) at to }
    ensures befores { befores_of spots.new.items ≡ befores_of spots.old.items }
    ensures first { first.new ≡ put_end first.old at to }
{
    match at.key() {
        None => *first = to,
        Some(key) => spots[key].after = to,
    }
}

/// Before the node at `at`, or last where that is none, comes `to`.
#[inline(always)]
fn link_before<T>(spots: &mut Vec<Spot<T>>, last: &mut Link, at: Link, to: Link)
    requires { IsBelow at (length spots.old.items) }
    ensures slots { slots_of spots.new.items ≡ slots_of spots.old.items }
    ensures afters { afters_of spots.new.items ≡ afters_of spots.old.items }
    ensures befores { befores_of spots.new.items ≡ relinked (befores_of spots.old.items) at to }
    ensures last { last.new ≡ put_end last.old at to }
{
    match at.key() {
        None => *last = to,
        Some(key) => spots[key].before = to,
    }
}

/// The node at this place leaves, and its neighbours are linked.
#[inline(always)]
pub(crate) fn unlink<T>(
    spots: &mut Vec<Spot<T>>,
    first: &mut Link,
    last: &mut Link,
    key: usize,
) -> Option<Entry<T>>
    requires there { key < length spots.old.items }
    requires after { IsBelow (after_at spots.old.items key) (length spots.old.items) }
    requires before { IsBelow (before_at spots.old.items key) (length spots.old.items) }
    ensures entry { result ≡ slot_at (slots_of spots.old.items) key }
    ensures gone { IsUnlinked spots.old.items spots.new.items first.old first.new last.old last.new key }
{
    let spot = &mut spots[key];
    let (before, after) = (spot.before, spot.after);
    let taken = spot.entry.take();
    link_after(spots, first, before, after);
    link_before(spots, last, after, before);
    taken
}

/// A node comes to its place, behind the last one.
#[inline(always)]
pub(crate) fn link<T>(
    spots: &mut Vec<Spot<T>>,
    first: &mut Link,
    last: &mut Link,
    key: usize,
    entry: Entry<T>,
)
    requires there { key < length spots.old.items }
    requires free { slot_at (slots_of spots.old.items) key ≡ None }
    requires last { IsBelow last.old (length spots.old.items) }
    ensures { IsLinked spots.old.items spots.new.items first.old first.new last.old last.new key entry }
{
    let own = Link::to(key);
    let spot = &mut spots[key];
    spot.before = *last;
    spot.after = Link::none();
    let_go_none(spot.entry.replace(entry));
    link_after(spots, first, *last, own);
    *last = own;
}

/// Adds this many places, empty.
fn add_spots<T>(spots: &mut Vec<Spot<T>>, more: usize) -> Result<(), AllocError>
    ensures more { OnOk result (IsPadded spots.old.items spots.new.items more) }
    ensures unchanged { OnErr result (spots.new.items ≡ spots.old.items) }
{
    spots.reserve(more)?;
    for _place in 0..more {
        spots.push_reserved(Spot {
            entry: None,
            before: Link::none(),
            after: Link::none(),
        });
    }
    Ok(())
}

/// Adds empty places until there are this many.
pub(crate) fn widen_spots<T>(spots: &mut Vec<Spot<T>>, count: usize) -> Result<(), AllocError>
    ensures more { OnOk result (IsPadded spots.old.items spots.new.items (count - length spots.old.items)) }
    ensures unchanged { OnErr result (spots.new.items ≡ spots.old.items) }
{
    let len = spots.len();
    if count <= len {
        return Ok(());
    }
    add_spots(spots, count - len)
}
