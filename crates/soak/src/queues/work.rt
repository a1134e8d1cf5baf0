//! What one thread does in a round: a worker makes calls of chance, and another interrupts the workers. All threads take
//! stamps from one counter, before a call and after it.

ghost use Rattle.std.specs.Prelude.{◌≡◌, IsTrue, IsFalse};
ghost use Rattle.meet_shop.specs.declared.calls.Call.TheVariants.{Poll};
ghost use Rattle.soak.specs.declared.queues.work.Act.TheVariants.{Whole, Drain};
ghost use Rattle.soak.specs.Seen.{verb_of_act};

use crate::queues::accounts::Account;
use crate::queues::seen::{begun, part_verb, whole_verb};
use meet_cells::ParkGate;
use meet_overlap::Verb;
use meet_shop::{Ask, Call, Chance, Shop, Told, answer, called, drained, trimmed};
use meet_sync::{Back, Gate, Ledgers, Seat, SeatRefused};
use meet_tickets::{Deed, Order};
use std::alloc::Global;
use std::sync::Wait;
use std::sync::atomic::{AtomicU64, Ordering};
use std::time::Clock;

/// How many calls a worker makes.
const CALLS: u64 = 60;

/// What a round is of.
#[derive(Clone, Copy)]
pub struct Round {
    pub order: Order,
    /// How many seats there are: of workers, and the last of who interrupts them.
    pub seats: u64,
    /// How many records its queue has room for at a time.
    pub cap: u64,
    /// Where its numbers of chance begin.
    pub seed: u64,
    /// Whether a judge is to see it. A judge knows no drains: each is a poll then.
    pub is_judged: bool,
}

impl Round {
    /// The numbers of chance of this seat.
    fn chance_of(self, number: u64) -> Chance {
        Chance::new(self.seed.wrapping_mul(64).wrapping_add(number))
    }
}

/// A thread's seat, and its account.
pub type Done<N> = (Back<Deed, N>, Account);

/// One thing that a seat does.
#[derive(Clone, Copy)]
enum Act {
    /// A whole call.
    Whole(Call),
    /// A part of a call, or an interrupt.
    Part(Ask),
    /// A drain of so many items.
    Drain(u64),
    /// A checkpoint.
    Fold,
    /// It lets go of its receipts for what is folded away.
    Trim,
}

/// A drain of up to `max` items. In a round that is judged it is a poll, since a log of calls has no drains.
fn drain(round: Round, max: u64) -> Act
    ensures judged { IsTrue round.is_judged → result ≡ Whole Poll }
    ensures drains { IsFalse round.is_judged → result ≡ Drain max }
{
    if round.is_judged {
        Act::Whole(Call::Poll)
    } else {
        Act::Drain(max)
    }
}

/// What a seat does that has no open ticket, with this item. A timed call waits for 3 milliseconds at most, others
/// until they are met or interrupted.
fn act_of_chance(chance: &mut Chance, item: u64, round: Round) -> Act {
    match chance.below(18) {
        0 => Act::Whole(Call::Put(item)),
        1 => Act::Whole(Call::Transfer(item)),
        2 => Act::Whole(Call::Offer(item)),
        3 => Act::Whole(Call::OfferFor(item, chance.below(4))),
        4 => Act::Whole(Call::TryTransfer(item)),
        5 => Act::Whole(Call::TransferFor(item, chance.below(4))),
        6 => Act::Whole(Call::Take),
        7 => Act::Whole(Call::Take),
        8 => Act::Whole(Call::Poll),
        9 => Act::Whole(Call::PollFor(chance.below(4))),
        10 => Act::Whole(Call::PollFor(chance.below(4))),
        11 => drain(round, chance.below(4)),
        12 => Act::Part(Ask::Interrupt(chance.below(round.seats))),
        13 => Act::Part(Ask::Give(item)),
        14 => Act::Part(Ask::Give(item)),
        15 => Act::Fold,
        16 => Act::Trim,
        _ => Act::Part(Ask::Take),
    }
}

/// What a seat does that has an open ticket.
fn ending_of_chance(chance: &mut Chance) -> Act {
    match chance.below(5) {
        0 => Act::Part(Ask::Cancel),
        1 => Act::Part(Ask::Expire),
        2 => Act::Trim,
        _ => Act::Part(Ask::Follow),
    }
}

/// The item that is given by a whole call.
fn given_by_call(call: Call) -> Option<u64> {
    match call {
        Call::Put(item) => Some(item),
        Call::Transfer(item) => Some(item),
        Call::Offer(item) => Some(item),
        Call::OfferFor(item, _) => Some(item),
        Call::TryTransfer(item) => Some(item),
        Call::TransferFor(item, _) => Some(item),
        _ => None,
    }
}

/// The item that is given by a part of a call.
fn given_by_part(ask: Ask) -> Option<u64> {
    match ask {
        Ask::Give(item) => Some(item),
        _ => None,
    }
}

/// A seat drains up to so many items.
fn drains<G: Gate, N: Ledgers, R: Wait>(
    rt: &R,
    alloc: Global,
    shop: &Shop<G, N>,
    back: Back<Deed, N>,
    account: &mut Account,
    max: u64,
) -> Back<Deed, N> {
    match back {
        Back::Free(seat) => {
            let (back, items) = drained(shop.drain(rt, alloc, seat, max));
            account.note_drain(items);
            back
        }
        Back::Held(pending) => Back::Held(pending),
    }
}

/// A seat without a ticket tends the queue.
fn tends<G: Gate, N: Ledgers, R: Wait>(
    rt: &R,
    shop: &Shop<G, N>,
    back: Back<Deed, N>,
    account: &mut Account,
) -> Back<Deed, N> {
    match back {
        Back::Free(seat) => match shop.tend(rt, seat) {
            Ok(seat) => Back::Free(seat),
            Err(refused) => {
                let SeatRefused { why, seat, item: _ } = refused;
                account.note(None, Told::Refused(why, None));
                Back::Free(seat)
            }
        },
        Back::Held(pending) => Back::Held(pending),
    }
}

/// A seat makes a checkpoint.
fn folds<G: Gate, N: Ledgers, R: Wait>(
    rt: &R,
    shop: &Shop<G, N>,
    back: Back<Deed, N>,
    account: &mut Account,
) -> Back<Deed, N> {
    match back {
        Back::Free(seat) => match shop.checkpoint(rt, seat) {
            Ok((seat, _gone)) => {
                account.note_checkpoint();
                Back::Free(seat)
            }
            Err(refused) => {
                let SeatRefused { why, seat, item: _ } = refused;
                account.note(None, Told::Refused(why, None));
                Back::Free(seat)
            }
        },
        Back::Held(pending) => Back::Held(pending),
    }
}

/// What an act begins, to a judge, at a queue of this order.
#[tactic(auto, unfolding(crate::specs::Seen::verb_of_act))]
fn verb_of(order: Order, act: Act) -> Option<Verb>
    ensures { result ≡ verb_of_act order act }
{
    match act {
        Act::Whole(call) => whole_verb(order, call),
        Act::Part(ask) => part_verb(order, ask),
        Act::Drain(_) => None,
        Act::Fold => None,
        Act::Trim => None,
    }
}

/// Makes this step for a seat, and returns the answer of its call. A drain, a checkpoint and a trim have none.
fn does<G: Gate + Drop, N: Ledgers, R: Wait + Clock>(
    rt: &R,
    alloc: Global,
    shop: &Shop<G, N>,
    back: Back<Deed, N>,
    account: &mut Account,
    act: Act,
) -> (Back<Deed, N>, Told) {
    match act {
        Act::Whole(call) => {
            let (back, told) = called(rt, shop, back, call);
            account.note(given_by_call(call), told);
            (back, told)
        }
        Act::Part(ask) => {
            let (back, told) = answer(rt, shop, back, ask);
            account.note(given_by_part(ask), told);
            (back, told)
        }
        Act::Drain(max) => (drains(rt, alloc, shop, back, account, max), Told::Unasked),
        Act::Fold => (folds(rt, shop, back, account), Told::Unasked),
        Act::Trim => (trimmed(rt, shop, back), Told::Unasked),
    }
}

/// A seat does this, and notes what a judge sees of it.
fn acts<G: Gate + Drop, N: Ledgers, R: Wait + Clock>(
    rt: &R,
    alloc: Global,
    shop: &Shop<G, N>,
    stamps: &AtomicU64,
    back: Back<Deed, N>,
    account: &mut Account,
    order: Order,
    act: Act,
) -> Back<Deed, N> {
    let seat = back.number();
    let begin = stamps.fetch_add(1, Ordering::SeqCst);
    let (back, told) = does(rt, alloc, shop, back, account, act);
    let end = stamps.fetch_add(1, Ordering::SeqCst);
    account.note_seen(begun(seat, begin, verb_of(order, act)), end, told);
    back
}

/// A worker makes its calls, and tends the queue behind each; its last ticket may stay open.
pub fn works<G: Gate + Drop, N: Ledgers, R: Wait + Clock>(
    rt: &R,
    alloc: Global,
    shop: &Shop<G, N>,
    stamps: &AtomicU64,
    first: Back<Deed, N>,
    round: Round,
) -> Done<N> {
    let number = first.number().number();
    let mut chance = round.chance_of(number);
    let mut account = Account::new(alloc);
    let mut back = first;
    for step in 0..CALLS {
        let item = number.wrapping_mul(CALLS).wrapping_add(step);
        let act = match &back {
            Back::Free(_) => act_of_chance(&mut chance, item, round),
            Back::Held(_) => ending_of_chance(&mut chance),
        };
        back = acts(
            rt,
            alloc,
            shop,
            stamps,
            back,
            &mut account,
            round.order,
            act,
        );
        back = tends(rt, shop, back, &mut account);
    }
    (back, account)
}

/// Each millisecond some of the workers, whose seats are below this one, are interrupted, until none is busy.
pub fn interrupts<G: Gate + Drop, N: Ledgers, R: Wait + Clock>(
    rt: &R,
    alloc: Global,
    shop: &Shop<G, N>,
    stamps: &AtomicU64,
    seat: Seat<Deed, N>,
    round: Round,
    busy: &AtomicU64,
) -> Done<N> {
    let pause = ParkGate::new();
    let workers = seat.number().number();
    let mut chance = round.chance_of(workers);
    let mut account = Account::new(alloc);
    let mut back = Back::Free(seat);
    for _ in rt.forever() {
        if busy.load(Ordering::SeqCst) == 0 {
            return (back, account);
        }
        for target in 0..workers {
            if chance.below(2) == 0 {
                let act = Act::Part(Ask::Interrupt(target));
                back = acts(
                    rt,
                    alloc,
                    shop,
                    stamps,
                    back,
                    &mut account,
                    round.order,
                    act,
                );
                back = tends(rt, shop, back, &mut account);
            }
        }
        let _ = pause.wait(rt, Some(1));
    }
    unreachable!()
}
