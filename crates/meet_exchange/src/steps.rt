//! The ten kinds of step, and the moves of an item in a slot that a token has in hand.

ghost use Rattle.std.specs.Prelude.{◌≡◌, ◌≢◌, ◌<◌, ◌≤◌, [], ◌∷◌, None, IfOk, IfErr};
ghost use Rattle.meet_tickets.specs.Limits.{last_round};
ghost use Rattle.meet_exchange.specs.declared.records.SlotDeed.TheVariants.{Posted, Withdrawn, Swapped, Collected};
ghost use Rattle.meet_exchange.specs.declared.views.Duty.TheVariants.{Claimed, Offering, Ready};
ghost use Rattle.meet_exchange.specs.declared.views.InHand.TheVariants.{Nothing, At};
ghost use Rattle.meet_exchange.specs.Words.{code_in, number_in};
ghost use Rattle.meet_exchange.specs.Rounds.{part};
ghost use Rattle.meet_exchange.specs.Rule.{top, Fits};
ghost use Rattle.meet_exchange.specs.Told.{saw, holds_now, did};

use crate::plays::{
    Answer, Claim, Clear, Collect, Exchanges, Find, Gain, Look, Post, Take, Withdraw,
};
use crate::views::{Plan, View};
use crate::words::{ANSWERED, HELD, POSTED, free_word, word};
use atomic_table::{Seat, Shared};
use meet_tickets::{Marked, SeatNo};

/// The words and the items of an arena.
pub(crate) type Board<T> = Shared<Option<T>, View, Plan, Exchanges>;

/// What a seat makes its steps with.
pub(crate) type Token<T> = Seat<Option<T>, View>;

/// The slot's word.
pub(crate) fn look<T: Marked>(board: &Board<T>, token: &mut Token<T>, slot: usize) -> u64
    requires place { Fits board.now.table_id board.now.key token.old.table_id slot }
    requires one { token.old.me.0 ≡ top token.old.me.0 ∷ [] }
    ensures place { (token.new.table_id ≡ token.old.table_id) × (token.new.id ≡ token.old.id) }
    ensures round { number_in result ≤ last_round }
    ensures told { token.new.me ≡ (saw (top token.old.me.0) slot result ∷ [], token.old.me.1) }
{
    board.load::<Look>(token, slot)
}

/// The slot's word, for a seat whose offer stands there. An answer that it sees is its own to collect.
pub(crate) fn find<T: Marked>(
    board: &Board<T>,
    token: &mut Token<T>,
    slot: usize,
    round: u64,
    mark: u64,
) -> u64
    requires place { Fits board.now.table_id board.now.key token.old.table_id slot }
    requires posted { (token.old.me ≡ (top token.old.me.0 ∷ [], []))
        × ((top token.old.me.0).hand ≡ At slot round (Offering mark)) }
    ensures place { (token.new.table_id ≡ token.old.table_id) × (token.new.id ≡ token.old.id) }
    ensures none { code_in result ≢ 4 → token.new.me ≡ (saw (top token.old.me.0) slot result ∷ [], []) }
    ensures seen { code_in result ≡ 4 → token.new.me
        ≡ (saw (holds_now (top token.old.me.0) (At slot round (Ready mark))) slot result ∷ [], []) }
{
    let _ = (round, mark);
    board.load::<Find>(token, slot)
}

/// Claims a slot that was seen free, and returns the word that it found.
pub(crate) fn claim<T: Marked>(
    board: &Board<T>,
    token: &mut Token<T>,
    slot: usize,
    number: SeatNo,
    seen: u64,
) -> u64
    requires place { Fits board.now.table_id board.now.key token.old.table_id slot }
    requires idle { (token.old.me ≡ (top token.old.me.0 ∷ [], [])) × ((top token.old.me.0).hand ≡ Nothing)
        × ((top token.old.me.0).number ≡ number) }
    requires free { (code_in seen ≡ 0) × (number_in seen ≤ last_round) }
    ensures place { (token.new.table_id ≡ token.old.table_id) × (token.new.id ≡ token.old.id) }
    ensures claimed { result ≡ seen → token.new.me
        ≡ (holds_now (top token.old.me.0) (At slot (number_in seen) Claimed) ∷ [], (slot, None) ∷ []) }
    ensures missed { result ≢ seen → token.new.me ≡ (saw (top token.old.me.0) slot result ∷ [], []) }
{
    board.compare_exchange::<Claim>(token, slot, seen, seen + 1 + 8 * number.number())
}

/// Puts the item into a claimed slot, and posts it.
pub(crate) fn post<T: Marked>(
    board: &Board<T>,
    token: &mut Token<T>,
    slot: usize,
    number: SeatNo,
    round: u64,
    item: T,
)
    requires place { Fits board.now.table_id board.now.key token.old.table_id slot }
    requires claimed { (token.old.me ≡ (top token.old.me.0 ∷ [], (slot, None) ∷ []))
        × ((top token.old.me.0).hand ≡ At slot round Claimed) × ((top token.old.me.0).number ≡ number) }
    requires round { round ≤ last_round }
    ensures place { (token.new.table_id ≡ token.old.table_id) × (token.new.id ≡ token.old.id) }
    ensures posted { token.new.me ≡ (
      did (top token.old.me.0) (part slot round (Posted (T.mark_of item)))
          (At slot round (Offering (T.mark_of item))) ∷ [],
      [],
    ) }
{
    let old = board.exchange(token, slot, Some(item));
    let None = old else { unreachable!() };
    board.store::<Post>(token, slot, word(POSTED, number, round));
}

/// Takes a posted item back and clears the slot, or returns the word that it found.
pub(crate) fn withdraw<T: Marked>(
    board: &Board<T>,
    token: &mut Token<T>,
    slot: usize,
    number: SeatNo,
    round: u64,
    mark: u64,
) -> Result<T, u64>
    requires place { Fits board.now.table_id board.now.key token.old.table_id slot }
    requires posted { (token.old.me ≡ (top token.old.me.0 ∷ [], []))
        × ((top token.old.me.0).hand ≡ At slot round (Offering mark)) × ((top token.old.me.0).number ≡ number) }
    requires round { round < last_round }
    ensures place { (token.new.table_id ≡ token.old.table_id) × (token.new.id ≡ token.old.id) }
    ensures back { IfOk result (λ x. (T.mark_of x ≡ mark)
        × (token.new.me ≡ (did (top token.old.me.0) (part slot round Withdrawn) Nothing ∷ [], []))) }
    ensures late { IfErr result (λ found. (code_in found ≢ 2)
        × (token.new.me ≡ (saw (top token.old.me.0) slot found ∷ [], []))) }
{
    let _ = mark;
    let posted = word(POSTED, number, round);
    let held = word(HELD, number, round);
    let found = board.compare_exchange::<Withdraw>(token, slot, posted, held);
    if found != posted {
        return Err(found);
    }
    let item = board.exchange(token, slot, None).unwrap();
    board.store::<Clear>(token, slot, free_word(round + 1));
    Ok(item)
}

/// Takes a posted item and answers it by another, or returns that and the word that it found.
pub(crate) fn swap<T: Marked>(
    board: &Board<T>,
    token: &mut Token<T>,
    slot: usize,
    seen: u64,
    item: T,
) -> Result<T, (T, u64)>
    requires place { Fits board.now.table_id board.now.key token.old.table_id slot }
    requires idle { (token.old.me ≡ (top token.old.me.0 ∷ [], [])) × ((top token.old.me.0).hand ≡ Nothing) }
    requires posted { code_in seen ≡ 2 }
    ensures place { (token.new.table_id ≡ token.old.table_id) × (token.new.id ≡ token.old.id) }
    ensures swapped { IfOk result (λ x. token.new.me ≡ (
      did (top token.old.me.0)
          (part slot (number_in seen) (Swapped (T.mark_of item) (T.mark_of x))) Nothing ∷ [],
      [],
    )) }
    ensures missed { IfErr result (λ e. (e.0 ≡ item) × (e.1 ≢ seen)
        × (token.new.me ≡ (saw (top token.old.me.0) slot e.1 ∷ [], []))) }
{
    let given = Some(item);
    let found = board.compare_exchange_with::<Take>(token, slot, seen, seen + 1, &given);
    if found != seen {
        return Err((given.unwrap(), found));
    }
    let got = board.exchange(token, slot, given).unwrap();
    board.fetch_add::<Answer>(token, slot, 1);
    Ok(got)
}

/// Takes the item that was seen to answer a posted one, and clears the slot.
pub(crate) fn gain<T: Marked>(
    board: &Board<T>,
    token: &mut Token<T>,
    slot: usize,
    number: SeatNo,
    round: u64,
    mark: u64,
) -> T
    requires place { Fits board.now.table_id board.now.key token.old.table_id slot }
    requires ready { (token.old.me ≡ (top token.old.me.0 ∷ [], []))
        × ((top token.old.me.0).hand ≡ At slot round (Ready mark)) × ((top token.old.me.0).number ≡ number) }
    requires round { round < last_round }
    ensures place { (token.new.table_id ≡ token.old.table_id) × (token.new.id ≡ token.old.id) }
    ensures got { token.new.me
        ≡ (did (top token.old.me.0) (part slot round (Collected (T.mark_of result))) Nothing ∷ [], []) }
{
    let _ = mark;
    let answered = word(ANSWERED, number, round);
    let held = word(HELD, number, round);
    let found = board.compare_exchange::<Gain>(token, slot, answered, held);
    let _ = found;
    let item = board.exchange(token, slot, None).unwrap();
    board.store::<Clear>(token, slot, free_word(round + 1));
    item
}

/// Takes the item that answers a posted one and clears the slot, or returns the word that it found.
pub(crate) fn collect<T: Marked>(
    board: &Board<T>,
    token: &mut Token<T>,
    slot: usize,
    number: SeatNo,
    round: u64,
    mark: u64,
) -> Result<T, u64>
    requires place { Fits board.now.table_id board.now.key token.old.table_id slot }
    requires posted { (token.old.me ≡ (top token.old.me.0 ∷ [], []))
        × ((top token.old.me.0).hand ≡ At slot round (Offering mark)) × ((top token.old.me.0).number ≡ number) }
    requires round { round < last_round }
    ensures place { (token.new.table_id ≡ token.old.table_id) × (token.new.id ≡ token.old.id) }
    ensures got { IfOk result (λ x. token.new.me
        ≡ (did (top token.old.me.0) (part slot round (Collected (T.mark_of x))) Nothing ∷ [], [])) }
    ensures not_yet { IfErr result (λ found. (code_in found ≢ 4)
        × (token.new.me ≡ (saw (top token.old.me.0) slot found ∷ [], []))) }
{
    let _ = mark;
    let answered = word(ANSWERED, number, round);
    let held = word(HELD, number, round);
    let found = board.compare_exchange::<Collect>(token, slot, answered, held);
    if found != answered {
        return Err(found);
    }
    let item = board.exchange(token, slot, None).unwrap();
    board.store::<Clear>(token, slot, free_word(round + 1));
    Ok(item)
}
