//! The word of a slot: what is going on there, by whom, and in which round.

ghost use Rattle.std.specs.Prelude.{◌≡◌, ◌<◌, ◌≤◌};
ghost use Rattle.meet_tickets.specs.Limits.{last_round};
ghost use Rattle.meet_exchange.specs.Words.{word_of, code_in, number_in};

use meet_tickets::SeatNo;

/// How far apart the words of two rounds are.
const ROUND_UNIT: u64 = 524_288;

/// Nobody uses the slot.
pub(crate) const FREE: u64 = 0;

/// The seat that claimed the round alone uses the slot's item.
pub(crate) const HELD: u64 = 1;

/// That seat's item may be taken.
pub(crate) const POSTED: u64 = 2;

/// The other seat's item waits for that seat. Before it, while another seat exchanges the items, the code is 3.
pub(crate) const ANSWERED: u64 = 4;

/// The word of this code, in this round of this seat's.
pub(crate) fn word(code: u64, owner: SeatNo, round: u64) -> u64
    requires code { code < 8 }
    requires round { round ≤ last_round }
    ensures { result ≡ word_of code owner round }
{
    code + 8 * owner.number() + ROUND_UNIT * round
}

/// The word of a slot that is free in this round.
pub(crate) fn free_word(round: u64) -> u64
    requires round { round ≤ last_round }
    ensures { result ≡ word_of 0 0 round }
{
    ROUND_UNIT * round
}

/// The code in a word.
pub(crate) fn code(word: u64) -> u64
    ensures { result ≡ code_in word }
{
    word % 8
}

/// The round in a word.
pub(crate) fn round(word: u64) -> u64
    ensures { result ≡ number_in word }
{
    word / ROUND_UNIT
}
