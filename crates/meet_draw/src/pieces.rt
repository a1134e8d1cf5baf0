//! The lines of a base's pieces, as a trace spells them. If memory runs out, nothing is stated of what was appended.

ghost use Rattle.std.specs.Prelude.{◌≡◌, ◌++◌, OnOk};
ghost use Rattle.meet_run.specs.Tracing.BaseWording.{piece_line};
ghost use Rattle.meet_draw.specs.Rows.{piece_seat, piece_change};

use crate::columns::Change;
use meet_history::Piece;
use meet_run::trace::base_wording::{push_cut, push_entry, push_flag, push_met};
use meet_tickets::SeatNo;
use std::alloc::AllocError;

/// The seat of a piece.
pub(crate) fn seat_of(piece: &Piece) -> SeatNo
    ensures { result ≡ piece_seat piece.now }
{
    match piece {
        Piece::Stands(entry) => entry.seat,
        Piece::Met(pair) => pair.seat,
        Piece::Cut(cut) => cut.seat,
        Piece::Flagged(seat) => *seat,
    }
}

/// What a piece states of its ticket.
pub(crate) fn change_of(piece: &Piece) -> Change
    ensures { result ≡ piece_change piece.now }
{
    match piece {
        Piece::Stands(entry) => {
            if entry.waits {
                Change::Opens(entry.ticket)
            } else {
                Change::Nothing
            }
        }
        Piece::Met(_) => Change::Owed,
        Piece::Cut(_) => Change::Owed,
        Piece::Flagged(_) => Change::Nothing,
    }
}

/// Appends a piece's line.
pub(crate) fn push_piece(out: &mut Vec<u8>, piece: &Piece) -> Result<(), AllocError>
    ensures { OnOk result (out.new.items ≡ out.old.items ++ piece_line piece.now) }
{
    match piece {
        Piece::Stands(entry) => push_entry(out, entry),
        Piece::Met(pair) => push_met(out, *pair),
        Piece::Cut(cut) => push_cut(out, *cut),
        Piece::Flagged(seat) => push_flag(out, *seat),
    }
}
