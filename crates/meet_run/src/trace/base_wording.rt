//! The text of a base in a trace. If memory runs out, nothing is stated of what was appended.

ghost use Rattle.std.specs.Prelude.{◌≡◌, ◌++◌, map, OnOk};
ghost use Rattle.std.specs.List.{flat_map};
ghost use Rattle.meet_history.specs.declared.pieces.Piece.TheVariants.{Stands, Met, Cut, Flagged};
ghost use Rattle.meet_run.specs.Tracing.BaseWording.{placed_text, item_text, standing_text, piece_line};
ghost use Rattle.meet_run.specs.Tracing.BaseWording.{pieces_of, numbers_line, based_head_line};

use crate::text::wording::{push_numbered, push_pair};
use crate::trace::wording::{push_place, side_word};
use meet_tickets::{Base, Entry, Kind, OpenCut, OpenPair, SeatNo, Ticket};
use std::alloc::AllocError;

/// Appends a line's first words: its sort, a seat and a ticket.
fn push_placed(
    out: &mut Vec<u8>,
    sort: &[u8],
    seat: SeatNo,
    ticket: Ticket,
) -> Result<(), AllocError>
    ensures { OnOk result (out.new.items ≡ out.old.items ++ placed_text sort.now seat ticket) }
{
    push_pair(out, sort, seat.number(), b" ", ticket.number())?;
    out.extend_from_slice(b" ")
}

/// Appends the item of a giver, or a taker.
fn push_item(out: &mut Vec<u8>, item: Option<u64>) -> Result<(), AllocError>
    ensures { OnOk result (out.new.items ≡ out.old.items ++ item_text item) }
{
    match item {
        None => out.extend_from_slice(b"take"),
        Some(mark) => push_numbered(out, b"give ", mark),
    }
}

/// Appends how an entry stands.
fn push_standing(out: &mut Vec<u8>, item: Option<u64>, waits: bool) -> Result<(), AllocError>
    ensures { OnOk result (out.new.items ≡ out.old.items ++ standing_text item waits) }
{
    push_item(out, item)?;
    match item {
        None => Ok(()),
        Some(_) if waits => out.extend_from_slice(b" waits"),
        Some(_) => out.extend_from_slice(b" kept"),
    }
}

/// Appends the line of a node of the wait queue.
///
/// # Errors
/// - `AllocError`, if an allocation fails.
#[tactic(auto, unfolding(crate::specs::Tracing::BaseWording::piece_line))]
pub fn push_entry(out: &mut Vec<u8>, entry: &Entry<u64>) -> Result<(), AllocError>
    ensures { OnOk result (out.new.items ≡ out.old.items ++ piece_line (Stands entry.now)) }
{
    push_placed(out, b"line ", entry.seat, entry.ticket)?;
    push_standing(out, entry.item, entry.waits)?;
    out.extend_from_slice(b"\n")
}

/// Appends the line of a pending request that was matched.
///
/// # Errors
/// - `AllocError`, if an allocation fails.
#[tactic(auto, unfolding(crate::specs::Tracing::BaseWording::piece_line))]
pub fn push_met(out: &mut Vec<u8>, pair: OpenPair) -> Result<(), AllocError>
    ensures { OnOk result (out.new.items ≡ out.old.items ++ piece_line (Met pair)) }
{
    push_placed(out, b"pair ", pair.seat, pair.ticket)?;
    out.extend_from_slice(side_word(pair.side))?;
    push_pair(out, b" ", pair.partner.number(), b" ", pair.mark)?;
    out.extend_from_slice(b"\n")
}

/// Appends the line of a pending request that was interrupted.
///
/// # Errors
/// - `AllocError`, if an allocation fails.
#[tactic(auto, unfolding(crate::specs::Tracing::BaseWording::piece_line))]
pub fn push_cut(out: &mut Vec<u8>, cut: OpenCut) -> Result<(), AllocError>
    ensures { OnOk result (out.new.items ≡ out.old.items ++ piece_line (Cut cut)) }
{
    push_placed(out, b"cut ", cut.seat, cut.ticket)?;
    push_item(out, cut.item)?;
    out.extend_from_slice(b"\n")
}

/// Appends the line of a seat with a pending interrupt.
///
/// # Errors
/// - `AllocError`, if an allocation fails.
#[tactic(auto, unfolding(crate::specs::Tracing::BaseWording::piece_line))]
pub fn push_flag(out: &mut Vec<u8>, seat: SeatNo) -> Result<(), AllocError>
    ensures { OnOk result (out.new.items ≡ out.old.items ++ piece_line (Flagged seat)) }
{
    push_numbered(out, b"flag ", seat.number())?;
    out.extend_from_slice(b"\n")
}

/// Appends a base's first line.
#[tactic(auto, unfolding(crate::specs::Tracing::BaseWording::numbers_line))]
fn push_numbers(out: &mut Vec<u8>, base: &Base) -> Result<(), AllocError>
    ensures { OnOk result (out.new.items ≡ out.old.items ++ numbers_line base.now) }
{
    push_pair(out, b"base ", base.gone, b" ", base.last.number())?;
    out.extend_from_slice(b"\n")
}

/// Appends the lines of a base's line.
fn push_line(out: &mut Vec<u8>, entries: &[Entry<u64>]) -> Result<(), AllocError>
    ensures text { OnOk result (out.new.items ≡ out.old.items ++ flat_map piece_line (map Stands entries.now)) }
{
    for entry in entries {
        push_entry(out, entry)?;
    }
    Ok(())
}

/// Appends the lines of its open tickets that were met.
fn push_pairs(out: &mut Vec<u8>, pairs: &[OpenPair]) -> Result<(), AllocError>
    ensures text { OnOk result (out.new.items ≡ out.old.items ++ flat_map piece_line (map Met pairs.now)) }
{
    for entry in pairs {
        push_met(out, *entry)?;
    }
    Ok(())
}

/// Appends the lines of its open tickets that were cut.
fn push_cuts(out: &mut Vec<u8>, cuts: &[OpenCut]) -> Result<(), AllocError>
    ensures text { OnOk result (out.new.items ≡ out.old.items ++ flat_map piece_line (map Cut cuts.now)) }
{
    for entry in cuts {
        push_cut(out, *entry)?;
    }
    Ok(())
}

/// Appends the lines of its flagged seats.
fn push_flags(out: &mut Vec<u8>, flags: &[SeatNo]) -> Result<(), AllocError>
    ensures text { OnOk result (out.new.items ≡ out.old.items ++ flat_map piece_line (map Flagged flags.now)) }
{
    for entry in flags {
        push_flag(out, *entry)?;
    }
    Ok(())
}

/// Appends the lines of a base's pieces.
#[tactic(auto, using(crate::proofs::Tracing::PieceLines::all_lines))]
fn push_pieces(out: &mut Vec<u8>, base: &Base) -> Result<(), AllocError>
    ensures { OnOk result (out.new.items ≡ out.old.items ++ flat_map piece_line (pieces_of base.now)) }
{
    push_line(out, base.line.as_slice())?;
    push_pairs(out, base.pairs.as_slice())?;
    push_cuts(out, base.cut.as_slice())?;
    push_flags(out, base.flags.as_slice())
}

/// Appends the first line of a trace that has a base, and the base's lines.
#[tactic(auto, unfolding(crate::specs::Tracing::BaseWording::based_head_line))]
pub(crate) fn push_base(out: &mut Vec<u8>, kind: Kind, base: &Base) -> Result<(), AllocError>
    ensures { OnOk result (out.new.items ≡ out.old.items
        ++ (based_head_line kind ++ (numbers_line base.now ++ flat_map piece_line (pieces_of base.now)))) }
{
    out.extend_from_slice(b"trace 2 ")?;
    push_place(out, kind)?;
    out.extend_from_slice(b"\n")?;
    push_numbers(out, base)?;
    push_pieces(out, base)
}
