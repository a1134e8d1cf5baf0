//! The picture of a base and the records after it. If memory runs out, nothing is stated of what was appended.

ghost use Rattle.std.specs.Prelude.{◌≡◌, ◌+◌, ◌^◌, ◌<◌, ◌++◌, length, OnOk, IfOk, decimal};
ghost use Rattle.meet_draw.specs.Pictures.{shown_of, most_columns, layout_of, place_line, drawn};

use crate::rows::{Layout, Shown, count_columns, longest_line, push_rows};
use crate::style::{COLUMN_WIDTH, Style, Width};
use itoa::Buffer;
use meet_history::Piece;
use meet_run::text::wording::push_numbered;
use meet_run::trace::wording::order_word;
use meet_tickets::{Base, Deed, Entry, Kind, Record};
use std::alloc::{AllocError, Global};

/// What is shown of a base and the records after it.
fn rows_of(alloc: Global, base: &Base, records: &[Record<Deed>]) -> Result<Vec<Shown>, AllocError>
    requires { base.now.gone + length records.now < 2 ^ 64 }
    ensures shown { IfOk result (λ rows. rows.items ≡ shown_of base.now records.now) }
{
    let mut rows = Vec::new(alloc);
    for entry in base.line.iter() {
        let piece = Piece::Stands(Entry {
            ticket: entry.ticket,
            seat: entry.seat,
            item: entry.item,
            waits: entry.waits,
        });
        rows.push(Shown::Stood(piece))?;
    }
    for pair in base.pairs.iter() {
        rows.push(Shown::Stood(Piece::Met(*pair)))?;
    }
    for cut in base.cut.iter() {
        rows.push(Shown::Stood(Piece::Cut(*cut)))?;
    }
    for seat in base.flags.iter() {
        rows.push(Shown::Stood(Piece::Flagged(*seat)))?;
    }
    let mut number = base.gone;
    for record in records {
        number += 1;
        rows.push(Shown::Came(number, *record))?;
    }
    Ok(rows)
}

/// How many digits a number has.
fn count_digits(number: u64) -> usize
    ensures { result ≡ length (decimal number) }
{
    let mut buffer = Buffer::new();
    buffer.format(number).len()
}

/// How many columns there may be: as many as fit into a row beside its number, two characters and the longest line, and
/// at least one.
fn columns_within(width: Width, digits: usize, long: usize) -> usize
    ensures { result ≡ most_columns width digits long }
{
    let rest = (width.number() as usize)
        .saturating_sub(long)
        .saturating_sub(digits)
        .saturating_sub(2);
    (rest / COLUMN_WIDTH).max(1)
}

/// How these rows are laid out, of which the last has this number.
fn lay_out(
    alloc: Global,
    style: Style,
    width: Width,
    last: u64,
    rows: &[Shown],
) -> Result<Layout, AllocError>
    ensures { IfOk result (λ layout. layout ≡ layout_of style width last rows.now) }
{
    let digits = count_digits(last);
    let long = longest_line(alloc, rows)?;
    let most = columns_within(width, digits, long);
    let count = count_columns(alloc, most, rows)?;
    Ok(Layout {
        style,
        digits,
        most,
        count,
    })
}

/// Appends the line of a place.
fn push_place(out: &mut Vec<u8>, kind: Kind) -> Result<(), AllocError>
    ensures { OnOk result (out.new.items ≡ out.old.items ++ place_line kind) }
{
    out.extend_from_slice(order_word(kind.order))?;
    match kind.bound {
        None => {}
        Some(most) => push_numbered(out, b" bound ", most)?,
    }
    out.extend_from_slice(b"\n")
}

/// The picture of a base and the records after it, of which this one can't stand, if one can't.
#[tactic(auto, unfolding(crate::specs::Pictures::drawn))]
pub(crate) fn draw_records(
    alloc: Global,
    style: Style,
    width: Width,
    kind: Kind,
    base: &Base,
    records: &[Record<Deed>],
    bad: Option<u64>,
) -> Result<Vec<u8>, AllocError>
    requires { base.now.gone + length records.now < 2 ^ 64 }
    ensures { IfOk result (λ out. out.items ≡ drawn style width kind base.now records.now bad) }
{
    let rows = rows_of(alloc, base, records)?;
    let last = base.gone + records.len() as u64;
    let layout = lay_out(alloc, style, width, last, rows.as_slice())?;
    let mut out = Vec::new(alloc);
    push_place(&mut out, kind)?;
    push_rows(alloc, &mut out, &layout, bad, rows.as_slice())?;
    Ok(out)
}
