//! The text of a row's columns. If memory runs out, nothing is stated of what was appended.

ghost use Rattle.std.specs.Prelude.{◌≡◌, ◌++◌, nat_le, nat_lt, ◌&&◌, OnOk, IfOk, slice_get};
ghost use Rattle.std.specs.List.{repeat};
ghost use Rattle.meet_draw.specs.Cells.{lane_mark, mark_of, cell, cells, right_aligned};

use crate::columns::{Column, Lane};
use crate::style::{COLUMN_WIDTH, Style};
use itoa::Buffer;
use meet_tickets::SeatNo;
use std::alloc::AllocError;

/// Appends a sign `times` times.
pub(crate) fn push_repeated(out: &mut Vec<u8>, sign: &[u8], times: usize) -> Result<(), AllocError>
    ensures text { OnOk result (out.new.items ≡ out.old.items ++ repeat times sign.now) }
{
    for _ in 0..times {
        out.extend_from_slice(sign)?;
    }
    Ok(())
}

/// Appends a number that ends after `wide` characters.
pub(crate) fn push_right(out: &mut Vec<u8>, wide: usize, number: u64) -> Result<(), AllocError>
    ensures { OnOk result (out.new.items ≡ out.old.items ++ right_aligned wide number) }
{
    let mut buffer = Buffer::new();
    let text = buffer.format(number).as_bytes();
    push_repeated(out, b" ", wide.saturating_sub(text.len()))?;
    out.extend_from_slice(text)
}

/// Appends what stands in a column. Returns how many characters that is.
fn push_lane(out: &mut Vec<u8>, style: Style, lane: Lane) -> Result<usize, AllocError>
    ensures text { OnOk result (out.new.items ≡ out.old.items ++ (lane_mark style lane).text) }
    ensures wide { IfOk result (λ wide. wide ≡ (lane_mark style lane).wide) }
{
    match lane {
        Lane::Clear => Ok(0),
        Lane::Waits(_) => {
            out.extend_from_slice(style.bar())?;
            Ok(1)
        }
        Lane::Settled => {
            out.extend_from_slice(style.dots())?;
            Ok(1)
        }
    }
}

/// Appends the mark of a column in a row of this seat. Returns how many characters that is.
fn push_mark(
    out: &mut Vec<u8>,
    style: Style,
    seat: SeatNo,
    column: Option<Column>,
) -> Result<usize, AllocError>
    ensures text { OnOk result (out.new.items ≡ out.old.items ++ (mark_of style seat column).text) }
    ensures wide { IfOk result (λ wide. wide ≡ (mark_of style seat column).wide) }
{
    match column {
        None => Ok(0),
        Some(column) => {
            if column.seat.number() == seat.number() {
                let mut buffer = Buffer::new();
                let text = buffer.format(seat.number()).as_bytes();
                out.extend_from_slice(text)?;
                Ok(text.len())
            } else {
                push_lane(out, style, column.lane)
            }
        }
    }
}

/// Appends one column of a row, with a link after its mark or without.
fn push_cell(
    out: &mut Vec<u8>,
    style: Style,
    seat: SeatNo,
    linked: bool,
    column: Option<Column>,
) -> Result<(), AllocError>
    ensures { OnOk result (out.new.items ≡ out.old.items ++ cell style seat linked column) }
{
    let wide = push_mark(out, style, seat, column)?;
    let fill = if linked { style.link() } else { b" " };
    push_repeated(out, fill, COLUMN_WIDTH.saturating_sub(wide))
}

/// Whether an index is from one on, and before another.
fn is_within(span: (usize, usize), at: usize) -> bool
    ensures { result ≡ (nat_le span.0 at && nat_lt at span.1) }
{
    span.0 <= at && at < span.1
}

/// The column of this index, if there is one.
fn column_at(columns: &[Column], at: usize) -> Option<Column>
    ensures { result ≡ slice_get columns.now at }
{
    columns.get(at).copied()
}

/// Appends `count` columns of a row.
pub(crate) fn push_cells(
    out: &mut Vec<u8>,
    style: Style,
    count: usize,
    seat: SeatNo,
    span: (usize, usize),
    columns: &[Column],
) -> Result<(), AllocError>
    ensures text { OnOk result (out.new.items ≡ out.old.items ++ cells style count seat span columns.now) }
{
    for at in 0..count {
        push_cell(
            out,
            style,
            seat,
            is_within(span, at),
            column_at(columns, at),
        )?;
    }
    Ok(())
}
