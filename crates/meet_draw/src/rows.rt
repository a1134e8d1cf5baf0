//! The rows of a picture. If memory runs out, nothing is stated of what was appended.

ghost use Rattle.std.specs.Prelude.{◌≡◌, ◌++◌, [], length, OnOk, IfOk};
ghost use Rattle.meet_draw.specs.Rows.{columns_after, link_in, row_text, rows_text, columns_behind, longest};

use crate::cells::{push_cells, push_repeated, push_right};
use crate::columns::{Change, Column, change_by, change_columns, give_column, span};
use crate::pieces::{change_of, push_piece, seat_of};
use crate::style::Style;
use meet_history::Piece;
use meet_run::trace::wording::push_record;
use meet_tickets::{Deed, Record, SeatNo};
use std::alloc::{AllocError, Global};

/// What a row shows.
#[derive(Drop)]
pub(crate) enum Shown {
    /// A piece of the base.
    Stood(Piece),
    /// A record, with its number.
    Came(u64, Record<Deed>),
}

/// How rows are laid out.
#[derive(Clone, Copy)]
pub(crate) struct Layout {
    /// The signs with which the picture is drawn.
    pub style: Style,
    /// How many characters a number has.
    pub digits: usize,
    /// How many columns there may be.
    pub most: usize,
    /// How many columns there are.
    pub count: usize,
}

impl Shown {
    ghost use Rattle.meet_draw.specs.Rows.{seat_in, change_in, line_in, number_text, is_bad};

    /// The row's seat.
    fn seat(&self) -> SeatNo
        ensures { result ≡ seat_in self.now }
    {
        match self {
            Shown::Stood(piece) => seat_of(piece),
            Shown::Came(_, entry) => entry.seat,
        }
    }

    /// What the row changes.
    fn change(&self) -> Change
        ensures { result ≡ change_in self.now }
    {
        match self {
            Shown::Stood(piece) => change_of(piece),
            Shown::Came(_, entry) => change_by(entry.ticket, entry.deed),
        }
    }

    /// Appends the row's line, as a trace spells it.
    fn push_line(&self, out: &mut Vec<u8>) -> Result<(), AllocError>
        ensures { OnOk result (out.new.items ≡ out.old.items ++ line_in self.now) }
    {
        match self {
            Shown::Stood(piece) => push_piece(out, piece),
            Shown::Came(_, entry) => push_record(out, *entry),
        }
    }

    /// Appends the row's number, if it is a record's.
    fn push_number(&self, out: &mut Vec<u8>, wide: usize) -> Result<(), AllocError>
        ensures { OnOk result (out.new.items ≡ out.old.items ++ number_text wide self.now) }
    {
        match self {
            Shown::Stood(_) => push_repeated(out, b" ", wide),
            Shown::Came(number, _) => push_right(out, wide, *number),
        }
    }

    /// Whether it is the record that can't stand.
    fn is_bad(&self, bad: Option<u64>) -> bool
        ensures { result ≡ is_bad bad self.now }
    {
        match self {
            Shown::Stood(_) => false,
            Shown::Came(number, _) => match bad {
                None => false,
                Some(bad) => bad == *number,
            },
        }
    }
}

/// Takes a row into the columns. Returns from where to where it links.
#[tactic(auto, unfolding(crate::specs::Rows::columns_after, crate::specs::Rows::link_in))]
fn take_row(
    columns: &mut Vec<Column>,
    most: usize,
    shown: &Shown,
) -> Result<(usize, usize), AllocError>
    ensures columns { OnOk result (columns.new.items ≡ columns_after most shown.now columns.old.items) }
    ensures link { IfOk result (λ link. link ≡ link_in most shown.now columns.old.items) }
{
    let seat = shown.seat();
    let change = shown.change();
    give_column(columns, most, seat)?;
    let link = span(columns.as_slice(), seat, &change);
    change_columns(columns, seat, &change);
    Ok(link)
}

/// Appends a row, and takes it into the columns.
#[tactic(auto, unfolding(crate::specs::Rows::row_text))]
fn push_row(
    out: &mut Vec<u8>,
    layout: &Layout,
    bad: Option<u64>,
    columns: &mut Vec<Column>,
    shown: &Shown,
) -> Result<(), AllocError>
    ensures text { OnOk result (out.new.items ≡ out.old.items ++ row_text layout.now bad columns.old.items shown.now) }
    ensures columns { OnOk result (columns.new.items ≡ columns_after layout.now.most shown.now columns.old.items) }
{
    let link = take_row(columns, layout.most, shown)?;
    shown.push_number(out, layout.digits)?;
    let mark = if shown.is_bad(bad) { b"! " } else { b"  " };
    out.extend_from_slice(mark)?;
    push_cells(
        out,
        layout.style,
        layout.count,
        shown.seat(),
        link,
        columns.as_slice(),
    )?;
    shown.push_line(out)
}

/// Appends rows, from no column on.
pub(crate) fn push_rows(
    alloc: Global,
    out: &mut Vec<u8>,
    layout: &Layout,
    bad: Option<u64>,
    rows: &[Shown],
) -> Result<(), AllocError>
    ensures text { OnOk result (out.new.items ≡ out.old.items ++ rows_text layout.now bad [] rows.now) }
{
    let mut columns = Vec::new(alloc);
    for shown in rows {
        push_row(out, layout, bad, &mut columns, shown)?;
    }
    Ok(())
}

/// How many columns rows need, if there may be `most`.
pub(crate) fn count_columns(alloc: Global, most: usize, rows: &[Shown]) -> Result<usize, AllocError>
    ensures count { IfOk result (λ count. count ≡ length (columns_behind most [] rows.now)) }
{
    let mut columns = Vec::new(alloc);
    for shown in rows {
        take_row(&mut columns, most, shown)?;
    }
    Ok(columns.as_slice().len())
}

/// How long the longest line of rows is, without its end.
pub(crate) fn longest_line(alloc: Global, rows: &[Shown]) -> Result<usize, AllocError>
    ensures long { IfOk result (λ long. long ≡ longest rows.now) }
{
    let mut line = Vec::new(alloc);
    let mut long = 0usize;
    for shown in rows {
        line.clear();
        shown.push_line(&mut line)?;
        long = long.max(line.as_slice().len().saturating_sub(1));
    }
    Ok(long)
}
