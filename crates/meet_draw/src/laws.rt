//! The laws of a picture: what it shows is true, and no open ticket is missing. Each is the contract of a function that
//! does nothing.

ghost use Rattle.meet_draw.specs.Truth.{ColumnsAreTrue, OpenTicketsAreDrawn};

/// States what a column shows after the rows of a base and of legal records, and so after each row. A bar stands there
/// only if its ticket is the open one of the column's seat and waits in the wait queue. Dots stand there only if the
/// seat's open ticket doesn't. It does nothing.
pub fn columns_are_true()
    ensures { ColumnsAreTrue }
{}

/// States that each open ticket is drawn if there may be a column more: its seat has a column, with a bar or dots. It
/// does nothing.
pub fn open_tickets_are_drawn()
    ensures { OpenTicketsAreDrawn }
{}
