//! The signs of a picture, and how wide it is.

ghost use Rattle.std.specs.Prelude.{◌≡◌, ℕ, ◌≤◌, SomeIff};
ghost use Rattle.meet_draw.specs.Styles.{least_width, most_width, usual_width};

use std::marker::Model;

/// The signs with which a picture is drawn.
#[derive(Clone, Copy, PartialEq, Eq, Debug)]
pub enum Style {
    /// ASCII only.
    Plain,
    /// The box drawing signs of Unicode, in UTF-8.
    Unicode,
}

impl Style {
    ghost use Rattle.meet_draw.specs.Styles.{bar_sign, dots_sign, link_sign};

    /// Where a ticket waits.
    pub(crate) fn bar(self) -> &'static [u8]
        ensures { result.now ≡ bar_sign self }
    {
        match self {
            Style::Plain => b"|",
            Style::Unicode => b"\xE2\x94\x82",
        }
    }

    /// Where a ticket was matched or interrupted, and isn't completed.
    pub(crate) fn dots(self) -> &'static [u8]
        ensures { result.now ≡ dots_sign self }
    {
        match self {
            Style::Plain => b":",
            Style::Unicode => b"\xE2\x94\x8A",
        }
    }

    /// Between a seat and the one whose ticket it meets or interrupts.
    pub(crate) fn link(self) -> &'static [u8]
        ensures { result.now ≡ link_sign self }
    {
        match self {
            Style::Plain => b"-",
            Style::Unicode => b"\xE2\x94\x80",
        }
    }
}

/// The characters of a column: the digits of the last seat, and a space.
pub(crate) const COLUMN_WIDTH: usize = 6;

/// The fewest characters that a row may be given: 20.
pub const LEAST_WIDTH: u64 = 20;

/// The most characters that a row may be given: 1,000.
pub const MOST_WIDTH: u64 = 1000;

/// The characters of a row by default: 100.
pub const USUAL_WIDTH: u64 = 100;

/// How many characters a row of a picture may have, 20 to 1,000.
#[derive(Clone, Copy, PartialEq, Eq, Debug)]
pub struct Width {
    number: u64,
}

impl Model for Width {
    ghost Value = { ℕ };

    ghost view = { λ width. width.number };

    ghost invariant = { λ width. (least_width ≤ width.number) × (width.number ≤ most_width) };

    ghost inverse = { λ number. record { number = number } };
}

impl Width {
    /// Returns the width of this many characters; None exactly if `number` is below 20 or above 1,000.
    ///
    /// # Example
    /// From `crates/meet/src/command_line.rt`:
    ///
    ///     Task::Draw(style, Width::new(columns).unwrap_or(Width::usual()))
    pub fn new(number: u64) -> Option<Self>
        ensures { SomeIff result ((least_width ≤ number) × (number ≤ most_width)) number }
    {
        if LEAST_WIDTH <= number && number <= MOST_WIDTH {
            Some(Width { number })
        } else {
            None
        }
    }

    /// Returns the default width, 100 characters.
    pub fn usual() -> Self
        ensures { result ≡ usual_width }
    {
        Width {
            number: USUAL_WIDTH,
        }
    }

    /// Returns its characters, 20 to 1,000.
    pub fn number(&self) -> u64
        ensures value { result ≡ self.now }
        ensures least { least_width ≤ self.now }
        ensures most { self.now ≤ most_width }
    {
        self.number
    }
}
