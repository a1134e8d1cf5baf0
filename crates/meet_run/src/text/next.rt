//! The next line of a text.

ghost use Rattle.std.specs.Prelude.{◌≡◌};
ghost use Rattle.meet_run.specs.Scripts.Running.{next_from};

use crate::text::reading::LineRead;

/// The next line of a text.
#[derive(Clone, Copy, PartialEq, Eq, Debug)]
pub enum Next<A> {
    /// It reads as this.
    Read(A),
    /// There is none.
    Ended,
    /// It reads as nothing.
    Faulty,
    /// A read failed, or no turn was left for it.
    Broken,
}

/// Returns the next line, by the result of reading it and by what it then reads as.
pub fn next_of<A: Copy>(came: LineRead, read: Option<A>) -> Next<A>
    ensures { result ≡ next_from came read }
{
    match came {
        LineRead::Line => match read {
            Some(item) => Next::Read(item),
            None => Next::Faulty,
        },
        LineRead::End => Next::Ended,
        LineRead::TooLong => Next::Faulty,
        LineRead::Failed => Next::Broken,
    }
}
