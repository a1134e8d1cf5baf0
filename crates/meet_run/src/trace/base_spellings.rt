//! The laws of a base's lines in a trace: what is read is what is spelled. Each is the contract of a function that does
//! nothing.

ghost use Rattle.meet_run.specs.Tracing.BaseSpelling.{PiecesHaveOneSpelling, BaseNumbersHaveOneSpelling};
ghost use Rattle.meet_run.specs.Tracing.BaseSpelling.{BasedHeadsHaveOneSpelling};

/// States that a line reads as a piece of a base exactly if it is that piece's one spelling, and the piece's numbers
/// are in their limits.
pub fn pieces_have_one_spelling()
    ensures { PiecesHaveOneSpelling }
{}

/// States that a line reads as a base's numbers exactly if it is their one spelling, and they are in their limits.
pub fn base_numbers_have_one_spelling()
    ensures { BaseNumbersHaveOneSpelling }
{}

/// States that the first line of a trace with a base reads as a kind of place exactly if it is its one spelling, and
/// the place may have that bound.
pub fn based_heads_have_one_spelling()
    ensures { BasedHeadsHaveOneSpelling }
{}
