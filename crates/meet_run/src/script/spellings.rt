//! The laws of the grammar: what is read is what is spelled. Each is the contract of a function that does nothing.

ghost use Rattle.meet_run.specs.Scripts.Spelling.{CallsHaveOneSpelling, SetupsAreSpelled};

/// States that a line reads as a call exactly if it is that call's one spelling, the call is in its limits, and the
/// place has it. So a zero in front, two spaces together, a tab or any other stray byte is a fault.
pub fn calls_have_one_spelling()
    ensures { CallsHaveOneSpelling }
{}

/// States that a first line reads as a place exactly if it spells it, with any options at their default left out, and
/// the place is in its limits.
pub fn setups_are_spelled()
    ensures { SetupsAreSpelled }
{}
