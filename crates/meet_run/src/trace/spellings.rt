//! The laws of a trace's grammar: what is read is what is spelled. Each is the contract of a function that does
//! nothing.

ghost use Rattle.meet_run.specs.Tracing.TraceSpelling.{RecordsHaveOneSpelling, HeadsHaveOneSpelling};
ghost use Rattle.meet_run.specs.Tracing.TraceTexts.{TracesHaveOneText, BasedTracesHaveOneText};

/// States that a line reads as a record exactly if it is that record's one spelling, and the record's numbers are in
/// their limits. So a zero in front, two spaces together, a tab or any other stray byte is a fault.
pub fn records_have_one_spelling()
    ensures { RecordsHaveOneSpelling }
{}

/// States that a first line reads as a kind of place exactly if it is its one spelling, and the place may have that
/// bound.
pub fn heads_have_one_spelling()
    ensures { HeadsHaveOneSpelling }
{}

/// States that a text reads as a whole trace exactly if it is the text that would be written of it, and all is in its
/// limits. Only the end of the last line may be missing. So two texts of the same history are the same but for that
/// end.
pub fn traces_have_one_text()
    ensures { TracesHaveOneText }
{}

/// States that a text reads as a whole trace with a base on three conditions, and only then: it is the text that would
/// be written of it, the base is well formed, and all is in its limits. Only the end of the last line may be missing.
pub fn based_traces_have_one_text()
    ensures { BasedTracesHaveOneText }
{}
