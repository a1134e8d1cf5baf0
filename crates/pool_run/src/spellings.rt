//! The laws of the grammar: what is read is what is spelled. Each is the contract of a function that does nothing.

ghost use Rattle.pool_run.specs.Spelling.{RequestsHaveOneSpelling, SettingsHaveOneSpelling, PoolHeadsHaveOneSpelling};
ghost use Rattle.pool_run.specs.RecordSpelling.{PoolRecordsHaveOneSpelling};

/// States that a line reads as a call of a pool exactly if it is that call's one spelling, and the call's numbers are
/// in their limits. So a zero in front, two spaces together, a tab or any other stray byte is a fault.
pub fn requests_have_one_spelling()
    ensures { RequestsHaveOneSpelling }
{}

/// States that a script's first line reads as a pool's settings exactly if it is their one spelling, its numbers are
/// below 2^64, and it has at most 128 bytes.
pub fn settings_have_one_spelling()
    ensures { SettingsHaveOneSpelling }
{}

/// States that a trace's first line reads as a pool's settings exactly if it is their one spelling, and such a pool can
/// be made. It then has at most 128 bytes, whatever the keep-alive time.
pub fn pool_heads_have_one_spelling()
    ensures { PoolHeadsHaveOneSpelling }
{}

/// States that a line reads as a record of a pool exactly if it is that record's one spelling, and the record's numbers
/// are in their limits.
pub fn pool_records_have_one_spelling()
    ensures { PoolRecordsHaveOneSpelling }
{}
