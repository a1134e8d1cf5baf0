//! The laws of a whole script's text. Each is the contract of a function that does nothing.

ghost use Rattle.meet_run.specs.Scripts.Script.{ScriptsAreAnswered, FaultsEndScripts};

/// States that a script whose first line is a place, and whose other lines are calls, has no fault. It writes the
/// replies of one thread to these calls, and then the last line: how many records they wrote, and what is left at the
/// end.
pub fn scripts_are_answered()
    ensures { ScriptsAreAnswered }
{}

/// States that a script with a line that is no call has its fault there. It writes the replies to the calls before it,
/// whatever follows.
pub fn faults_end_scripts()
    ensures { FaultsEndScripts }
{}
