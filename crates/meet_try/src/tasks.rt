//! The tasks, by their names.

/// A task of `meet` that reads a queue's text.
#[derive(Clone, Copy)]
pub enum Task {
    /// `meet run`.
    Run,
    /// `meet run --trace`.
    Trace,
    /// `meet check`.
    Check,
    /// `meet check --erase`.
    Erase,
    /// `meet chain`.
    Chain,
}

/// Returns the task of this name.
pub fn task_of(name: &str) -> Option<Task> {
    if name == "run" {
        return Some(Task::Run);
    }
    if name == "trace" {
        return Some(Task::Trace);
    }
    if name == "check" {
        return Some(Task::Check);
    }
    if name == "erase" {
        return Some(Task::Erase);
    }
    if name == "chain" {
        return Some(Task::Chain);
    }
    None
}
