//! The progress of a demo run, reported while it lasts.

/// Receives the progress of a demo run, each second that it lasts.
pub trait Progress {
    /// Reports that `taken` of all items were taken so far.
    fn tell(&self, taken: u64, all: u64);
}

/// Ignores the progress.
#[derive(Drop)]
pub struct Silent {}

impl Progress for Silent {
    fn tell(&self, _taken: u64, _all: u64) {}
}
