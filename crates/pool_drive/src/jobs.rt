//! The jobs of a demo run.

use pool_threads::{Call, Work};

/// The value of a job: its own number.
pub struct ItsNumber;

impl Work for ItsNumber {
    ghost worth = { λ tag. tag };
}

/// A job that returns its own number.
#[derive(Drop)]
pub struct Numbered {
    /// Its number.
    pub number: u64,
}

impl Call<ItsNumber> for Numbered {
    ghost tag_of = { λ job. job.number };

    fn tag(&self) -> u64 {
        self.number
    }

    fn make(self) -> u64 {
        self.number
    }
}
