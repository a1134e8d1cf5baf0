//! When a side of the wait queue isn't empty.

use std::alloc::{AllocError, Global};

/// A time during which somebody of one side stands in the wait queue.
#[derive(Clone, Copy, PartialEq, Eq, PartialOrd, Ord)]
struct Block {
    from: u64,
    until: u64,
}

/// All times during which somebody of one side stands in the wait queue: blocks that rise and don't overlap.
#[derive(Drop)]
pub(crate) struct Busy {
    blocks: Vec<Block>,
}

impl Busy {
    /// The wait queue is always empty.
    pub(crate) fn never(alloc: Global) -> Busy {
        Busy {
            blocks: Vec::new(alloc),
        }
    }

    /// Somebody stands there for this time. The times come in any order, and are put in order by `settle`.
    pub(crate) fn note(&mut self, from: u64, until: u64) -> Result<(), AllocError> {
        if from < until {
            self.blocks.push(Block { from, until })?;
        }
        Ok(())
    }

    /// Puts the times in order, and joins those that overlap. Fails only if an allocation fails.
    pub(crate) fn settle(&mut self, alloc: Global) -> Result<(), AllocError> {
        self.blocks.sort_unstable();
        let mut joined: Vec<Block> = Vec::new(alloc);
        let mut last: Option<Block> = None;
        for block in &self.blocks {
            last = match last {
                None => Some(*block),
                Some(before) => {
                    if block.from <= before.until {
                        Some(Block {
                            from: before.from,
                            until: before.until.max(block.until),
                        })
                    } else {
                        joined.push(before)?;
                        Some(*block)
                    }
                }
            };
        }
        if let Some(block) = last {
            joined.push(block)?;
        }
        self.blocks = joined;
        Ok(())
    }

    /// The first time, from this one on, at which nobody stands there. At the very time at which a block begins or ends
    /// the queue is still, or already, empty.
    pub(crate) fn free_from(&self, at: u64) -> u64 {
        let behind = self.blocks.partition_point(|block| block.from < at);
        if behind == 0 || self.blocks.len() < behind {
            return at;
        }
        at.max(self.blocks[behind - 1].until)
    }
}
