//! What is told of a state file as a whole.

use consent::Moment;

/// What is told of a state file as a whole.
#[derive(Clone, Copy, Debug)]
pub struct FileFacts {
    /// How many bytes it has.
    pub bytes: u64,
    /// How many whole batches.
    pub batches: u64,
    /// How many bytes of an unfinished write stand behind them.
    pub torn: u64,
    /// When it was looked at, where that is known.
    pub looked_at: Option<Moment>,
}
