//! What is known of a state file.

use consent::Moment;

/// What is known of a state file.
#[derive(Drop)]
pub struct Known {
    /// The rules, as the file tells them.
    pub rules: Vec<u8>,
    /// How many bytes of its frames were left when it was shortened.
    pub shortened: usize,
    /// The greatest moment of its horizons.
    pub until: Moment,
}
