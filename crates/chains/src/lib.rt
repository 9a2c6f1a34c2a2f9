//! Lists of numbers, each number in at most one of them, which stand in one row of cells: to put a
//! number into a list or to take it out moves nothing else, and takes no memory.
#![tactic(auto)]

mod chains;

pub use chains::Chains;
