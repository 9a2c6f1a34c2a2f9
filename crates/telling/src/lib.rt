//! What is told of a request that was answered: whose it was, what came of it, and what each hook left. It decides nothing.
#![tactic(auto)]

mod came;
mod changed;
mod facts;
mod interest;
mod telling;
mod tellings;
mod told;

pub use facts::Facts;
pub use interest::Interest;
pub use telling::{Stepped, Upshot, told_sought};
pub use tellings::Tellings;
pub use told::Told;
