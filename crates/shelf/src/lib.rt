//! What is kept under digests until it expires: in slots, each found by its digest, and let go of by
//! the second at which it expires. To put something in or to take it out moves nothing else, what has
//! expired goes a look at a time, and how much has not is known without a look at it. And what is kept
//! by number, in slots too.
#![tactic(auto)]

mod counting;
mod expiring;
mod filling;
mod finding;
mod looking;
mod rack;
mod shelf;
mod slots;
mod stand;
mod tally;

pub use looking::Look;
pub use rack::{Rack, Stays};
pub use shelf::{Lasts, Shelf, Slot};
pub use slots::{Blank, Slots};
pub use stand::Stand;
