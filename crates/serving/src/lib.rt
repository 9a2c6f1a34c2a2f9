//! One connection served: what a stream brings goes to the edge, and what the edge answers goes to the stream.
//!
//! It knows streams, clocks and generators of draws by what they do, and no socket.
#![tactic(auto)]

mod clock;
mod fault;
mod piece_draws;
mod serve;
mod stream;

pub use clock::Clock;
pub use fault::ServeFault;
pub use serve::serve_one;
pub use stream::Stream;
