//! What a server is handed besides its registry, its hooks and the file of its state.

use event_loop::Limits;
use rand_chacha::ChaCha20Rng;
use telling::Tellings;

/// What a server is handed besides its registry, its hooks and the file of its state.
#[derive(Drop)]
pub struct Means<N, C, J> {
    pub sockets: N,
    pub clocks: C,
    pub journal: J,
    /// Its draws.
    pub generator: ChaCha20Rng,
    /// Those by which it serves. A life begins by the same limit of the clock, beside the moment of its state.
    pub limits: Limits,
    /// Room for what is told of its requests.
    pub tellings: Tellings,
}
