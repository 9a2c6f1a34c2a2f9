//! What the loop works with.
pub use change_codec::{Batch, Keeper};
pub use hook_host::HookHost;
use http_edge::Edge;
pub use outside::{Clocks, Journal, Sockets};
use rand_chacha::ChaCha20Rng;
use telling::Tellings;

/// What the loop works with: sockets, an edge, clocks, a generator of draws, a journal, a keeper, and what was told of requests
/// and was not handed on yet.
#[derive(Drop)]
pub struct Tools<N, C, J, K, H> {
    pub sockets: N,
    pub edge: Edge<H>,
    pub clocks: C,
    pub generator: ChaCha20Rng,
    pub journal: J,
    pub keeper: K,
    pub tellings: Tellings,
}
