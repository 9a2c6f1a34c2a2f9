//! Numbers that look drawn: the same in each run.

use rand_chacha::ChaCha20Rng;
use rand_core::Rng;

/// The next number below a bound, or 0.
pub(super) fn below(rng: &mut ChaCha20Rng, bound: u32) -> u32 {
    rng.next_u32() % bound.max(1)
}

/// The next byte.
pub(super) fn byte(rng: &mut ChaCha20Rng) -> u8 {
    let [low, ..] = rng.next_u32().to_le_bytes();
    low
}
