//! Draws by a generator (RFC 8439, section 2.4).
ghost use Rattle.std.specs.Prelude.{◌≡◌, None};
ghost use Rattle.http_edge.specs.Chance.{next_draws, moved, draws_by, moved_by};

use crate::source::{Demand, DrawSource};
use messages::Draws;
use rand_chacha::ChaCha20Rng;
use rand_core::utils::fill_bytes_via_u32;

// What a request has that wants no draws.
const NO_DRAWS: Draws = Draws {
    first: [0; 32],
    second: [0; 32],
};

// The draws by the next 16 words of a generator, the low byte of each first.
fn draw(rng: &mut ChaCha20Rng) -> Draws
    ensures value { result ≡ next_draws rng.old }
    ensures after { rng.new ≡ moved rng.old 16 }
{
    // Its bound says that the place of the next word has not wrapped.
    let _place = rng.get_word_pos();
    let mut first = [0; 32];
    let mut second = [0; 32];
    fill_bytes_via_u32(rng, &mut first);
    fill_bytes_via_u32(rng, &mut second);
    Draws { first, second }
}

/// It gives its next draws to each request that demands some, and never ends.
impl DrawSource for ChaCha20Rng {
    ghost supply = { λ _. None };

    ghost draws = { draws_by };

    ghost behind = { moved_by };

    fn suffices(&self, _count: usize) -> bool {
        true
    }

    fn draw(&mut self, demand: Demand) -> Draws {
        match demand {
            Demand::Fresh => draw(self),
            Demand::Nothing => NO_DRAWS,
        }
    }
}
