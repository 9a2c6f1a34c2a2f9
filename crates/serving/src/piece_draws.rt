//! What the requests of a piece have their draws from.
ghost use Rattle.std.specs.Prelude.{◌≡◌, Some};
ghost use Rattle.http_edge.specs.Chance.{draws_by, moved};
ghost use Rattle.serving.specs.PieceDraws.{piece_draws, one_fewer_draws, behind_piece};

use http_edge::{Demand, DrawSource};
use messages::Draws;
use rand_chacha::ChaCha20Rng;

/// So many words of a generator are the draws of a request.
const DRAWS_WORDS: u32 = 16;

/// So many draws are a piece's own.
const PIECE_DRAWS: u32 = 64;

/// The draws of one piece, one after another. Those of a request that demands none are left out, and not made.
#[derive(Drop)]
pub(crate) struct PieceDraws {
    // It stands at the next draws.
    words: ChaCha20Rng,
    left: u32,
}

// Leaves out so many words of a generator.
fn skip(words: &mut ChaCha20Rng, count: u32)
    ensures { words.new ≡ moved words.old count }
{
    let place = words.get_word_pos();
    words.set_word_pos(place + u128::from(count));
}

impl PieceDraws {
    /// The draws of the piece that was read, by the next words of a generator, which stands behind all of them from then on.
    pub(crate) fn of_next(rng: &mut ChaCha20Rng) -> PieceDraws
        ensures next { result ≡ piece_draws rng.old }
        ensures behind { rng.new ≡ behind_piece rng.old }
    {
        let Ok(words) = rng.clone() else {
            unreachable!();
        };
        skip(rng, PIECE_DRAWS * DRAWS_WORDS);
        PieceDraws {
            words,
            left: PIECE_DRAWS,
        }
    }
}

/// The k-th request has the k-th draws, whatever those before it demanded.
impl DrawSource for PieceDraws {
    ghost supply = { λ draws. Some draws.left };

    ghost draws = { λ draws demand. draws_by draws.words demand };

    ghost behind = { λ draws _. one_fewer_draws draws };

    fn suffices(&self, count: usize) -> bool {
        count <= self.left as usize
    }

    fn draw(&mut self, demand: Demand) -> Draws {
        self.left -= 1;
        let draws = self.words.draw(demand);
        if demand == Demand::Nothing {
            skip(&mut self.words, DRAWS_WORDS);
        }
        draws
    }
}
