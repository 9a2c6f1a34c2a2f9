//! What a rest waits for.
ghost use Rattle.std.specs.Prelude.{◌≡◌};
ghost use Rattle.heads.specs.Waiting.{still_waits};

use crate::limits::HEAD_SIZE_LIMIT;

/// What a message that has begun waits for, before any of its bytes are read again.
#[derive(Clone, Copy, Debug)]
pub enum Waits {
    /// The end of a line of its head, or as many bytes as a head may have.
    ForLine,
    /// So many bytes, with those that are there. Once the head has come, that is the length of the message.
    ForBytes(usize),
}

impl Waits {
    /// Whether so many bytes still wait once a piece has come behind them. Nothing is parsed.
    pub fn still_waits(self, count: usize, piece: &[u8]) -> bool
        ensures { result ≡ still_waits self count piece.now }
    {
        match self {
            Waits::ForLine => {
                piece.len() < HEAD_SIZE_LIMIT.saturating_sub(count) && !piece.contains(&b'\n')
            }
            Waits::ForBytes(size) => piece.len() < size.saturating_sub(count),
        }
    }
}
