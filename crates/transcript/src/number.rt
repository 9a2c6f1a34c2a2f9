//! Numbers: in decimal, without leading zeros.

ghost use Rattle.std.specs.Prelude.{◌≡◌, ◌<◌, ◌^◌, ℕ, Some, IfSome};
ghost use Rattle.std.specs.Fmt.{decimal};
ghost use Rattle.transcript.specs.Numbers.{IsConnection, IsMomentWord};

use consent::Moment;
use http_edge::ConnectionNo;
use itoa::Buffer;

/// The number of a word, where it is below `2^64`: the word is what the number prints as.
fn natural(word: &str) -> Option<u64>
    ensures some { IfSome result (λ n. word.now ≡ decimal n) }
    ensures only { (n : ℕ) → n < 2 ^ 64 → word.now ≡ decimal n → result ≡ Some n }
{
    let number = word.parse::<u64>().ok()?;
    let mut buffer = Buffer::new();
    if word == buffer.format(number) {
        Some(number)
    } else {
        None
    }
}

/// The number of a connection.
pub fn connection(word: &str) -> Option<ConnectionNo>
    ensures some { IfSome result (IsConnection word.now) }
    ensures only { (c : ℕ) → IsConnection word.now c → result ≡ Some c }
{
    let number = u32::try_from(natural(word)?).ok()?;
    Some(ConnectionNo::new(number))
}

/// A moment, in seconds.
pub fn moment(word: &str) -> Option<Moment>
    ensures some { IfSome result (IsMomentWord word.now) }
    ensures only { (m : ℕ) → IsMomentWord word.now m → result ≡ Some m }
{
    let seconds = natural(word)?;
    if seconds < 1 << 63 {
        Some(Moment::new(seconds))
    } else {
        None
    }
}
