//! The places of words in the order of signed numbers.

ghost use Rattle.std.specs.Prelude.{◌≡◌};
ghost use Rattle.range.specs.Places.{number_at, signed_place};

use insn::operation::Width;

/// The sign bit of a word.
const SIGN: u64 = 0x8000_0000_0000_0000;

/// The place of a word.
pub(crate) fn place_of(n: u64) -> u64
    ensures { result ≡ signed_place Width.W64 n }
{
    n.wrapping_add(SIGN)
}

/// The place of a low half.
pub(crate) fn low_place_of(n: u64) -> u32
    ensures { result ≡ signed_place Width.W32 n }
{
    ((n % 0x1_0000_0000) as u32).wrapping_add(0x8000_0000)
}

/// The signed number at a place.
pub(crate) fn number_of(place: u64) -> i64
    ensures { result ≡ number_at Width.W64 place }
{
    place.wrapping_add(SIGN).cast_signed()
}

/// The place of a signed number.
pub(crate) fn place_of_number(number: i64) -> u64
    ensures { number_at Width.W64 result ≡ number }
{
    number.cast_unsigned().wrapping_add(SIGN)
}
