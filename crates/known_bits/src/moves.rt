//! Operations that move the bits of a word.

ghost use Rattle.std.specs.Prelude.{◌≡◌};
ghost use Rattle.range.specs.Domain.{IsSoundResult};
ghost use Rattle.known_bits.specs.Moves.{MovesLeft};

use crate::bits::KnownBits;
use insn::operation::{BinOp, Width};
use word::alu;

impl KnownBits {
    ghost use Rattle.known_bits.specs.Members.{HasBits};
    ghost use Rattle.known_bits.specs.Exact.{IsExact};

    /// The results of a shift, where the amount is known.
    pub(crate) fn shifted(op: BinOp, width: Width, a: KnownBits, b: KnownBits) -> KnownBits
        requires { MovesLeft op width }
        ensures sound { IsSoundResult HasBits op width a b result }
        ensures exact { b.mask ≡ 0 → IsExact op width a b result }
    {
        if b.mask == 0 {
            KnownBits::new(
                alu(width, op, a.value, b.value),
                alu(width, op, a.mask, b.value),
            )
        } else {
            KnownBits::all_of(width)
        }
    }
}
