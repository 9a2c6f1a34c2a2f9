//! Some bytes of the words of numbers.

ghost use Rattle.std.specs.Prelude.{◌≡◌, ◌+◌, ◌≤◌, ◌<◌, ◌^◌, ◌*◌, ◌/◌, ◌%◌, ℕ, Bool};
ghost use Rattle.reg_kind.specs.Spans.{AmountFits};
ghost use Rattle.stack_state.specs.Words.{bytes_from, word_with};

use insn::operation::{BinOp, Width};
use range::domain::Domain;
use scalar::Scalar;

/// The greatest number of so many bytes.
fn greatest_of_bytes(count: usize) -> u64
    requires { count ≤ 8 }
    ensures { result + 1 ≡ 2 ^ (8 * count) }
{
    if count < 8 {
        (1 << (8 * count)) - 1
    } else {
        u64::MAX
    }
}

/// Numbers without so many of their low bytes.
pub(crate) fn without_low(number: Scalar, count: usize) -> Scalar
    requires { count < 8 }
    ensures { (exact : Bool) (w : ℕ) → AmountFits exact number w → AmountFits exact result (w / 2 ^ (8 * count)) }
{
    if count == 0 {
        return number;
    }
    let moved = Scalar::exact(8 * count as u64);
    Scalar::apply(BinOp::Rsh, Width::W64, number, moved)
}

/// So many low bytes of numbers.
fn low(number: Scalar, count: usize) -> Scalar
    requires { count ≤ 8 }
    ensures { (exact : Bool) (w : ℕ) → AmountFits exact number w → AmountFits exact result (w % 2 ^ (8 * count)) }
{
    if count == 8 {
        return number;
    }
    let greatest = Scalar::exact(greatest_of_bytes(count));
    Scalar::apply(BinOp::And, Width::W64, number, greatest)
}

/// Some bytes of numbers.
pub(crate) fn part(number: Scalar, at: usize, count: usize) -> Scalar
    requires from { at < 8 }
    requires few { count ≤ 8 }
    ensures { (exact : Bool) (w : ℕ) → AmountFits exact number w → AmountFits exact result (bytes_from at count w) }
{
    low(without_low(number, at), count)
}

/// Numbers with so many 0 bytes below theirs.
fn raised(number: Scalar, count: usize) -> Scalar
    requires { count < 8 }
    ensures { (exact : Bool) (w : ℕ) → AmountFits exact number w → AmountFits exact result (w * 2 ^ (8 * count) % 2 ^ 64) }
{
    if count == 0 {
        return number;
    }
    let moved = Scalar::exact(8 * count as u64);
    Scalar::apply(BinOp::Lsh, Width::W64, number, moved)
}

/// Numbers of which some bytes are replaced by the low bytes of others.
pub(crate) fn with_part(number: Scalar, at: usize, count: usize, value: Scalar) -> Scalar
    requires from { at < 8 }
    requires inside { at + count ≤ 8 }
    ensures { (exact : Bool) (w x : ℕ) → AmountFits exact number w → AmountFits exact value x → AmountFits exact result (word_with at count w x) }
{
    if count == 8 {
        return value;
    }
    let mask = greatest_of_bytes(count) << (8 * at);
    let kept = Scalar::exact(!mask);
    let others = Scalar::apply(BinOp::And, Width::W64, number, kept);
    let placed = raised(low(value, count), at);
    Scalar::apply(BinOp::Add, Width::W64, others, placed)
}
