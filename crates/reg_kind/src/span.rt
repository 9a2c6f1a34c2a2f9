//! Offsets in a region.

ghost use Rattle.std.specs.Prelude.{◌≡◌, ◌≤◌, ◌↔◌, ◌^◌, ◌-◌, IfSome, max, min, None, IsTrue};
ghost use Rattle.std.specs.Int.Signed.{mag};
ghost use Rattle.reg_kind.specs.Fits.{has_span};
ghost use Rattle.reg_kind.specs.Spans.{IsShifted, move_of, span_between, span_moved, span_raised, span_shifted};

use scalar::Scalar;

/// Offsets, from a least to a greatest one, both among them.
#[derive(Clone, Copy, Debug, PartialEq, Eq)]
pub struct Span {
    pub least: u16,
    pub greatest: u16,
}

/// How a number moves an offset: up where it is added to it, down where it is taken from it.
#[derive(Clone, Copy, Debug, PartialEq, Eq)]
pub enum Direction {
    Up,
    Down,
}

impl Span {
    /// One offset alone.
    pub fn only(offset: u16) -> Span
        ensures least { result.least ≡ offset }
        ensures greatest { result.greatest ≡ offset }
    {
        Span {
            least: offset,
            greatest: offset,
        }
    }

    /// The one offset, where there is one alone.
    pub fn single(self) -> Option<u16>
        ensures found { IfSome result (λ o. (self.least ≡ o) × (self.greatest ≡ o)) }
        ensures none { result ≡ None → ¬ (self.least ≡ self.greatest) }
    {
        if self.least == self.greatest {
            Some(self.least)
        } else {
            None
        }
    }

    /// Whether it begins no later than another, and ends no earlier.
    pub fn covers(self, other: Span) -> bool
        ensures { result ≡ has_span self other }
    {
        self.least <= other.least && other.greatest <= self.greatest
    }

    /// The least span that has the offsets of both.
    pub fn join(a: Span, b: Span) -> Span
        ensures least { result.least ≡ min a.least b.least }
        ensures greatest { result.greatest ≡ max a.greatest b.greatest }
    {
        Span {
            least: a.least.min(b.least),
            greatest: a.greatest.max(b.greatest),
        }
    }

    /// The span from one number to another, where both lie in a region of a size, or one past its end.
    fn between(size: usize, least: i128, greatest: i128) -> Option<Span>
        requires { size ≤ 512 }
        ensures { result ≡ span_between size least greatest }
    {
        let size = size as i128;
        if 0 <= least && least <= size && 0 <= greatest && greatest <= size {
            Some(Span {
                least: least as u16,
                greatest: greatest as u16,
            })
        } else {
            None
        }
    }

    /// The span that numbers between two lead to from its offsets, up or down.
    fn moved_between(
        self,
        direction: Direction,
        size: usize,
        least: i128,
        greatest: i128,
    ) -> Option<Span>
        requires region { size ≤ 512 }
        requires least { mag least ≤ 2 ^ 64 }
        requires greatest { mag greatest ≤ 2 ^ 64 }
        ensures { result ≡ span_moved direction size self least greatest }
    {
        let (from, to) = (i128::from(self.least), i128::from(self.greatest));
        match direction {
            Direction::Up => Span::between(size, from + least, to + greatest),
            Direction::Down => Span::between(size, from - greatest, to - least),
        }
    }

    /// The offsets moved up or down by each of some numbers, read as unsigned ones, or else as signed ones.
    pub(crate) fn moved(self, direction: Direction, size: usize, by: Scalar) -> Option<Span>
        requires { size ≤ 512 }
        ensures value { result ≡ span_shifted direction size self by }
        ensures right { IsShifted (move_of direction) size self by result }
    {
        let (least, greatest) = by.bounds();
        if let Some(span) = self.moved_between(
            direction,
            size,
            i128::from(least),
            i128::from(greatest),
        ) {
            return Some(span);
        }
        let (least, greatest) = by.signed_bounds();
        self.moved_between(direction, size, i128::from(least), i128::from(greatest))
    }

    /// Where some bytes so far behind the offsets begin, where all lie in a region of a size.
    pub(crate) fn accessed(self, size: usize, offset: i16, count: usize) -> Option<Span>
        requires region { size ≤ 512 }
        requires few { count ≤ size }
        ensures { result ≡ span_raised (size - count) self offset offset }
    {
        let offset = i128::from(offset);
        self.moved_between(Direction::Up, size - count, offset, offset)
    }
}
