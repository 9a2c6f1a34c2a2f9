//! Where an access begins.

ghost use Rattle.std.specs.Prelude.{◌≡◌};
ghost use Rattle.insn.specs.Instruction.{size_bytes};
ghost use Rattle.reg_kind.specs.Accesses.{is_place_writable, place_in};

use crate::span::Span;
use insn::layout::Layout;
use insn::operation::Size;
use insn::state::Region;
use insn::verify_fault::WalkFault;

/// The bytes of a region at which an access may begin.
#[derive(Clone, Copy, Debug, PartialEq, Eq)]
pub struct Place {
    pub region: Region,
    pub span: Span,
}

impl Place {
    /// Where some bytes so far behind the offsets of a span begin, where all lie in the region.
    pub(crate) fn behind(
        layout: Layout,
        region: Region,
        span: Span,
        offset: i16,
        size: Size,
    ) -> Result<Place, WalkFault>
        ensures { result ≡ place_in layout region span offset (size_bytes size) }
    {
        match span.accessed(region.size(layout), offset, size.bytes()) {
            Some(span) => Ok(Place { region, span }),
            None => Err(WalkFault::OutOfRegion),
        }
    }

    /// Whether all bytes of such a store may be written: those of the record within its two bounds alone.
    pub fn is_writable(self, layout: Layout, size: Size) -> bool
        ensures { result ≡ is_place_writable layout self (size_bytes size) }
    {
        match self.region {
            Region::Record => {
                layout.writable_from() <= usize::from(self.span.least)
                    && usize::from(self.span.greatest) + size.bytes() <= layout.writable_to()
            }
            Region::Stack => true,
        }
    }
}
