//! Where accesses lie, and what bytes of the record hold.

ghost use Rattle.std.specs.Prelude.{◌≡◌, ◌+◌, ◌≤◌, length, map, IfSome};
ghost use Rattle.std.specs.Option.{option_map};
ghost use Rattle.insn.specs.Instruction.{size_bytes};
ghost use Rattle.insn.specs.Memory.{is_writable as spec_writable, may_hold as spec_may_hold, value_in, within};
ghost use Rattle.insn.specs.Outcomes.{access_place as spec_place, passed};
ghost use Rattle.insn.specs.Values.{at as spec_at, region_size};

use crate::cells::{cells_from, value};
use insn::layout::Layout;
use insn::operation::Size;
use insn::state::{Cell, Pointer, Region, Value};

/// Where some bytes from a place on begin, where all lie below a size.
fn within_size(size: usize, place: i64, count: usize) -> Option<usize>
    requires { count ≤ 8 }
    ensures value { result ≡ within size place count }
    ensures inside { IfSome result (λ at. at + count ≤ size) }
{
    if place < 0 {
        return None;
    }
    let at = place as usize;
    if at + count <= size { Some(at) } else { None }
}

/// Where an access begins, so far behind a pointer or before it, where all its bytes lie in the pointer's region.
pub fn access_place(layout: Layout, pointer: Pointer, offset: i16, size: Size) -> Option<usize>
    ensures value { option_map (spec_at pointer.region) result ≡ passed (spec_place layout (Value.Address pointer) offset size) }
    ensures inside { IfSome result (λ first. first + size_bytes size ≤ region_size layout pointer.region) }
{
    let place = i64::from(pointer.offset) + i64::from(offset);
    within_size(pointer.region.size(layout), place, size.bytes())
}

/// What some bytes spell.
pub fn read_bytes(bytes: &[u8]) -> Option<Value>
    requires { length bytes.now ≤ 8 }
    ensures { result ≡ value_in (map Cell.Byte bytes.now) }
{
    let cells = cells_from(bytes);
    value(&cells[..bytes.len()])
}

/// Whether some bytes of a region may be written.
pub fn is_writable(layout: Layout, region: Region, at: usize, count: usize) -> bool
    requires { (at ≤ 512) × (count ≤ 8) }
    ensures { result ≡ spec_writable layout region at count }
{
    match region {
        Region::Record => layout.writable_from() <= at && at + count <= layout.writable_to(),
        Region::Stack => true,
    }
}

/// Whether a value of a size may stand somewhere.
pub fn may_hold(region: Region, at: usize, size: Size, value: Value) -> bool
    ensures value { result ≡ spec_may_hold region at size value }
{
    match (region, size, value) {
        (_, _, Value::Number(_)) => true,
        (Region::Stack, Size::Eight, Value::Address(_)) => at % 8 == 0,
        _ => false,
    }
}
