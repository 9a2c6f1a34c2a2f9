//! What cells hold: numbers by their bytes, and pointers by their parts.

ghost use Rattle.std.specs.Prelude.{◌≡◌, ◌+◌, ◌*◌, ◌<◌, ◌≤◌, ◌^◌, length, map, take, IfSome};
ghost use Rattle.insn.specs.Memory.{are_parts, low_bytes, number_spelled, parts_of, value_in};

use insn::state::{Cell, Pointer, Value};

/// The eight parts of a pointer.
pub fn parts(pointer: Pointer) -> [Cell; 8]
    ensures { result ≡ parts_of pointer }
{
    [
        Cell::Part(pointer, 0),
        Cell::Part(pointer, 1),
        Cell::Part(pointer, 2),
        Cell::Part(pointer, 3),
        Cell::Part(pointer, 4),
        Cell::Part(pointer, 5),
        Cell::Part(pointer, 6),
        Cell::Part(pointer, 7),
    ]
}

/// Whether cells are the parts of a pointer, from one of them to the last.
fn is_parts(pointer: Pointer, from: usize, cells: &[Cell]) -> bool
    requires { from + length cells.now < 256 }
    ensures { result ≡ are_parts pointer from cells.now }
{
    match cells {
        [] => from == 8,
        [Cell::Part(other, part), rest @ ..] => {
            *other == pointer && usize::from(*part) == from && is_parts(pointer, from + 1, rest)
        }
        [Cell::Unset | Cell::Byte(_), ..] => false,
    }
}

/// The number that cells spell, low byte first, where each is a byte.
fn number(cells: &[Cell]) -> Option<u64>
    requires { length cells.now ≤ 8 }
    ensures value { result ≡ number_spelled cells.now }
    ensures small { IfSome result (λ n. n < 2 ^ (8 * length cells.now)) }
{
    match cells {
        [] => Some(0),
        [Cell::Byte(low), rest @ ..] => {
            let high = number(rest)?;
            Some(u64::from(*low) + 256 * high)
        }
        [Cell::Unset | Cell::Part(..), ..] => None,
    }
}

/// What cells hold.
pub fn value(cells: &[Cell]) -> Option<Value>
    requires { length cells.now ≤ 8 }
    ensures { result ≡ value_in cells.now }
{
    match cells {
        [] | [Cell::Unset, ..] => None,
        [Cell::Byte(_), ..] => number(cells).map(Value::Number),
        [Cell::Part(pointer, _), ..] => {
            if is_parts(*pointer, 0, cells) {
                Some(Value::Address(*pointer))
            } else {
                None
            }
        }
    }
}

/// Bytes as cells, with unset cells behind them.
pub fn cells_from(bytes: &[u8]) -> [Cell; 8]
    requires { length bytes.now ≤ 8 }
    ensures { take (length bytes.now) result ≡ map Cell.Byte bytes.now }
{
    let mut cells = [Cell::Unset; 8];
    for (i, byte) in bytes.iter().enumerate() {
        cells[i] = Cell::Byte(*byte);
    }
    cells
}

/// Fills bytes with the low bytes of a number, low byte first.
pub fn fill_bytes(bytes: &mut [u8], number: u64)
    ensures { bytes.new ≡ low_bytes (length bytes.old) number }
{
    let mut rest = number;
    for byte in bytes.iter_mut() {
        *byte = (rest % 256) as u8;
        rest /= 256;
    }
}

/// Fills cells with the low bytes of a number, low byte first.
pub fn fill_cells(cells: &mut [Cell], number: u64)
    ensures { cells.new ≡ map Cell.Byte (low_bytes (length cells.old) number) }
{
    let mut rest = number;
    for cell in cells.iter_mut() {
        *cell = Cell::Byte((rest % 256) as u8);
        rest /= 256;
    }
}
