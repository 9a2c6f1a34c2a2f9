//! The low parts of words: their bytes reversed, or read as signed numbers.

ghost use Rattle.std.specs.Prelude.{◌≡◌, ◌%◌, ◌^◌};
ghost use Rattle.std.specs.Int.{cast_signed};
ghost use Rattle.insn.specs.Word.{extend_width, swap_width, word_extended, word_swapped, wrapped};

use insn::operation::{ExtendBits, SwapBits, SwapKind, Width};

/// The low bits of a word, their bytes in the order that is asked for, and 0 above (RFC 9669, section 4.2).
pub fn swap(kind: SwapKind, bits: SwapBits, a: u64) -> u64
    ensures { result ≡ word_swapped kind bits a }
{
    match kind {
        SwapKind::ToLittle => low_bits(bits, a),
        SwapKind::ToBig | SwapKind::Swap => reversed(bits, a),
    }
}

/// The low bits of a word, read as a signed number, in the bits of a width (RFC 9669, section 4.1).
pub fn extend(width: Width, bits: ExtendBits, a: u64) -> u64
    ensures { result ≡ word_extended width bits a }
{
    let number = signed_number(bits, a);
    match width {
        Width::W32 => u64::from(number.cast_unsigned()),
        Width::W64 => i64::from(number).cast_unsigned(),
    }
}

/// The low 32 bits of a word.
pub fn low_half(a: u64) -> u32
    ensures { result ≡ a % 2 ^ 32 }
{
    (a % 0x1_0000_0000) as u32
}

fn low_quarter(a: u64) -> u16
    ensures { result ≡ a % 2 ^ 16 }
{
    (a % 0x1_0000) as u16
}

fn low_byte(a: u64) -> u8
    ensures { result ≡ a % 2 ^ 8 }
{
    (a % 0x100) as u8
}

fn low_bits(bits: SwapBits, a: u64) -> u64
    ensures { result ≡ word_swapped SwapKind.ToLittle bits a }
{
    match bits {
        SwapBits::B16 => u64::from(low_quarter(a)),
        SwapBits::B32 => u64::from(low_half(a)),
        SwapBits::B64 => a,
    }
}

fn reversed(bits: SwapBits, a: u64) -> u64
    ensures { result ≡ word_swapped SwapKind.Swap bits a }
{
    match bits {
        SwapBits::B16 => u64::from(low_quarter(a).swap_bytes()),
        SwapBits::B32 => u64::from(low_half(a).swap_bytes()),
        SwapBits::B64 => a.swap_bytes(),
    }
}

fn signed_number(bits: ExtendBits, a: u64) -> i32
    ensures { result ≡ cast_signed (extend_width bits) (wrapped (extend_width bits) a) }
{
    match bits {
        ExtendBits::B8 => i32::from(low_byte(a).cast_signed()),
        ExtendBits::B16 => i32::from(low_quarter(a).cast_signed()),
        ExtendBits::B32 => low_half(a).cast_signed(),
    }
}
