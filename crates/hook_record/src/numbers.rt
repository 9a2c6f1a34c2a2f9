//! The numbers in the fields of a record, each with its low byte first.

ghost use Rattle.std.specs.Prelude.{◌≡◌, ◌+◌, ◌≤◌, ◌++◌, length, take, drop};
ghost use Rattle.std.specs.Int.{w32, w64, from_le_bytes, to_le_bytes};
ghost use Rattle.hook_record.specs.Record.{u32_at, u64_at};

/// Writes a number at an offset, its low byte first.
pub(crate) fn put_u32(bytes: &mut [u8], offset: usize, n: u32)
    requires { offset + 4 ≤ length bytes.old }
    ensures written { bytes.new ≡ take offset bytes.old ++ (to_le_bytes w32 n ++ drop (offset + 4) bytes.old) }
    ensures read_again { from_le_bytes w32 (to_le_bytes w32 n) ≡ n }
{
    bytes[offset..offset + 4].copy_from_slice(&n.to_le_bytes());
}

/// Writes a number at an offset, its low byte first.
pub(crate) fn put_u64(bytes: &mut [u8], offset: usize, n: u64)
    requires { offset + 8 ≤ length bytes.old }
    ensures written { bytes.new ≡ take offset bytes.old ++ (to_le_bytes w64 n ++ drop (offset + 8) bytes.old) }
    ensures read_again { from_le_bytes w64 (to_le_bytes w64 n) ≡ n }
{
    bytes[offset..offset + 8].copy_from_slice(&n.to_le_bytes());
}

/// The number at an offset.
pub(crate) fn u32_at(bytes: &[u8], offset: usize) -> u32
    requires { offset + 4 ≤ length bytes.now }
    ensures { result ≡ u32_at bytes.now offset }
{
    u32::from_le_bytes(*bytes[offset..].first_chunk().unwrap())
}

/// The number at an offset.
pub(crate) fn u64_at(bytes: &[u8], offset: usize) -> u64
    requires { offset + 8 ≤ length bytes.now }
    ensures { result ≡ u64_at bytes.now offset }
{
    u64::from_le_bytes(*bytes[offset..].first_chunk().unwrap())
}
