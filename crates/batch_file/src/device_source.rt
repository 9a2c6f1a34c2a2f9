//! Bytes that are read before they are written.

ghost use Rattle.std.specs.Prelude.{◌≡◌, [], List, ℕ};

use crate::device::Device;
use crate::source::ByteSource;

/// Bytes that are read before they are written: what they are read of is then a device that has them.
pub trait DeviceSource: ByteSource + Drop {
    /// What they are read of.
    type File: Device + Drop;

    /// It was opened, and nothing was written since: it had these bytes, or begins with them, where it was not read to its end.
    ghost is_opened: { Self.File → List ℕ → Type 0 };

    /// What they are read of, as a device: what it has is what was read, where it was read to its end.
    fn into_device(self) -> Self::File
        ensures opened { (bytes : List ℕ) × is_opened result bytes × (Self.is_over self → bytes ≡ Self.told self) }
        ensures seen { Self.is_over self → Self.File.seen result ≡ Self.told self }
        ensures faultless { Self.File.faults result ≡ 0 };

    /// A device that is read anew from its first byte on.
    fn again(device: Self::File) -> Self
        ensures { Self.told result ≡ [] };
}
