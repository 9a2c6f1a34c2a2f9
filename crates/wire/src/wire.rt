//! What is written as bytes and read back.

ghost use Rattle.std.specs.Prelude.{◌≡◌, List, ℕ, OnOk, IsErrOf};
ghost use Rattle.wire.specs.Format.{Format};
ghost use Rattle.wire.specs.declared.fault.EncodeFault.TheVariants.{TooLong};
ghost use Rattle.wire.specs.Reading.{Reads};

use crate::fault::{DecodeFault, EncodeFault};
use crate::reader::Reader;

/// What is written as bytes.
pub trait Wire {
    // What is spelled: a value without where its parts lie in memory.
    ghost Value: { Type 0 };

    ghost value: { Self → Value };

    // How it is spelled, and read. Its laws come with it.
    ghost format: { Format Value };

    /// Writes the spelling behind what `out` holds. After a fault a part of it may stand there.
    fn put(&self, out: &mut Vec<u8>) -> Result<(), EncodeFault>
        ensures written { OnOk result (out.new.items ≡ format.onto out.old.items (value self.now)) }
        // What is written can be read again.
        ensures fits { OnOk result (format.Fits (value self.now)) }
        ensures too_long { IsErrOf result TooLong → ¬ (format.Counts (value self.now)) };
}

/// What is read from bytes. Texts may lie in the bytes.
pub trait FromWire<'a>: Wire {
    /// Takes the value from the front, or gives the first fault.
    fn from_wire(from: &mut Reader<'a>) -> Result<Self, DecodeFault>
        ensures { Reads Self.value result from.new (Self.format.read from.old) };
}
