//! Values that are all of some bytes, behind a byte that tells the layout.

ghost use Rattle.std.specs.Prelude.{◌≡◌, ◌++◌, List, ℕ, Ok, IfOk, OnOk, IsErrOf};
ghost use Rattle.wire.specs.declared.fault.Fault.TheVariants.{Version};
ghost use Rattle.wire.specs.declared.fault.EncodeFault.TheVariants.{TooLong};
ghost use Rattle.wire.specs.Reading.{GivesReading};
ghost use Rattle.wire.specs.Lists.{behind};
ghost use Rattle.wire.specs.Whole.{all_at};

use crate::fault::{DecodeFault, EncodeFault, Fault};
use crate::reader::Reader;
use crate::wire::{FromWire, Wire};
use std::alloc::Global;

/// The one spelling of the value, behind the byte of its layout.
pub fn encode<T: Wire>(alloc: Global, layout: u8, value: &T) -> Result<Vec<u8>, EncodeFault>
    ensures written { IfOk result (λ bytes. bytes.items ≡ (behind layout Version T.format).spell (T.value value.now)) }
    // What is written can be read again.
    ensures fits { OnOk result (T.format.Fits (T.value value.now)) }
    ensures too_long { IsErrOf result TooLong → ¬ (T.format.Counts (T.value value.now)) }
{
    let mut bytes = Vec::from_slice(alloc, &[layout])?;
    match value.put(&mut bytes) {
        Ok(()) => Ok(bytes),
        Err(fault) => Err(fault),
    }
}

/// The value that all of the bytes spell, behind the byte of its layout.
pub fn decode<'a, T: FromWire<'a> + Drop>(
    alloc: Global,
    layout: u8,
    bytes: &'a [u8],
) -> Result<T, DecodeFault>
    // What is read is spelled so.
    ensures spelled { IfOk result (λ x. bytes.now ≡ (behind layout Version T.format).spell (T.value x)) }
    ensures fits { IfOk result (λ x. T.format.Fits (T.value x)) }
    // What is spelled so is read, unless memory runs out.
    ensures again { (v : T.Value) → T.format.Fits v → bytes.now ≡ (behind layout Version T.format).spell v → GivesReading T.value result (Ok v) }
    // Which fault it is.
    ensures exact { GivesReading T.value result (all_at (behind layout Version T.format) bytes.now) }
{
    read_all(alloc, layout, bytes)
}

fn read_all<'a, T: FromWire<'a> + Drop>(
    alloc: Global,
    layout: u8,
    bytes: &'a [u8],
) -> Result<T, DecodeFault>
    ensures { GivesReading T.value result (all_at (behind layout Version T.format) bytes.now) }
{
    let mut from = Reader::new(alloc, bytes);
    if from.byte()? != layout {
        return Err(DecodeFault::Bytes(Fault::Version));
    }
    match T::from_wire(&mut from) {
        Ok(value) => {
            if from.is_empty() {
                Ok(value)
            } else {
                Err(DecodeFault::Bytes(Fault::Behind))
            }
        }
        Err(fault) => Err(fault),
    }
}

/// No bytes begin with the spellings of two values.
pub fn spells_one<T: Wire>()
    ensures { (a b : T.Value) (x y : List ℕ) → T.format.Fits a → T.format.Fits b
        → T.format.spell a ++ x ≡ T.format.spell b ++ y → (a ≡ b) × (x ≡ y) }
{}
