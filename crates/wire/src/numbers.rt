//! Numbers and whether, as bytes.

ghost use Rattle.std.specs.Prelude.{ℕ, Bool};
ghost use Rattle.wire.specs.Format.{u8_format, u32_format, u64_format};
ghost use Rattle.wire.specs.Lists.{bool_format};

use crate::fault::{DecodeFault, EncodeFault, Fault};
use crate::reader::Reader;
use crate::wire::{FromWire, Wire};

impl Wire for u8 {
    ghost Value = { ℕ };

    ghost value = { λ n. n };

    ghost format = { u8_format };

    fn put(&self, out: &mut Vec<u8>) -> Result<(), EncodeFault> {
        out.push(*self)?;
        Ok(())
    }
}

impl<'a> FromWire<'a> for u8 {
    fn from_wire(from: &mut Reader<'a>) -> Result<u8, DecodeFault> {
        from.byte()
    }
}

impl Wire for u32 {
    ghost Value = { ℕ };

    ghost value = { λ n. n };

    ghost format = { u32_format };

    fn put(&self, out: &mut Vec<u8>) -> Result<(), EncodeFault> {
        out.extend_from_slice(&self.to_be_bytes())?;
        Ok(())
    }
}

impl<'a> FromWire<'a> for u32 {
    fn from_wire(from: &mut Reader<'a>) -> Result<u32, DecodeFault> {
        let part = from.part(4)?;
        Ok(u32::from_be_bytes([part[0], part[1], part[2], part[3]]))
    }
}

impl Wire for u64 {
    ghost Value = { ℕ };

    ghost value = { λ n. n };

    ghost format = { u64_format };

    fn put(&self, out: &mut Vec<u8>) -> Result<(), EncodeFault> {
        out.extend_from_slice(&self.to_be_bytes())?;
        Ok(())
    }
}

impl<'a> FromWire<'a> for u64 {
    fn from_wire(from: &mut Reader<'a>) -> Result<u64, DecodeFault> {
        let part = from.part(8)?;
        Ok(u64::from_be_bytes([
            part[0], part[1], part[2], part[3], part[4], part[5], part[6], part[7],
        ]))
    }
}

impl Wire for bool {
    ghost Value = { Bool };

    ghost value = { λ b. b };

    ghost format = { bool_format };

    fn put(&self, out: &mut Vec<u8>) -> Result<(), EncodeFault> {
        out.push(u8::from(*self))?;
        Ok(())
    }
}

impl<'a> FromWire<'a> for bool {
    fn from_wire(from: &mut Reader<'a>) -> Result<bool, DecodeFault> {
        match from.byte()? {
            0 => Ok(false),
            1 => Ok(true),
            _ => Err(DecodeFault::Bytes(Fault::Variant)),
        }
    }
}
