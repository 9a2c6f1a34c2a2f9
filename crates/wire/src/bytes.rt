//! Bytes and texts, as bytes.

ghost use Rattle.std.specs.Prelude.{List, ℕ};
ghost use Rattle.wire.specs.Format.{fixed, bytes_format, text_format};

use crate::fault::{DecodeFault, EncodeFault, Fault};
use crate::reader::Reader;
use crate::wire::{FromWire, Wire};

impl<const N: usize> Wire for [u8; N] {
    ghost Value = { List ℕ };

    ghost value = { λ bytes. bytes };

    ghost format = { fixed N };

    fn put(&self, out: &mut Vec<u8>) -> Result<(), EncodeFault> {
        out.extend_from_slice(self)?;
        Ok(())
    }
}

impl<'a, const N: usize> FromWire<'a> for [u8; N] {
    fn from_wire(from: &mut Reader<'a>) -> Result<[u8; N], DecodeFault> {
        let part = from.part(N)?;
        let mut bytes = [0u8; N];
        bytes.copy_from_slice(part);
        Ok(bytes)
    }
}

impl Wire for &[u8] {
    ghost Value = { List ℕ };

    ghost value = { λ bytes. bytes.now };

    ghost format = { bytes_format };

    fn put(&self, out: &mut Vec<u8>) -> Result<(), EncodeFault> {
        if self.len() >= 1 << 32 {
            return Err(EncodeFault::TooLong);
        }
        (self.len() as u32).put(out)?;
        out.extend_from_slice(self)?;
        Ok(())
    }
}

impl<'a> FromWire<'a> for &'a [u8] {
    fn from_wire(from: &mut Reader<'a>) -> Result<&'a [u8], DecodeFault> {
        let len = u32::from_wire(from)?;
        from.part(len as usize)
    }
}

impl Wire for &str {
    ghost Value = { List ℕ };

    ghost value = { λ text. text.now };

    ghost format = { text_format };

    fn put(&self, out: &mut Vec<u8>) -> Result<(), EncodeFault> {
        self.as_bytes().put(out)
    }
}

#[tactic(auto, using(crate::proofs::Texts::utf8_where, crate::proofs::Texts::not_utf8))]
impl<'a> FromWire<'a> for &'a str {
    fn from_wire(from: &mut Reader<'a>) -> Result<&'a str, DecodeFault> {
        let part = <&[u8]>::from_wire(from)?;
        match str::from_utf8(part) {
            Ok(text) => Ok(text),
            Err(_) => Err(DecodeFault::Bytes(Fault::NotText)),
        }
    }
}
