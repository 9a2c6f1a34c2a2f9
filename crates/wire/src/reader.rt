//! Bytes that are read from the front.

ghost use Rattle.std.specs.Prelude.{◌≡◌, ◌↔◌, [], IsTrue, List, ℕ};
ghost use Rattle.wire.specs.Format.{byte_at, part_at, big_endian_at};
ghost use Rattle.std.specs.Int.{w16, w32, w64};
ghost use Rattle.wire.specs.Reading.{Reads};

use crate::fault::{DecodeFault, Fault};
use std::alloc::Global;
use std::marker::Model;

/// Bytes that are read from the front. After a fault it is of no more use.
#[derive(Drop)]
pub struct Reader<'a> {
    rest: &'a [u8],
    alloc: Global,
}

impl<'a> Model for Reader<'a> {
    ghost Value = { List ℕ };

    ghost view = { λ r. r.rest.now };
}

impl<'a> Reader<'a> {
    /// One of all of the bytes, which takes memory from `alloc`.
    pub fn new(alloc: Global, bytes: &'a [u8]) -> Reader<'a>
        ensures { result ≡ bytes.now }
    {
        Reader { rest: bytes, alloc }
    }

    /// What memory is taken from.
    pub fn alloc(&self) -> Global {
        self.alloc
    }

    /// Whether no bytes are left.
    pub fn is_empty(&self) -> bool
        ensures { IsTrue result ↔ self.now ≡ [] }
    {
        self.rest.is_empty()
    }

    /// The next byte.
    pub fn byte(&mut self) -> Result<u8, DecodeFault>
        ensures { Reads (λ b. b) result self.new (byte_at self.old) }
    {
        match self.rest {
            [] => Err(DecodeFault::Bytes(Fault::Short)),
            [byte, rest @ ..] => {
                self.rest = rest;
                Ok(*byte)
            }
        }
    }

    /// The next bytes, so many of them.
    pub fn part(&mut self, len: usize) -> Result<&'a [u8], DecodeFault>
        ensures { Reads (λ part. part.now) result self.new (part_at len self.old) }
    {
        if self.rest.len() < len {
            return Err(DecodeFault::Bytes(Fault::Short));
        }
        let (part, rest) = self.rest.split_at(len);
        self.rest = rest;
        Ok(part)
    }
}
