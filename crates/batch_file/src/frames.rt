//! A whole file in memory: what is put in the place of another, in one step.

ghost use Rattle.std.specs.Prelude.{◌≡◌, ◌<◌, ◌≤◌, ◌^◌, ◌+◌, ◌++◌, [], ◌∷◌, length, OnOk, OnErr, IfOk, IsErrOf, List, ℕ};
ghost use Rattle.batch_file.specs.declared.frames.AddFault.TheVariants.{Memory};
ghost use Rattle.batch_file.specs.Frames.{file_size, recovered, IsReadable, IsWhole};

use crate::framing::{HEADER, head_of};
use std::alloc::{AllocError, AllocFailed, Global};
use std::marker::Model;

/// A batch has fewer bytes.
pub const MAX_BATCH: usize = 1 << 32;

/// Why a batch is not added to a file in memory.
#[derive(Clone, Copy, Debug, PartialEq, Eq)]
pub enum AddFault {
    /// Memory was refused.
    Memory,
    /// The batch has `2^32` bytes or more.
    TooLong,
}

impl From<AllocError> for AddFault {
    ghost from_gives = { λ _ fault. fault ≡ Memory };

    fn from(_: AllocError) -> AddFault {
        AddFault::Memory
    }
}

/// A header, whole frames and a zero, in memory. Clauses see the batches.
#[derive(Drop)]
pub struct Frames {
    /// The file.
    bytes: Vec<u8>,
    /// The digest of the last frame.
    last: [u8; 16],
}

impl Model for Frames {
    ghost Value = { List (List ℕ) };

    ghost view = { λ frames. recovered frames.bytes.items };

    ghost invariant = { λ frames. IsWhole frames.last frames.bytes.items };
}

impl Frames {
    /// A file without batches.
    pub fn new(alloc: Global) -> Result<Frames, AllocError>
        ensures { IfOk result (λ frames. frames ≡ []) }
    {
        let mut bytes = Vec::new(alloc);
        bytes.extend_from_slice(&HEADER)?;
        bytes.push(0)?;
        Ok(Frames::of(bytes, HEADER))
    }

    /// A file that was read, the last frame of which has that digest.
    pub(crate) fn of(bytes: Vec<u8>, last: [u8; 16]) -> Frames
        requires { IsWhole last bytes.items }
        ensures { result ≡ recovered bytes.items }
    {
        Frames { bytes, last }
    }

    /// Adds a batch.
    pub fn add(&mut self, batch: &[u8]) -> Result<(), AddFault>
        ensures added { OnOk result (self.new ≡ self.old ++ batch.now ∷ []) }
        ensures lost { OnErr result (self.new ≡ self.old) }
        ensures too_long { IsErrOf result AddFault.TooLong → 2 ^ 32 ≤ length batch.now }
    {
        if batch.len() >= MAX_BATCH {
            return Err(AddFault::TooLong);
        }
        let end = self.bytes.len() - 1;
        let head = head_of(&self.last, batch);
        write_behind(&mut self.bytes, &head.bytes, batch)?;
        self.bytes[end] = 255;
        self.last = head.digest;
        Ok(())
    }

    /// How many bytes the file has.
    pub fn len_of_file(&self) -> usize
        ensures { result ≡ file_size self.now }
    {
        self.bytes.len()
    }

    /// Its bytes.
    pub fn as_bytes(&self) -> &[u8]
        ensures batches { recovered result.now ≡ self.now }
        ensures readable { IsReadable result.now }
    {
        &self.bytes
    }

    /// Its bytes.
    pub fn into_bytes(self) -> Vec<u8>
        ensures batches { recovered result.items ≡ self }
        ensures readable { IsReadable result.items }
    {
        self.bytes
    }

    /// Its bytes, and the digest of the last frame.
    pub(crate) fn into_parts(self) -> (Vec<u8>, [u8; 16])
        ensures batches { recovered result.0.items ≡ self }
        ensures whole { IsWhole result.1 result.0.items }
        ensures size { length result.0.items ≡ file_size self }
    {
        let last = self.last;
        (self.bytes, last)
    }
}

/// Writes a batch, what stands before it and a zero behind what is there, or nothing.
fn write_behind(bytes: &mut Vec<u8>, head: &[u8], batch: &[u8]) -> Result<(), AllocError>
    requires { length head.now + length batch.now < 2 ^ 63 }
    ensures ok { OnOk result (bytes.new.items ≡ bytes.old.items ++ head.now ++ batch.now ++ 0 ∷ []) }
    ensures err { OnErr result (bytes.new.items ≡ bytes.old.items) }
{
    bytes.reserve(head.len() + batch.len() + 1)?;
    bytes.extend_from_slice(head)?;
    bytes.extend_from_slice(batch)?;
    bytes.push(0)?;
    Ok(())
}
