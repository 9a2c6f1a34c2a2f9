//! A walk over the frames of a file, of which a piece is in memory.

ghost use Rattle.std.specs.Prelude.{◌≡◌, ◌<◌, ◌≤◌, ◌^◌, ◌+◌, ◌++◌, [], ◌∷◌, List, ℕ, length, drop, Option, IfOk, IfErr, IfSome, IfNone, OnOk, IsTrue, IsFalse};
ghost use Rattle.batch_file.specs.Frames.{digest, header, IsNoFrame};
ghost use Rattle.batch_file.specs.Readers.{ahead, HasWalked};

use crate::appending::MAX_END;
use crate::device::DeviceFault;
use crate::framing::{HEADER, digest_at, first_batch};
use crate::source::behind;
use std::alloc::{AllocError, Global};
use system_faults::SystemFault;

/// A file is longer than one may be.
pub const TOO_LONG: DeviceFault = DeviceFault::Failed(SystemFault::FileTooLarge);

/// Where a walk over the frames of a file stands.
#[derive(Drop)]
pub struct Walk {
    /// What was read of the file and is still held.
    pub bytes: Vec<u8>,
    /// So many of these were gone over.
    pub at: usize,
    /// Where the next frame begins in the file.
    pub end: usize,
    /// The digest of the last frame that was gone over.
    pub last: [u8; 16],
    /// How many were gone over.
    pub number: usize,
}

impl Walk {
    /// Before the first frame of a file that begins with these bytes.
    pub fn begin(bytes: Vec<u8>) -> Walk
        requires { (rest : List ℕ) × (bytes.items ≡ header ++ rest) }
        ensures { HasWalked [] bytes.items result }
    {
        Walk {
            bytes,
            at: HEADER.len(),
            end: HEADER.len(),
            last: HEADER,
            number: 0,
        }
    }

    /// What was read and not yet gone over.
    pub fn ahead(&self) -> &[u8]
        ensures { result.now ≡ ahead self.now }
    {
        behind(&self.bytes, self.at)
    }

    /// More of the file was read. What was gone over is no longer held.
    pub fn add(&mut self, alloc: Global, piece: &[u8]) -> Result<(), AllocError>
        ensures walked { OnOk result ((batches : List (List ℕ)) (told : List ℕ) → HasWalked batches told self.old → HasWalked batches (told ++ piece.now) self.new) }
        ensures ahead { OnOk result (ahead self.new ≡ ahead self.old ++ piece.now) }
        ensures last { OnOk result (self.new.last ≡ self.old.last) }
        ensures end { OnOk result (self.new.end ≡ self.old.end) }
    {
        self.let_go(alloc)?;
        self.bytes.extend_from_slice(piece)?;
        Ok(())
    }

    /// What was gone over is no longer held.
    fn let_go(&mut self, alloc: Global) -> Result<(), AllocError>
        ensures start { OnOk result (self.new.at ≡ 0) }
        ensures ahead { OnOk result (self.new.bytes.items ≡ ahead self.old) }
        ensures last { OnOk result (self.new.last ≡ self.old.last) }
        ensures end { OnOk result (self.new.end ≡ self.old.end) }
        ensures number { OnOk result (self.new.number ≡ self.old.number) }
    {
        if self.at == 0 {
            return Ok(());
        }
        self.bytes = self.ahead().to_vec(alloc)?;
        self.at = 0;
        Ok(())
    }

    /// Goes over the next frame, where one begins at what is ahead.
    pub fn next(&mut self, alloc: Global) -> Result<Option<Vec<u8>>, DeviceFault>
        ensures read { IfOk result (λ found. IfSome found (λ batch. (batches : List (List ℕ)) (told : List ℕ)
            → HasWalked batches told self.old → HasWalked (batches ++ batch.items ∷ []) told self.new)) }
        ensures last { IfOk result (λ found. IfSome found (λ batch. (self.new.last ≡ digest self.old.last batch.items) × (length batch.items < 2 ^ 32))) }
        ensures further { IfOk result (λ found. IfSome found (λ _. (self.old.end < self.new.end) × (self.old.end < 2 ^ 60))) }
        ensures none { IfOk result (λ found. IfNone found (IsNoFrame self.old.last (ahead self.old))) }
        ensures stays { IfOk result (λ found. IfNone found (self.new ≡ self.old)) }
    {
        let Some(batch) = first_batch(self.ahead(), &self.last) else {
            return Ok(None);
        };
        if self.end >= MAX_END || self.number >= MAX_END {
            return Err(TOO_LONG);
        }
        let last = digest_at(self.ahead(), 5);
        let batch = batch.to_vec(alloc)?;
        self.at += 21 + batch.len();
        self.end += 21 + batch.len();
        self.last = last;
        self.number += 1;
        Ok(Some(batch))
    }
}

/// Whether these bytes tell if a frame begins with them, whatever stands behind them.
pub fn is_decided(bytes: &[u8]) -> bool
    ensures yes { IsTrue result → (last more : List ℕ) → IsNoFrame last bytes.now → IsNoFrame last (bytes.now ++ more) }
    ensures no { IsFalse result → length bytes.now < 2 ^ 33 }
{
    if bytes.len() < 21 {
        return false;
    }
    let size = u32::from_be_bytes([bytes[1], bytes[2], bytes[3], bytes[4]]) as usize;
    let mark = bytes[0];
    if mark != 255 {
        return true;
    }
    size <= bytes.len() - 21
}
