//! Bytes that are read in pieces, from the first on.

ghost use Rattle.std.specs.Prelude.{◌≡◌, ◌<◌, ◌≤◌, ◌++◌, [], List, ℕ, length, take, drop, IfOk, IfErr, OnOk};
ghost use Rattle.std.proofs.Common.{◌∙◌};
ghost use Rattle.batch_file.specs.Readers.{IsUnread};

use crate::device::DeviceFault;
use crate::framing::ReadFault;
use std::alloc::Global;

/// So many bytes are asked for at once.
pub const PIECE: usize = 1 << 16;

/// Bytes that are read from the first on.
pub trait ByteSource {
    /// What was read since it was opened or rewound.
    ghost told: { Self → List ℕ };

    /// Its end was reached: what was told is all.
    ghost is_over: { Self → Type 0 };

    /// These are all of its bytes, where that is known before they are read.
    ghost whole: { Self → List ℕ → Type 0 };

    /// The next bytes, no more than so many: none where its end is reached.
    fn read_some(&mut self, alloc: Global, most: usize) -> Result<Vec<u8>, DeviceFault>
        ensures told { IfOk result (λ bytes. told self.new ≡ told self.old ++ bytes.items) }
        ensures few { IfOk result (λ bytes. length bytes.items ≤ most) }
        ensures over { IfOk result (λ bytes. 0 < most → bytes.items ≡ [] → is_over self.new) }
        ensures whole { (all : List ℕ) → whole self.old all → whole self.new all };

    /// The next bytes are the first ones again.
    fn rewind(&mut self)
        ensures told { told self.new ≡ [] }
        ensures whole { (all : List ℕ) → whole self.old all → whole self.new all };

    /// Once its end was reached, what was told is what it has.
    ghost told_whole: { (source : Self) (all : List ℕ) → whole source all → is_over source → told source ≡ all };
}

/// Bytes in memory as a source.
#[derive(Drop)]
pub struct Bytes<'b> {
    /// All of them.
    pub all: &'b [u8],
    /// So many were read.
    pub at: usize,
}

impl<'b> Bytes<'b> {
    /// None of them was read.
    pub fn new(all: &'b [u8]) -> Bytes<'b>
        ensures told { ⟦<Bytes<'b> as ByteSource>⟧.told result ≡ [] }
        ensures whole { ⟦<Bytes<'b> as ByteSource>⟧.whole result all.now }
    {
        Bytes { all, at: 0 }
    }
}

impl ByteSource for Bytes<'_> {
    ghost told = { λ bytes. take bytes.at bytes.all.now };

    ghost is_over = { λ bytes. take bytes.at bytes.all.now ≡ bytes.all.now };

    ghost whole = { λ bytes all. bytes.all.now ≡ all };

    fn read_some(&mut self, alloc: Global, most: usize) -> Result<Vec<u8>, DeviceFault> {
        let ahead = behind(self.all, self.at);
        let size = ahead.len().min(most);
        let bytes = ahead[..size].to_vec(alloc)?;
        self.at += size;
        Ok(bytes)
    }

    fn rewind(&mut self) {
        self.at = 0;
    }

    ghost told_whole = { λ bytes all has over. over ∙ has };
}

/// What stands behind so many bytes.
pub(crate) fn behind(bytes: &[u8], at: usize) -> &[u8]
    ensures { result.now ≡ drop at bytes.now }
{
    if at > bytes.len() {
        return &bytes[bytes.len()..];
    }
    &bytes[at..]
}

/// All that a source has left.
pub fn read_whole<S: ByteSource>(alloc: Global, source: &mut S) -> Result<Vec<u8>, ReadFault>
    ensures read { IfOk result (λ bytes. S.told source.new ≡ S.told source.old ++ bytes.items) }
    ensures over { OnOk result (S.is_over source.new) }
    ensures whole { (all : List ℕ) → S.whole source.old all → S.whole source.new all }
    ensures refused { IfErr result IsUnread }
{
    let mut bytes = Vec::new(alloc);
    loop {
        let piece = source.read_some(alloc, PIECE)?;
        if piece.is_empty() {
            return Ok(bytes);
        }
        bytes.extend_from_slice(&piece)?;
    }
}
