//! What was not read of a connection's stream.
ghost use Rattle.std.specs.Prelude.{◌≡◌, ◌≤◌, ◌<◌, ◌++◌, ◌↔◌, [], true, false, IsTrue, length, IfOk, OnOk, OnErr};
ghost use Rattle.heads.specs.Limits.{message_size_limit};
ghost use Rattle.heads.specs.Waiting.{IsWaiting};
ghost use Rattle.http_edge.specs.Limits.{piece_limit};
ghost use Rattle.http_edge.specs.Heard.{IsStillNone};
ghost use Rattle.http_edge.specs.Rests.{SeenRest, seen_rest, no_rest, still_waits_with, with_piece};

use crate::room::put;
use heads::Waits;
use std::alloc::{AllocError, Global};
use std::marker::Model;

/// The end of a stream that no message was made of yet.
#[derive(Drop)]
pub(crate) struct Rest {
    bytes: Vec<u8>,
    // What they wait for before they are read again.
    waits: Waits,
}

impl Model for Rest {
    ghost use Rattle.std.specs.Prelude.{◌<◌, vec_len};
    ghost use Rattle.heads.specs.Limits.{message_size_limit};
    ghost use Rattle.heads.specs.Waiting.{IsWaiting};
    ghost use Rattle.http_edge.specs.Rests.{SeenRest, seen_rest};

    ghost Value = { SeenRest };

    ghost view = { λ r. seen_rest r.bytes.items r.waits };

    ghost invariant = { λ r. (vec_len r.bytes < message_size_limit) × IsWaiting r.bytes.items r.waits };
}

impl Rest {
    pub(crate) fn new(alloc: Global) -> Self
        ensures { result ≡ no_rest }
    {
        Rest {
            bytes: Vec::new(alloc),
            waits: Waits::ForBytes(0),
        }
    }

    pub(crate) fn len(&self) -> usize
        ensures { result ≡ length self.now.bytes }
    {
        self.bytes.len()
    }

    pub(crate) fn is_empty(&self) -> bool
        ensures { IsTrue result ↔ (self.now.bytes ≡ []) }
    {
        self.bytes.is_empty()
    }

    pub(crate) fn as_slice(&self) -> &[u8]
        ensures value { result.now ≡ self.now.bytes }
        ensures short { length result.now < message_size_limit }
    {
        self.bytes.as_slice()
    }

    pub(crate) fn clear(&mut self)
        ensures { self.new ≡ no_rest }
    {
        self.bytes.clear();
        self.bytes.shrink_to_fit();
        self.waits = Waits::ForBytes(0);
    }

    // Takes a piece unread, if the bytes still wait with it too. So a part of a line is taken in the time that it takes to
    // look for a line's end in it, and bytes of a body in the time that it takes to copy them.
    pub(crate) fn wait(&mut self, piece: &[u8]) -> Result<bool, AllocError>
        requires { length piece.now ≤ piece_limit }
        ensures waits { IfOk result (λ waits. waits ≡ still_waits_with self.old piece.now) }
        ensures taken { IfOk result (λ waits. waits ≡ true → self.new ≡ with_piece self.old piece.now) }
        ensures left { IfOk result (λ waits. waits ≡ false → self.new ≡ self.old) }
        ensures none { IfOk result (λ waits. waits ≡ true → IsStillNone (self.old.bytes ++ piece.now)) }
        ensures err { OnErr result (self.new ≡ self.old) }
        ensures err_none { OnErr result (IsStillNone (self.old.bytes ++ piece.now)) }
    {
        if !self.waits.still_waits(self.bytes.len(), piece) {
            return Ok(false);
        }
        let Ok(()) = self.bytes.reserve(piece.len()) else {
            return Err(AllocError);
        };
        put(&mut self.bytes, piece);
        Ok(true)
    }

    // Keeps these bytes in place of what it has.
    pub(crate) fn replace(&mut self, bytes: &[u8], waits: Waits) -> Result<(), AllocError>
        requires short { length bytes.now < message_size_limit }
        requires waiting { IsWaiting bytes.now waits }
        ensures ok { OnOk result (self.new ≡ seen_rest bytes.now waits) }
        ensures err { OnErr result (self.new ≡ self.old) }
    {
        let more = bytes.len().saturating_sub(self.bytes.len());
        let Ok(()) = self.bytes.reserve_exact(more) else {
            return Err(AllocError);
        };
        self.bytes.clear();
        put(&mut self.bytes, bytes);
        self.bytes.shrink_to_fit();
        self.waits = waits;
        Ok(())
    }
}
