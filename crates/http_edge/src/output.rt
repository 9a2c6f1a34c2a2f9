//! The output of a connection.
ghost use Rattle.std.specs.Prelude.{◌≡◌, ◌≤◌, ◌<◌, ◌+◌, ◌-◌, ◌⊎◌, [], All, Contains, OnOk, OnErr, IsOk, length, drop, map, filter, nat_le, vec_len, vec_capacity};
ghost use Rattle.messages.specs.Written.{reply_bytes, faulty_bytes};
ghost use Rattle.http_edge.specs.Heard.{HasRoom, seen_output, taken_from, with_faulty, with_reply};
ghost use Rattle.http_edge.specs.Schedule.{faulty_if};

use crate::room::{give_back, take_front};
use messages::{Response, push_faulty};
use std::alloc::{AllocError, Global};

// Of so many replies the ends are kept, without giving memory back.
const ENDS_KEPT: usize = 65;

/// The bytes to a connection that were not taken yet, and up to how many of them the ends of its replies are.
#[derive(Drop)]
pub(crate) struct Output {
    pub(crate) bytes: Vec<u8>,
    pub(crate) ends: Vec<usize>,
}

// Those that are no less than so many.
fn drop_ends(ends: &mut Vec<usize>, n: usize)
    ensures { ends.new.items ≡ filter (λ end. nat_le n end) ends.old.items }
{
    ends.retain(|end| *end >= n);
}

// Counted from so many on.
fn lower_ends(ends: &mut Vec<usize>, n: usize)
    ensures { ends.new.items ≡ map (λ end. end - n) ends.old.items }
{
    for i in 0..ends.len() {
        ends[i] = ends[i].saturating_sub(n);
    }
}

impl Output {
    pub(crate) fn new(alloc: Global) -> Self
        ensures bytes { result.bytes.items ≡ [] }
        ensures ends { result.ends.items ≡ [] }
    {
        Output {
            bytes: Vec::new(alloc),
            ends: Vec::new(alloc),
        }
    }

    /// Makes room for so many bytes, and for the ends of so many replies.
    pub(crate) fn reserve(&mut self, bytes: usize, replies: usize) -> Result<(), AllocError>
        ensures room { OnOk result (HasRoom self.new bytes replies) }
        ensures missing { OnErr result ((vec_capacity self.old.bytes < vec_len self.old.bytes + bytes) ⊎ (vec_capacity self.old.ends < vec_len self.old.ends + replies)) }
        ensures same { seen_output self.new ≡ seen_output self.old }
    {
        let Ok(()) = self.bytes.reserve_exact(bytes) else {
            return Err(AllocError);
        };
        self.ends.reserve_exact(replies)
    }

    /// Writes a reply behind the others, where room was made.
    pub(crate) fn push(&mut self, reply: &Response)
        requires { HasRoom self.old (length (reply_bytes reply.now)) 1 }
        ensures written { seen_output self.new ≡ with_reply (seen_output self.old) (reply_bytes reply.now) }
        ensures room { vec_capacity self.old.bytes ≤ vec_capacity self.new.bytes }
        ensures ends_room { vec_capacity self.old.ends ≤ vec_capacity self.new.ends }
    {
        reply.push(&mut self.bytes);
        let Ok(()) = self.ends.push(self.bytes.len()) else {
            unreachable!();
        };
    }

    /// Writes the 400 of a faulty head, where room was made.
    pub(crate) fn push_faulty(&mut self)
        requires { HasRoom self.old (length faulty_bytes) 1 }
        ensures { seen_output self.new ≡ with_reply (seen_output self.old) faulty_bytes }
    {
        push_faulty(&mut self.bytes);
        let Ok(()) = self.ends.push(self.bytes.len()) else {
            unreachable!();
        };
    }

    /// The first bytes were taken.
    pub(crate) fn take(&mut self, n: usize)
        requires { n ≤ vec_len self.old.bytes }
        ensures { seen_output self.new ≡ taken_from (seen_output self.old) n }
    {
        take_front(&mut self.bytes, n);
        drop_ends(&mut self.ends, n);
        lower_ends(&mut self.ends, n);
        self.give_back();
    }

    /// Gives memory back, if it is more than one reply needs.
    pub(crate) fn give_back(&mut self)
        ensures { seen_output self.new ≡ seen_output self.old }
    {
        give_back(&mut self.bytes);
        if self.ends.capacity() > ENDS_KEPT {
            self.ends.shrink_to_fit();
        }
    }

    /// How many bytes are left up to the next end of a reply.
    pub(crate) fn left_of_reply(&self) -> usize
        ensures is_end { (result ≡ vec_len self.now.bytes) ⊎ Contains self.now.ends.items result }
        ensures within { result ≤ vec_len self.now.bytes }
        ensures next { All (λ end. result ≤ end) self.now.ends.items }
    {
        let mut least = self.bytes.len();
        for i in 0..self.ends.len() {
            least = least.min(self.ends[i]);
        }
        least
    }
}
