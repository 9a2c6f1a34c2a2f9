//! Bytes where room was made.
ghost use Rattle.std.specs.Prelude.{◌≡◌, ◌≤◌, ◌+◌, ◌++◌, length, drop, vec_len, vec_capacity};

use crate::limits::REPLY_LIMIT;

// So much room does a connection keep for replies, at most.
const ROOM_KEPT: usize = REPLY_LIMIT;

// Writes into the room that was made, with no refusal.
pub(crate) fn put(bytes: &mut Vec<u8>, piece: &[u8])
    requires { vec_len bytes.old + length piece.now ≤ vec_capacity bytes.old }
    ensures items { bytes.new.items ≡ bytes.old.items ++ piece.now }
    ensures room { vec_capacity bytes.old ≤ vec_capacity bytes.new }
    ensures len { vec_len bytes.new ≡ vec_len bytes.old + length piece.now }
{
    let Ok(()) = bytes.extend_from_slice(piece) else {
        unreachable!();
    };
}

// Takes the first bytes away, with no memory.
pub(crate) fn take_front(bytes: &mut Vec<u8>, count: usize)
    requires { count ≤ vec_len bytes.old }
    ensures items { bytes.new.items ≡ drop count bytes.old.items }
    ensures room { vec_capacity bytes.new ≡ vec_capacity bytes.old }
{
    let left = bytes.len() - count;
    bytes.copy_within(count.., 0);
    bytes.truncate(left);
}

// Gives memory back, if it is more than one reply needs.
pub(crate) fn give_back(output: &mut Vec<u8>)
    ensures { output.new.items ≡ output.old.items }
{
    if output.capacity() > ROOM_KEPT {
        output.shrink_to_fit();
    }
}
