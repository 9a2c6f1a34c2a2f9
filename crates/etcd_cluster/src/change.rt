//! Changes of a list, and what is told of them.

/// What the head of a list says.
#[derive(Clone, Copy, Debug, PartialEq, Eq)]
pub struct Head {
    /// The server that put it: no two have one number.
    pub server: u64,
    /// How many changes that server had made.
    pub turn: u64,
    /// The pieces of this generation count,
    pub generation: u64,
    /// and of these so many bytes,
    pub end: u64,
    /// with so many zeros behind them, which are in no piece.
    pub room: u64,
}

/// What is done to the pieces of a generation.
#[derive(Clone, Copy, Debug)]
pub enum Write<'a> {
    /// The piece at this place has these bytes from then on.
    Lay(u64, u64, &'a [u8]),
    /// The pieces from the one place on, up to the other, are no more.
    Clear(u64, u64, u64),
    /// Those of any other generation are no more.
    Forget(u64),
}

/// A change: done where the head is of this version, all of it at one moment.
#[derive(Clone, Copy, Debug)]
pub struct Change<'a> {
    pub after: u64,
    /// The head from then on.
    pub head: Head,
    pub writes: &'a [Write<'a>],
}

/// A head, and its version.
#[derive(Clone, Copy, Debug, PartialEq, Eq)]
pub struct Standing {
    pub version: u64,
    pub head: Head,
}

/// A piece of the bytes, and the place of its first byte.
#[derive(Drop)]
pub struct Piece {
    pub at: u64,
    pub bytes: Vec<u8>,
}

/// Which pieces are asked for: of this generation, from that place on, no more than so many, where the head is of this version.
#[derive(Clone, Copy, Debug)]
pub struct Wanted {
    pub version: u64,
    pub generation: u64,
    pub from: u64,
    pub most: u64,
}

/// What became of a change.
#[derive(Clone, Copy, Debug, PartialEq, Eq)]
pub enum Answer {
    /// It is done: the head is of this version.
    Done(u64),
    /// It was not done this time: this stood there, if anything did.
    NotDone(Option<Standing>),
}

/// Why nothing is told of a change.
#[derive(Clone, Copy, Debug, PartialEq, Eq)]
pub enum CallFault {
    /// It may be done by now, be done later, or never.
    Unclear,
    /// It is not done, and won't be.
    Refused,
}
