//! The record that a program reads and narrows.

ghost use Rattle.std.specs.Prelude.{◌≡◌, ◌≤◌};
ghost use Rattle.insn.specs.Values.{record_size, writable_from, writable_to};

/// A version of the record: how long it is, and which of its bytes a program may write.
#[derive(Clone, Copy, Debug, PartialEq, Eq)]
pub enum Layout {
    /// 64 bytes.
    V1,
    /// 96 bytes.
    V2,
}

impl Layout {
    /// How many bytes the record has.
    pub fn size(self) -> usize
        ensures value { result ≡ record_size self }
        ensures at_most { result ≤ 96 }
    {
        match self {
            Layout::V1 => 64,
            Layout::V2 => 96,
        }
    }

    /// The first byte that a program may write.
    pub fn writable_from(self) -> usize
        ensures { result ≡ writable_from self }
    {
        match self {
            Layout::V1 | Layout::V2 => 40,
        }
    }

    /// The byte behind the last one that a program may write.
    pub fn writable_to(self) -> usize
        ensures value { result ≡ writable_to self }
        ensures inside { result ≤ record_size self }
    {
        match self {
            Layout::V1 | Layout::V2 => 52,
        }
    }
}
