//! What one hook left of an ask.

ghost use Rattle.std.specs.Prelude.{◌≡◌, ◌≤◌, length};

use hook_record::Narrowed;

/// The most bytes of a hook's name.
const LONGEST: usize = 32;

/// A hook's name, and what it left of an ask.
#[derive(Clone, Copy)]
pub struct Entry {
    name: [u8; LONGEST],
    size: usize,
    left: Narrowed,
    ghost short: { size ≤ 32 },
}

impl Entry {
    ghost use Rattle.hook_host.specs.Verdicts.{verdict_in, verdict_of};

    /// The hook of the name left this.
    #[tactic(auto, using(crate::proofs::Filling::front))]
    pub(crate) fn new(name: &str, left: Narrowed) -> Self
        requires { length name.now ≤ 32 }
        ensures { verdict_in result ≡ verdict_of name.now left }
    {
        let mut bytes = [0; LONGEST];
        bytes[..name.len()].copy_from_slice(name.as_bytes());
        Entry {
            name: bytes,
            size: name.len(),
            left,
        }
    }

    /// The hook's name.
    pub fn name(&self) -> &[u8]
        ensures { result.now ≡ (verdict_in self.now).name }
    {
        &self.name[..self.size]
    }

    /// What it left.
    pub fn left(&self) -> Narrowed
        ensures { result ≡ (verdict_in self.now).left }
    {
        self.left
    }
}
