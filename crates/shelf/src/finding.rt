//! What a digest names.
ghost use Rattle.std.specs.Prelude.{◌≡◌, ◌<◌, ◌≤◌, true, IfSome, IfNone, None, option_copied, option_map};
ghost use Rattle.std.specs.Str.{bytes_eq};
ghost use Rattle.std.specs.Map.{lookup};
ghost use Rattle.shelf.specs.Looking.{is_held};
ghost use Rattle.shelf.specs.Shelved.{bucket, entries_of, facts_of, is_named, room, slot_at, spent_in, IsShelved};

use crate::shelf::{Facts, Lasts, Shelf};
use crate::slots::Blank;
use chains::Chains;
use consent::Digest;

// The list of what the digest names: a digest is SHA-256, so its first bytes are spread evenly.
pub(crate) fn bucket(names: &Chains, digest: &Digest) -> usize
    requires { 1 ≤ names.now.heads }
    ensures value { result ≡ bucket names.now.heads digest.now }
    ensures list { result < names.now.heads }
{
    let bytes = digest.bytes();
    let word = u32::from_le_bytes([bytes[0], bytes[1], bytes[2], bytes[3]]);
    word as usize % names.lists()
}

impl<R: Lasts + Blank + Drop> Shelf<R> {
    // What the lists and the tally tell of it.
    pub(crate) fn facts_of(&self, slot: u32) -> Option<Facts>
        ensures { result ≡ option_map (facts_of R.until R.whose) (slot_at self.now.slots.items slot) }
    {
        let found = self.slots.get(slot as usize)?;
        Some(Facts {
            digest: found.key,
            until: found.kept.until(),
            whose: found.kept.whose(),
        })
    }

    // Whether the digest names what is in the slot, in which something is.
    fn is_named(&self, slot: u32, digest: &Digest) -> bool
        requires { is_held (slot_at self.now.slots.items slot) ≡ true }
        ensures { result ≡ is_named digest.now (slot_at self.now.slots.items slot) }
    {
        self.slots.at(slot as usize).key == *digest
    }

    // The slot of what the digest names.
    pub(crate) fn find(&self, digest: &Digest) -> Option<u32>
        requires { IsShelved R.until R.whose self.now }
        ensures some { IfSome result (λ x. is_named digest.now (slot_at self.now.slots.items x) ≡ true) }
        ensures none { IfNone result (lookup (bytes_eq digest.now) (entries_of self.now) ≡ None) }
    {
        let mut at = self.names.first(bucket(&self.names, digest));
        while let Some(slot) = at {
            if self.is_named(slot, digest) {
                return Some(slot);
            }
            at = self.names.behind(slot);
        }
        None
    }

    /// What the digest names.
    pub fn get(&self, digest: &Digest) -> Option<&R>
        requires { IsShelved R.until R.whose self.now }
        ensures { option_copied result ≡ lookup (bytes_eq digest.now) (entries_of self.now) }
    {
        let slot = self.find(digest)?;
        Some(&self.slots.at(slot as usize).kept)
    }

    /// What the digest names was used, if it names something.
    pub fn spend(&mut self, digest: &Digest)
        requires { IsShelved R.until R.whose self.old }
        ensures shelved { IsShelved R.until R.whose self.new }
        ensures spent { entries_of self.new ≡ spent_in R.spent digest.now (entries_of self.old) (lookup (bytes_eq digest.now) (entries_of self.old)) }
        ensures room { room self.new ≡ room self.old }
    {
        let Some(slot) = self.find(digest) else {
            return;
        };
        let mut kept = self.slots.clear(slot as usize);
        kept.spend();
        self.slots.fill(slot as usize, *digest, kept);
    }
}
