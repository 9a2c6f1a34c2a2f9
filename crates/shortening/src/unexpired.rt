//! What is unexpired of a list of changes.

ghost use Rattle.std.specs.Str.{bytes_eq};
ghost use Rattle.std.specs.Prelude.{ℕ, true, cond, ◌==◌, ◌≡◌, ◌+◌, ◌++◌, ◌∷◌, List, [], Option, nat_lt, OnOk};
ghost use Rattle.consent.specs.History.{Event, grant_of};
ghost use Rattle.change_codec.specs.Spelling.{dated_fact};
ghost use Rattle.shortening.specs.Known.{NotesUnexpired, has_digest, has_family, noted_by};

use change_codec::DatedChange;
use consent::{CODE_LIFE, Change, Digest, Moment};
use std::alloc::{AllocError, Global};
use std::collections::HashSet;

/// What names something unexpired of the changes so far, and of which families.
#[derive(Drop)]
pub struct Unexpired {
    pub(crate) named: HashSet<Digest>,
    pub(crate) living: HashSet<u64>,
}

/// Whether what is given at a moment, for so many seconds, is unexpired at another.
pub(crate) fn is_good(given: Moment, life: u32, moment: Moment) -> bool
    ensures { result ≡ nat_lt moment (given + life) }
{
    moment.get() < given.get() + u64::from(life)
}

/// The digest and the family of what the change gives, if that is unexpired at the moment.
fn noted(dated: &DatedChange<'_>, moment: Moment) -> Option<(Digest, u64)>
    ensures { result ≡ noted_by moment (grant_of (dated_fact dated.now)) }
{
    let (digest, family, life) = match dated.change {
        Change::CodeGiven { family, digest, .. } => (digest, family, CODE_LIFE),
        Change::Issued { home, token } => (token.digest, home.family, token.life),
        _ => return None,
    };
    if !is_good(dated.moment, life, moment) {
        return None;
    }
    Some((digest, family))
}

impl Unexpired {
    /// Nothing, as of no changes.
    pub fn new(alloc: Global) -> Self
        ensures { (moment : ℕ) → NotesUnexpired result [] moment }
    {
        Unexpired {
            named: HashSet::new(alloc),
            living: HashSet::new(alloc),
        }
    }

    // Notes the two.
    fn add(&mut self, digest: &Digest, family: u64) -> Result<(), AllocError>
        ensures named { OnOk result ((q : List ℕ) → has_digest self.new q ≡ cond (bytes_eq digest.now q) true (has_digest self.old q)) }
        ensures living { OnOk result ((q : ℕ) → has_family self.new q ≡ cond (family == q) true (has_family self.old q)) }
    {
        self.named.insert(*digest)?;
        self.living.insert(family)?;
        Ok(())
    }

    /// Notes what the change gives, if that is unexpired at the moment. It stands behind the others.
    pub fn note(&mut self, dated: &DatedChange<'_>, moment: Moment) -> Result<(), AllocError>
        ensures { OnOk result ((events : List Event) → NotesUnexpired self.old events moment →
            NotesUnexpired self.new (events ++ dated_fact dated.now ∷ []) moment) }
    {
        let Some(one) = noted(dated, moment) else {
            return Ok(());
        };
        self.add(&one.0, one.1)?;
        Ok(())
    }

    /// Whether the digest names something unexpired.
    pub(crate) fn names(&self, digest: &Digest) -> bool
        ensures { result ≡ has_digest self.now digest.now }
    {
        self.named.contains(digest)
    }

    /// Whether the family lives.
    pub(crate) fn lives(&self, family: u64) -> bool
        ensures { result ≡ has_family self.now family }
    {
        self.living.contains(&family)
    }
}
