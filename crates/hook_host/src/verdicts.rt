//! What each hook of a host leaves of an ask.

ghost use Rattle.std.specs.Prelude.{◌≡◌, ◌≤◌, ◌++◌, ◌∷◌, [], length, map, OnErr, OnOk};
ghost use Rattle.hook_host.specs.Names.{name_limit};
ghost use Rattle.hook_host.specs.Verdicts.{verdict_in, verdict_of};

use crate::entry::Entry;
use hook_record::Narrowed;
use std::alloc::{AllocError, Global};
use std::marker::Model;

/// What each of some hooks left of an ask, in their order, with their names.
#[derive(Drop)]
pub struct Verdicts {
    entries: Vec<Entry>,
}

impl Model for Verdicts {
    ghost use Rattle.std.specs.Prelude.{List, map};
    ghost use Rattle.hook_host.specs.Verdicts.{Verdict, verdict_in};

    ghost Value = { List Verdict };

    ghost view = { λ v. map verdict_in v.entries.items };
}

impl Verdicts {
    /// Those of no hook, which take no memory.
    pub fn none(alloc: Global) -> Self
        ensures { result ≡ [] }
    {
        Verdicts {
            entries: Vec::new(alloc),
        }
    }

    /// One more hook, of this name, left this. Where memory is refused, they are as they were.
    #[tactic(auto, using(crate::proofs::Filling::one_more))]
    pub fn push(&mut self, name: &str, left: Narrowed) -> Result<(), AllocError>
        requires { length name.now ≤ name_limit }
        ensures more { OnOk result (self.new ≡ self.old ++ verdict_of name.now left ∷ []) }
        ensures err { OnErr result (self.new ≡ self.old) }
    {
        self.entries.push(Entry::new(name, left))?;
        Ok(())
    }

    /// The verdict of each hook.
    pub fn entries(&self) -> &[Entry]
        ensures { map verdict_in result.now ≡ self.now }
    {
        self.entries.as_slice()
    }
}
