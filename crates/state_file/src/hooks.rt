//! The hooks that the changes of a state file set.

ghost use Rattle.std.specs.Prelude.{◌≡◌, ◌↔◌, ◌++◌, ◌∷◌, [], List, IsTrue, IfOk, OnOk, map, option_copied};
ghost use Rattle.consent.specs.Changes.{change_of};
ghost use Rattle.rules_codec.specs.Facts.{HookFact, hook_fact};
ghost use Rattle.state_file.specs.Hooks.{hooks_with, hook_named, without_hook};

use consent::{Change, RecordVersion};
use rules_codec::KeptHook;
use std::alloc::{AllocError, Global};
use std::marker::Model;

/// A hook that is set, by its name, with the version of its record and its code.
#[derive(Drop)]
pub struct SetHook {
    name: String,
    version: RecordVersion,
    code: Vec<u8>,
}

impl Model for SetHook {
    ghost use Rattle.std.specs.Prelude.{string_bytes};
    ghost use Rattle.rules_codec.specs.Facts.{HookFact};

    ghost Value = { HookFact };

    ghost view = { λ hook. record { name = string_bytes hook.name; version = hook.version; code = hook.code.items } };
}

impl SetHook {
    // It, where its texts lie here.
    fn kept(&self) -> KeptHook<'_>
        ensures { hook_fact result ≡ self.now }
    {
        KeptHook {
            name: self.name.as_str(),
            version: self.version,
            code: self.code.as_slice(),
        }
    }

    /// Whether it has this version and this code.
    pub fn is_of(&self, version: RecordVersion, code: &[u8]) -> bool
        ensures { IsTrue result ↔ ((self.now.version ≡ version) × (self.now.code ≡ code.now)) }
    {
        self.version == version && self.code.as_slice() == code
    }
}

/// Hooks that are set, in the order in which they were set.
#[derive(Drop)]
pub struct SetHooks {
    hooks: Vec<SetHook>,
    alloc: Global,
}

impl Model for SetHooks {
    ghost use Rattle.std.specs.Prelude.{List};
    ghost use Rattle.rules_codec.specs.Facts.{HookFact};

    ghost Value = { List HookFact };

    ghost view = { λ set. set.hooks.items };
}

impl SetHooks {
    /// None.
    pub fn new(alloc: Global) -> SetHooks
        ensures { result ≡ [] }
    {
        SetHooks {
            hooks: Vec::new(alloc),
            alloc,
        }
    }

    /// The hook of this name.
    pub fn named(&self, name: &str) -> Option<&SetHook>
        ensures { option_copied result ≡ hook_named name.now self.now }
    {
        self.hooks.iter().find(|hook| name == hook.name.as_str())
    }

    // A hook is set behind the others.
    pub(crate) fn push(
        &mut self,
        name: &str,
        version: RecordVersion,
        code: &[u8],
    ) -> Result<(), AllocError>
        ensures { OnOk result (self.new ≡ self.old ++ record { name = name.now; version = version; code = code.now } ∷ []) }
    {
        let name = String::from_str(self.alloc, name)?;
        let code = code.to_vec(self.alloc)?;
        self.hooks.push(SetHook {
            name,
            version,
            code,
        })?;
        Ok(())
    }

    // The hook of this name is gone.
    fn remove(&mut self, name: &str)
        ensures { self.new ≡ without_hook name.now self.old }
    {
        self.hooks.retain(|hook| name != hook.name.as_str());
    }

    /// Those that are set after the change.
    pub(crate) fn follow(&mut self, change: &Change<'_>) -> Result<(), AllocError>
        ensures { OnOk result (self.new ≡ hooks_with self.old (change_of change.now)) }
    {
        match change {
            Change::HookSet {
                name,
                version,
                code,
            } => self.push(name, *version, code),
            Change::HookGone { name } => {
                self.remove(name);
                Ok(())
            }
            _ => Ok(()),
        }
    }

    /// A list of them.
    pub fn listed(&self, alloc: Global) -> Result<Vec<KeptHook<'_>>, AllocError>
        ensures { IfOk result (λ list. map hook_fact list.items ≡ self.now) }
    {
        let mut list = Vec::new(alloc);
        for hook in self.hooks.as_slice() {
            let kept = hook.kept();
            list.extend_from_slice(&[kept])?;
        }
        Ok(list)
    }
}
