//! The server's own host: hooks that answer one after the other.

ghost use Rattle.std.specs.Prelude.{◌≡◌, ◌↔◌, ◌<◌, ◌≤◌, ◌∷◌, ◌++◌, [], Contains, IsTrue, IfOk, IfErr, IsOk, OnOk, OnErr, length};
ghost use Rattle.hook_host.specs.Names.{AreHookNames, hook_limit};
ghost use Rattle.hook_chain.specs.Chains.{Accepts, HasNoPlace, HasPlace, IsAcceptedCode, IsInstalled, IsNotTaken, IsRemoved, RefusesInstall, RefusesRemove, has_name, hooks_of, hook_names};
ghost use Rattle.hook_chain.specs.Exits.{narrowed_by};
ghost use Rattle.hook_chain.specs.Turns.{verdicts_of};

use crate::hook::Hook;
use crate::name::is_hook_name;
use encoding::decode;
use hook_host::{HookFault, HookHost, Verdicts};
use hook_record::{Ask, Narrowed};
use insn::layout::Layout;
use std::alloc::{AllocError, Global};
use std::marker::Model;
use verifier::verified::{Verified, verify};

/// The most hooks of a chain.
const MAX_HOOKS: usize = 8;

/// Hooks that answer in the order in which they were installed, each on what the one before left, up to the first that
/// doesn't allow. Without hooks all is allowed that is asked.
pub struct Chain {
    alloc: Global,
    hooks: Vec<Hook>,
}

// It is written out, so that whoever lets go of a chain calls this, and is not proved over all that a chain is made of.
impl Drop for Chain {
    fn drop(self) {
        let Chain {
            alloc: _,
            hooks: _hooks,
        } = self;
    }
}

impl Model for Chain {
    ghost use Rattle.std.specs.Prelude.{List};
    ghost use Rattle.std.specs.Vec.{vec_capacity};
    ghost use Rattle.hook_chain.specs.Chains.{Named, HoldsAll};

    ghost Value = { List Named };

    ghost view = { λ c. c.hooks.items };

    // Where there is a hook, there is room for as many as may be.
    ghost invariant = { λ c. HoldsAll c.hooks.items (vec_capacity c.hooks) };
}

impl Chain {
    /// No hooks.
    pub fn new(alloc: Global) -> Self
        ensures { result ≡ [] }
    {
        Chain {
            alloc,
            hooks: Vec::new(alloc),
        }
    }

    /// Whether a hook has a name.
    fn has(&self, name: &str) -> bool
        ensures value { result ≡ has_name self.now name.now }
        ensures names { AreHookNames (hook_names self.now) }
    {
        self.hooks.iter().any(|hook| name == hook.name.as_str())
    }

    /// Tests whether a hook may be installed under a name, before its code is looked at.
    fn place(&self, name: &str) -> Result<(), HookFault>
        ensures place { IsOk result → HasPlace self.now name.now }
        ensures refused { IfErr result (λ fault. HasNoPlace self.now name.now fault) }
    {
        if !is_hook_name(name) {
            return Err(HookFault::BadName);
        }
        if self.has(name) {
            return Err(HookFault::NameTaken);
        }
        if self.hooks.len() >= MAX_HOOKS {
            return Err(HookFault::Full);
        }
        Ok(())
    }
}

/// The program that some code spells, where it is accepted.
fn accepted(alloc: Global, layout: Layout, code: &[u8]) -> Result<Verified, HookFault>
    ensures accepted { IfOk result (λ v. IsAcceptedCode layout code.now v) }
    ensures refused { IfErr result (λ fault. IsNotTaken layout code.now fault) }
{
    let program = decode(alloc, code)?;
    match verify(alloc, program, layout) {
        Ok(verified) => {
            let _program = verified.program();
            Ok(verified)
        }
        Err((_, fault)) => Err(HookFault::from(fault)),
    }
}

impl HookHost for Chain {
    ghost use Rattle.hook_chain.specs.TurnLaws.{last_is_answer};

    ghost answer = { λ hooks ask. narrowed_by (hooks_of hooks) ask };

    ghost verdicts = { verdicts_of };

    ghost names = { hook_names };

    ghost accepts = { Accepts };

    ghost installs = { IsInstalled };

    ghost removes = { IsRemoved };

    ghost refuses_install = { RefusesInstall };

    ghost refuses_remove = { RefusesRemove };

    fn decide(&self, ask: &Ask) -> Narrowed {
        let mut left = Narrowed::Allowed {
            scope: ask.scope,
            life: ask.life,
        };
        for hook in &self.hooks {
            left = hook.narrowed_further(ask, left);
        }
        left
    }

    fn explain(&self, alloc: Global, ask: &Ask) -> Result<Verdicts, AllocError> {
        let mut verdicts = Verdicts::none(alloc);
        let mut left = Narrowed::Allowed {
            scope: ask.scope,
            life: ask.life,
        };
        for hook in &self.hooks {
            left = hook.judge(ask, left, &mut verdicts)?;
        }
        Ok(verdicts)
    }

    fn check(&self, name: &str, layout: Layout, code: &[u8]) -> Result<Chain, HookFault> {
        self.place(name)?;
        let verified = accepted(self.alloc, layout, code)?;
        let name = String::from_str(self.alloc, name)?;
        let mut hooks = Vec::with_capacity(self.alloc, MAX_HOOKS)?;
        let Ok(()) = hooks.push(Hook { name, verified }) else {
            return Err(HookFault::Memory);
        };
        Ok(Chain {
            alloc: self.alloc,
            hooks,
        })
    }

    fn take(&mut self, checked: Chain) {
        let Chain {
            alloc: _,
            hooks: mut new,
        } = checked;
        if self.hooks.as_slice().is_empty() {
            self.hooks = new;
        } else {
            let moved: Result<_, _> = self.hooks.append(&mut new);
            moved.unwrap();
        }
    }

    fn check_removal(&self, name: &str) -> Result<(), HookFault> {
        if self.has(name) {
            Ok(())
        } else {
            Err(HookFault::Unknown)
        }
    }

    fn drop_named(&mut self, name: &str) {
        self.hooks.retain(|hook| name != hook.name.as_str());
    }

    fn name_at(&self, i: usize) -> Option<&str> {
        Some(self.hooks.get(i)?.name.as_str())
    }

    ghost last_answers = { last_is_answer };
}
