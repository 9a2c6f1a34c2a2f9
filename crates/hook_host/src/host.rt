//! What the server asks of a host of hooks.

ghost use Rattle.std.specs.Prelude.{◌≡◌, ℕ, List, [], ◌∷◌, ◌++◌, Contains, OnOk, OnErr, IfOk, IfErr, slice_get};
ghost use Rattle.std.specs.Option.{option_copied};
ghost use Rattle.insn.specs.declared.layout.Layout.{Layout};
ghost use Rattle.hook_record.specs.declared.Ask.{Ask};
ghost use Rattle.hook_record.specs.declared.Narrowed.{Narrowed};
ghost use Rattle.hook_record.specs.declared.Narrowed.TheVariants.{Allowed};
ghost use Rattle.hook_host.specs.declared.fault.HookFault.{HookFault};
ghost use Rattle.hook_host.specs.Names.{without, IsHookName, AreHookNames};
ghost use Rattle.hook_host.specs.Checks.{Takes, WasChecked};
ghost use Rattle.hook_host.specs.Verdicts.{Verdict, last_left};

use crate::{HookFault, Verdicts};
use hook_record::{Ask, Narrowed};
use insn::layout::Layout;
use std::alloc::{AllocError, Global};

/// Keeps hooks under names, and answers what may be granted.
///
/// Which fault a refusal has is the host's own, by `refuses_install` and `refuses_remove`. Whether a hook is taken or let go
/// is decided by reading; taking it and letting it go cannot fail.
pub trait HookHost: Drop {
    /// What the host answers to an ask.
    ghost answer: { Self → Ask → Narrowed };

    /// What each of its hooks leaves of an ask, in their order, with its name: of as many as are asked, up to the first that
    /// does not allow.
    ghost verdicts: { Self → Ask → List Verdict };

    /// The names of its hooks, in the order in which they were installed.
    ghost names: { Self → List (List ℕ) };

    /// A host, a name, a layout and a code, and what the host gives for it to be taken: a host that has that hook alone.
    ghost accepts: { Self → List ℕ → Layout → List ℕ → Self → Type 0 };

    /// A host, a name, a layout and a code, and the host that comes of it by installing the code under the name.
    ghost installs: { Self → List ℕ → Layout → List ℕ → Self → Type 0 };

    /// A host and a name, and the host that comes of it by removing the hook of that name.
    ghost removes: { Self → List ℕ → Self → Type 0 };

    /// A host, a name, a layout and a code, and a fault for which the code is not installed under the name.
    ghost refuses_install: { Self → List ℕ → Layout → List ℕ → HookFault → Type 0 };

    /// A host and a name, and a fault for which the hook of that name is not removed.
    ghost refuses_remove: { Self → List ℕ → HookFault → Type 0 };

    /// What may be granted of an ask.
    fn decide(&self, ask: &Ask) -> Narrowed
        ensures { result ≡ answer self.now ask.entry.now };

    /// What each hook leaves of an ask.
    fn explain(&self, alloc: Global, ask: &Ask) -> Result<Verdicts, AllocError>
        ensures { IfOk result (λ told. told ≡ verdicts self.now ask.entry.now) };

    /// Tests whether a program, which reads records of a layout, may be installed under a name. What it gives has that hook
    /// alone, and all memory that is wanted for taking it.
    fn check(&self, name: &str, layout: Layout, code: &[u8]) -> Result<Self, HookFault>
        ensures accepted { IfOk result (λ checked. accepts self.now name.now layout code.now checked) }
        ensures named { OnOk result (IsHookName name.now) }
        ensures refused { IfErr result (λ fault. refuses_install self.now name.now layout code.now fault) };

    /// Installs a hook that was checked, behind the other hooks.
    fn take(&mut self, checked: Self)
        requires { WasChecked accepts self.old checked }
        ensures done { Takes accepts self.old checked (λ name layout code. installs self.old name layout code self.new) }
        ensures last { Takes accepts self.old checked (λ name _ _. names self.new ≡ names self.old ++ name ∷ []) };

    /// Tests whether the hook of a name may be removed.
    fn check_removal(&self, name: &str) -> Result<(), HookFault>
        ensures named { OnOk result (IsHookName name.now) }
        ensures was_there { OnOk result (Contains (names self.now) name.now) }
        ensures refused { IfErr result (λ fault. refuses_remove self.now name.now fault) };

    /// Removes the hook of a name.
    fn drop_named(&mut self, name: &str)
        requires { Contains (names self.old) name.now }
        ensures done { removes self.old name.now self.new }
        ensures alone { names self.new ≡ without name.now (names self.old) };

    /// Installs a program, which reads records of a layout, behind the other hooks. A refused call leaves the host as it was.
    fn install(&mut self, name: &str, layout: Layout, code: &[u8]) -> Result<(), HookFault>
        ensures done { OnOk result (installs self.old name.now layout code.now self.new) }
        ensures named { OnOk result (IsHookName name.now) }
        ensures last { OnOk result (names self.new ≡ names self.old ++ name.now ∷ []) }
        ensures refused { IfErr result (λ fault. refuses_install self.old name.now layout code.now fault) }
        ensures err { OnErr result (self.new ≡ self.old) }
    {
        let checked = self.check(name, layout, code)?;
        self.take(checked);
        Ok(())
    }

    /// Removes the hook of a name. A refused call leaves the host as it was.
    fn remove(&mut self, name: &str) -> Result<(), HookFault>
        ensures done { OnOk result (removes self.old name.now self.new) }
        ensures named { OnOk result (IsHookName name.now) }
        ensures was_there { OnOk result (Contains (names self.old) name.now) }
        ensures alone { OnOk result (names self.new ≡ without name.now (names self.old)) }
        ensures refused { IfErr result (λ fault. refuses_remove self.old name.now fault) }
        ensures err { OnErr result (self.new ≡ self.old) }
    {
        self.check_removal(name)?;
        self.drop_named(name);
        Ok(())
    }

    /// The name of a hook, counted from 0 in the order in which they were installed.
    fn name_at(&self, i: usize) -> Option<&str>
        ensures name { option_copied result ≡ slice_get (names self.now) i }
        ensures names { AreHookNames (names self.now) };

    /// What the last of the hooks that are asked leaves is the answer; where none is asked, all is allowed.
    ghost last_answers: { (host : Self) (ask : Ask) → last_left (Allowed ask.scope ask.life) (verdicts host ask) ≡ answer host ask };
}
