//! What hosts of hooks may answer, and what is made of it.

use super::asked::{
    ASK, AUTHORIZE, CODE, CONSENT, CONSENTED, EXCHANGE, INACTIVE, INSTALL, INSTALLED, INTROSPECT,
    INVALID_GRANT, INVALID_SCOPE, LIST, NO_HOOKS, REMOVE, TOKENS, TOKENS_FOR_A_SECOND,
    UNKNOWN_HOOK,
};
use super::exchanges::{Exchange, assert_answered, edge_of, first, open};
use hook_chain::Chain;
use hook_host::{HookFault, HookHost, Verdicts, decided};
use hook_record::{Ask, Narrowed};
use insn::layout::Layout;
use std::alloc::{AllocError, Global};
use std::test::Fail;

/// Hooks that are installed and removed as those of a chain, and are not asked: what is asked has one answer.
#[derive(Drop)]
struct Answering {
    answer: Narrowed,
    hooks: Chain,
}

impl HookHost for Answering {
    ghost use Rattle.std.specs.Prelude.{[], ◌∷◌, codes, refl};
    ghost use Rattle.hook_host.specs.Verdicts.{verdict_of};
    ghost use Rattle.hook_chain.specs.Chains.{Accepts, IsInstalled, IsRemoved, RefusesInstall, RefusesRemove, hook_names};

    ghost answer = { λ host _. host.answer };

    ghost verdicts = { λ host _. verdict_of (codes "any") host.answer ∷ [] };

    ghost names = { λ host. hook_names host.hooks };

    ghost accepts = { λ old name layout code checked. Accepts old.hooks name layout code checked.hooks };

    ghost installs = { λ old name layout code new. IsInstalled old.hooks name layout code new.hooks };

    ghost removes = { λ old name new. IsRemoved old.hooks name new.hooks };

    ghost refuses_install = { λ old name layout code fault. RefusesInstall old.hooks name layout code fault };

    ghost refuses_remove = { λ old name fault. RefusesRemove old.hooks name fault };

    fn decide(&self, _ask: &Ask) -> Narrowed {
        self.answer
    }

    fn explain(&self, alloc: Global, _ask: &Ask) -> Result<Verdicts, AllocError> {
        let mut verdicts = Verdicts::none(alloc);
        verdicts.push("any", self.answer)?;
        Ok(verdicts)
    }

    fn check(&self, name: &str, layout: Layout, code: &[u8]) -> Result<Answering, HookFault> {
        let hooks = self.hooks.check(name, layout, code)?;
        Ok(Answering {
            answer: self.answer,
            hooks,
        })
    }

    fn take(&mut self, checked: Answering) {
        let Answering { answer: _, hooks } = checked;
        self.hooks.take(hooks);
    }

    fn check_removal(&self, name: &str) -> Result<(), HookFault> {
        self.hooks.check_removal(name)
    }

    fn drop_named(&mut self, name: &str) {
        self.hooks.drop_named(name);
    }

    fn name_at(&self, i: usize) -> Option<&str> {
        self.hooks.name_at(i)
    }

    ghost last_answers = { λ host _. refl };
}

fn allowed(scope: u64, life: u32) -> Narrowed {
    Narrowed::Allowed { scope, life }
}

/// A code is given, and exchanged as the host answers. It is spent: presented again it ends its family. Hooks come and go as
/// those of a chain.
#[test]
fn any_host_can_only_narrow(rt: HostRuntime) -> Result<(), Fail> {
    let alloc = rt.alloc();
    for (answer, left, reply) in [
        (allowed(u64::MAX, u32::MAX), allowed(3, 300), TOKENS),
        (allowed(1, 1), allowed(1, 1), TOKENS_FOR_A_SECOND),
        (allowed(4, 300), Narrowed::EmptyScope, INVALID_SCOPE),
        (allowed(0, 0), Narrowed::EmptyScope, INVALID_SCOPE),
        (Narrowed::EmptyScope, Narrowed::EmptyScope, INVALID_SCOPE),
        (allowed(1, 0), Narrowed::Denied, INVALID_GRANT),
        (Narrowed::Denied, Narrowed::Denied, INVALID_GRANT),
    ] {
        let hooks = Chain::new(alloc);
        let host = Answering { answer, hooks };
        assert!(rt; decided(&host, &ASK) == left);
        let mut edge = edge_of(alloc, host)?;
        assert_eq!(rt; open(&mut edge, first()), Ok(()));
        let exchanges: [Exchange; 9] = [
            (900, (0, 0), CONSENT, CONSENTED),
            (1000, (1, 0), AUTHORIZE, CODE),
            (1000, (2, 3), EXCHANGE, reply),
            (1000, (6, 7), EXCHANGE, INVALID_GRANT),
            (1000, (0, 0), INTROSPECT, INACTIVE),
            (1000, (0, 0), INSTALL, INSTALLED),
            (1000, (0, 0), REMOVE, INSTALLED),
            (1000, (0, 0), REMOVE, UNKNOWN_HOOK),
            (1000, (0, 0), LIST, NO_HOOKS),
        ];
        assert_answered(&rt, &mut edge, &exchanges);
    }
    Ok(())
}
