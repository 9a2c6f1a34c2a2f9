//! One hook, and what it leaves of an ask.

ghost use Rattle.std.specs.Prelude.{◌≡◌, ◌≤◌, ◌++◌, ◌∷◌, [], IfOk, OnOk, length};
ghost use Rattle.insn.specs.Values.{record_size};
ghost use Rattle.hook_chain.specs.Exits.{narrowed_by_hook, narrowed_further, record_of};
ghost use Rattle.hook_chain.specs.Turns.{left_in_turn};
ghost use Rattle.hook_host.specs.Names.{name_limit};

use flat_machine::run;
use hook_host::Verdicts;
use hook_record::{Ask, Narrowed, narrow, write, write_v2};
use insn::layout::Layout;
use std::alloc::AllocError;
use std::marker::Model;
use verifier::verified::Verified;

/// A program that is accepted, under its name.
#[derive(Drop)]
pub struct Hook {
    pub name: String,
    pub verified: Verified,
}

impl Model for Hook {
    ghost use Rattle.std.specs.Prelude.{string_bytes};
    ghost use Rattle.hook_chain.specs.Chains.{Named};

    ghost Value = { Named };

    ghost view = { λ h. record { name = string_bytes h.name; hook = h.verified } };
}

impl Hook {
    /// What the hook leaves of an ask whose record this is.
    fn narrowed_on(&self, ask: &Ask, bytes: &mut [u8]) -> Narrowed
        requires record_of_ask { bytes.old ≡ record_of self.now.hook.layout ask.now }
        requires long { length bytes.old ≡ record_size self.now.hook.layout }
        ensures { result ≡ narrowed_by_hook ask.entry.now self.now.hook }
    {
        let (r0, _) = run(&self.verified, bytes);
        narrow(ask, r0, bytes.first_chunk().unwrap())
    }

    /// What the hook leaves of an ask.
    fn narrowed(&self, ask: &Ask) -> Narrowed
        ensures { result ≡ narrowed_by_hook ask.entry.now self.now.hook }
    {
        match self.verified.layout() {
            Layout::V1 => self.narrowed_on(ask, &mut write(ask)),
            Layout::V2 => self.narrowed_on(ask, &mut write_v2(ask)),
        }
    }

    /// What the hook leaves of what is left so far. Where a hook before it didn't allow, it isn't run.
    pub fn narrowed_further(&self, ask: &Ask, left: Narrowed) -> Narrowed
        ensures { result ≡ narrowed_further ask.entry.now left self.now.hook }
    {
        match left {
            Narrowed::Allowed { scope, life } => self.narrowed(&Ask {
                scope,
                life,
                ..*ask
            }),
            Narrowed::Denied => Narrowed::Denied,
            Narrowed::EmptyScope => Narrowed::EmptyScope,
        }
    }

    /// What the hook leaves of what is left so far, which is told where the hook is asked.
    pub fn judge(
        &self,
        ask: &Ask,
        left: Narrowed,
        verdicts: &mut Verdicts,
    ) -> Result<Narrowed, AllocError>
        requires { length self.now.name ≤ name_limit }
        ensures left { IfOk result (λ further. further ≡ narrowed_further ask.entry.now left self.now.hook) }
        ensures told { OnOk result (verdicts.new ≡ verdicts.old ++ left_in_turn ask.entry.now left (self.now ∷ [])) }
    {
        let further = self.narrowed_further(ask, left);
        if let Narrowed::Allowed { .. } = left {
            verdicts.push(self.name.as_str(), further)?;
        }
        Ok(further)
    }
}
