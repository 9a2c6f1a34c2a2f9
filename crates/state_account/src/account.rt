//! What a state file stands for, where no server is started on it and nothing is written.

ghost use Rattle.std.specs.Prelude.{◌≡◌, ◌≤◌, IfOk, IfErr};
ghost use Rattle.batch_file.specs.Frames.{lists, recovered, torn_of};
ghost use Rattle.endpoints.specs.Server.{outset_of};
ghost use Rattle.rules_codec.specs.Facts.{standing_fact};
ghost use Rattle.state_account.specs.Accounts.{IsAccountOf, IsAccountOfRead, IsStandingOfAccount, IsOfBatches, RefusesAccount, fault_in};
ghost use Rattle.state_file.specs.Resuming.{AnswersForBatches};
ghost use Rattle.state_file.specs.Standing.{IsMomentTold, until_of};
ghost use Rattle.state_account.specs.declared.account.AccountFault.TheVariants.{Memory};

use crate::file_rules::file_rules;
use batch_file::framing::{Batches, ReadFault, read_batches};
use clients::Registry;
use hook_host::HookHost;
use rules_codec::{Standing, decode_rules};
use state_file::{Restored, StateFault, remake, tells_rules};
use std::alloc::{AllocError, Global};

/// Why it is not told what a file stands for.
#[derive(Debug, Drop)]
pub enum AccountFault {
    /// Memory was refused.
    Memory,
    /// It is no file of batches that is read.
    File(ReadFault),
    /// This is wrong with the batch of that number, which counts from 1.
    Batch(usize, StateFault),
}

impl From<AllocError> for AccountFault {
    ghost from_gives = { λ _ fault. fault ≡ Memory };

    fn from(_refused: AllocError) -> AccountFault {
        AccountFault::Memory
    }
}

/// What a state file stands for.
#[derive(Drop)]
pub struct Account<H> {
    pub(crate) restored: Restored<H>,
    // The rules, as the file tells them.
    pub(crate) rules: Vec<u8>,
    /// How many whole batches it has.
    pub batches: usize,
    /// How many bytes of an unfinished write stand behind them.
    pub torn: usize,
}

/// The fault of a batch.
fn fault_in(number: usize, fault: StateFault) -> AccountFault
    ensures { result ≡ fault_in number fault }
{
    match fault {
        StateFault::Memory => AccountFault::Memory,
        fault => AccountFault::Batch(number, fault),
    }
}

/// The number of the last batch that tells rules, or of the first batch.
fn rules_number(batches: &[Vec<u8>]) -> usize {
    let mut number = 1;
    for i in 0..batches.len() {
        if tells_rules(&batches[i]) {
            number = i + 1;
        }
    }
    number
}

/// A server of what the batches tell.
#[tactic(auto, using(crate::proofs::Accounted::of_list))]
fn restored_of<H: HookHost>(
    alloc: Global,
    registry: Registry,
    host: H,
    batches: &[Vec<u8>],
) -> Result<Restored<H>, AccountFault>
    ensures answers { IfOk result (AnswersForBatches H.HookHost (lists batches.now) (outset_of registry host)) }
    ensures moment { IfOk result (λ restored. IsMomentTold (lists batches.now) restored.moment) }
    ensures later { IfOk result (λ restored. until_of (lists batches.now) ≤ restored.moment) }
    ensures refused { IfErr result IsOfBatches }
{
    match remake(alloc, registry, host, batches) {
        Ok(restored) => Ok(restored),
        Err((before, fault)) => Err(fault_in(before.saturating_add(1), fault)),
    }
}

/// Reads the batches of a file.
fn read(alloc: Global, bytes: &[u8]) -> Result<Batches, AccountFault>
    ensures batches { IfOk result (λ read. lists read.batches.items ≡ recovered bytes.now) }
    ensures torn { IfOk result (λ read. read.torn.items ≡ torn_of bytes.now) }
    ensures refused { IfErr result (RefusesAccount bytes.now) }
{
    match read_batches(alloc, bytes) {
        Ok(read) => Ok(read),
        Err(ReadFault::Memory) => Err(AccountFault::Memory),
        Err(fault) => Err(AccountFault::File(fault)),
    }
}

/// What the batches stand for that were read from a state file, with the rules that they tell last. The host is one without hooks.
#[tactic(auto, using(crate::proofs::Accounted::of_telling))]
pub fn account_in<H: HookHost>(
    alloc: Global,
    found: &Batches,
    host: H,
) -> Result<Account<H>, AccountFault>
    ensures told { IfOk result (IsAccountOfRead H.HookHost (lists found.now.batches.items) found.now.torn.items host) }
    ensures refused { IfErr result IsOfBatches }
{
    let batches = found.batches.as_slice();
    let rules = match file_rules(alloc, batches) {
        Ok(rules) => rules,
        Err(fault) => return Err(fault_in(rules_number(batches), fault)),
    };
    let restored = restored_of(alloc, rules.registry, host, batches)?;
    Ok(Account {
        restored,
        rules: rules.bytes,
        batches: batches.len(),
        torn: found.torn.len(),
    })
}

/// What the bytes of a state file stand for, whatever a crash left there, with the rules that it tells last. The host is one
/// without hooks.
pub fn account_of<H: HookHost>(
    alloc: Global,
    bytes: &[u8],
    host: H,
) -> Result<Account<H>, AccountFault>
    ensures told { IfOk result (IsAccountOf H.HookHost bytes.now host) }
    ensures refused { IfErr result (RefusesAccount bytes.now) }
{
    let found = read(alloc, bytes)?;
    let account = account_in(alloc, &found, host)?;
    Ok(account)
}

impl<H: HookHost> Account<H> {
    /// What a server of the file has.
    pub fn standing(&self, alloc: Global) -> Result<Standing<'_>, AllocError>
        ensures { IfOk result (λ standing. IsStandingOfAccount H.HookHost self.now (standing_fact standing)) }
    {
        let Ok(rules) = decode_rules(alloc, self.rules.as_slice()) else {
            return Err(AllocError);
        };
        let records = self.restored.server.records(alloc)?;
        let consents = self.restored.server.consents(alloc)?;
        let hooks = self.restored.hooks.listed(alloc)?;
        Ok(Standing {
            rules,
            greatest: self.restored.moment,
            last: self.restored.server.last_family(),
            records,
            consents,
            hooks,
        })
    }
}
