//! `state FILE`: what a state file stands for. It is read alone, and not written to or locked.

ghost use Rattle.std.specs.Prelude.{[], IfOk};
ghost use Rattle.std.specs.Option.{option_copied};
ghost use Rattle.hook_chain.specs.contracts.chain.ChainHookHost.TheImpl as chain;
ghost use Rattle.state_account.specs.Accounts.{IsAccountOf};
ghost use Rattle.commands.specs.States.{IsFrontTold, IsStateText, IsStateTold};
ghost use Rattle.commands.specs.StatusesParts.{IsOfAccount};

use crate::answer::Answer;
use crate::fault::CommandFault;
use batch_file::framing::right_front;
use consent::Moment;
use hook_chain::Chain;
use state_account::{Account, AccountFault, account_of};
use state_file::StateFault;
use state_listing::{FileFacts, listing};
use std::alloc::{AllocError, Global};

/// The lines that tell what the bytes of a state file stand for.
fn lines_of(
    alloc: Global,
    bytes: &[u8],
    account: &Account<Chain>,
    now: Option<Moment>,
) -> Result<Vec<u8>, AllocError>
    requires of { IsAccountOf chain.ghosts bytes.now [] account.now }
    ensures { IfOk result (λ text. IsStateText bytes.now now text.items) }
{
    let standing = account.standing(alloc)?;
    let file = FileFacts {
        bytes: bytes.len() as u64,
        batches: account.batches as u64,
        torn: account.torn as u64,
        looked_at: now,
    };
    let text = listing(alloc, &standing, &file)?;
    Ok(text)
}

/// Why it is not told what the state file of a path stands for.
fn fault_of<'w>(path: &'w str, fault: AccountFault) -> CommandFault<'w>
    ensures { IsOfAccount path.now fault result }
{
    match fault {
        AccountFault::Memory => CommandFault::OutOfMemory,
        AccountFault::File(fault) => CommandFault::of_state(path, StateFault::from(fault)),
        AccountFault::Batch(number, fault) => CommandFault::StateAt(number, fault),
    }
}

/// What the state file stands for, and how old it is now.
pub fn told_state<'w>(
    alloc: Global,
    path: &'w str,
    file: Option<&[u8]>,
    now: Option<Moment>,
) -> Result<Answer, CommandFault<'w>>
    ensures { IsStateTold path.now (option_copied file.entry) now result }
{
    let Some(bytes) = file else {
        return Err(CommandFault::CannotRead(path));
    };
    match account_of(alloc, bytes, Chain::new(alloc)) {
        Ok(account) => Ok(Answer::Lines(lines_of(alloc, bytes, &account, now)?)),
        Err(fault) => Err(fault_of(path, fault)),
    }
}

/// What a state file stands for up to the damage, where it is damaged, and else all of it.
pub fn told_front<'w>(
    alloc: Global,
    path: &'w str,
    file: Option<&[u8]>,
    now: Option<Moment>,
) -> Result<Answer, CommandFault<'w>>
    ensures { IsFrontTold path.now (option_copied file.entry) now result }
{
    let Some(bytes) = file else {
        return Err(CommandFault::CannotRead(path));
    };
    let front = match right_front(alloc, bytes) {
        Ok(frames) => frames.into_bytes(),
        Err(fault) => return Err(CommandFault::of_state(path, StateFault::from(fault))),
    };
    match account_of(alloc, &front, Chain::new(alloc)) {
        Ok(account) => Ok(Answer::Lines(lines_of(alloc, &front, &account, now)?)),
        Err(fault) => Err(fault_of(path, fault)),
    }
}
