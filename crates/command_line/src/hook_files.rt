//! Hooks in files, which a server has before it listens.

ghost use Rattle.std.specs.Prelude.{◌≡◌, [], OnOk, IfOk, IfErr, map};
ghost use Rattle.endpoints.specs.Layouts.{version_of};
ghost use Rattle.rules_codec.specs.Facts.{hook_fact};
ghost use Rattle.start_words.specs.Options.{hook_said};
ghost use Rattle.command_line.specs.Hooks.{AreFactsOf, hook_fact_of, in_file, IsFactOf, RefusesHook, RefusesHooks, said_of, TakesHook, TakesHooks};
ghost use Rattle.commands.specs.declared.fault.CommandFault.TheVariants.{OutOfMemory};

use commands::{CommandFault, bytes_at};
use consent::RecordVersion;
use hook_chain::Chain;
use hook_commands::code_in;
use hook_host::{HookFault, HookHost};
use insn::layout::Layout;
use rules_codec::KeptHook;
use start_words::HookFile;
use std::alloc::{AllocError, Global};
use std::rt::Files;

/// A hook that words name, and what stands in its file: `None` where that cannot be read.
#[derive(Drop)]
pub struct HookRead<'w> {
    /// What the words say of it.
    pub hook: HookFile<'w>,
    /// What stands in its file.
    pub bytes: Option<Vec<u8>>,
}

/// Reads the files of hooks.
pub fn read_hooks<'w>(
    rt: &(impl Files + AllocGlobal),
    hooks: &[HookFile<'w>],
) -> Result<Vec<HookRead<'w>>, CommandFault<'static>>
    ensures read { IfOk result (λ all. said_of (map in_file all.items) ≡ map hook_said hooks.now) }
    ensures memory { IfErr result (λ fault. fault ≡ OutOfMemory) }
{
    let mut all = Vec::new(rt.alloc());
    for hook in hooks {
        let bytes = bytes_at(rt, hook.path)?;
        let Ok(()) = all.push(HookRead { hook: *hook, bytes }) else {
            return Err(CommandFault::OutOfMemory);
        };
    }
    Ok(all)
}

/// A hook that words name, and the code by which it is installed.
#[derive(Drop)]
pub struct HookCode<'w> {
    /// What the words say of it.
    pub hook: HookFile<'w>,
    /// Its code.
    pub code: Vec<u8>,
}

/// The version of the layout.
fn version_of(layout: Layout) -> RecordVersion
    ensures { result ≡ version_of layout }
{
    match layout {
        Layout::V1 => RecordVersion::First,
        Layout::V2 => RecordVersion::Second,
    }
}

impl<'w> HookCode<'w> {
    /// The hook, as a state file has it.
    fn kept(&self) -> KeptHook<'_>
        ensures { hook_fact result ≡ hook_fact_of self.now }
    {
        KeptHook {
            name: self.hook.name,
            version: version_of(self.hook.layout),
            code: self.code.as_slice(),
        }
    }
}

/// Hooks that are taken.
#[derive(Drop)]
pub struct HooksTaken<'w> {
    /// The chain in which each stands behind those before it.
    pub chain: Chain,
    /// The code of each.
    pub codes: Vec<HookCode<'w>>,
}

/// Installs the hook in a file behind the others.
fn install<'w>(
    alloc: Global,
    chain: &mut Chain,
    read: &HookRead<'w>,
) -> Result<HookCode<'w>, CommandFault<'w>>
    ensures done { OnOk result (TakesHook chain.old (in_file read.now) chain.new) }
    ensures coded { IfOk result (λ installed. IsFactOf (in_file read.now) (hook_fact_of installed)) }
    ensures refused { IfErr result (RefusesHook chain.old (in_file read.now)) }
{
    let hook = read.hook;
    let Some(file) = &read.bytes else {
        return Err(CommandFault::CannotRead(hook.path));
    };
    let code = code_in(alloc, file)?;
    match chain.install(hook.name, hook.layout, &code) {
        Ok(()) => Ok(HookCode { hook, code }),
        Err(HookFault::Memory) => Err(CommandFault::OutOfMemory),
        Err(fault) => Err(CommandFault::Hook(hook.name, fault)),
    }
}

/// Takes the hooks of files, each installed behind those before it.
pub fn take_hooks<'w>(
    alloc: Global,
    hooks: &[HookRead<'w>],
) -> Result<HooksTaken<'w>, CommandFault<'w>>
    ensures taken { IfOk result (λ taken. TakesHooks [] (map in_file hooks.now) taken.chain) }
    ensures coded { IfOk result (λ taken. AreFactsOf (map in_file hooks.now) (map hook_fact_of taken.codes.items)) }
    ensures refused { IfErr result (RefusesHooks [] (map in_file hooks.now)) }
{
    let mut chain = Chain::new(alloc);
    let mut codes = Vec::new(alloc);
    for read in hooks {
        let code = install(alloc, &mut chain, read)?;
        let Ok(()) = codes.push(code) else {
            return Err(CommandFault::OutOfMemory);
        };
    }
    Ok(HooksTaken { chain, codes })
}

/// Hooks, as a state file has them.
pub fn kept_hooks<'c>(
    alloc: Global,
    codes: &'c [HookCode<'_>],
) -> Result<Vec<KeptHook<'c>>, AllocError>
    ensures { IfOk result (λ kept. map hook_fact kept.items ≡ map hook_fact_of codes.now) }
{
    let mut kept = Vec::new(alloc);
    for code in codes {
        kept.push(code.kept())?;
    }
    Ok(kept)
}
