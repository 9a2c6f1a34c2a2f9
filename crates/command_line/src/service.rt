//! The commands that serve connections, and what their words give them.

ghost use Rattle.std.specs.Prelude.{◌≡◌, ℕ, List, map, IfOk, IfErr, IfSome, IfNone, string_bytes};
ghost use Rattle.start_words.specs.Options.{hook_said};
ghost use Rattle.command_line.specs.Services.{config_of, GiveServe, GiveStart, hooks_installed, IsNoService, IsSeed, IsService, ServiceFails, StartFails, password_of};
ghost use Rattle.std.specs.Option.{option_copied};

use commands::CommandFault;
use hook_commands::bytes_of_hex;
use start_words::{HookFile, StartFault, StartWords, number_said};
use std::alloc::{AllocError, Global};

/// What `serve ADDR CONFIG SEEDHEX COUNT` is given.
#[derive(Clone, Copy, Debug)]
pub struct ServeWords<'w> {
    /// Where it listens.
    pub address: &'w str,
    /// The path of the registry's file.
    pub config: &'w str,
    /// The seed of all draws.
    pub seed: [u8; 32],
    /// How many connections it serves.
    pub count: u32,
}

/// A command that serves connections, with what its words give it.
#[derive(Drop)]
pub enum Service<'w> {
    /// So many connections are served, with draws by a seed that is given.
    Serve(ServeWords<'w>),
    /// Connections are served until the program is stopped, with draws by a seed that nobody knows.
    Start(StartWords<'w>),
}

/// The seed that a text is hex of.
fn seed_of(alloc: Global, text: &str) -> Result<Option<[u8; 32]>, AllocError>
    ensures some { IfOk result (λ o. IfSome o (IsSeed text.now)) }
    ensures none { IfOk result (λ o. IfNone o ((seed : List ℕ) → IsSeed text.now seed → ⊥)) }
{
    let Some(bytes) = bytes_of_hex(alloc, text.as_bytes())? else {
        return Ok(None);
    };
    Ok(bytes.as_array::<32>().copied())
}

/// What the words behind `serve` give.
fn serve_given<'w>(alloc: Global, words: &'w [String]) -> Result<Option<ServeWords<'w>>, AllocError>
    ensures some { IfOk result (λ o. IfSome o (GiveServe (map string_bytes words.now))) }
    ensures none { IfOk result (λ o. IfNone o ((given : ServeWords) → GiveServe (map string_bytes words.now) given → ⊥)) }
{
    let [address, config, seed_hex, count] = words else {
        return Ok(None);
    };
    let Some(seed) = seed_of(alloc, seed_hex.as_str())? else {
        return Ok(None);
    };
    let Some(count) = number_said(count.as_str()) else {
        return Ok(None);
    };
    Ok(Some(ServeWords {
        address: address.as_str(),
        config: config.as_str(),
        seed,
        count,
    }))
}

/// What the words behind `start` give.
fn start_given<'w>(
    alloc: Global,
    words: &'w [String],
) -> Result<Option<StartWords<'w>>, CommandFault<'w>>
    ensures some { IfOk result (λ o. IfSome o (GiveStart (map string_bytes words.now))) }
    ensures none { IfOk result (λ o. IfNone o ((given : StartWords) → GiveStart (map string_bytes words.now) given → ⊥)) }
    ensures refused { IfErr result (StartFails (map string_bytes words.now)) }
{
    match StartWords::read(alloc, words) {
        Ok(given) => Ok(Some(given)),
        Err(StartFault::NoAddress) => Err(CommandFault::NoAddress),
        Err(StartFault::NoConfig) => Err(CommandFault::NoConfig),
        Err(StartFault::BadWords) => Ok(None),
        Err(StartFault::Word { word, fault }) => Err(CommandFault::BadWord(word, fault)),
        Err(StartFault::Memory) => Err(CommandFault::OutOfMemory),
    }
}

impl<'w> Service<'w> {
    /// The service that words name: those behind the program's name.
    pub fn from_words(
        alloc: Global,
        words: &'w [String],
    ) -> Result<Option<Service<'w>>, CommandFault<'w>>
        ensures named { IfOk result (λ o. IfSome o (IsService words.now)) }
        ensures none { IfOk result (λ o. IfNone o (IsNoService words.now)) }
        ensures refused { IfErr result (ServiceFails (map string_bytes words.now)) }
    {
        let Some((name, words)) = words.split_first() else {
            return Ok(None);
        };
        match name.as_str() {
            "serve" => match serve_given(alloc, words)? {
                Some(given) => Ok(Some(Service::Serve(given))),
                None => Ok(None),
            },
            "start" => match start_given(alloc, words)? {
                Some(given) => Ok(Some(Service::Start(given))),
                None => Ok(None),
            },
            _ => Ok(None),
        }
    }

    /// The path of the registry's file.
    pub fn config(&self) -> &'w str
        ensures { result.now ≡ config_of self.now }
    {
        match self {
            Service::Serve(given) => given.config,
            Service::Start(given) => given.config,
        }
    }

    /// The hooks that are installed before it listens.
    pub fn hooks(&self) -> &[HookFile<'w>]
        ensures { map hook_said result.now ≡ hooks_installed self.now }
    {
        match self {
            Service::Serve(_) => &[],
            Service::Start(given) => given.options.hooks(),
        }
    }

    /// The path of the file in which the password of a user of etcd stands, where there is one.
    pub fn password(&self) -> Option<&'w str>
        ensures { option_copied result ≡ password_of self.now }
    {
        match self {
            Service::Serve(_) => None,
            Service::Start(given) => given.options.password(),
        }
    }
}
