//! `registry FILE`: what the registry in a file says, or where its first fault lies.

ghost use Rattle.std.specs.Prelude.{◌≡◌, ◌≢◌, Err, IfOk};
ghost use Rattle.std.specs.Option.{option_copied};
ghost use Rattle.clients.specs.Registry.{registry_in};
ghost use Rattle.registry_json.specs.declared.fault.ConfigFault.TheVariants as config;
ghost use Rattle.commands.specs.Registries.{memory_of, IsFaultTold, IsRegistryTold, IsToldOf};

use crate::answer::Answer;
use crate::fault::CommandFault;
use crate::named_file::{NamedFile, Readers};
use clients::{ConfigFault, Limits, Registry};
use consent::ScopeSet;
use registry_warnings::warnings;
use std::alloc::{AllocError, Global};
use std::fmt::{self, Display, Formatter, Write};

// What a code or token takes, and a consent.
const RECORD_BYTES: u64 = 200;

const CONSENT_BYTES: u64 = 64;

/// What a registry says, and what in it, in its text and in who may read that may be a mistake.
#[derive(Drop)]
pub struct RegistryTold {
    /// How many seconds an access token lives.
    pub access_life: u32,
    /// How many seconds a refresh token lives.
    pub refresh_life: u32,
    /// How many owners there are.
    pub owners: usize,
    /// How many clients there are.
    pub clients: usize,
    /// What is kept at most.
    pub limits: Limits,
    /// How many bytes of memory that takes.
    pub memory: u64,
    /// All scope names.
    pub scopes: String,
    /// The warnings about its text, a line each.
    pub warnings: String,
    /// An owner has the operator's key.
    pub has_operator_among_owners: bool,
    /// An owner has the gateway's key, or the operator has it.
    pub has_gateway_among_others: bool,
    /// An access token lives longer than a refresh token.
    pub access_lives_longer: bool,
    /// Who may read the file.
    pub readers: Readers,
}

impl Display for RegistryTold {
    fn fmt<W: Write>(&self, f: &mut Formatter<W>) -> fmt::Result {
        let (access, refresh) = (self.access_life, self.refresh_life);
        write!(f, "access_life {access}\nrefresh_life {refresh}\n")?;
        let (owners, clients) = (self.owners, self.clients);
        write!(f, "owners {owners}\nclients {clients}\n")?;
        let (records, consents) = (self.limits.records, self.limits.consents);
        write!(f, "records {records}\nconsents {consents}\n")?;
        write!(f, "memory {} MB\n", megabytes(self.memory))?;
        write!(f, "scopes {}\n{}", self.scopes, self.warnings)?;
        if self.has_operator_among_owners {
            write!(f, "warning: an owner has the operator's key\n")?;
        }
        if self.has_gateway_among_others {
            write!(
                f,
                "warning: an owner or the operator has the gateway's key\n"
            )?;
        }
        if self.access_lives_longer {
            write!(f, "warning: access_life is above refresh_life\n")?;
        }
        match self.readers {
            Readers::Chosen => Ok(()),
            Readers::Everybody => write!(f, "warning: everybody may read the file\n"),
        }
    }
}

// As many megabytes, the last one for what is left.
fn megabytes(bytes: u64) -> u64 {
    bytes.div_ceil(1_000_000)
}

/// How many bytes of memory it takes to keep so much.
fn memory_of(limits: Limits) -> u64
    ensures { result ≡ memory_of limits }
{
    let (records, consents) = (limits.records as u64, limits.consents as u64);
    records * RECORD_BYTES + consents * CONSENT_BYTES
}

/// What is told of the registry in a file.
fn told_of(alloc: Global, file: &NamedFile, registry: &Registry) -> Result<RegistryTold, AllocError>
    ensures { IfOk result (IsToldOf file.now registry.now) }
{
    let scopes = registry
        .catalogue()
        .scope_text(alloc, ScopeSet::new(u64::MAX))?;
    Ok(RegistryTold {
        access_life: registry.access_life(),
        refresh_life: registry.refresh_life(),
        owners: registry.owner_count(),
        clients: registry.client_count(),
        limits: registry.limits(),
        memory: memory_of(registry.limits()),
        scopes,
        warnings: warnings(alloc, &file.bytes)?,
        has_operator_among_owners: registry.has_operator_among_owners(),
        has_gateway_among_others: registry.has_gateway_among_others(),
        access_lives_longer: registry.access_life() > registry.refresh_life(),
        readers: file.readers,
    })
}

/// The fault of a file's text that is no registry, with where in it the fault lies.
fn located(
    alloc: Global,
    json: &[u8],
    fault: ConfigFault,
) -> Result<CommandFault<'static>, AllocError>
    requires known { fault ≢ config.Memory }
    requires first { registry_in json.now ≡ Err fault }
    ensures { IfOk result (IsFaultTold json.now) }
{
    match Registry::spot_of_fault(alloc, json)? {
        Some(spot) => Ok(CommandFault::ConfigAt(fault, spot)),
        None => Ok(CommandFault::Config(fault)),
    }
}

/// What the registry in a file says, or where its first fault lies.
pub fn told_registry<'w>(
    alloc: Global,
    path: &'w str,
    file: Option<&NamedFile>,
) -> Result<Answer, CommandFault<'w>>
    ensures { IsRegistryTold path.now (option_copied file.entry) result }
{
    let Some(file) = file else {
        return Err(CommandFault::CannotRead(path));
    };
    match Registry::read(alloc, &file.bytes) {
        Ok(registry) => Ok(Answer::Registry(told_of(alloc, file, &registry)?)),
        Err(ConfigFault::Memory) => Err(CommandFault::OutOfMemory),
        Err(fault) => Err(located(alloc, &file.bytes, fault)?),
    }
}
