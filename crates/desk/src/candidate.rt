//! What comes of the registry's file.
ghost use Rattle.std.specs.Prelude.{◌≡◌, Ok};
ghost use Rattle.clients.specs.Registry.{registry_in};

use clients::{ConfigFault, Registry, Spot};

/// A registry, and the text that says it.
#[derive(Drop)]
pub struct Candidate {
    pub text: Vec<u8>,
    pub registry: Registry,
    pub ghost said: { registry_in text.items ≡ Ok registry },
}

/// Why a registry's file is refused.
#[derive(Clone, Copy, Debug)]
pub enum ReloadFault {
    /// It cannot be read.
    CannotRead,
    /// What stands there is no registry, and where that is so.
    Config(ConfigFault, Option<Spot>),
    /// Memory was refused.
    Memory,
}
