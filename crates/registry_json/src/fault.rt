//! Why a registry is refused.

ghost use Rattle.std.specs.Prelude.{◌≡◌};
ghost use Rattle.registry_json.specs.ScopeFaults.{fault_of_name};
ghost use Rattle.registry_json.specs.Spots.{fault_of, located};
ghost use Rattle.registry_json.specs.declared.fault.ConfigFault.TheVariants.{Memory};
ghost use Rattle.registry_json.specs.declared.fault.Refusal.TheVariants as refusal;

use crate::spot::Spot;
use params::CatalogueFault;
use std::alloc::{AllocError, AllocFailed};
use std::error::Error;
use std::fmt;

/// Why a registry is refused.
#[derive(Clone, Copy, Debug, PartialEq, Eq, Hash)]
pub enum ConfigFault {
    /// The bytes are not JSON text.
    NotJson,
    /// A member is absent or of another type, a grant type is unknown, or some owners state numbers and others do not.
    BadShape,
    /// A scope name is not a scope token, or a client's scope not of the registry's names.
    BadScope,
    /// A redirect URI is not a plain web URL in the URL Standard's spelling.
    BadRedirect,
    /// Two owner keys or numbers, two scope names or two client identifiers are equal.
    Twice,
    /// A number, a length, a count or a character is beyond its limits.
    OutOfRange,
    /// Memory was refused.
    Memory,
}

impl fmt::Display for ConfigFault {
    fn fmt<W: fmt::Write>(&self, f: &mut fmt::Formatter<W>) -> fmt::Result {
        write!(f, "{self:?}")
    }
}

impl Error for ConfigFault {}

impl From<AllocError> for ConfigFault {
    ghost from_gives = { λ _ fault. fault ≡ Memory };

    fn from(_refused: AllocError) -> ConfigFault {
        ConfigFault::Memory
    }
}

impl<T: Drop> From<AllocFailed<T>> for ConfigFault {
    ghost from_gives = { λ _ fault. fault ≡ Memory };

    fn from(_refused: AllocFailed<T>) -> ConfigFault {
        ConfigFault::Memory
    }
}

impl From<CatalogueFault> for ConfigFault {
    ghost from_gives = { λ refused fault. fault ≡ fault_of_name refused };

    fn from(refused: CatalogueFault) -> ConfigFault {
        match refused {
            CatalogueFault::BadScope => ConfigFault::BadScope,
            CatalogueFault::TooLong | CatalogueFault::Full => ConfigFault::OutOfRange,
            CatalogueFault::Twice => ConfigFault::Twice,
            CatalogueFault::Memory => ConfigFault::Memory,
        }
    }
}

/// Why a registry is refused, and where.
#[derive(Clone, Copy)]
pub enum Refusal {
    /// This fault is there.
    At(ConfigFault, Spot),
    /// Memory was refused.
    Memory,
}

impl Refusal {
    /// The fault.
    pub fn fault(self) -> ConfigFault
        ensures { result ≡ fault_of self }
    {
        match self {
            Refusal::At(fault, _) => fault,
            Refusal::Memory => ConfigFault::Memory,
        }
    }
}

impl From<AllocError> for Refusal {
    ghost from_gives = { λ _ fault. fault ≡ refusal.Memory };

    fn from(_refused: AllocError) -> Refusal {
        Refusal::Memory
    }
}

impl<T: Drop> From<AllocFailed<T>> for Refusal {
    ghost from_gives = { λ _ fault. fault ≡ refusal.Memory };

    fn from(_refused: AllocFailed<T>) -> Refusal {
        Refusal::Memory
    }
}

/// What was read there, or why it is refused.
pub fn located<T>(spot: Spot, read: Result<T, ConfigFault>) -> Result<T, Refusal>
    ensures { result ≡ located spot read }
{
    match read {
        Ok(value) => Ok(value),
        Err(ConfigFault::Memory) => Err(Refusal::Memory),
        Err(fault) => Err(Refusal::At(fault, spot)),
    }
}
