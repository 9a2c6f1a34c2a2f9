//! The registry that a file says.
ghost use Rattle.std.specs.Prelude.{◌≡◌, ◌≢◌, IfOk, IfErr, None, Some, Ok, Err, option_map};
ghost use Rattle.registry_json.specs.declared.fault.ConfigFault.TheVariants as config;
ghost use Rattle.clients.specs.Registry.{registry_in};
ghost use Rattle.desk.specs.Candidates.{IsCandidate, IsRefused, text_of};

use crate::candidate::{Candidate, ReloadFault};
use clients::{ConfigFault, Registry};
use std::alloc::Global;

/// The fault of a text that is no registry, with where in it the fault lies.
fn located(alloc: Global, text: &[u8], fault: ConfigFault) -> ReloadFault
    requires known { fault ≢ config.Memory }
    requires first { registry_in text.now ≡ Err fault }
    ensures { IsRefused (Some text.now) result }
{
    match Registry::spot_of_fault(alloc, text) {
        Ok(spot) => ReloadFault::Config(fault, spot),
        Err(_) => ReloadFault::Memory,
    }
}

/// The registry that a file says: `None` where that cannot be read.
pub fn candidate_of(alloc: Global, file: Option<Vec<u8>>) -> Result<Candidate, ReloadFault>
    ensures read { IfOk result (IsCandidate (option_map text_of file)) }
    ensures refused { IfErr result (IsRefused (option_map text_of file)) }
{
    let Some(text) = file else {
        return Err(ReloadFault::CannotRead);
    };
    match Registry::read(alloc, &text) {
        Ok(registry) => Ok(Candidate { text, registry }),
        Err(ConfigFault::Memory) => Err(ReloadFault::Memory),
        Err(fault) => Err(located(alloc, &text, fault)),
    }
}
