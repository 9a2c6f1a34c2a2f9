//! Why a reload is not begun, and how that is told.
ghost use Rattle.std.specs.Prelude.{◌≡◌, ◌⊎◌, OnOk, IfErr, IfSome, None, Some};
ghost use Rattle.std.specs.Option.{option_copied};
ghost use Rattle.messages.specs.Written.{in_writing, reply_bytes};
ghost use Rattle.state_file.specs.Comparing.{AreAsWide, AreNarrower};
ghost use Rattle.state_file.specs.Telling.{rules_of};
ghost use Rattle.desk.specs.Beside.{IsNarrowing, MayBeNarrowed};
ghost use Rattle.desk.specs.Replies.{IsConfigReply, IsFileReply, IsNotBegunReply, IsStateReply, refused_for};
ghost use Rattle.desk.specs.declared.not_begun.NotBegun.TheVariants.{File};

use crate::candidate::ReloadFault;
use crate::reply::{Refusal, refusal_reply};
use clients::{ConfigFault, Registry, Spot};
use state_file::{StateFault, compare};
use std::alloc::Global;

/// Why a reload is not begun.
#[derive(Drop)]
pub enum NotBegun {
    /// For the registry's file.
    File(ReloadFault),
    /// For its registry beside the one that serves.
    Beside(StateFault),
    /// The system gives no random bytes.
    NoSeed,
}

impl From<ReloadFault> for NotBegun {
    ghost from_gives = { λ why fault. fault ≡ File why };

    fn from(fault: ReloadFault) -> NotBegun {
        NotBegun::File(fault)
    }
}

/// The reply to a reload that is refused for this, at this spot, where there is one.
pub fn refused<'a>(alloc: Global, detail: &'a str, spot: Option<&'a str>) -> Option<Vec<u8>>
    ensures { IfSome result (λ bytes. bytes.items ≡ reply_bytes (in_writing (refused_for detail.now (option_copied spot.entry)))) }
{
    refusal_reply(alloc, Refusal::For { detail, spot })
}

/// The reply to a reload that is refused for this, which lies nowhere.
fn refused_nowhere(alloc: Global, detail: &str) -> Option<Vec<u8>>
    ensures { IfSome result (λ bytes. bytes.items ≡ reply_bytes (in_writing (refused_for detail.now None))) }
{
    refusal_reply(alloc, Refusal::For { detail, spot: None })
}

/// The reply to a reload that is refused for this, at this spot.
fn refused_there<'a>(alloc: Global, detail: &'a str, at: &'a str) -> Option<Vec<u8>>
    ensures { IfSome result (λ bytes. bytes.items ≡ reply_bytes (in_writing (refused_for detail.now (Some at.now)))) }
{
    let spot = Some(at);
    refusal_reply(alloc, Refusal::For { detail, spot })
}

/// The reply to a reload that is refused for a fault of its registry, and where it lies.
#[tactic(auto, using(crate::proofs::Refusals::refused_nowhere))]
fn config_reply(alloc: Global, fault: ConfigFault, spot: Option<Spot>) -> Option<Vec<u8>>
    ensures { IfSome result (λ bytes. IsConfigReply spot bytes.items) }
{
    let detail = format!(in alloc; "{fault}").ok()?;
    match spot {
        None => refused_nowhere(alloc, detail.as_str()),
        Some(spot) => {
            let at = format!(in alloc; "{spot}").ok()?;
            refused_there(alloc, detail.as_str(), at.as_str())
        }
    }
}

/// The reply to a reload that is refused for its registry's file.
fn file_reply(alloc: Global, fault: &ReloadFault) -> Option<Vec<u8>>
    ensures { IfSome result (λ bytes. IsFileReply fault.now bytes.items) }
{
    match *fault {
        ReloadFault::Memory => refusal_reply(alloc, Refusal::NotNow),
        ReloadFault::CannotRead => refused(alloc, "CannotRead", None),
        ReloadFault::Config(fault, spot) => config_reply(alloc, fault, spot),
    }
}

/// The reply to a reload that is refused beside the state.
pub fn state_reply(alloc: Global, fault: &StateFault) -> Option<Vec<u8>>
    ensures { IfSome result (λ bytes. IsStateReply fault.now bytes.items) }
{
    if let StateFault::Memory = fault {
        return refusal_reply(alloc, Refusal::NotNow);
    }
    let detail = format!(in alloc; "{fault}").ok()?;
    refused_nowhere(alloc, detail.as_str())
}

/// The reply to a reload that is not begun.
pub fn reply_of(alloc: Global, why: &NotBegun) -> Option<Vec<u8>>
    ensures { IfSome result (λ bytes. IsNotBegunReply why.now bytes.items) }
{
    match why {
        NotBegun::File(fault) => file_reply(alloc, fault),
        NotBegun::Beside(fault) => state_reply(alloc, fault),
        NotBegun::NoSeed => refusal_reply(alloc, Refusal::NotNow),
    }
}

/// Whether a fault is that less is allowed: then what goes beyond it ends.
fn may_narrow(fault: StateFault) -> Result<(), StateFault>
    ensures kept { OnOk result (IsNarrowing fault) }
    ensures refused { IfErr result (λ other. other ≡ fault) }
{
    match fault {
        StateFault::FormerOwner => Ok(()),
        StateFault::ClientNarrowed(_name) => Ok(()),
        StateFault::LifeNarrowed => Ok(()),
        fault => Err(fault),
    }
}

/// Whether a registry keeps the names of the one that serves. It may allow less.
pub fn keeps_names(alloc: Global, told: &Registry, now: &Registry) -> Result<(), StateFault>
    ensures kept { OnOk result (AreAsWide (rules_of told.now) (rules_of now.now) ⊎ MayBeNarrowed (rules_of told.now) (rules_of now.now)) }
    ensures refused { IfErr result (AreNarrower (rules_of told.now) (rules_of now.now)) }
{
    let told = told.bounds(alloc)?;
    let now = now.bounds(alloc)?;
    match compare(alloc, &told, &now) {
        Ok(()) => Ok(()),
        Err(fault) => may_narrow(fault),
    }
}
