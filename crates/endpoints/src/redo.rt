//! A change that happened before is made again.
ghost use Rattle.std.specs.Prelude.{◌≡◌, IfOk, IfErr};
ghost use Rattle.endpoints.specs.Layouts.{layout_of};
ghost use Rattle.endpoints.specs.Faults.{of_again_fault, of_hook_fault};
ghost use Rattle.endpoints.specs.Redo.{RefusesHookChange};
ghost use Rattle.endpoints.specs.Ruling.{CanMake};

use crate::ruling::Checked;
use consent::{Change, RecordVersion};
use hook_host::{HookFault, HookHost};
use insn::layout::Layout;
use std::fmt::{self, Display, Formatter, Write};
use token_store::AgainFault;

/// Why a change is not made again.
#[derive(Clone, Copy, Debug, PartialEq, Eq)]
pub enum RedoFault {
    /// It is of an earlier moment than what was made before it.
    MomentBack,
    /// It cannot be of the family that it names: that is not new where it should be, or not known where it should be, or has
    /// ended, or is another's.
    Unknown,
    /// The digest of its code or token is taken.
    DrawTaken,
    /// It goes beyond the rules, its owner's consent or its code.
    NotRight,
    /// The host refuses the change of its hooks.
    Hook(HookFault),
    /// Memory was refused.
    Memory,
}

impl Display for RedoFault {
    fn fmt<W: Write>(&self, f: &mut Formatter<W>) -> fmt::Result {
        match self {
            RedoFault::MomentBack => write!(f, "MomentBack"),
            RedoFault::Unknown => write!(f, "Unknown"),
            RedoFault::DrawTaken => write!(f, "DrawTaken"),
            RedoFault::NotRight => write!(f, "NotRight"),
            RedoFault::Hook(fault) => write!(f, "Hook {fault}"),
            RedoFault::Memory => write!(f, "Memory"),
        }
    }
}

impl From<HookFault> for RedoFault {
    ghost from_gives = { λ fault e. e ≡ of_hook_fault fault };

    fn from(fault: HookFault) -> RedoFault {
        match fault {
            HookFault::Memory => RedoFault::Memory,
            fault => RedoFault::Hook(fault),
        }
    }
}

impl From<AgainFault> for RedoFault {
    ghost from_gives = { λ fault e. e ≡ of_again_fault fault };

    fn from(fault: AgainFault) -> RedoFault {
        match fault {
            AgainFault::Unknown => RedoFault::Unknown,
            AgainFault::DrawTaken => RedoFault::DrawTaken,
            AgainFault::Memory => RedoFault::Memory,
        }
    }
}

/// The layout of a version of the record.
pub fn layout_of(version: RecordVersion) -> Layout
    ensures { result ≡ layout_of version }
{
    match version {
        RecordVersion::First => Layout::V1,
        RecordVersion::Second => Layout::V2,
    }
}

/// What the host finds of the change, where it is of its hooks.
pub(crate) fn check_hook<H: HookHost>(
    host: &H,
    change: &Change<'_>,
) -> Result<Checked<H>, RedoFault>
    ensures can { IfOk result (CanMake H.HookHost host.now change.now) }
    ensures refused { IfErr result (RefusesHookChange H.HookHost host.now change.now) }
{
    match change {
        Change::HookSet {
            name,
            version,
            code,
        } => {
            let hook = host.check(name, layout_of(*version), code)?;
            Ok(Checked::Installs(hook))
        }
        Change::HookGone { name } => {
            host.check_removal(name)?;
            Ok(Checked::Removes)
        }
        _ => Ok(Checked::NoHook),
    }
}
