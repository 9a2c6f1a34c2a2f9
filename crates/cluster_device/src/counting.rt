//! How often a call on a file has failed.

ghost use Rattle.std.specs.Prelude.{◌≡◌};
ghost use Rattle.batch_file.specs.Crashes.{IsFailure, IsReplaceFailure};
ghost use Rattle.batch_file.specs.declared.device.DeviceFault.TheVariants.{Memory};
ghost use Rattle.batch_file.specs.declared.device.ReplaceFault.TheVariants as replacing;
ghost use Rattle.cluster_device.specs.Counting.{IsCounted, due_of, replaced_of, settled_of};

use batch_file::device::{Beginning, DeviceFault, ReplaceFault};

/// A failure counts. Where no more can be counted, it is told that memory was refused.
pub(crate) fn counted<T: Drop>(
    failures: &mut u64,
    told: Result<T, DeviceFault>,
) -> Result<T, DeviceFault>
    ensures { IsCounted IsFailure Memory failures.old failures.new told result }
{
    let Err(DeviceFault::Failed(reason)) = told else {
        return told;
    };
    match failures.checked_add(1) {
        Some(more) => {
            *failures = more;
            Err(DeviceFault::Failed(reason))
        }
        None => Err(DeviceFault::Memory),
    }
}

/// What a call that puts all at once tells of a beginning.
pub(crate) fn settled(told: Result<(), DeviceFault>) -> Result<Beginning, ReplaceFault>
    ensures { result ≡ settled_of told }
{
    told?;
    Ok(Beginning::Settled)
}

/// What it tells of a replacement.
pub(crate) fn replaced(told: Result<(), DeviceFault>) -> Result<(), ReplaceFault>
    ensures { result ≡ replaced_of told }
{
    Ok(told?)
}

/// As `counted`, for a file that is put in the place of another.
pub(crate) fn counted_placing(
    failures: &mut u64,
    told: Result<(), ReplaceFault>,
) -> Result<(), ReplaceFault>
    ensures { IsCounted IsReplaceFailure replacing.Memory failures.old failures.new told result }
{
    let Err(ReplaceFault::Failed(reason)) = told else {
        return told;
    };
    match failures.checked_add(1) {
        Some(more) => {
            *failures = more;
            Err(ReplaceFault::Failed(reason))
        }
        None => Err(ReplaceFault::Memory),
    }
}

/// By when it wants to be called again.
pub(crate) fn due(told: Result<u64, DeviceFault>) -> Result<Option<u64>, DeviceFault>
    ensures { result ≡ due_of told }
{
    Ok(Some(told?))
}
