//! The lines of faults that no command line of these tests or of a row brings about.

use assembler::AsmFault;
use authentication::AuthFault;
use batch_file::appending::BatchFault;
use commands::CommandFault;
use daemon::SocketFault;
use endpoints::RedoFault;
use event_loop::LoopFault;
use hook_commands::HookCommandFault;
use insn::fault::InsnFault;
use insn::verify_fault::VerifyFault;
use params::ParamFault;
use state_file::StateFault;
use std::fmt::Display;
use std::process::Abort;
use std::test::Fail;
use system_faults::SystemFault;
use wire::Fault;

const REFUSED: VerifyFault = VerifyFault::Memory;

const LONG: AsmFault = AsmFault::TooLong(4097);

/// Asserts that a fault is told in a line behind the program's name.
fn assert_told<R: Abort + AllocGlobal>(
    rt: &R,
    fault: CommandFault<'_>,
    text: &str,
) -> Result<(), Fail> {
    let told = format!(in rt.alloc(); "{fault}")?;
    let line = format!(in rt.alloc(); "oauthd: {text}\n")?;
    assert_eq!(rt; told.as_str(), line.as_str());
    Ok(())
}

#[test]
fn memory_that_was_refused_is_told_alike_and_what_is_too_long(rt: HostRuntime) -> Result<(), Fail> {
    assert_told(&rt, CommandFault::OutOfMemory, "out of memory")?;
    for (fault, text) in [
        (HookCommandFault::OutOfMemory, "out of memory"),
        (
            HookCommandFault::Text(AsmFault::Memory, None),
            "out of memory",
        ),
        (HookCommandFault::Insn(InsnFault::Memory), "out of memory"),
        (HookCommandFault::Verify(REFUSED), "out of memory"),
        (HookCommandFault::Insn(InsnFault::TooLong), "Insn TooLong"),
        (HookCommandFault::Text(LONG, None), "line 4097: TooLong"),
    ] {
        assert_told(&rt, CommandFault::HookCommand(fault), text)?;
    }
    Ok(())
}

#[test]
fn sockets_that_the_system_refuses(rt: HostRuntime) -> Result<(), Fail> {
    for (reason, text) in [
        (SocketFault::NoAddress, "no address"),
        (SocketFault::AddressInUse, "address in use"),
        (SocketFault::AddressNotAvailable, "address not available"),
        (SocketFault::PermissionDenied, "permission denied"),
        (SocketFault::Other, "the system refuses it"),
    ] {
        let text = format!(in rt.alloc(); "cannot listen on a:1: {text}")?;
        assert_told(&rt, CommandFault::CannotListen("a:1", reason), &text)?;
    }
    assert_told(&rt, CommandFault::NoSocket, "cannot listen")?;
    assert_told(&rt, CommandFault::NoSeed, "no random bytes")
}

#[test]
fn servers_that_stop(rt: HostRuntime) -> Result<(), Fail> {
    for (fault, text) in [
        (LoopFault::Wait, "stopped: Wait"),
        (LoopFault::Clock, "stopped: Clock"),
        (LoopFault::ClockAhead(7), "stopped: ClockAhead 7"),
        (LoopFault::Keep, "stopped: State"),
        (LoopFault::Rounds, "stopped: Rounds"),
    ] {
        assert_told(&rt, CommandFault::Stopped(fault, None), text)?;
    }
    let full = BatchFault::Failed(SystemFault::StorageFull);
    let no_room = BatchFault::NoRoom(SystemFault::StorageFull);
    for (cause, text) in [
        (BatchFault::Memory, "stopped: State: Memory"),
        (full, "stopped: State: no storage space"),
        (no_room, "stopped: State: NoRoom: no storage space"),
        (BatchFault::Full, "stopped: State: Full"),
        (BatchFault::TooLong, "stopped: State: TooLong"),
        (BatchFault::Displaced, "stopped: State: Displaced"),
    ] {
        let stopped = CommandFault::Stopped(LoopFault::Keep, Some(cause));
        assert_told(&rt, stopped, text)?;
    }
    Ok(())
}

/// Asserts that a fault is told so.
fn assert_told_as<R: Abort + AllocGlobal, F: Display + Drop>(
    rt: &R,
    fault: F,
    text: &str,
) -> Result<(), Fail> {
    let told = format!(in rt.alloc(); "{fault}")?;
    assert_eq!(rt; told.as_str(), text);
    Ok(())
}

#[test]
fn requests_that_are_refused(rt: HostRuntime) -> Result<(), Fail> {
    assert_told_as(&rt, ParamFault::Twice, "Twice")?;
    assert_told_as(&rt, ParamFault::NotUtf8, "NotUtf8")?;
    assert_told_as(&rt, ParamFault::Memory, "Memory")?;
    assert_told_as(&rt, AuthFault::NoClient, "NoClient")?;
    assert_told_as(&rt, AuthFault::BadSecret, "BadSecret")?;
    assert_told_as(&rt, AuthFault::TwoMethods, "TwoMethods")?;
    assert_told_as(&rt, AuthFault::BadHeader, "BadHeader")
}

#[test]
fn disks_that_refuse(rt: HostRuntime) -> Result<(), Fail> {
    for (reason, text) in [
        (SystemFault::NotFound, "Device: not found"),
        (SystemFault::PermissionDenied, "Device: permission denied"),
        (SystemFault::AlreadyExists, "Device: already exists"),
        (SystemFault::NotADirectory, "Device: not a directory"),
        (SystemFault::IsADirectory, "Device: is a directory"),
        (
            SystemFault::ReadOnlyFilesystem,
            "Device: read-only filesystem",
        ),
        (SystemFault::FilesystemLoop, "Device: filesystem loop"),
        (SystemFault::StorageFull, "Device: no storage space"),
        (SystemFault::QuotaExceeded, "Device: quota exceeded"),
        (SystemFault::FileTooLarge, "Device: file too large"),
        (SystemFault::ResourceBusy, "Device: resource busy"),
        (SystemFault::CrossesDevices, "Device: cross-device rename"),
        (SystemFault::InvalidFilename, "Device: invalid filename"),
        (SystemFault::InputOutput, "Device: input/output error"),
        (SystemFault::Other, "Device: other error"),
    ] {
        assert_told_as(&rt, StateFault::Device(reason), text)?;
        assert_told_as(&rt, StateFault::Unplaced(reason), text)?;
    }
    Ok(())
}

#[test]
fn state_files_that_are_refused(rt: HostRuntime) -> Result<(), Fail> {
    for (fault, text) in [
        (RedoFault::MomentBack, "Follows MomentBack"),
        (RedoFault::Unknown, "Follows Unknown"),
        (RedoFault::DrawTaken, "Follows DrawTaken"),
        (RedoFault::NotRight, "Follows NotRight"),
    ] {
        assert_told_as(&rt, StateFault::Follows(fault), text)?;
    }
    for (fault, text) in [
        (Fault::Version, "Spelling Version"),
        (Fault::Short, "Spelling Short"),
        (Fault::Moment, "Spelling Moment"),
        (Fault::Variant, "Spelling Variant"),
        (Fault::Number, "Spelling Number"),
        (Fault::Kind, "Spelling Kind"),
        (Fault::RecordVersion, "Spelling RecordVersion"),
        (Fault::NotText, "Spelling NotText"),
        (Fault::Behind, "Spelling Behind"),
    ] {
        assert_told_as(&rt, StateFault::Spelling(fault), text)?;
    }
    assert_told_as(&rt, StateFault::OwnerMoved(4097), "OwnerMoved 4097")?;
    assert_told_as(&rt, StateFault::FormerOwner, "FormerOwner")?;
    assert_told_as(&rt, StateFault::LifeNarrowed, "LifeNarrowed")?;
    assert_told_as(&rt, StateFault::Full, "Full")?;
    assert_told_as(&rt, StateFault::TooLong, "TooLong")
}
