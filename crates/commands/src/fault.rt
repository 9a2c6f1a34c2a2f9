//! Why what words call for is not done, and with which status the program then ends.

ghost use Rattle.std.specs.Prelude.{◌≡◌};
ghost use Rattle.commands.specs.Statuses.{status_of_command_fault, status_of_hook_command};
ghost use Rattle.commands.specs.Faults.{IsOfState};
ghost use Rattle.commands.specs.declared.fault.CommandFault.TheVariants.{HookCommand, OutOfMemory};

use crate::status::Status;
use assembler::AsmFault;
use batch_file::appending::BatchFault;
use clients::{ConfigFault, Spot};
use daemon::SocketFault;
use disk_file::{MakeFault, OpenFault};
use event_loop::LoopFault;
use hook_commands::HookCommandFault;
use hook_host::HookFault;
use insn::fault::InsnFault;
use insn::verify_fault::VerifyFault;
use standby::ListFault;
use start_words::WordFault;
use state_file::StateFault;
use std::alloc::AllocError;
use std::fmt::{self, Display, Formatter};
use system_faults::SystemFault;
use transcript::ReplayFault;

/// What helps where it is not known which command is meant.
const LIST: &str = "oauthd help lists the commands";

/// What `start` wants, before what of it is missing, and what helps.
const WANTS: &str = "start wants ADDR and CONFIG before all options:";

const START: &str = "oauthd help start has its words";

/// Why what words call for is not done.
#[derive(Debug, Drop)]
pub enum CommandFault<'w> {
    /// The words are no command, and begin with no command's name.
    BadArguments,
    /// The words are no command, and begin with this name of one.
    BadCommand(&'w str),
    /// Nothing is known of this name.
    Unexplained(&'w str),
    /// The words behind `start` have no address.
    NoAddress,
    /// The words behind `start` have no file of a registry.
    NoConfig,
    /// A word behind `start` is refused.
    BadWord(&'w str, WordFault),
    /// A command about a hook has no answer.
    HookCommand(HookCommandFault<'w>),
    /// The file of this path cannot be read.
    CannotRead(&'w str),
    /// A registry is refused.
    Config(ConfigFault),
    /// A registry is refused for what stands there.
    ConfigAt(ConfigFault, Spot),
    /// A transcript has no answer.
    Replay(ReplayFault),
    /// The state file of this path is refused.
    State(&'w str, StateFault),
    /// It is not told what a state file stands for, for what is wrong with the batch of this number.
    StateAt(usize, StateFault),
    /// The state file of this path is not opened.
    Unopened(&'w str, OpenFault),
    /// The file of this path, in which it is to be told of each request, is not opened.
    Unaudited(&'w str, OpenFault),
    /// No state file is made at this path.
    Unmade(&'w str, MakeFault),
    /// The list in etcd with this prefix is not had.
    List(&'w str, ListFault),
    /// The clock is so many seconds ahead of the state in the file of this path.
    ClockAhead(&'w str, u64),
    /// The hook of this name is refused.
    Hook(&'w str, HookFault),
    /// There is no socket at this address.
    CannotListen(&'w str, SocketFault),
    /// There is no socket, of which no more is told.
    NoSocket,
    /// The system gives no random bytes.
    NoSeed,
    /// A server that served can't go on; and why it can't keep its state, where that is so and it is known.
    Stopped(LoopFault, Option<BatchFault>),
    /// Memory was refused.
    OutOfMemory,
    /// The answer could not be written.
    CannotWrite,
}

/// The status with which the program ends where a command about a hook has no answer.
fn status_of_hook_command(fault: &HookCommandFault<'_>) -> Status
    ensures { result ≡ status_of_hook_command fault.now }
{
    match fault {
        HookCommandFault::Text(AsmFault::Memory, _)
        | HookCommandFault::Insn(InsnFault::Memory)
        | HookCommandFault::Verify(VerifyFault::Memory)
        | HookCommandFault::OutOfMemory => Status::NoMemory,
        HookCommandFault::Text(_, _) | HookCommandFault::Insn(_) | HookCommandFault::Verify(_) => {
            Status::Refused
        }
        HookCommandFault::BadArguments
        | HookCommandFault::BadRecord
        | HookCommandFault::CannotRead(_)
        | HookCommandFault::IsElf(_)
        | HookCommandFault::IsNotHex(_) => Status::BadUse,
    }
}

impl<'w> CommandFault<'w> {
    /// The status with which the program then ends.
    pub fn status(&self) -> Status
        ensures { result ≡ status_of_command_fault self.now }
    {
        match self {
            CommandFault::HookCommand(fault) => status_of_hook_command(fault),
            CommandFault::Replay(ReplayFault::Refused(_, _)) => Status::Refused,
            CommandFault::OutOfMemory => Status::NoMemory,
            _ => Status::BadUse,
        }
    }

    /// Writes what is told of it.
    fn write_reason<W: fmt::Write>(&self, f: &mut Formatter<W>) -> fmt::Result {
        match self {
            CommandFault::BadArguments => write!(f, "bad arguments; {LIST}"),
            CommandFault::BadCommand(name) => {
                write!(
                    f,
                    "bad arguments for {name}; oauthd help {name} has its words"
                )
            }
            CommandFault::Unexplained(name) => write!(f, "nothing is known of {name}; {LIST}"),
            CommandFault::NoAddress => write!(f, "{WANTS} ADDR is missing; {START}"),
            CommandFault::NoConfig => write!(f, "{WANTS} CONFIG is missing; {START}"),
            CommandFault::BadWord(word, fault) => write!(f, "bad arguments: {word} {fault}"),
            CommandFault::HookCommand(fault) => write!(f, "{fault}"),
            CommandFault::CannotRead(path) => write!(f, "cannot read {path}"),
            CommandFault::Config(fault) => write!(f, "Config {fault}"),
            CommandFault::ConfigAt(fault, spot) => write!(f, "Config {fault} at {spot}"),
            CommandFault::Replay(fault) => write!(f, "{fault}"),
            CommandFault::State(path, fault) => {
                let advice = advice_on(fault);
                write!(f, "State {fault}: {path}{advice}")
            }
            CommandFault::StateAt(number, fault) => write!(f, "State {fault} in batch {number}"),
            CommandFault::Unopened(path, fault) => {
                let advice = advice_on_opening(fault);
                write!(f, "State {fault}: {path}{advice}")
            }
            CommandFault::Unaudited(path, fault) => write!(f, "audit {fault}: {path}"),
            CommandFault::Unmade(path, fault) => write!(f, "State {fault}: {path}"),
            CommandFault::List(prefix, fault) => {
                let advice = advice_on_list(fault);
                write!(f, "State {fault}: {prefix}{advice}")
            }
            CommandFault::ClockAhead(path, seconds) => {
                let advice = "; --accept-clock takes it";
                write!(f, "State ClockAhead {seconds}: {path}{advice}")
            }
            CommandFault::Hook(name, fault) => write!(f, "hook {name}: {fault}"),
            CommandFault::CannotListen(address, fault) => {
                write!(f, "cannot listen on {address}: {fault}")
            }
            CommandFault::NoSocket => write!(f, "cannot listen"),
            CommandFault::NoSeed => write!(f, "no random bytes"),
            CommandFault::Stopped(fault, why) => write_stop(fault, why.as_ref(), f),
            CommandFault::OutOfMemory => write!(f, "out of memory"),
            CommandFault::CannotWrite => write!(f, "cannot write"),
        }
    }
}

/// Writes why a server stopped: where it could not keep its state, why, if that is known.
fn write_stop<W: fmt::Write>(
    fault: &LoopFault,
    why: Option<&BatchFault>,
    f: &mut Formatter<W>,
) -> fmt::Result {
    match (fault, why) {
        (LoopFault::Keep, Some(BatchFault::Failed(SystemFault::Overtaken))) => {
            write!(f, "State Overtaken: another server leads")
        }
        (LoopFault::Keep, Some(BatchFault::Failed(SystemFault::Unclear))) => {
            write!(f, "State Unclear: etcd told nothing in time")
        }
        (LoopFault::Keep, Some(BatchFault::Failed(reason))) => {
            write!(f, "stopped: State: {reason}")
        }
        (LoopFault::Keep, Some(why)) => write!(f, "stopped: State: {why}"),
        (LoopFault::Keep, None) => write!(f, "stopped: State"),
        (fault, _) => write!(f, "stopped: {fault}"),
    }
}

/// The line in which a fault is told.
impl<'w> Display for CommandFault<'w> {
    fn fmt<W: fmt::Write>(&self, f: &mut Formatter<W>) -> fmt::Result {
        write!(f, "oauthd: ")?;
        self.write_reason(f)?;
        write!(f, "\n")
    }
}

/// What helps against a fault of a state file, where that is known.
fn advice_on(fault: &StateFault) -> &'static str {
    match fault {
        StateFault::NotState => "; oauthd state --new FILE makes one",
        StateFault::Version(version) if *version > 3 => "; a newer oauthd wrote it",
        StateFault::Version(_) => "; an older oauthd wrote it",
        _ => "",
    }
}

/// What helps where a list is not had, where that is known.
fn advice_on_list(fault: &ListFault) -> &'static str {
    match fault {
        ListFault::Missing => "; oauthd state --new --etcd makes one",
        ListFault::OtherCluster => "; a snapshot of another cluster was restored",
        ListFault::Unread => "; a piece is missing, or etcd is compacted too often",
        ListFault::Led => "; a server runs on it",
        _ => "",
    }
}

/// What helps where a state file is not opened, where that is known.
fn advice_on_opening(fault: &OpenFault) -> &'static str {
    match fault {
        OpenFault::Missing => "; oauthd state --new FILE makes one",
        _ => "",
    }
}

impl<'w> CommandFault<'w> {
    /// What a fault of the state file of a path is to a command.
    pub fn of_state(path: &'w str, fault: StateFault) -> CommandFault<'w>
        ensures { IsOfState path.now fault result }
    {
        match fault {
            StateFault::Memory => CommandFault::OutOfMemory,
            fault => CommandFault::State(path, fault),
        }
    }
}

/// A command about a hook that has no answer.
impl<'w> From<HookCommandFault<'w>> for CommandFault<'w> {
    ghost from_gives = { λ fault f. f ≡ HookCommand fault };

    fn from(fault: HookCommandFault<'w>) -> CommandFault<'w> {
        CommandFault::HookCommand(fault)
    }
}

impl<'w> From<AllocError> for CommandFault<'w> {
    ghost from_gives = { λ _ f. f ≡ OutOfMemory };

    fn from(_error: AllocError) -> CommandFault<'w> {
        CommandFault::OutOfMemory
    }
}
