//! What is told of a reload once the next life goes on, or is refused.

ghost use Rattle.std.specs.Prelude.{◌≡◌, Some};
ghost use Rattle.daemon.specs.Reloading.{IsRefusedTo};

use crate::call_log::CallLog;
use crate::reloads::answer;
use desk::{Reloaded, granted_reply, state_reply};
use lifetime::{Opening, Unopened};
use mio::net::TcpStream;
use state_file::StateFault;
use std::alloc::Global;

/// Who asked for a reload, and what he is told once it is made.
#[derive(Drop)]
pub(crate) struct Resumption {
    alloc: Global,
    asker: Option<TcpStream>,
    reloaded: Reloaded,
    /// What those were replied who asked for reloads, so far.
    log: CallLog,
}

impl Resumption {
    /// Who asked waits for it, behind those who were replied to before.
    pub(crate) fn new(
        alloc: Global,
        asker: TcpStream,
        reloaded: Reloaded,
        log: CallLog,
    ) -> Resumption
        ensures waits { result.asker ≡ Some asker }
        ensures reloaded { result.reloaded ≡ reloaded }
        ensures before { result.log ≡ log }
    {
        Resumption {
            alloc,
            asker: Some(asker),
            reloaded,
            log,
        }
    }

    /// It is not made, since its life is refused for this.
    pub(crate) fn refuse(&mut self, fault: &StateFault)
        ensures { IsRefusedTo fault.now self.old self.new }
    {
        let Some(asker) = self.asker.take() else {
            return;
        };
        let reply = state_reply(self.alloc, fault);
        answer(&mut self.log, asker, reply);
    }

    /// What they were replied.
    pub(crate) fn into_log(self) -> CallLog
        ensures { result ≡ self.log }
    {
        self.log
    }
}

impl Opening for Resumption {
    ghost use Rattle.daemon.specs.Reloading.{IsGranted};

    ghost opens = { IsGranted };

    fn open(&mut self) -> Result<(), Unopened> {
        let Some(asker) = self.asker.take() else {
            return Ok(());
        };
        let reply = granted_reply(self.alloc, self.reloaded);
        answer(&mut self.log, asker, reply);
        Ok(())
    }
}
