//! Rounds.
ghost use Rattle.std.specs.Prelude.{◌≡◌, ◌≤◌, length, None, true, false, OnOk, IfErr};
ghost use Rattle.event_loop.specs.Asking.{milliseconds, rest_limit};
ghost use Rattle.event_loop.specs.Goes.{InEach, IsBusy, IsLimit, MayRest, MaySleep, LeadsRound, LeadsWrong, ServesOn, running, keeping, promises};

use crate::clocks::later;
use crate::limits::SECOND;
use crate::queue::Queue;
use crate::room::Guest;
use crate::service::Service;
use crate::tools::{HookHost, Journal, Keeper, Tools};
use change_codec::Length;
use outside::{Clocks, LoopFault, Ready, Sockets, Times};

// How long to rest, in milliseconds: less than a second where the keeper wants to be called again before that.
fn rest(due: Option<u64>, steady: u64) -> u64
    ensures { result ≡ rest_limit due (milliseconds steady) }
{
    match due {
        Some(due) => due
            .saturating_sub(steady.saturating_mul(SECOND))
            .min(SECOND)
            .max(1),
        None => SECOND,
    }
}

impl Service {
    // Whether something may be due.
    fn is_busy(&self) -> bool
        ensures busy { result ≡ true → IsBusy self.now }
        ensures rests { result ≡ false → MayRest self.now }
    {
        match self.queue {
            Queue::Told => true,
            _ => self.due.end() > 0,
        }
    }

    // Whether no connection is there, no accept is to be tried again, no reports are wanted, and the keeper wants no call.
    fn may_sleep(&self, due: Option<u64>) -> bool
        ensures sleeps { result ≡ true → MaySleep self.now }
        ensures undue { result ≡ true → due ≡ None }
    {
        if let Queue::Barred(_) = self.queue {
            return false;
        }
        let (None, None) = (self.limits.report, due) else {
            return false;
        };
        self.open_count() == 0
    }

    // How long to wait, in milliseconds, by what the keeper told, and by when it wants to be called again.
    fn wait_limit(&self, told: Option<Length>, due: Option<u64>) -> Option<u64>
        ensures { IsLimit self.now told due result }
    {
        if self.is_busy() {
            return Some(0);
        }
        let rest = rest(due, self.times.steady);
        let Some(length) = told else {
            return Some(rest);
        };
        if let Length::Long = length {
            return Some(0);
        }
        if self.may_sleep(due) {
            return None;
        }
        Some(rest)
    }
}

impl<N: Sockets, C: Clocks, J: Journal, K: Keeper, H: HookHost> Tools<N, C, J, K, H> {
    /// Has the keeper keep its place. Shortens what is kept by a slice, where it is long, and tells whether that wants room. Then waits once, looks at the clocks, whose moment is
    /// kept where it is not too far ahead, notes what was found, reads each place, looks whether more came, keeps what changed, or asks whether nobody else has begun, hands on what was told of
    /// requests, writes to each, closes and accepts, and then tells the journal what is due.
    fn round(&mut self, service: &mut Service, found: &mut [Ready]) -> Result<(), LoopFault>
        requires room { 65 ≤ length found.old }
        requires serves_on { InEach H.HookHost self.old.edge (ServesOn service.old) }
        ensures goes { OnOk result (LeadsRound (promises N.Sockets C.Clocks J.Journal (keeping K.Keeper) H.HookHost) 1 (running service.old self.old) (running service.new self.new)) }
        ensures wrong { IfErr result (λ fault. LeadsWrong (promises N.Sockets C.Clocks J.Journal (keeping K.Keeper) H.HookHost) fault (running service.old self.old) (running service.new self.new)) }
    {
        let due = match self.tend(service.times.steady) {
            Ok(due) => due,
            Err(fault) => return Err(fault),
        };
        let told = match self.shorten_some(service) {
            Ok(told) => told,
            Err(fault) => return Err(fault),
        };
        self.tell_room(service);
        let limit = service.wait_limit(told, due);
        let Some(count) = self.sockets.wait(limit, found) else {
            return Err(LoopFault::Wait);
        };
        let Some(times) = self.clocks.read() else {
            return Err(LoopFault::Clock);
        };
        let Times { moment, steady } = times;
        if let Some(seconds) = service.seconds_too_far(Times { moment, steady }) {
            return Err(LoopFault::ClockAhead(seconds));
        }
        let Ok(()) = self.keeper.keep_moment(moment) else {
            return Err(LoopFault::Keep);
        };
        let is_same_second = steady == service.times.steady;
        service.times = Times { moment, steady };
        service.held = later(service.held, moment);
        service.turn = service.turn.saturating_add(1);
        service.heard = [false; 64];
        self.hear_all(service, &found[..count]);
        self.read_all(service);
        self.read_more(service, found);
        if let Err(fault) = self.keep_all(service) {
            return Err(fault);
        }
        self.write_all(service);
        self.tidy(service, is_same_second);
        self.give_way(service, Guest::Silent);
        self.give_way(service, Guest::Answered);
        self.hear_out(service);
        self.admit_all(service);
        self.tell(service);
        Ok(())
    }

    /// Makes round after round.
    pub(crate) fn rounds(&mut self, service: &mut Service) -> LoopFault
        ensures { LeadsWrong (promises N.Sockets C.Clocks J.Journal (keeping K.Keeper) H.HookHost) result (running service.old self.old) (running service.new self.new) }
    {
        let mut found = [Ready::Listener; 65];
        for _nth in 0..u64::MAX {
            if self.may_end(service) {
                return LoopFault::Reload;
            }
            if let Err(fault) = self.round(service, &mut found) {
                return fault;
            }
        }
        LoopFault::Rounds
    }
}
