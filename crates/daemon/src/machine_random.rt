//! The machine's source of random bytes.

ghost use Rattle.std.specs.Prelude.{◌≡◌, []};
ghost use Rattle.daemon.specs.Seeds.{NotesSeed};

use crate::call_log::{CallLog, SystemCall};
use std::random::RandomSource;

/// The machine's source of random bytes, with a log of what it gave.
#[derive(Drop)]
pub struct MachineRandom<'r, R> {
    rt: &'r R,
    pub(crate) log: CallLog,
}

impl<'r, R: RandomSource> MachineRandom<'r, R> {
    /// That of a machine.
    pub(crate) fn new(rt: &'r R) -> MachineRandom<'r, R>
        ensures { result.log.calls ≡ [] }
    {
        MachineRandom {
            rt,
            log: CallLog::new(),
        }
    }

    // 32 bytes of it.
    fn bytes(&self) -> Option<[u8; 32]> {
        let mut seed = [0; 32];
        self.rt.fill_bytes(&mut seed).ok()?;
        Some(seed)
    }

    /// 32 bytes, if the source gives them.
    pub(crate) fn seed(&mut self) -> Option<[u8; 32]>
        ensures { NotesSeed self.old result self.new }
    {
        let seed = self.bytes();
        self.log.note(&SystemCall::Draw(&seed));
        seed
    }
}
