//! Bytes of the machine's random source.

ghost use Rattle.std.specs.Prelude.{◌≡◌, [], ◌∷◌, Some};
ghost use Rattle.daemon.specs.Calls.{Gave};
ghost use Rattle.daemon.specs.Seeds.{IsSeeded};
ghost use Rattle.daemon.specs.declared.machine_random.MachineRandom.{MachineRandom};

use crate::machine_random::MachineRandom;
use rand_chacha::ChaCha20Rng;
use rand_core::SeedableRng;
use std::random::RandomSource;

/// Bytes of a random source that gave nothing else.
#[derive(Drop)]
pub struct Drawn<'r, R> {
    random: MachineRandom<'r, R>,
    seed: [u8; 32],
    ghost given: { random.log.calls ≡ Gave (Some seed) ∷ [] },
}

impl<'r, R: RandomSource> Drawn<'r, R> {
    /// 32 bytes of a machine, if its source gives them.
    pub(crate) fn of(rt: &'r R) -> Option<Drawn<'r, R>> {
        let mut random = MachineRandom::new(rt);
        let seed = random.seed()?;
        Some(Drawn { random, seed })
    }

    /// The generator of draws by them.
    pub(crate) fn generator(&self) -> ChaCha20Rng
        ensures { (random : MachineRandom R) × IsSeeded random result }
    {
        ChaCha20Rng::from_seed(self.seed)
    }
}
