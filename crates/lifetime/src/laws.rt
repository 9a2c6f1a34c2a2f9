//! What holds over any number of lives.

ghost use Rattle.std.specs.Prelude.{List};
ghost use Rattle.clients.specs.RegistryRecord.{RegistryRecord};
ghost use Rattle.lifetime.specs.Found.{KeepsAcknowledged, KeepsFirst};
ghost use Rattle.event_loop.specs.Minutes.{OnceAMinute};
ghost use Rattle.lifetime.specs.Given.{in_loop, life_promises};

use batch_file::device::Device;
use event_loop::{Clocks, Journal, Sockets};

/// Whatever is found after any number of lives, each begun on what a crash of one before left, stands for a history that comes
/// of the first one: it grew, and only what goes beyond a registry that a life was handed has ended, or was granted by a former
/// owner. So it is of all that was kept at any state of a life, which is all that a reply had told by then. No code, token or consent
/// of one owner is ever another one's: at each start each owner of something is one and the same by the rules told and by the new ones.
pub fn lives_lose_nothing<D: Device, N: Sockets, C: Clocks, J: Journal>()
    ensures found { (registries : List RegistryRecord) → KeepsFirst (life_promises D.Device N.Sockets C.Clocks J.Journal) registries }
    ensures acknowledged { (registries : List RegistryRecord) → KeepsAcknowledged (life_promises D.Device N.Sockets C.Clocks J.Journal) registries }
{}

/// A moment is written at most once a minute: where one is, and no change, it is later by more than a minute than the moment at which
/// something was written before. So a server whose clients change nothing writes nothing more often.
pub fn a_moment_is_written_once_a_minute<D: Device, N: Sockets, C: Clocks, J: Journal>()
    ensures { OnceAMinute (in_loop (life_promises D.Device N.Sockets C.Clocks J.Journal)) }
{}
