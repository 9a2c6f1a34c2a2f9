//! What the loop knows.
ghost use Rattle.std.specs.Prelude.{◌≡◌, ◌<◌, false, None, Some, length, slice_get};
ghost use Rattle.event_loop.specs.Goes.{Empty, AllFree, IsDueNowhere};
ghost use Rattle.event_loop.specs.Moments.{seconds_too_far};

use crate::clocks::too_far;
use crate::due::DuePlaces;
use crate::limits::{Limits, READ_LIMIT};
use crate::place::{FREE_PLACE, Place};
use crate::queue::Queue;
use crate::report::LastTold;
use consent::Moment;
use outside::Times;

/// What the loop knows.
#[derive(Drop)]
pub struct Service {
    pub(crate) places: [Place; 64],
    // Where something may be due.
    pub(crate) due: DuePlaces,
    // Which places were read since the last wait.
    pub(crate) heard: [bool; 64],
    // Where bytes are read to.
    pub(crate) buffer: [u8; READ_LIMIT],
    pub(crate) limits: Limits,
    // What the clocks told last.
    pub(crate) times: Times,
    // The greatest moment that was kept, or with which it began.
    pub(crate) held: Moment,
    pub(crate) queue: Queue,
    // In which second a fault was noted last.
    pub(crate) noted: Option<u64>,
    // When it began, in steady seconds.
    pub(crate) began: u64,
    // How many connections came.
    pub(crate) accepted: u64,
    // Which turn it is: how often it waited.
    pub(crate) turn: u64,
    // For how many requests the store was full, as was looked at last.
    pub(crate) full: u64,
    // When the journal was told last of what the server does.
    pub(crate) told: LastTold,
    // In which second shortening was refused last, where more was kept ever since than may be.
    pub(crate) refused: Option<u64>,
    // Since which second a reload is wanted, if one is.
    pub(crate) reload: Option<u64>,
}

impl Service {
    /// At first no connection is there.
    pub(crate) fn new(limits: Limits, times: Times, held: Moment) -> Service
        ensures size { length result.places ≡ 64 }
        ensures free { AllFree result.places }
        ensures limits { result.limits ≡ limits }
        ensures times { result.times ≡ times }
        ensures held { result.held ≡ held }
        ensures due { IsDueNowhere result }
        ensures queue { result.queue ≡ Empty }
        ensures noted { result.noted ≡ None }
        ensures told { result.told ≡ record { report = times.steady; full = None; room = false } }
        ensures refused { result.refused ≡ None }
        ensures reload { result.reload ≡ None }
        ensures began { result.began ≡ times.steady }
        ensures accepted { result.accepted ≡ 0 }
        ensures turn { result.turn ≡ 0 }
    {
        let steady = times.steady;
        Service {
            places: [FREE_PLACE; 64],
            due: DuePlaces::nowhere(),
            heard: [false; 64],
            buffer: [0; READ_LIMIT],
            limits,
            times,
            held,
            queue: Queue::Empty,
            noted: None,
            began: steady,
            accepted: 0,
            turn: 0,
            full: 0,
            told: LastTold {
                report: steady,
                full: None,
                room: false,
            },
            refused: None,
            reload: None,
        }
    }

    /// By how many seconds these times are ahead of the greatest moment that was kept, where that is more than it may be.
    pub(crate) fn seconds_too_far(&self, times: Times) -> Option<u64>
        ensures { result ≡ seconds_too_far self.now.limits.ahead (Some times) self.now.held }
    {
        too_far(self.limits.ahead, Some(times), self.held)
    }

    /// Whether a place was read since the last wait.
    pub(crate) fn is_heard(&self, k: u32) -> bool
        requires bound { k < 64 }
        ensures { slice_get self.now.heard k ≡ Some result }
    {
        self.heard[k as usize]
    }

    /// What is known of a place.
    pub(crate) fn place_at(&self, k: u32) -> Place
        requires bound { k < 64 }
        ensures { slice_get self.now.places k ≡ Some result }
    {
        self.places[k as usize]
    }
}
