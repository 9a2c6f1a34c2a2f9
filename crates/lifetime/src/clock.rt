//! The clocks beside the moment of a state.

ghost use Rattle.std.specs.Prelude.{◌≡◌};
ghost use Rattle.event_loop.specs.Moments.{seconds_too_far};
ghost use Rattle.lifetime.specs.Clocks.{seconds_ahead};

use consent::Moment;
use event_loop::Times;

/// How many seconds the clocks are ahead of a state's moment, where these are more than they may be, by what they told.
pub(crate) fn too_far(limit: Option<u64>, now: &Option<Times>, moment: Moment) -> Option<u64>
    ensures { result ≡ seconds_too_far limit now.now moment }
{
    event_loop::too_far(limit, *now, moment)
}

/// How many seconds a state's moment is ahead of the clocks: 0 where it is not, or where these told nothing.
pub(crate) fn seconds_ahead(now: Option<Times>, moment: Moment) -> u64
    ensures { result ≡ seconds_ahead now moment }
{
    match now {
        Some(now) => moment.get().saturating_sub(now.moment.get()),
        None => 0,
    }
}
