//! A list of changes without those that no longer matter.

ghost use Rattle.std.specs.Prelude.{◌≡◌, IfOk};
ghost use Rattle.change_codec.specs.Spelling.{dated_facts};
ghost use Rattle.shortening.specs.Known.{IsKnown, NotesUnexpired};
ghost use Rattle.shortening.specs.Shortened.{shortened};
ghost use Rattle.shortening.specs.Steps.{IsLeaving, keeps_of};

use crate::deciding::Deciding;
use crate::known::Known;
use crate::leaving::Leaving;
use crate::listing::Listing;
use crate::unexpired::Unexpired;
use change_codec::DatedChange;
use consent::Moment;
use std::alloc::{AllocError, Global};

// What is unexpired of the changes at the moment.
fn unexpired_of(
    alloc: Global,
    changes: &[DatedChange<'_>],
    moment: Moment,
) -> Result<Unexpired, AllocError>
    ensures { IfOk result (λ noted. NotesUnexpired noted (dated_facts changes.now) moment) }
{
    let mut noted = Unexpired::new(alloc);
    for dated in changes {
        noted.note(dated, moment)?;
    }
    Ok(noted)
}

// What is known of the changes at the moment.
fn known_of(alloc: Global, changes: &[DatedChange<'_>], moment: Moment) -> Result<Known, AllocError>
    ensures { IfOk result (λ known. IsKnown known (dated_facts changes.now) moment) }
{
    let unexpired = unexpired_of(alloc, changes, moment)?;
    let mut listing = Listing::of(alloc, unexpired);
    for dated in changes {
        listing.list(dated)?;
    }
    Ok(listing.known())
}

// Whether each of the changes stays, which are known.
fn leaving_of(
    alloc: Global,
    known: Known,
    changes: &[DatedChange<'_>],
    moment: Moment,
) -> Result<Leaving, AllocError>
    requires { IsKnown known (dated_facts changes.now) moment }
    ensures { IfOk result (λ leaving. IsLeaving leaving (keeps_of moment (dated_facts changes.now) (dated_facts changes.now))) }
{
    let mut deciding = Deciding::of(alloc, known, moment);
    let mut at = changes.len();
    while at > 0 {
        at -= 1;
        deciding.decide(&changes[at])?;
    }
    Ok(deciding.leaving())
}

/// What of the changes still matters at the moment, in their order.
pub fn shorten<'a>(
    alloc: Global,
    changes: &[DatedChange<'a>],
    moment: Moment,
) -> Result<Vec<DatedChange<'a>>, AllocError>
    ensures { IfOk result (λ left. dated_facts left.items ≡ shortened moment (dated_facts changes.now)) }
{
    let known = known_of(alloc, changes, moment)?;
    let mut leaving = leaving_of(alloc, known, changes, moment)?;
    let mut left = Vec::new(alloc);
    for at in 0..changes.len() {
        if leaving.next() {
            left.extend_from_slice(&changes[at..at + 1])?;
        }
    }
    Ok(left)
}
