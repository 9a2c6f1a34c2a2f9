//! A server's list of dated changes, and what may be left out of it.
//!
//! What a server has done is a history: a list of dated changes, oldest first. A *list* that a server keeps is left of the
//! history at a moment, if it tells from then on what the history tells: the same codes and tokens are unexpired and
//! spent, families that live have their terms and have ended where they had, the same is consented to, the same hooks are
//! set, and a number that is new to the history is new to the list.
//!
//! At a moment, these changes are needless, and a list is left of its history without them as well:
//!
//! - a code that has expired, if its family does not live, and a token that has expired
//! - the use of what is not unexpired
//! - the end of a family that does not live
//! - a consent that another one of the two follows before a code of a family that lives is given, if it lowers no family
//!   that lives, or a later one lowers it too
//! - a hook that is taken away later, and each change that takes one away
//! - a greatest number that was told: it is told anew behind what is left
//!
//! A list that is shortened is no history that happened: a token may stand in it whose family did not live when it was
//! issued, since what lived then has gone. Each of its changes may *stand* where it does, which is less than that it could
//! follow there, and still enough for each list of such changes to be a history.
//!
//! What is left may have a smaller greatest number of a family than its history. So this is told behind it.
//!
//! A list is gone over four times, change by change, so that it need not be held as a whole: `Unexpired` notes what is
//! unexpired at the moment that `LastTold` tells, `Listing` lists the scopes of codes, `Deciding` decides of each change whether
//! it stays, from the last one on, and `Leaving` says so from the first one on. `shorten` does all that with a list that is held.
#![tactic(auto)]

mod behind;
mod deciding;
mod known;
mod last_told;
mod laws;
mod leaving;
mod listing;
mod unexpired;
mod whole;

pub use deciding::Deciding;
pub use known::Known;
pub use last_told::LastTold;
pub use laws::{
    a_list_is_left_of_what_happened, a_store_fits_either, needless_changes_tell_nothing,
    what_is_left_is_less, what_is_left_is_right, what_stays_is_left, what_tells_the_same_goes_on,
};
pub use leaving::Leaving;
pub use listing::Listing;
pub use unexpired::Unexpired;
pub use whole::shorten;
