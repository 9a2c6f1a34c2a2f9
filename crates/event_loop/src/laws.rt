//! What holds of every run of the loop.

ghost use Rattle.std.specs.Prelude.{◌≡◌, ℕ, Some, slice_get};
ghost use Rattle.change_codec.specs.Keepers.{keeping};
ghost use Rattle.event_loop.specs.declared.place.Place.{Place};
ghost use Rattle.event_loop.specs.Answered.{HasAllReplies, IsReadWhole, HasWholeReplies};
ghost use Rattle.event_loop.specs.Closing.{IsBehindReply, IsBetween, HasWhole};
ghost use Rattle.event_loop.specs.LoopStates.{LoopState, promises};
ghost use Rattle.event_loop.specs.Progress.{known};
ghost use Rattle.event_loop.specs.Served.{Served};
ghost use Rattle.event_loop.specs.Slices.{IsNoLonger, LongOnward};

use crate::tools::{Clocks, HookHost, Journal, Keeper, Sockets};

/// A shortening ends: on a way on which none ended and none was refused, no more slices are gone over than were to be gone over
/// where it began, and eight for each byte that came to what is kept.
#[tactic(auto, using(crate::specs::SlicesLaws::shortening_ends))]
pub fn a_shortening_ends<N: Sockets, C: Clocks, J: Journal, K: Keeper, H: HookHost>()
    ensures { (s s' : LoopState N C J K H)
        → LongOnward (promises N.Sockets C.Clocks J.Journal (keeping K.Keeper) H.HookHost) s s' → IsNoLonger (promises N.Sockets C.Clocks J.Journal (keeping K.Keeper) H.HookHost) s s' }
{}

/// Who is right behind a reply has had all of them, to all that was read of its connection: so no reply is owed to who makes room.
pub fn who_makes_room_is_answered<N: Sockets, C: Clocks, J: Journal, K: Keeper, H: HookHost>()
    ensures { (first s : LoopState N C J K H) → Served (promises N.Sockets C.Clocks J.Journal (keeping K.Keeper) H.HookHost) first s
        → (k : ℕ) (place : Place) → slice_get s.places k ≡ Some place → IsBehindReply s.turn place (known s.progress k) → HasAllReplies s k }
{}

/// Who is owed replies and makes room has had whole replies alone: none is cut.
pub fn no_reply_is_cut_to_make_room<N: Sockets, C: Clocks, J: Journal, K: Keeper, H: HookHost>()
    ensures { (first s : LoopState N C J K H) → Served (promises N.Sockets C.Clocks J.Journal (keeping K.Keeper) H.HookHost) first s
        → (k : ℕ) (place : Place) → slice_get s.places k ≡ Some place → HasWhole place (known s.progress k) → HasWholeReplies s k }
{}

/// Who is between two requests has had all replies to what was read of its connection, and all of that were whole requests: so
/// nothing is lost of who is handed on.
pub fn who_is_passed_on_is_answered<N: Sockets, C: Clocks, J: Journal, K: Keeper, H: HookHost>()
    ensures { (first s : LoopState N C J K H) → Served (promises N.Sockets C.Clocks J.Journal (keeping K.Keeper) H.HookHost) first s
        → (k : ℕ) (place : Place) → slice_get s.places k ≡ Some place → IsBetween place (known s.progress k)
        → HasAllReplies s k × IsReadWhole s k }
{}
