//! Laws of lists of changes, some of which are left out.

ghost use Rattle.std.specs.Prelude.{◌≡◌, ◌≤◌, ◌++◌, ℕ, List, [], Bool, true, not};
ghost use Rattle.std.specs.List.{list_any};
ghost use Rattle.consent.specs.History.{Event, Change, CanFollow, Happened, IsHistory, greatest_family, last_moment, live_grant, with_change};
ghost use Rattle.consent.specs.History.Change.{Numbered};
ghost use Rattle.token_store.specs.Fits.{FitsHistory, FitsStore};
ghost use Rattle.token_store.specs.Kept.{Held, Kept};
ghost use Rattle.shortening.specs.Hooks.{hooks_after, hooks_set};
ghost use Rattle.shortening.specs.Lists.{CodesOpen};
ghost use Rattle.shortening.specs.Rightness.{AreRight, AsksLittle};
ghost use Rattle.shortening.specs.Shortened.{TellsAlike, is_of, shortened};
ghost use Rattle.shortening.specs.Standing.{GoesOn, IsLeftOf, IsSound};
ghost use Rattle.shortening.specs.Steps.{keeps_of, picked};
ghost use Rattle.shortening.specs.Traps.{DoesNotFollow, ForgetsNumbers, NeedsRoom, TellsLateAlone};

/// From the moment on a history tells the same without what is needless then, and a sound list is sound. Of the hooks it tells
/// what is found by adding each at the end when it is set, and taking it out when it is taken away.
pub fn needless_changes_tell_nothing()
    ensures tells { (history : List Event) (m : ℕ) → IsHistory history m → TellsAlike history (shortened m history) m }
    ensures sound { (list : List Event) (m : ℕ) → IsSound list m → IsSound (shortened m list) m }
    ensures hooks { (history : List Event) → hooks_set history ≡ hooks_after [] history }
{}

/// What is left are the changes that stay, of each of which is asked with all behind it.
pub fn what_stays_is_left()
    ensures { (m : ℕ) (history : List Event) → picked (keeps_of m history history) history ≡ shortened m history }
{}

/// What does not hold of what is left, by small histories: its changes need not be able to follow each other, it tells nothing
/// of what was before its moment, more may be consented to on the way than ever was, and a greatest number may be forgotten.
pub fn what_is_left_is_less()
    ensures following { DoesNotFollow }
    ensures moment { TellsLateAlone }
    ensures room { NeedsRoom }
    ensures greatest { ForgetsNumbers }
{}

/// What can follow the one of two histories that tell the same can follow the other, and they still do then: so do three. The
/// same codes and tokens are live. The greatest number of a family is that of the history where a change of it stays.
pub fn what_tells_the_same_goes_on()
    ensures follows { (history left : List Event) (m t : ℕ) (change : Change) → TellsAlike history left m → m ≤ t →
        CanFollow history t change → CanFollow left t change }
    ensures pushed { (history left : List Event) (m t : ℕ) (change : Change) → IsHistory history m → IsHistory left m →
        m ≤ t → CanFollow history t change → TellsAlike history left m →
        TellsAlike (with_change history t change) (with_change left t change) t }
    ensures live { (history left : List Event) (digest : List ℕ) (m t : ℕ) → TellsAlike history left m → m ≤ t →
        live_grant left digest t ≡ live_grant history digest t }
    ensures three { (history left less : List Event) (m t : ℕ) → m ≤ t → TellsAlike history left m →
        TellsAlike left less t → TellsAlike history less t }
    ensures greatest { (history left : List Event) (m : ℕ) → TellsAlike history left m →
        list_any (λ e. is_of (greatest_family history) e.change) left ≡ true →
        greatest_family left ≡ greatest_family history }
{}

/// The list of all that happened is left of it. So is a list as what happened goes on, where it is shortened, and with a number
/// behind it that is not greater than each so far. With the greatest one behind it, that is its greatest one.
pub fn a_list_is_left_of_what_happened()
    ensures all { (history : List Event) → GoesOn [] 0 history → IsLeftOf history history (last_moment 0 history) }
    ensures itself { (list : List Event) (m : ℕ) → IsSound list m → CodesOpen list → IsLeftOf list list m }
    ensures goes_on { (list history events : List Event) (m : ℕ) → IsLeftOf list history m → GoesOn history m events →
        IsLeftOf (list ++ events) (history ++ events) (last_moment m events) }
    ensures happened { (list history events after : List Event) → IsLeftOf list history (last_moment 0 history) →
        Happened history events after → IsLeftOf (list ++ events) after (last_moment 0 after) }
    ensures shortened { (list history : List Event) (m : ℕ) → IsLeftOf list history m →
        IsLeftOf (shortened m list) history m }
    ensures numbered { (list history : List Event) (m n : ℕ) → IsLeftOf list history m → n ≤ greatest_family history →
        IsLeftOf (with_change list m (Numbered n)) history m }
    ensures greatest { (list history : List Event) (m : ℕ) → IsLeftOf list history m →
        greatest_family (with_change list m (Numbered (greatest_family history))) ≡ greatest_family history }
    ensures least { (list history : List Event) (m : ℕ) → IsLeftOf list history m →
        greatest_family list ≤ greatest_family history }
{}

/// What is left of a list is right where the list was, if of a code no more is asked than what its owner consents to, and of a
/// token no more than its family.
pub fn what_is_left_is_right()
    ensures { (right : List Event → Change → Bool) (history : List Event) (m : ℕ) → AsksLittle (λ before change. right before change ≡ true) →
        CodesOpen history → AreRight (λ before change. right before change ≡ true) [] history →
        AreRight (λ before change. right before change ≡ true) [] (shortened m history) }
{}

/// A store's answers from the moment on are those of what happened where they are those of a list that tells the same, and
/// the other way round.
pub fn a_store_fits_either()
    ensures list { (history left : List Event) (m : ℕ) (kept : List Kept) → TellsAlike history left m → IsHistory left m →
        FitsHistory kept history m → FitsHistory kept left m }
    ensures happened { (history left : List Event) (m : ℕ) (kept : List Kept) → TellsAlike history left m →
        IsHistory history m → FitsHistory kept left m → FitsHistory kept history m }
    ensures store { (history left : List Event) (m : ℕ) (store : Held) → TellsAlike history left m → IsHistory left m →
        greatest_family left ≡ greatest_family history → FitsStore store history m → FitsStore store left m }
{}
