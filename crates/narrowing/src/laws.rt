//! What is left under other rules is right under them.

ghost use Rattle.std.specs.Prelude.{◌≡◌, ℕ, List, [], None};
ghost use Rattle.clients.specs.RegistryRecord.{RegistryRecord};
ghost use Rattle.consent.specs.History.{Event, IsHistory, greatest_family, last_moment};
ghost use Rattle.endpoints.specs.Bounded.{AllRight};
ghost use Rattle.shortening.specs.Lists.{CodesOpen};
ghost use Rattle.shortening.specs.Shortened.{shortened};
ghost use Rattle.narrowing.specs.Left.{HasNoFormer, IsLeftStill, KeepsClients, KeepsConsents, KeepsFamilies, KeepsOwners, LeavesRight, Under, left_under};
ghost use Rattle.rules_beside.specs.Beside.{first_moved_owner};
ghost use Rattle.rules_beside.specs.declared.owners.OwnersBeside.{OwnersBeside};

/// What is left of a right history under rules that know its clients is right under them. Consents stay, but those of former owners,
/// and families that are not beyond the rules have their terms, and have not ended by that.
pub fn what_is_left_is_right()
    ensures right { (old : RegistryRecord) (new : Under) → KeepsClients old new.rules → LeavesRight old new }
    ensures consents { (under : Under) (history : List Event) → KeepsConsents under history (left_under under history) }
    ensures families { (under : Under) (history : List Event) (moment : ℕ) → IsHistory history moment →
        KeepsFamilies under history (left_under under history) }
{}

/// Nothing of what is left of a right history is a former owner's: no code, no token, and no consent.
pub fn what_is_left_is_no_former_owners()
    ensures { (old : RegistryRecord) (under : Under) (history : List Event) (moment : ℕ) → IsHistory history moment →
        AllRight old [] history → HasNoFormer under.owners (left_under under history) }
{}

/// Where nobody has moved, and nothing is a former owner's, each owner of something is one and the same by the rules told and by the
/// registry's.
pub fn owners_are_who_they_were()
    ensures { (owners : OwnersBeside) (history : List Event) → first_moved_owner owners ≡ None →
        HasNoFormer owners history → KeepsOwners owners history }
{}

/// What is right under rules is right under them where what no longer matters is left out.
pub fn what_is_shortened_is_right()
    ensures { (rules : RegistryRecord) (list : List Event) (m : ℕ) → CodesOpen list → AllRight rules [] list →
        AllRight rules [] (shortened m list) }
{}

/// A list that is left of what happened is so when both are left under the rules, and has the same greatest number of a family if
/// it had.
pub fn what_is_left_of_a_list_is_left()
    ensures list { (under : Under) (list history : List Event) (m : ℕ) → IsLeftStill under list history m }
    ensures greatest { (under : Under) (list history : List Event) → greatest_family list ≡ greatest_family history →
        greatest_family (left_under under list) ≡ greatest_family (left_under under history) }
    ensures last { (under : Under) (list : List Event) → last_moment 0 (left_under under list) ≡ last_moment 0 list }
{}
