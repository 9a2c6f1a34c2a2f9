//! What can be counted: how many there are of each list, and the bytes of each text, in four bytes.

ghost use Rattle.std.specs.Prelude.{◌↔◌, ◌<◌, ◌^◌, ℕ, List, length, map, IsTrue};
ghost use Rattle.change_codec.specs.Rules.{ClientFact, OwnerFact};
ghost use Rattle.rules_codec.specs.Facts.{client_fact, owner_fact, rules_fact};
ghost use Rattle.rules_codec.specs.Formats.{client_format, owner_format};
ghost use Rattle.rules_codec.specs.Spelling.{RulesCount};
ghost use Rattle.wire.specs.Format.{Format, text_format};
ghost use Rattle.wire.specs.Lists.{list_of};

use clients::{Bounds, ClientBounds, OwnerBounds};

fn is_short(bytes: &[u8]) -> bool
    ensures { IsTrue result ↔ (length bytes.now < 2 ^ 32) }
{
    bytes.len() < 1 << 32
}

// What says whether all of it can be counted.
trait Counted {
    ghost Fact: { Type 0 };

    ghost fact: { Self → Fact };

    // How it is spelled.
    ghost spelled: { Format Fact };

    fn counts(&self) -> bool
        ensures { IsTrue result ↔ spelled.Counts (fact self.now) };
}

impl Counted for &str {
    ghost Fact = { List ℕ };

    ghost fact = { λ s. s.now };

    ghost spelled = { text_format };

    fn counts(&self) -> bool {
        is_short(self.as_bytes())
    }
}

#[tactic(auto, unfolding(crate::specs::Formats::owner_format))]
impl Counted for OwnerBounds {
    ghost Fact = { OwnerFact };

    ghost fact = { owner_fact };

    ghost spelled = { owner_format };

    fn counts(&self) -> bool {
        true
    }
}

#[tactic(auto, unfolding(crate::specs::Formats::client_format))]
impl Counted for ClientBounds<'_> {
    ghost Fact = { ClientFact };

    ghost fact = { client_fact };

    ghost spelled = { client_format };

    fn counts(&self) -> bool {
        is_short(self.name.as_bytes())
    }
}

fn list_counts<T: Counted>(items: &[T]) -> bool
    ensures { IsTrue result ↔ (list_of T.spelled).Counts (map T.fact items.now) }
{
    if items.len() >= 1 << 32 {
        return false;
    }
    for item in items {
        if !item.counts() {
            return false;
        }
    }
    true
}

/// Whether the rules can be counted.
#[tactic(auto, unfolding(crate::specs::Formats::rules_format))]
pub fn rules_count(rules: &Bounds) -> bool
    ensures { IsTrue result ↔ RulesCount (rules_fact rules.now) }
{
    list_counts(rules.scopes.as_slice())
        && list_counts(rules.owners.as_slice())
        && list_counts(rules.clients.as_slice())
}
