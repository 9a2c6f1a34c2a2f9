//! Laws of what is right under rules.

ghost use Rattle.std.specs.Prelude.{List, []};
ghost use Rattle.clients.specs.RegistryRecord.{RegistryRecord};
ghost use Rattle.consent.specs.History.{Event};
ghost use Rattle.endpoints.specs.Bounded.{AllRight};
ghost use Rattle.endpoints.specs.Server.{SeenServer};
ghost use Rattle.endpoints.specs.Steps.{KeepsBounds};
ghost use Rattle.endpoints.specs.Widening.{IsWider};

use hook_host::HookHost;

/// What is right under rules is right under wider ones.
pub fn wider_rules_keep_what_is_right()
    ensures { (old new : RegistryRecord) (history : List Event) → IsWider old new → AllRight old [] history →
        AllRight new [] history }
{}

/// Each code and token of a history that a server fits keeps to its client's allowance, its owner's consent and its life,
/// whatever led to the server.
pub fn codes_and_tokens_keep_their_bounds<H: HookHost>()
    ensures { (server : SeenServer _) → KeepsBounds H.HookHost server }
{}
