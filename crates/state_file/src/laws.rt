//! Laws of starts.

ghost use Rattle.std.specs.Prelude.{ℕ, List, []};
ghost use Rattle.consent.specs.History.{Event};
ghost use Rattle.endpoints.specs.Bounded.{AllRight};
ghost use Rattle.endpoints.specs.Hosts.{HostRun};
ghost use Rattle.endpoints.specs.Server.{Outset};
ghost use Rattle.endpoints.specs.declared.redo.RedoFault.TheVariants.{NotRight};
ghost use Rattle.hook_chain.specs.Chains.{Named};
ghost use Rattle.batch_file.specs.Frames.{recovered};
ghost use Rattle.rules_codec.specs.Facts.{HookFact};
ghost use Rattle.state_file.specs.Making.{RefusesMaking, on_bytes};
ghost use Rattle.state_file.specs.Resuming.{Replays};
ghost use Rattle.state_file.specs.Standing.{AreTold, StandsFor};
ghost use Rattle.state_file.specs.declared.fault.StateFault.TheVariants.{Follows};

use hook_chain::Chain;
use hook_host::HookHost;

/// A chain that came through a history comes by it to what it comes to by the list that a file of the history tells.
pub fn chains_are_made_again()
    ensures { (left : List ℕ) (history : List Event) → StandsFor left history → (chain : List Named) →
        HostRun ⟦<Chain as HookHost>⟧ [] history chain → Replays ⟦<Chain as HookHost>⟧ [] left history }
{}

/// No start is refused since a change is not right, where each that the file tells is right behind those before it.
pub fn what_is_right_is_made_again<H: HookHost>()
    ensures { (left : List ℕ) (outset : Outset H) (hooks : List HookFact) (facts : List Event) → AreTold (recovered left) facts →
        AllRight outset.rules [] facts → RefusesMaking H.HookHost (on_bytes left outset hooks) (Follows NotRight) → ⊥ }
{}
