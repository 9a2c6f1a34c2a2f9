//! Laws of the definitions.
ghost use Rattle.std.specs.Prelude.{◌≡◌, Some};
ghost use Rattle.hook_record.specs.declared.Ask.{Ask};
ghost use Rattle.hook_record.specs.declared.Narrowed.{Narrowed};
ghost use Rattle.hook_record.specs.declared.Narrowed.TheVariants.{Denied};
ghost use Rattle.answers.specs.Requesters.{KnownClient, Parameters};
ghost use Rattle.answers.specs.Setting.{Setting};
ghost use Rattle.token_endpoint.specs.Asks.{IsRefusal, answered_by, token_ask};
ghost use Rattle.token_endpoint.specs.Grants.{left_by_host};
ghost use Rattle.token_endpoint.specs.Parts.{token_points};

/// What comes of a request for tokens depends on the host by its answer to that one ask alone: where another host's answer
/// to it leaves the same, so much comes of it there.
pub fn the_host_is_asked_that_alone()
    ensures { (s : Setting) (answer : Ask → Narrowed) (params : Parameters) (known : KnownClient) →
        ((ask : Ask) → token_ask s params known ≡ Some ask → left_by_host s ask ≡ left_by_host (answered_by s answer) ask) →
        token_points s params known ≡ token_points (answered_by s answer) params known }
{}

/// Whoever asks for tokens and is denied them by the host is refused: the reply names an error.
#[tactic(auto, using(crate::specs::DenialLaws::denied_refused))]
pub fn who_is_denied_is_refused()
    ensures { (s : Setting) (params : Parameters) (known : KnownClient) (ask : Ask) → token_ask s params known ≡ Some ask →
        left_by_host s ask ≡ Denied → IsRefusal (token_points s params known) }
{}
