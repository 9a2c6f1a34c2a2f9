//! What follows of all that happens on connections, and of a server's own hooks.

ghost use Rattle.headline.specs.Answering.{AllSayAnswers};
ghost use Rattle.headline.specs.Conversations.{HasConversations, InEachWorld};
ghost use Rattle.headline.specs.SafeHooks.{AreSafeChains};

use hook_chain::Chain;
use hook_host::HookHost;

/// In each world that events lead to, all output of each connection is the replies to the requests in its stream, in their
/// order, and behind them the 400 of a faulty head, if one came.
pub fn connections_are_conversations<H: HookHost>()
    ensures { InEachWorld H.HookHost (HasConversations H.HookHost) }
{}

/// In each world that events lead to, all output of each connection is the answers of one page to the requests in its stream, in
/// their order, each after a history with which that of the world begins, and behind them the 400 of a faulty head, if one came.
pub fn connections_say_answers<H: HookHost>()
    ensures { InEachWorld H.HookHost (AllSayAnswers H.HookHost) }
{}

/// Each hook of a chain is safe, whatever was installed and removed, and the chain answers by the exits of its hooks' runs.
pub fn chains_are_safe()
    ensures { AreSafeChains ⟦<Chain as HookHost>⟧ }
{}
