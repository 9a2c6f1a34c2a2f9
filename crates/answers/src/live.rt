//! Live tokens.
ghost use Rattle.answers.specs.Live.{FindsLive};
ghost use Rattle.answers.specs.Views.{InEachSetting};

use crate::view::View;
use consent::{Digest, Kind, TokenKind};
use token_store::Found;

/// The live access or refresh token of the digest.
#[tactic(auto, using(crate::proofs::LiveTokens::live_as_told))]
pub fn live_token<'a>(view: &View<'a>, digest: &Digest) -> Option<Found<'a>>
    ensures { InEachSetting view.now (λ s. FindsLive digest.now s result) }
{
    let Some(found) = view.at(digest) else {
        return None;
    };
    let is_live = match found.kind {
        Kind::Code => false,
        Kind::Token(TokenKind::Access) => !found.ended,
        Kind::Token(TokenKind::Refresh) => !found.ended && !found.spent,
    };
    if is_live { Some(found) } else { None }
}
