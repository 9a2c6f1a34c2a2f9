//! Laws of every history that a server comes to, of requests and of their replies.

ghost use Rattle.endpoints.specs.Answered.{IsAnswered};
ghost use Rattle.headline.specs.Activity.{IsActiveWhereLive, TellsWithin};
ghost use Rattle.headline.specs.Audited.{AreAudited, IsAudited, IsDenialTold};
ghost use Rattle.headline.specs.Authority.{EndsWithAuthority, IsAllAuthorized, IsIsolated};
ghost use Rattle.headline.specs.Codes.{BindsCodes};
ghost use Rattle.headline.specs.Decided.{IsAllDecided};
ghost use Rattle.headline.specs.Drawn.{AreDrawn};
ghost use Rattle.headline.specs.Grants.{AreOfClients, AreOfTheirCodes, InEachHistory, KeepsToConsents};
ghost use Rattle.headline.specs.Hooked.{WidensNothing};
ghost use Rattle.headline.specs.Leaving.{EndsOwner};
ghost use Rattle.headline.specs.Occasions.{AtEachServer, IsIdleWhere503, OnEachOccasion};
ghost use Rattle.headline.specs.Redirects.{IsNoOpenRedirector};
ghost use Rattle.headline.specs.Uses.{ReplaysKill, RevokesForGood, UsesUp};

use hook_host::HookHost;

/// Of each request, after every history, the outcome is the answer that one page says, and so all laws of outcomes are laws of
/// answers.
pub fn each_outcome_is_the_answer()
    ensures { IsAnswered }
{}

/// Where a reply tells of an active token, it is the live one that a client presented; the reply's client, times, scope and
/// owner are that token's (RFC 7662, section 2.2), its scope is within its client's allowance and its owner's present consent,
/// and its life within the limit of its kind.
pub fn active_tokens_keep_their_bounds<H: HookHost>()
    ensures { AtEachServer H.HookHost TellsWithin }
{}

/// Active means live: no other token is told of as active, and each live one that a client presents at `POST /introspect` is,
/// unless memory is refused.
pub fn active_means_live<H: HookHost>()
    ensures { AtEachServer H.HookHost IsActiveWhereLive }
{}

/// No live token is beyond a consent that its owner gave to its client since, or gave last.
#[tactic(auto, using(crate::proofs::Bounding::lowered))]
pub fn no_token_is_beyond_a_lowered_consent<H: HookHost>()
    ensures { InEachHistory H.HookHost (λ rules history. KeepsToConsents history) }
{}

/// What comes of a code is of the client and the owner that the code is of.
pub fn tokens_have_the_owner_of_their_code<H: HookHost>()
    ensures { InEachHistory H.HookHost (λ rules history. AreOfTheirCodes history) }
{}

/// Each code and token is of a client of the registry.
pub fn codes_and_tokens_are_of_clients<H: HookHost>()
    ensures { InEachHistory H.HookHost AreOfClients }
{}

/// Nothing happens with a 503.
#[tactic(auto, using(crate::proofs::Idle::nothing_of_503))]
pub fn nothing_comes_of_a_503()
    ensures { OnEachOccasion IsIdleWhere503 }
{}

/// No code and no refresh token is exchanged twice, whatever comes between: where a text is, a code or token of that very
/// text was given again in between.
pub fn nothing_is_exchanged_twice()
    ensures { OnEachOccasion UsesUp }
{}

/// After a token is revoked no code and no token of its family is live, whatever comes, and at no moment.
pub fn a_revoked_family_stays_dead()
    ensures { OnEachOccasion RevokesForGood }
{}

/// No hooks' answers widen a grant, whatever their programs do: tokens that are answered would be answered without hooks too,
/// and have some of the scope and some of the life that they would have then; so do the reply's `scope` and `expires_in`, which
/// are those of its access token.
pub fn no_hook_widens()
    ensures { OnEachOccasion WidensNothing }
{}

/// A code is bound: where it is exchanged, the request has the credentials of the client that it was given to, the redirect
/// URI that it was given for, and the verifier of the challenge that it was given under (RFC 6749, section 4.1.3; RFC 7636,
/// section 4.6).
#[tactic(auto, using(crate::proofs::Binding::binds_codes))]
pub fn codes_are_bound()
    ensures { OnEachOccasion BindsCodes }
{}

/// Nothing happens without authority: hooks are set and removed with the operator's key, consents (at `/consent`) and codes are
/// given with the key of their owner, or the gateway's with the owner's number, and tokens are given, codes and tokens used and
/// families ended with the credentials of the family's client. With the operator's key a consent of an owner whom the request
/// names is withdrawn, at `/owners/end`.
pub fn nothing_happens_without_authority<H: HookHost>()
    ensures { AtEachServer H.HookHost IsAllAuthorized }
{}

/// No family ends without authority: it ends with the credentials of its client or, where a consent at `/consent` falls below
/// the scope of its code, with the key of that code's owner or the gateway's with its number, or at `/owners/end` with the
/// operator's key. Without any request codes and tokens only expire.
#[tactic(auto, using(crate::proofs::Bearing::ends_with_authority))]
pub fn no_family_ends_without_authority<H: HookHost>()
    ensures { AtEachServer H.HookHost EndsWithAuthority }
{}

/// An owner who left leaves nothing: where the operator names it at `POST /owners/end`, no code and no token of a family of a code
/// that it gave for some scope is live from then on, whatever comes, and no client has its consent; the reply tells how many
/// families and consents there were. So it is done unless memory is refused.
pub fn an_owner_who_left_leaves_nothing<H: HookHost>()
    ensures { AtEachServer H.HookHost EndsOwner }
{}

/// There is no open redirector: a user agent is sent only to a redirect URI that the registry has for the client that the
/// request names, with the request's own state or none, and with an error or with the code that is given for just this client
/// and this URI (RFC 6749, sections 3.1.2.4 and 4.1.2; RFC 9700, section 4.11).
pub fn no_request_opens_a_redirector()
    ensures { OnEachOccasion IsNoOpenRedirector }
{}

/// A replay kills: where a used code or refresh token is presented again at `POST /token` by its client before it expires, and
/// answered `invalid_grant`, no code and no token of its family is live from then on, whatever comes (RFC 6749, sections 4.1.2
/// and 10.4; RFC 9700, section 4.14.2).
pub fn a_replay_kills_its_family()
    ensures { OnEachOccasion ReplaysKill }
{}

/// Clients are isolated: what comes of a request with one client's credentials adds nothing to another client's families and
/// uses none of its codes and tokens. It ends none of its families, unless the request is at once a consent of the owner of the
/// family's code, at `/consent` and with that owner's key or the gateway's and its number, or the operator's end of what that
/// owner granted, at `/owners/end`.
pub fn clients_are_isolated<H: HookHost>()
    ensures { AtEachServer H.HookHost IsIsolated }
{}

/// No two codes or tokens come from one draw: in each history that a schedule leads to, each has the digest of a draw of its
/// own, which was handed in for an answered request that wants draws, as `GET /authorize` and `POST /token` do; or it was there
/// when the server went on from what was kept.
#[tactic(auto, using(crate::proofs::Drawing::are_drawn))]
pub fn tokens_come_from_draws_of_their_own<H: HookHost>()
    ensures { AreDrawn H.HookHost }
{}

/// No grant goes around the hooks: each access token that is given is what a chain's hooks left, each asked in its turn, and none
/// of them denied it; a refresh token has that scope, or an earlier one's of its family. They are asked just what the request asks
/// for (`ask_for`, in each of its fields): a grant of the type that it names, to its client, by the owner and within the scope of
/// what it presents.
pub fn no_grant_goes_around_the_hooks()
    ensures { OnEachOccasion IsAllDecided }
{}

/// What is told of requests follows each grant: whatever happens in a family is told with the family's number, which stays the
/// same from its code to the last of its tokens, also where a code is spent in vain.
pub fn what_happens_in_a_family_is_told()
    ensures { OnEachOccasion IsAudited }
{}

/// Whatever has happened is told of: in each history that a schedule leads to, each event has its moment and, in a family, the
/// family's number in what is told of an answered request; or it was there when the server went on from what was kept.
pub fn whatever_happened_is_told<H: HookHost>()
    ensures { AreAudited H.HookHost }
{}

/// Whoever is denied is told of, where denials are wanted, and where everything is: a request for tokens that without hooks
/// would be answered with some, and that hooks refuse, unless nothing of its scope is left.
pub fn whoever_is_denied_is_told()
    ensures { OnEachOccasion IsDenialTold }
{}
