//! What is counted of requests, of those too that memory is refused for.

use super::asked::{
    ACTIVE, AUTHORIZE, CLIENT_TOKEN, CODE, CONSENT, CONSENTED, DENIAL_INSTALLED, EXCHANGE,
    GET_TOKEN, INSTALL, INSTALL_DENIAL, INSTALLED, INTROSPECT, INVALID_GRANT, NAME_TAKEN,
    NOT_ALLOWED, NOT_FOUND, NOWHERE, OTHER_CLIENT_TOKEN, REFRESH, REFRESH_AGAIN, REFRESHED, TOKENS,
    UNAUTHORIZED, UNAVAILABLE,
};
use super::exchanges::{Exchange, assert_answered, opened};
use endpoints::Endpoint;
use std::test::Fail;

/// From a consent to a token that is told of, and a hook.
const GROWTHS: &[Exchange] = &[
    (900, (0, 0), CONSENT, CONSENTED),
    (1000, (1, 0), AUTHORIZE, CODE),
    (1000, (2, 3), EXCHANGE, TOKENS),
    (1299, (0, 0), INTROSPECT, ACTIVE),
    (1299, (0, 0), INSTALL, INSTALLED),
    (1299, (0, 0), INSTALL, NAME_TAKEN),
    (1299, (2, 5), REFRESH, UNAVAILABLE),
    (1299, (4, 5), REFRESH, REFRESHED),
];

/// Grants that a hook denies, another method, and a path of no endpoint.
const DENIALS: &[Exchange] = &[
    (1299, (0, 0), INSTALL_DENIAL, DENIAL_INSTALLED),
    (1299, (6, 7), REFRESH_AGAIN, INVALID_GRANT),
    (1299, (8, 0), CLIENT_TOKEN, UNAUTHORIZED),
    (1299, (8, 0), OTHER_CLIENT_TOKEN, UNAUTHORIZED),
    (1299, (0, 0), GET_TOKEN, NOT_ALLOWED),
    (1299, (0, 0), NOWHERE, NOT_FOUND),
];

/// What is answered is counted, each 503 for want of memory too.
#[test]
fn answers_are_counted(rt: HostRuntime) -> Result<(), Fail> {
    let mut edge = opened(rt.alloc())?;
    assert_answered(&rt, &mut edge, GROWTHS);
    assert_answered(&rt, &mut edge, DENIALS);
    let server = edge.server();
    let tally = server.tally();
    let (asked, replied, wanted) = (tally.asked, tally.replied, tally.wanted);
    assert!(rt; replied.ok == 6 && replied.found == 1 && replied.bad_request == 4);
    assert!(rt; replied.not_found == 1 && replied.not_allowed == 1);
    assert_eq!(rt; replied.unavailable, wanted.memory.saturating_add(1));
    assert!(rt; wanted.fresh_draw == 1 && wanted.store_room == 0 && wanted.consent_room == 0);
    assert_eq!(rt; tally.denied, 2);
    if wanted.memory == 0 {
        assert_eq!(rt; asked.count(Endpoint::Authorize), 1);
        assert_eq!(rt; asked.count(Endpoint::GiveConsent), 1);
        assert_eq!(rt; asked.count(Endpoint::IssueToken), 7);
        assert_eq!(rt; asked.count(Endpoint::Introspect), 1);
        assert_eq!(rt; asked.count(Endpoint::InstallHook), 3);
    }
    assert_eq!(rt; asked.nowhere, 1);
    assert!(rt; server.record_count() == 5 && server.consent_count() == 1);
    assert_eq!(rt; server.hook_count(), 2);
    Ok(())
}
