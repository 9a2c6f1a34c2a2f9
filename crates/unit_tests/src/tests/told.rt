//! What is told of requests, as lines.

use super::exchanges::{draws_of, registry};
use consent::Moment;
use endpoints::Server;
use hook_chain::Chain;
use messages::Request;
use reports::told_text;
use std::test::Fail;
use telling::{Interest, Stepped};

const NOTHING: Request<'static> = Request {
    method: b"POST",
    target: b"/",
    body: b"",
    authorization: None,
    content_type: None,
    owner_key: None,
    operator_key: None,
};

/// Ann consents, and is asked for a code, of the draw 1.
const CONSENT: Request<'static> = Request {
    target: b"/consent",
    body: b"client_id=app&scope=read+write",
    owner_key: Some(b"ann-key"),
    ..NOTHING
};

const AUTHORIZE: Request<'static> = Request {
    method: b"GET",
    target: b"/authorize?response_type=code&client_id=app&redirect_uri=https%3A%2F%2Fapp.example%2Fcb&scope=read&state=xyz&code_challenge=E9Melhoa2OwvFrEMTJguCHaoeK1t8URWbuGJSstw-cM&code_challenge_method=S256",
    owner_key: Some(b"ann-key"),
    ..NOTHING
};

/// The operator installs a hook that denies all.
const INSTALL: Request<'static> = Request {
    target: b"/hooks?name=h2",
    body: b"\xb7\0\0\0\0\0\0\0\x95\0\0\0\0\0\0\0",
    operator_key: Some(b"op-key"),
    ..NOTHING
};

/// The application exchanges the code.
const EXCHANGE: Request<'static> = Request {
    target: b"/token",
    body: b"grant_type=authorization_code&code=AQEBAQEBAQEBAQEBAQEBAQEBAQEBAQEBAQEBAQEBAQE&redirect_uri=https%3A%2F%2Fapp.example%2Fcb&code_verifier=dBjftJeZ4CVP-mB92K27uhbUJU1p1r_wW1gFWFOEjXk",
    authorization: Some(b"Basic YXBwOnMzY3JldA=="),
    ..NOTHING
};

/// Requests, and what is told of each.
const TOLD: &[(Request<'static>, &str)] = &[
    (
        CONSENT,
        r#"{"asked":null,"client":"app","error":null,"family":null,"grant":null,"hooks":[],"life":null,"moment":1000,"owner":1,"path":"/consent","scope":"read write","status":200}"#,
    ),
    (
        AUTHORIZE,
        r#"{"asked":null,"client":"app","error":null,"family":1,"grant":null,"hooks":[],"life":null,"moment":1000,"owner":1,"path":"/authorize","scope":"read","status":302}"#,
    ),
    (
        INSTALL,
        r#"{"asked":null,"client":null,"error":null,"family":null,"grant":null,"hooks":[],"life":null,"moment":1000,"owner":null,"path":"/hooks","scope":null,"status":200}"#,
    ),
    (
        EXCHANGE,
        r#"{"asked":{"life":300,"scope":"read"},"client":"app","error":"invalid_grant","family":1,"grant":"authorization_code","hooks":[{"did":"denied","hook":"h2"}],"life":null,"moment":1000,"owner":1,"path":"/token","scope":null,"status":400}"#,
    ),
    (
        NOTHING,
        r#"{"asked":null,"client":null,"error":null,"family":null,"grant":null,"hooks":[],"life":null,"moment":1000,"owner":null,"path":null,"scope":null,"status":404}"#,
    ),
];

#[test]
fn requests_are_told_of(rt: HostRuntime) -> Result<(), Fail> {
    let alloc = rt.alloc();
    let rules = registry(alloc)?;
    let mut server = Server::new(alloc, registry(alloc)?, Chain::new(alloc));
    for (i, (request, line)) in TOLD.iter().enumerate() {
        let draws = draws_of((1, 2));
        let Stepped { told, .. } = server.step(
            request,
            Moment::new(1000),
            &draws,
            Interest::Everything,
        );
        let Some(told) = told else {
            return Err(Fail::from("nothing is told"));
        };
        let text = told_text(alloc, &rules, &told)?;
        assert!(rt; text.as_slice() == line.as_bytes(), "request {i}");
    }
    Ok(())
}
