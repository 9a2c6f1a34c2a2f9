//! Drawn requests: in ample memory no event is refused for it, and no reply is 503.

use super::draws::{below, byte};
use super::exchanges::{edge_of, end, open};
use consent::Moment;
use hook_chain::Chain;
use http_edge::{ConnectionNo, Edge};
use rand_chacha::ChaCha20Rng;
use rand_core::SeedableRng;
use std::alloc::{AllocError, Global};
use std::process::Abort;
use std::str;
use std::test::Fail;

/// Requests on all paths, in which each `*` stands for a drawn hex digit, and each `#` for a drawn byte.
const REQUESTS: &[&[u8]] = &[
    b"GET /authorize?response_type=code&client_id=app&redirect_uri=https%3A%2F%2Fapp.example%2Fcb&scope=read&state=***&code_challenge=E9Melhoa2OwvFrEMTJguCHaoeK1t8URWbuGJSstw-cM&code_challenge_method=S256 HTTP/1.1\r\nX-Owner-Key: ann-key\r\n\r\n",
    b"GET /authorize?response_type=co**&client_id=app&redirect_uri=https%3A%2F%2Fapp.example%2Fcb&scope=%7**&state=%**&code_challenge=E9Melhoa2OwvFrEMTJguCHaoeK1t8URWbuGJSstw-cM&code_challenge_method=S256 HTTP/1.1\r\nX-Owner-Key: ann-key\r\n\r\n",
    b"GET /authorize?response_type=code&client_id=a**&code_challenge=E9Melhoa2OwvFrEMTJguCHaoeK1t8URWbuGJSstw-cM&code_challenge_method=S256 HTTP/1.1\r\nX-Owner-Key: ann-k**\r\n\r\n",
    b"GET /authorize HTTP/1.1\r\n\r\n",
    b"POST /consent HTTP/1.1\r\nX-Owner-Key: ann-key\r\nContent-Length: 30\r\n\r\nclient_id=app&scope=read+write",
    b"POST /consent HTTP/1.1\r\nX-Owner-Key: ann-key\r\nContent-Length: 26\r\n\r\nclient_id=app&scope=%7*ead",
    b"POST /consent HTTP/1.1\r\nX-Owner-Key: a**\r\nContent-Length: 24\r\n\r\nclient_id=app&scope=read",
    b"POST /token HTTP/1.1\r\nAuthorization: Basic Ym90OmIwdA==\r\nContent-Length: 29\r\n\r\ngrant_type=client_credentials",
    b"POST /token HTTP/1.1\r\nAuthorization: Basic Ym90OmIwdA==\r\nContent-Length: 42\r\n\r\ngrant_type=client_credentials&scope=rea%6*",
    b"POST /token HTTP/1.1\r\nContent-Length: 63\r\n\r\ngrant_type=client_credentials&client_id=bot&client_secret=b%3*t",
    b"POST /token HTTP/1.1\r\nAuthorization: Basic YXBwOnMz****\r\nContent-Length: 24\r\n\r\ngrant_type=refresh_token",
    b"POST /token HTTP/1.1\r\nAuthorization: Basic YXBwOnMzY3JldA==\r\nContent-Length: 180\r\n\r\ngrant_type=authorization_code&code=AQEBAQEBAQEBAQEBAQEBAQEBAQEBAQEBAQEBAQEBAQE&redirect_uri=https%3A%2F%2Fapp.example%2Fcb&code_verifier=dBjftJeZ4CVP-mB92K27uhbUJU1p1r_wW1gFWFOEjXk",
    b"POST /token HTTP/1.1\r\nAuthorization: Basic YXBwOnMzY3JldA==\r\nContent-Length: 93\r\n\r\ngrant_type=refresh_token&refresh_token=AwMDAwMDAwMDAwMDAwMDAwMDAwMDAwMDAwMDAwMDAwM&scope=****",
    b"POST /revoke HTTP/1.1\r\nAuthorization: Basic YXBwOnMzY3JldA==\r\nContent-Length: 49\r\n\r\ntoken=AgICAgICAgICAgICAgICAgICAgICAgICAgICAgICAgI",
    b"POST /revoke HTTP/1.1\r\nAuthorization: Basic Ym90OmIwdA==\r\nContent-Length: 11\r\n\r\ntoken=**%**",
    b"POST /introspect HTTP/1.1\r\nAuthorization: Basic YXBwOnMzY3JldA==\r\nContent-Length: 49\r\n\r\ntoken=AgICAgICAgICAgICAgICAgICAgICAgICAgICAgICAgI",
    b"POST /introspect HTTP/1.1\r\nAuthorization: Basic YXBwOnMzY3JldA==\r\nContent-Length: 17\r\n\r\ntoken=****&%**=**",
    b"POST /hooks?name=h* HTTP/1.1\r\nX-Operator-Key: op-key\r\nContent-Length: 16\r\n\r\n\xb7\0\0\0\x01\0\0\0\x95\0\0\0\0\0\0\0",
    b"POST /hooks?name=h*&record=* HTTP/1.1\r\nX-Operator-Key: op-key\r\nContent-Length: 16\r\n\r\n\xb7\0\0\0\x01\0\0\0\x95\0\0\0\0\0\0\0",
    b"POST /hooks?name=h* HTTP/1.1\r\nX-Operator-Key: op-key\r\nContent-Length: 8\r\n\r\n########",
    b"POST /hooks/remove HTTP/1.1\r\nX-Operator-Key: op-key\r\nContent-Length: 7\r\n\r\nname=h*",
    b"GET /hooks/list HTTP/1.1\r\nX-Operator-Key: op-key\r\n\r\n",
    b"PUT /token HTTP/1.1\r\nContent-Length: 3\r\n\r\na=*",
    b"GET /*** HTTP/1.1\r\n\r\n",
];

/// A drawn request, behind what is there. Of one in eight a byte is altered.
fn push_request(rng: &mut ChaCha20Rng, form: &[u8], bytes: &mut Vec<u8>) -> Result<(), AllocError> {
    let altered = if below(rng, 8) == 0 {
        below(rng, 256) as usize
    } else {
        usize::MAX
    };
    for (i, &given) in form.iter().enumerate() {
        bytes.push(if given == b'*' {
            b"0123456789abcdef"[(byte(rng) % 16) as usize]
        } else if given == b'#' || i == altered {
            byte(rng)
        } else {
            given
        })?;
    }
    Ok(())
}

/// 25 drawn pieces of 1 to 512 bytes come on a connection.
fn come(
    rt: &impl Abort,
    edge: &mut Edge<Chain>,
    rng: &mut ChaCha20Rng,
    bytes: &mut Vec<u8>,
    connection: ConnectionNo,
) -> Result<(), AllocError> {
    assert_eq!(rt; open(edge, connection), Ok(()));
    let mut past = 0usize;
    let mut nobody = edge.nobody();
    for second in 0..25u32 {
        let start = past;
        past = start
            .saturating_add(1)
            .saturating_add(below(rng, 512) as usize);
        for _ in 0..512 {
            if bytes.len() < past {
                let form = REQUESTS.get(below(rng, 24) as usize);
                push_request(rng, form.copied().unwrap_or(b""), bytes)?;
            }
        }
        let piece = bytes.as_slice().get(start..past).unwrap_or(&[]);
        let moment = Moment::new(u64::from(1000 + second));
        assert_eq!(rt;
            edge.hear(connection, piece, moment, rng, &mut nobody),
            Ok(())
        );
    }
    assert_eq!(rt; end(edge, connection), Ok(()));
    Ok(())
}

#[test]
fn drawn_requests_are_served(rt: HostRuntime) -> Result<(), Fail> {
    let alloc = rt.alloc();
    for seed in 0..100u8 {
        let mut rng = ChaCha20Rng::from_seed([seed; 32]);
        let mut edge = edge_of(alloc, Chain::new(alloc))?;
        for number in 0..8 {
            let mut bytes = Vec::new(alloc);
            come(
                &rt,
                &mut edge,
                &mut rng,
                &mut bytes,
                ConnectionNo::new(number),
            )?;
        }
        for number in 0..8 {
            let output = edge.output(ConnectionNo::new(number));
            let text = str::from_utf8(output).unwrap_or("HTTP/1.1 503");
            assert!(rt; !text.contains("HTTP/1.1 503"), "seed {seed}");
        }
    }
    Ok(())
}
