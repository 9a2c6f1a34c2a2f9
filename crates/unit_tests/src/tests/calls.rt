//! Calls that are made on a new edge. Where memory was refused for one, all are made once more.

use super::asked::{AUTHORIZE, CODE, CONSENT, CONSENTED, EXCHANGE, INSTALL, INSTALLED, TOKENS};
use super::exchanges::{draws_of, first, registry};
use clients::ConfigFault;
use consent::Moment;
use headline::{EdgeCall, Upshot, make_calls};
use hook_chain::Chain;
use http_edge::{EdgeFault, Event};
use messages::Draws;
use std::alloc::Global;
use std::test::Fail;

/// What comes of a call: bytes are taken, or it is refused.
type Came<'a> = Result<&'a [u8], EdgeFault>;

/// Bytes come.
fn bytes<'a>(piece: &'a [u8], moment: u32, draws: &'a [Draws]) -> EdgeCall<'a> {
    EdgeCall::Event(Event::Bytes {
        connection: first(),
        piece,
        moment: Moment::new(u64::from(moment)),
        draws,
    })
}

/// All that goes out is taken.
fn take<'a>() -> EdgeCall<'a> {
    EdgeCall::Take {
        connection: first(),
        most: usize::MAX,
    }
}

/// The stream ends.
fn end<'a>() -> EdgeCall<'a> {
    EdgeCall::Event(Event::End(first()))
}

/// Whether this comes of calls on a new edge.
fn comes(alloc: Global, calls: &[EdgeCall<'_>], wanted: &[Came<'_>]) -> Result<bool, ConfigFault> {
    let made = make_calls(alloc, registry(alloc)?, Chain::new(alloc), calls)?;
    for (upshot, wanted) in made.upshots.iter().zip(wanted) {
        let came = match upshot {
            Upshot::Done(bytes) => Ok(bytes.as_slice()),
            Upshot::Refused(fault) => Err(*fault),
        };
        if came != *wanted {
            return Ok(false);
        }
    }
    Ok(made.upshots.len() == wanted.len())
}

/// A consent, a code, and tokens that a hook leaves as they are. The connection ends and is forgotten.
#[test]
fn tokens_come_of_calls(rt: HostRuntime) -> Result<(), Fail> {
    let draws = [draws_of((0, 0)), draws_of((1, 0)), draws_of((2, 3))];
    let calls = [
        EdgeCall::Event(Event::Open(first())),
        bytes(CONSENT, 900, &draws),
        bytes(AUTHORIZE, 1000, &draws[1..]),
        take(),
        bytes(INSTALL, 1000, &draws),
        bytes(EXCHANGE, 1000, &draws[2..]),
        end(),
        take(),
        EdgeCall::Forget(first()),
        end(),
    ];
    let alloc = rt.alloc();
    let given = [CONSENTED, CODE].concat(alloc)?;
    let exchanged = [INSTALLED, TOKENS].concat(alloc)?;
    let mut wanted: [Came<'_>; 10] = [Ok(b""); 10];
    wanted[3] = Ok(&given);
    wanted[7] = Ok(&exchanged);
    wanted[9] = Err(EdgeFault::NotOpen);
    if let Ok(true) = comes(alloc, &calls, &wanted) {
        return Ok(());
    }
    assert!(rt; comes(alloc, &calls, &wanted)?);
    Ok(())
}
