//! All the requests that bytes have.
ghost use Rattle.heads.specs.Front.{IsFront};
ghost use Rattle.heads.specs.Scan.{IsScan};

use crate::front::{Front, front_of};
use crate::waits::Waits;

/// What bytes have: whole requests, and a rest.
#[derive(Clone, Copy, Debug)]
pub struct Scan {
    /// How many whole requests stand at the front.
    pub count: usize,
    /// Where the last of them ends, and the rest begins.
    pub end: usize,
    /// Whether the rest is no request, whatever follows.
    pub faulty: bool,
    /// What the rest waits for before anything of it need be read again: while it still waits, there is no whole request,
    /// and no faulty head that has to be told. A faulty rest waits for 0 bytes.
    pub waits: Waits,
}

/// Reads through all the requests at the front of the bytes, the head of each once. What stands at their front was read
/// before.
pub fn scan_behind(bytes: &[u8], first: Front) -> Scan
    requires { IsFront bytes.now first }
    ensures { IsScan bytes.now result }
{
    let mut count = 0;
    let mut end = 0;
    'requests: loop {
        match front_of(&bytes[end..], count, first) {
            Front::Whole(found) => {
                count += 1;
                end += found.end;
            }
            Front::More { waits } => {
                return Scan {
                    count,
                    end,
                    faulty: false,
                    waits,
                };
            }
            Front::Faulty => {
                return Scan {
                    count,
                    end,
                    faulty: true,
                    waits: Waits::ForBytes(0),
                };
            }
        }
    }
}
