//! What a hook answers to a record: its bytes are decoded, verified and run, and what the run leaves narrows the grant.

ghost use Rattle.std.specs.Prelude.{◌≡◌, ◌≢◌, ℕ, length, IfSome, Err};
ghost use Rattle.insn.specs.Values.{record_size};
ghost use Rattle.hook_commands.specs.Judge.{asked_in, IsAnswer, IsJudged};

use encoding::decode;
use flat_machine::run;
use hook_record::{Ask, Narrowed, narrow, read, read_v2};
use insn::fault::InsnFault;
use insn::layout::Layout;
use insn::verify_fault::VerifyFault;
use std::alloc::Global;
use verifier::verified::{Verified, verify};

/// How long the longest record is.
const LONGEST_RECORD: usize = 96;

/// What a record asks of a hook, and the version of the record.
#[derive(Clone, Copy, Debug, PartialEq, Eq)]
pub struct Asked {
    pub layout: Layout,
    pub ask: Ask,
}

impl Asked {
    /// What a record asks. Its length says its version; `None` where no version has that length, or the record is none
    /// of that version.
    pub fn read(bytes: &[u8]) -> Option<Asked>
        ensures asked { result ≡ asked_in bytes.now }
        ensures long { IfSome result (λ asked. length bytes.now ≡ record_size asked.layout) }
    {
        if let Some(bytes) = bytes.as_array::<64>() {
            let ask = read(bytes)?;
            return Some(Asked {
                layout: Layout::V1,
                ask,
            });
        }
        let ask = read_v2(bytes.as_array::<96>()?)?;
        Some(Asked {
            layout: Layout::V2,
            ask,
        })
    }
}

/// How a hook's run ended, and what it leaves of the grant.
#[derive(Clone, Copy, Debug, PartialEq, Eq)]
pub struct Judged {
    /// The number in R0 at the exit.
    pub r0: u64,
    /// How many steps the run has, the exit among them.
    pub steps: usize,
    /// What is left of the grant.
    pub answer: Narrowed,
}

/// Why a hook has no answer to a record.
#[derive(Clone, Copy, Debug, PartialEq, Eq)]
pub enum JudgeFault {
    /// The record is of no version, or not in the form of its version.
    BadRecord,
    /// The code is no program, or memory was refused.
    Insn(InsnFault),
    /// The program is not accepted, or memory was refused.
    Verify(VerifyFault),
    /// The run is stuck at this slot. Reserved: the run of an accepted program never is.
    Stuck(usize),
}

/// Runs a verified program on a copy of a record, and narrows what the record asks by what the run leaves.
fn run_on(verified: &Verified, asked: &Asked, record_bytes: &[u8]) -> Judged
    requires fits { verified.now.layout ≡ asked.now.layout }
    requires long { length record_bytes.now ≡ record_size asked.now.layout }
    ensures { IsAnswer verified.now.program asked.now record_bytes.now result }
{
    let mut room = [0; LONGEST_RECORD];
    let bytes = &mut room[..asked.layout.size()];
    bytes.copy_from_slice(record_bytes);
    let (r0, steps) = run(verified, bytes);
    let answer = narrow(&asked.ask, r0, bytes.first_chunk().unwrap());
    Judged { r0, steps, answer }
}

/// What the hook of some code answers to a record of 64 or 96 bytes. The record is tested first, then the code is
/// decoded, then the program is verified for the record's version, then it is run. Only decoding and verifying take
/// memory.
pub fn judge(alloc: Global, code: &[u8], record_bytes: &[u8]) -> Result<Judged, JudgeFault>
    ensures judged { IsJudged code.now record_bytes.now result }
    ensures never_stuck { (slot : ℕ) → result ≢ Err (JudgeFault.Stuck slot) }
{
    let Some(asked) = Asked::read(record_bytes) else {
        return Err(JudgeFault::BadRecord);
    };
    let program = match decode(alloc, code) {
        Ok(program) => program,
        Err(fault) => return Err(JudgeFault::Insn(fault)),
    };
    match verify(alloc, program, asked.layout) {
        Ok(verified) => Ok(run_on(&verified, &asked, record_bytes)),
        Err((_, fault)) => Err(JudgeFault::Verify(fault)),
    }
}
