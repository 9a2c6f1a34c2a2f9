//! `run HEX RECORDHEX`: what the hook of some code answers to a record; with `--trace`, behind the steps of its run.

ghost use Rattle.std.specs.Prelude.{Err, IfErr, IfOk, Ok};
ghost use Rattle.hook_commands.specs.Answers.{IsRunOn, IsTracedOn};
ghost use Rattle.hook_commands.specs.HexText.{IsHexOf};
ghost use Rattle.hook_commands.specs.Judge.{IsJudged};

use crate::answer::{HookAnswer, HookResult};
use crate::fault::HookCommandFault;
use crate::hex_text::bytes_of_hex;
use crate::judge::{Asked, JudgeFault, Judged, judge};
use encoding::decode;
use machine::trace::run_traced;
use std::alloc::Global;

/// The bytes of a hook's code and of a record, both given as hex text, and how they are judged. The code's text is tested
/// first.
fn judged_text(
    alloc: Global,
    code_hex: &str,
    record_hex: &str,
) -> Result<(Vec<u8>, Vec<u8>, Judged), HookCommandFault<'static>>
    ensures code { IfOk result (λ r. IsHexOf code_hex.now r.0.items) }
    ensures record_bytes { IfOk result (λ r. IsHexOf record_hex.now r.1.items) }
    ensures judged { IfOk result (λ r. IsJudged r.0.items r.1.items (Ok r.2)) }
    ensures none { IfErr result (λ fault. IsRunOn code_hex.now record_hex.now (Err fault)) }
{
    let Some(code) = bytes_of_hex(alloc, code_hex.as_bytes())? else {
        return Err(HookCommandFault::BadArguments);
    };
    let Some(record) = bytes_of_hex(alloc, record_hex.as_bytes())? else {
        return Err(HookCommandFault::BadRecord);
    };
    match judge(alloc, &code, &record) {
        Ok(judged) => Ok((code, record, judged)),
        Err(JudgeFault::BadRecord) => Err(HookCommandFault::BadRecord),
        Err(JudgeFault::Insn(fault)) => Err(HookCommandFault::Insn(fault)),
        Err(JudgeFault::Verify(fault)) => Err(HookCommandFault::Verify(fault)),
        Err(JudgeFault::Stuck(_)) => unreachable!(),
    }
}

/// What the hook of some code answers to a record, both as hex text.
pub fn run(alloc: Global, code_hex: &str, record_hex: &str) -> HookResult<'static>
    ensures { IsRunOn code_hex.now record_hex.now result }
{
    let (_, _, judged) = judged_text(alloc, code_hex, record_hex)?;
    Ok(HookAnswer::Judged(judged))
}

/// What the hook of some code answers to a record, as `run` has it, behind the steps of its run.
pub fn traced(alloc: Global, code_hex: &str, record_hex: &str) -> HookResult<'static>
    ensures { IsTracedOn code_hex.now record_hex.now result }
{
    let (code, mut record, judged) = judged_text(alloc, code_hex, record_hex)?;
    let Some(asked) = Asked::read(&record) else {
        return Err(HookCommandFault::BadRecord);
    };
    let program = match decode(alloc, &code) {
        Ok(program) => program,
        Err(fault) => return Err(HookCommandFault::Insn(fault)),
    };
    let trace = run_traced(alloc, &program, asked.layout, &mut record)?;
    Ok(HookAnswer::Traced { trace, judged })
}
