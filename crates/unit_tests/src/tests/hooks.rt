//! Programs that run alike on both machines, the longest programs, and indexes into tables.

use super::draws::{below, byte};
use super::programs::PROGRAMS;
use assembler::AsmFault;
use encoding::decode;
use flat_machine::run;
use hook_commands::{HookAnswer, HookCommandFault, assembled, bytes_of_hex, check};
use hook_record::Narrowed;
use insn::fault::InsnFault;
use insn::layout::Layout;
use insn::verify_fault::VerifyFault;
use machine::run::{Outcome, run_checked};
use rand_chacha::ChaCha20Rng;
use rand_core::SeedableRng;
use std::alloc::{AllocError, Global};
use std::process::Abort;
use std::test::Fail;
use verifier::verified::{Verified, verify};

/// The program of some code where it is accepted.
fn accepted(alloc: Global, layout: Layout, code: &[u8]) -> Result<Option<Verified>, AllocError> {
    let program = match decode(alloc, code) {
        Ok(program) => program,
        Err(InsnFault::Memory) => return Err(AllocError),
        Err(_) => return Ok(None),
    };
    match verify(alloc, program, layout) {
        Ok(verified) => Ok(Some(verified)),
        Err((_, VerifyFault::Memory)) => Err(AllocError),
        Err(_) => Ok(None),
    }
}

/// Whether both machines run a program to the same end, on a record of one repeated byte.
fn runs_alike(verified: &Verified, fill: u8) -> bool {
    let mut checked = [fill; 96];
    let mut flat = [fill; 96];
    let size = verified.layout().size();
    let outcome = run_checked(verified.program(), verified.layout(), &mut checked[..size]);
    let (r0, steps) = run(verified, &mut flat[..size]);
    outcome == Outcome::Exit(r0, steps) && checked == flat
}

/// Asserts that both machines run a program alike, on records of four kinds.
fn assert_runs_alike(rt: &impl Abort, verified: &Verified) {
    for fill in [0u8, 1, 127, 255] {
        assert!(rt; runs_alike(verified, fill));
    }
}

/// Draws one byte of some code anew.
fn change(rng: &mut ChaCha20Rng, code: &mut [u8]) {
    let place = below(rng, 1024) as usize % code.len().max(1);
    if let Some(old) = code.get_mut(place) {
        *old = byte(rng);
    }
}

/// How many programs are drawn from each, and how many of them have to be accepted in all, so that the test tests something.
const DRAWN: u32 = 200;

const ACCEPTED: usize = 500;

/// Asserts that a program is accepted and runs alike on both machines. So do those that are drawn from it where they are
/// accepted; how many are.
fn assert_all_run_alike<R: Abort + AllocGlobal>(
    rt: &R,
    rng: &mut ChaCha20Rng,
    layout: Layout,
    code: &[u8],
) -> Result<usize, Fail> {
    let Some(verified) = accepted(rt.alloc(), layout, code)? else {
        return Err(Fail::from("it is refused"));
    };
    assert_runs_alike(rt, &verified);
    let mut count = 0usize;
    for _ in 0..DRAWN {
        let mut drawn = Vec::from_slice(rt.alloc(), code)?;
        change(rng, &mut drawn);
        if below(rng, 2) == 1 {
            change(rng, &mut drawn);
        }
        if let Some(verified) = accepted(rt.alloc(), layout, &drawn)? {
            count = count.saturating_add(1);
            assert_runs_alike(rt, &verified);
        }
    }
    Ok(count)
}

#[test]
fn programs_run_alike(rt: HostRuntime) -> Result<(), Fail> {
    let mut rng = ChaCha20Rng::from_seed([7; 32]);
    let mut count = 0usize;
    for line in PROGRAMS.split('\n') {
        let (version, digits) = line.rsplit_once(' ').unwrap_or(("", ""));
        let code = bytes_of_hex(rt.alloc(), digits.as_bytes())?.ok_or("it is no hex")?;
        if version.starts_with("1") {
            let drawn = assert_all_run_alike(&rt, &mut rng, Layout::V1, &code)?;
            count = count.saturating_add(drawn);
        }
        let drawn = assert_all_run_alike(&rt, &mut rng, Layout::V2, &code)?;
        count = count.saturating_add(drawn);
    }
    assert!(rt; count >= ACCEPTED, "{count} were accepted");
    Ok(())
}

/// A record of version 1 of `ASK`.
const RECORD: &str =
    "0100000001000000e80300000000000001000000000000000100000000000000030000000000000003000000000000002c010000000000000300000000000000";

/// `mov64 r0 1`.
const MOVE: [u8; 8] = [0xb7, 0, 0, 0, 1, 0, 0, 0];

/// What stands in a program between its first move and its end.
#[derive(Clone, Copy)]
enum Middle {
    Moves,
    /// Jumps to the end, where R0 isn't 1.
    ToTheEnd,
    /// Jumps to the next slot, where R0 is 1.
    ToTheNext,
}

/// The slot with so many behind it up to the end.
fn slot(middle: Middle, left: u16) -> [u8; 8] {
    let [low, high] = left.to_le_bytes();
    match middle {
        Middle::Moves => MOVE,
        Middle::ToTheEnd => [0x55, 0, low, high, 1, 0, 0, 0],
        Middle::ToTheNext => [0x15, 0, 0, 0, 1, 0, 0, 0],
    }
}

/// The hex of a move, so many slots, and an exit.
fn long_program(alloc: Global, middle: Middle, count: u16) -> Result<String, AllocError> {
    let mut code = Vec::from_slice(alloc, &MOVE)?;
    for passed in 0..count {
        code.extend_from_slice(&slot(middle, count.wrapping_sub(passed).wrapping_sub(1)))?;
    }
    code.extend_from_slice(&[0x95, 0, 0, 0, 0, 0, 0, 0])?;
    hex::encode(alloc, &code)
}

/// The path of the file of a hook.
const HOOK: &str = "hook";

/// Asserts that a program is accepted for both versions, and what it answers to `RECORD`.
fn assert_accepted<R: Abort + AllocGlobal>(rt: &R, code: &str) {
    for layout in [Layout::V1, Layout::V2] {
        let checked = check(rt.alloc(), layout, HOOK, Some(code.as_bytes()));
        assert!(rt; matches!(checked, Ok(HookAnswer::Accepted(4096))));
    }
    let Ok(HookAnswer::Judged(judged)) = hook_commands::run(rt.alloc(), code, RECORD) else {
        panic!(rt; "it does not run");
    };
    let whole = Narrowed::Allowed {
        scope: 3,
        life: 300,
    };
    assert!(rt; judged.r0 == 1 && judged.steps == 4096 && judged.answer == whole);
}

#[test]
fn a_move_and_an_exit(rt: HostRuntime) -> Result<(), Fail> {
    let code = [0xb7, 0, 0, 0, 1, 0, 0, 0, 0x95, 0, 0, 0, 0, 0, 0, 0];
    let verified = hook_page::accepted(rt.alloc(), &code, Layout::V1);
    assert!(rt; verified.is_some());
    Ok(())
}

#[test]
fn programs_of_4_096_slots(rt: HostRuntime) -> Result<(), Fail> {
    let alloc = rt.alloc();
    for middle in [Middle::Moves, Middle::ToTheEnd, Middle::ToTheNext] {
        assert_accepted(&rt, &long_program(alloc, middle, 4094)?);
    }
    let code = long_program(alloc, Middle::Moves, 4095)?;
    let checked = check(alloc, Layout::V1, HOOK, Some(code.as_bytes()));
    assert!(rt; matches!(checked, Err(HookCommandFault::Insn(InsnFault::TooLong))));
    let text = "exit\n".repeat(alloc, 4097)?;
    let long = assembled(alloc, HOOK, Some(text.as_bytes()));
    assert!(rt;
        matches!(
            long,
            Err(HookCommandFault::Text(AsmFault::TooLong(4097), None))
        )
    );
    Ok(())
}

/// The faults of a store that leaves its table, where its pointer is moved too far, and where it may stand behind the end.
type Faults = (VerifyFault, VerifyFault);

/// Asserts that a store at an index of at most `most`, into a table of so many bytes, is accepted where it stays in it.
fn assert_table<R: Abort + AllocGlobal>(rt: &R, text: &str, most: u64, size: u64, faults: Faults) {
    let (range, region) = faults;
    let Ok(HookAnswer::Code(code)) = assembled(rt.alloc(), HOOK, Some(text.as_bytes())) else {
        panic!(rt; "{text}");
    };
    match check(rt.alloc(), Layout::V1, HOOK, Some(code.as_bytes())) {
        Ok(HookAnswer::Accepted(8)) => assert!(rt; most < size, "{text}"),
        Err(HookCommandFault::Verify(fault)) => {
            // The pointer may stand one past the stack's end, and the store may not.
            assert!(rt;
                most >= size && fault == if most > size { range } else { region },
                "{text}"
            );
        }
        _ => panic!(rt; "{text}"),
    }
}

#[test]
fn indexes_are_accepted_where_they_stay_in_the_table(rt: HostRuntime) -> Result<(), Fail> {
    let masked_faults = (VerifyFault::PointerRange(4), VerifyFault::OutOfRegion(5));
    let tested_faults = (VerifyFault::PointerRange(5), VerifyFault::OutOfRegion(6));
    for most in 0..64u64 {
        for size in 1..65u64 {
            let masked = format!(in rt.alloc();
                "ldxb r2 r1 0\nand64 r2 {most}\nmov64 r3 r10\nadd64 r3 -{size}\nadd64 r3 r2\nstb r3 0 0\nmov64 r0 1\nexit"
            )?;
            assert_table(&rt, &masked, most, size, masked_faults);
            let tested = format!(in rt.alloc();
                "mov64 r0 1\nldxdw r2 r1 8\njgt64 r2 {most} +4\nmov64 r3 r10\nadd64 r3 -{size}\nadd64 r3 r2\nstb r3 0 0\nexit"
            )?;
            assert_table(&rt, &tested, most, size, tested_faults);
        }
    }
    Ok(())
}

/// Hooks in which a flag tells whether an index was tested, with their instructions. Eight ways meet behind it, which differ
/// in what nothing reads later, too: in registers, and in eight bytes of the stack.
const FLAGS: [(&str, usize); 2] = [
    (
        "\
mov64 r0 1
ldxdw r2 r1 24
mov64 r3 0
jgt64 r2 15 +1
mov64 r3 1
ldxdw r4 r1 8
mov64 r5 1
jeq64 r4 0 +5
mov64 r5 2
jeq64 r4 1 +3
mov64 r5 3
jeq64 r4 2 +1
mov64 r5 4
jeq64 r3 0 +4
mov64 r6 r10
add64 r6 -16
add64 r6 r2
stb r6 0 0
exit
",
        19,
    ),
    (
        "\
mov64 r0 1
ldxdw r2 r1 24
stdw r10 -16 0
jgt64 r2 15 +1
stdw r10 -16 1
ldxdw r4 r1 8
stxdw r10 -8 r1
jeq64 r4 0 +5
stxdw r10 -8 r10
jeq64 r4 1 +3
stdw r10 -8 3
jeq64 r4 2 +1
stdw r10 -8 4
ldxdw r3 r10 -16
jeq64 r3 0 +4
mov64 r6 r10
add64 r6 -32
add64 r6 r2
stb r6 0 0
exit
",
        20,
    ),
];

#[test]
fn what_is_not_read_later_keeps_no_cases_apart(rt: HostRuntime) {
    for (text, insns) in FLAGS {
        let Ok(HookAnswer::Code(code)) = assembled(rt.alloc(), HOOK, Some(text.as_bytes())) else {
            panic!(rt; "{text}");
        };
        let checked = check(rt.alloc(), Layout::V1, HOOK, Some(code.as_bytes()));
        assert!(rt;
            matches!(checked, Ok(HookAnswer::Accepted(count)) if count == insns),
            "{text}"
        );
    }
}
