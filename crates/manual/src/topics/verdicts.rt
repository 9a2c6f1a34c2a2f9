//! Verdicts on a hook.

use crate::topic::Topic;

/// What the verdicts on a hook mean that is not accepted.
pub const VERDICTS: [Topic; 12] = [
    Topic {
        name: "JumpOut",
        text: "\
JumpOut(N): the jump at slot N leads past the last instruction. Let it lead to an instruction behind it. All instructions are looked at for this, also those that nothing reaches.

  ja +0                    mov64 r0 1
                           ja +0
                           exit
",
    },
    Topic {
        name: "JumpBack",
        text: "\
JumpBack(N): the jump at slot N leads to itself or back. A hook only jumps forward, so that it ends: write a loop out, one turn below the other (in C: #pragma unroll above it). All instructions are looked at for this, also those that nothing reaches.

  ja -1                    mov64 r0 1
                           exit
",
    },
    Topic {
        name: "JumpIntoWide",
        text: "\
JumpIntoWide(N): the jump at slot N leads into the second slot of a lddw. A distance counts slots, of which lddw takes two; a label counts them for you.

  ja +1                    ja +2
  lddw r0 5                lddw r0 5
                           mov64 r0 1
                           exit
",
    },
    Topic {
        name: "WritesR10",
        text: "\
WritesR10(N): the instruction at slot N writes r10, which is the end of the stack and is only read. Copy it first.

  add64 r10 -8             mov64 r2 r10
                           add64 r2 -8
                           mov64 r0 1
                           exit
",
    },
    Topic {
        name: "FallsOff",
        text: "\
FallsOff(N): the instruction at slot N can be the last of a run and is no exit. End each path with exit.

  mov64 r0 1               mov64 r0 1
                           exit
",
    },
    Topic {
        name: "UnsetRegister",
        text: "\
UnsetRegister(N): the instruction at slot N reads a register that is not set on each path to it. At the start r1 and r10 alone are set. exit reads r0.

  exit                     mov64 r0 1
                           exit
",
    },
    Topic {
        name: "UnsetByte",
        text: "\
UnsetByte(N): the load at slot N may read a byte of the stack that is not set on each path to it. Store there first, on each path.

  ldxb r0 r10 -1           stb r10 -1 1
                           ldxb r0 r10 -1
                           exit
",
    },
    Topic {
        name: "OutOfRegion",
        text: "\
OutOfRegion(N): the load or store at slot N may leave the record or the stack. The stack is the 512 bytes below r10, the record the 64 bytes from r1 on, or with check2 the 96.

  ldxb r0 r10 0            ldxb r0 r1 0
                           exit
",
    },
    Topic {
        name: "ReadOnlyField",
        text: "\
ReadOnlyField(N): the store at slot N may write a field of the record that a hook only reads. Only the scopes, at 40 to 47, and the lifetime, at 48 to 51, may be written.

  stdw r1 48 60            stw r1 48 60
                           mov64 r0 1
                           exit
",
    },
    Topic {
        name: "PointerMisuse",
        text: "\
PointerMisuse(N): the instruction at slot N does with an address what only numbers allow, or with a number what wants an address. An address may be copied, moved by adding and subtracting a number in 64 bits, and stored whole in the stack at a multiple of 8 and loaded whole from there.

  add32 r1 8               add64 r1 8
                           ldxdw r0 r1 0
                           exit
",
    },
    Topic {
        name: "ExitsWithPointer",
        text: "\
ExitsWithPointer(N): the exit at slot N may answer an address. Its answer in r0 has to be a number: 1 allows, all others deny.

  mov64 r0 r1              mov64 r0 1
  exit                     exit
",
    },
    Topic {
        name: "PointerRange",
        text: "\
PointerRange(N): the sum at slot N may move an address out of its record or stack; one past the last byte is the farthest. Bound the number first, as with and64, or with jgt64 and not with jsgt64, which lets negative numbers by.

  ldxdw r0 r1 8            ldxdw r0 r1 8
  add64 r1 r0              and64 r0 63
                           add64 r1 r0
                           exit
",
    },
];
