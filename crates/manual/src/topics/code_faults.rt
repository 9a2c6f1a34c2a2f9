//! Faults of the code of a hook.

use crate::topic::Topic;

/// What the faults of the code of a hook mean.
pub const CODE_FAULTS: [Topic; 9] = [
    Topic {
        name: "Empty",
        text: "\
Empty: there are no bytes. A hook has one instruction at least.

  (nothing)                b7000000010000009500000000000000
",
    },
    Topic {
        name: "BadLength",
        text: "\
BadLength: the number of bytes is no multiple of eight. Each slot of a program has eight bytes; some of the hex is missing.

  95000000000000           9500000000000000
",
    },
    Topic {
        name: "UnknownOpcode",
        text: "\
UnknownOpcode(N): the first byte of slot N is no opcode of RFC 9669 that a hook may have. The bytes may be of another kind of file.

  ff00000000000000         9500000000000000 (exit)
",
    },
    Topic {
        name: "BadRegister",
        text: "\
BadRegister(N): slot N names a register above 10. The second byte has the destination in its low half and the source in its high half.

  b70b000000000000         b70a000000000000
",
    },
    Topic {
        name: "NonzeroField",
        text: "\
NonzeroField(N): slot N has a value in a field that its instruction does not use, or that it lacks. Compilers leave such fields 0.

  9500000001000000         9500000000000000
",
    },
    Topic {
        name: "TruncatedWide",
        text: "\
TruncatedWide(N): slot N begins a lddw, which takes two slots, and its second slot is missing.

  1800000005000000         18000000050000000000000000000000
",
    },
    Topic {
        name: "Atomic",
        text: "\
Atomic(N): slot N is an atomic operation. A hook runs alone and has none; compile without them.

  db00000000000000         7b00000000000000 (stxdw)
",
    },
    Topic {
        name: "Call",
        text: "\
Call(N): slot N is a call. A hook has no functions and no helpers; compile with all functions inlined.

  8500000000000000         (the function's own instructions)
",
    },
    Topic {
        name: "LegacyLoad",
        text: "\
LegacyLoad(N): slot N is a load of a network packet, which a hook does not have. Its record lies at r1.

  2000000000000000         61100000... (ldxw r0 r1 OFFSET)
",
    },
];
