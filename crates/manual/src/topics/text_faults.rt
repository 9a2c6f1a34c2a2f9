//! Faults of the text of a hook.

use crate::topic::Topic;

/// What the faults of the text of a hook mean.
pub const TEXT_FAULTS: [Topic; 7] = [
    Topic {
        name: "UnknownWord",
        text: "\
UnknownWord: the line's first word is no instruction, and the line is no label. Mend the word: each instruction is written in small letters with its width, and a label stands alone on its line, with a colon behind it.

  mov r0 1                 mov64 r0 1
",
    },
    Topic {
        name: "BadOperand",
        text: "\
BadOperand: an operand is missing, or one too many, or not of the form that is wanted there. Registers are r0 to r10, numbers have no plus and no leading 0, distances have a sign.

  ja 5                     ja +5
",
    },
    Topic {
        name: "OutOfRange",
        text: "\
OutOfRange: in the text of a hook, a number has the right form and does not fit. Numbers have 32 bits with a sign, offsets and distances 16; lddw takes 0 to 18446744073709551615.

  mov64 r0 2147483648      lddw r0 2147483648

In a registry, a life, a limit, a number, a length, a count or a character is past its limits, or the file has more than 1,048,576 bytes and no limits. Lives are 1 to 31,536,000 seconds; keys and secrets have 1 to 128 visible characters, names of clients 1 to 64 letters, digits, minus signs, full stops and underscores.

  \"access_life\": 0         \"access_life\": 300
",
    },
    Topic {
        name: "UnknownLabel",
        text: "\
UnknownLabel: a jump leads to a label that no line has. Write the label on a line of its own, before the instruction that it leads to.

  ja done                  ja done
  exit                     done:
                           exit
",
    },
    Topic {
        name: "DoubleLabel",
        text: "\
DoubleLabel: a line before has this label already. Give one of both another name.

  x:                       x:
  x:                       y:
",
    },
    Topic {
        name: "TooLong",
        text: "\
TooLong: the program has more than 4,096 slots. An instruction takes one slot, lddw two. A shorter hook does the same with fewer cases.
",
    },
    Topic {
        name: "NoInstruction",
        text: "\
NoInstruction: the text has no instruction. The shortest hook that says something has two.

                           mov64 r0 1
                           exit
",
    },
];
