//! What a join of two registers, or of two stacks, would lose: what is chosen by this needs no proof.

use crate::block::Block;
use crate::bytes::Bytes;
use crate::later::Read;
use crate::mark::Mark;
use crate::stack::Stack;
use reg_kind::{Reg, Span};
use scalar::Scalar;

/// How much it counts where a join loses something.
#[derive(Clone, Copy)]
struct Weights {
    /// A pointer, or where it points.
    pointer: u32,
    /// An exact number, or that bytes are set.
    number: u32,
}

/// In a register.
const REGISTER: Weights = Weights {
    pointer: 6000,
    number: 1000,
};

/// In eight bytes of the stack.
const BLOCK: Weights = Weights {
    pointer: 1000,
    number: 100,
};

/// In which of two ranges a number lies.
const RANGE: u32 = 1;

/// A join that loses less than this loses bounds alone.
pub const MUCH: u32 = 100;

/// Of two numbers: something where their bounds have nothing in common, and much where one of them is exact.
fn of_numbers(a: Scalar, b: Scalar, weights: Weights) -> u32 {
    let ((a_least, a_greatest), (b_least, b_greatest)) = (a.bounds(), b.bounds());
    if a_least <= b_greatest && b_least <= a_greatest {
        0
    } else if a_least == a_greatest || b_least == b_greatest {
        weights.number
    } else {
        RANGE
    }
}

/// Of two spans of the stack, or of the record: much where they have nothing in common.
fn of_spans(a: Span, b: Span, weights: Weights) -> u32 {
    if a.greatest < b.least || b.greatest < a.least {
        weights.pointer
    } else {
        0
    }
}

/// Of two values: much, too, where a pointer meets none.
fn of_values(a: Reg, b: Reg, weights: Weights) -> u32 {
    match (a, b) {
        (Reg::Number(a), Reg::Number(b)) => of_numbers(a, b, weights),
        (Reg::Stack(a), Reg::Stack(b)) => of_spans(a, b, weights),
        (Reg::Record(a), Reg::Record(b)) => of_spans(a, b, weights),
        (Reg::Record(_) | Reg::Stack(_), _) | (_, Reg::Record(_) | Reg::Stack(_)) => {
            weights.pointer
        }
        _ => 0,
    }
}

/// Of what is known of eight bytes one by one: much where one is known otherwise.
fn of_marks(a: &[Mark; 8], b: &[Mark; 8]) -> u32 {
    let mut same = true;
    for i in 0..8 {
        same = same & (a[i] == b[i]);
    }
    if same { 0 } else { BLOCK.number }
}

/// Of eight bytes that are known one by one, and of others of which the number and each byte is known.
fn of_bytes(a: &Bytes, b: Scalar, marks: &[Mark; 8]) -> u32 {
    of_marks(a.marks(), marks).saturating_add(of_numbers(a.number(), b, BLOCK))
}

/// Of a value that stands whole in eight bytes, and of others that are known one by one.
fn of_whole(value: Reg, bytes: &Bytes) -> u32 {
    match value {
        Reg::Number(number) => of_bytes(bytes, number, &[Mark::Byte; 8]),
        Reg::Unset => 0,
        Reg::Record(_) | Reg::Stack(_) => BLOCK.pointer,
    }
}

/// Of a block, where nothing is known of another.
fn of_one(block: &Block) -> u32 {
    match block {
        Block::Unset | Block::Whole(Reg::Unset) => 0,
        Block::Whole(Reg::Number(_)) => BLOCK.number,
        Block::Whole(Reg::Record(_) | Reg::Stack(_)) => BLOCK.pointer,
        Block::Cells(bytes) => of_marks(bytes.marks(), &[Mark::Unset; 8]),
    }
}

/// Of two blocks.
fn of_blocks(a: &Block, b: &Block) -> u32 {
    match (a, b) {
        (Block::Unset, block) => of_one(block),
        (block, Block::Unset) => of_one(block),
        (Block::Whole(a), Block::Whole(b)) => of_values(*a, *b, BLOCK),
        (Block::Whole(value), Block::Cells(bytes)) => of_whole(*value, bytes),
        (Block::Cells(bytes), Block::Whole(value)) => of_whole(*value, bytes),
        (Block::Cells(a), Block::Cells(b)) => of_bytes(a, b.number(), b.marks()),
    }
}

/// Of two registers.
pub fn of_registers(a: Reg, b: Reg) -> u32 {
    of_values(a, b, REGISTER)
}

/// Of the blocks of two stacks that are read later, added to what else is lost, as far as a bound: from the last block on,
/// where C keeps its variables.
pub fn of_stacks(a: &Stack, b: &Stack, later: Read, lost: u32, bound: u32) -> u32 {
    let mut lost = lost;
    for i in 0..64 {
        if lost >= bound {
            return lost;
        }
        let k = 63 - i;
        if later.has_block(k) {
            lost = lost.saturating_add(of_blocks(&a.blocks()[k], &b.blocks()[k]));
        }
    }
    lost
}
