//! What is told of the bytes of the stack that a load reads.

ghost use Rattle.std.specs.Prelude.{◌≡◌, ◌<◌, ◌≤◌, ◌+◌, ◌++◌, IfOk, IfSome, OnOk};
ghost use Rattle.insn.specs.Instruction.{size_bytes};
ghost use Rattle.stack_state.specs.Fits.{mark_at};
ghost use Rattle.hook_commands.specs.BytesTold.{are_unset, block_count, bytes_behind, bytes_each, bytes_read, first_block, TellsBlockBehind, TellsBlocks, TellsBytes};

use crate::known_text::{KnownText, from_end};
use insn::action::Action;
use insn::layout::Layout;
use insn::operation::Size;
use insn::state::{Region, STACK_SIZE};
use insn::verify_fault::WalkFault;
use reg_kind::{Reg, Span};
use stack_state::Stack;
use stack_state::mark::Mark;
use std::alloc::{AllocError, Global};
use std::fmt::{self, Display, Formatter, Write};
use verifier::Known;

/// What is told of bytes of the stack.
#[derive(Clone, Copy)]
pub enum BytesTold {
    /// The eight bytes from this one on hold, together, what a register may.
    Block(u16, Reg),
    /// What is known of this byte.
    Byte(u16, Mark),
}

impl Display for BytesTold {
    fn fmt<W: Write>(&self, f: &mut Formatter<W>) -> fmt::Result {
        match *self {
            BytesTold::Block(from, known) => {
                let (first, known) = (from_end(from), KnownText(known));
                let last = i32::from(from) + 7 - STACK_SIZE as i32;
                write!(f, "stack {first} to {last}: {known}\n")
            }
            BytesTold::Byte(at, mark) => {
                let behind = from_end(at);
                match mark {
                    Mark::Unset => write!(f, "stack {behind}: unset\n"),
                    Mark::Byte => write!(f, "stack {behind}: byte\n"),
                    Mark::Part => write!(f, "stack {behind}: part of a pointer\n"),
                }
            }
        }
    }
}

/// Bytes of the stack that an instruction reads, or may read: from one to before another.
#[derive(Clone, Copy)]
struct BytesRead {
    from: u16,
    to: u16,
}

/// The bytes of the stack so far behind what a register holds; none where they lie elsewhere.
fn bytes_behind(layout: Layout, register: Reg, offset: i16, size: Size) -> Option<BytesRead>
    ensures value { result ≡ bytes_behind layout register offset (size_bytes size) }
    ensures inside { IfSome result (λ bytes. bytes.to ≤ 512) }
{
    let place = register.access(layout, offset, size).ok()?;
    match place.region {
        Region::Record => None,
        Region::Stack => Some(BytesRead {
            from: place.span.least,
            to: place.span.greatest + size.bytes() as u16,
        }),
    }
}

/// The bytes of the stack that are read, or may be.
fn bytes_read(layout: Layout, known: &Known, action: Action) -> Option<BytesRead>
    ensures value { result ≡ bytes_read layout known.now action }
    ensures inside { IfSome result (λ bytes. bytes.to ≤ 512) }
{
    let Action::LoadFrom(size, _, _, src, offset) = action else {
        return None;
    };
    bytes_behind(layout, known.register(src), offset, size)
}

/// What is known of a byte: why a load of it alone is refused, if it is.
fn byte_mark(stack: &Stack, at: u16) -> Mark
    requires { at < 512 }
    ensures { result ≡ mark_at stack.now at }
{
    let span = Span {
        least: at,
        greatest: at,
    };
    match stack.load(span, Size::One) {
        Ok(_) => Mark::Byte,
        Err(WalkFault::UnsetByte) => Mark::Unset,
        Err(_) => Mark::Part,
    }
}

/// Whether eight bytes are unset.
fn are_unset(stack: &Stack, from: u16) -> bool
    requires { from + 8 ≤ 512 }
    ensures { result ≡ are_unset stack.now from 8 }
{
    let mut unset = true;
    for byte in 0..8 {
        let mark = byte_mark(stack, from + byte);
        unset = unset && mark == Mark::Unset;
    }
    unset
}

/// Tells each of eight bytes.
fn tell_bytes(told: &mut Vec<BytesTold>, stack: &Stack, from: u16) -> Result<(), AllocError>
    requires { from + 8 ≤ 512 }
    ensures { OnOk result (told.new.items ≡ told.old.items ++ bytes_each stack.now from 8) }
{
    for byte in 0..8 {
        let at = from + byte;
        told.push(BytesTold::Byte(at, byte_mark(stack, at)))?;
    }
    Ok(())
}

/// Tells what is known of eight bytes from a multiple of eight on: of all together, where a load of them gives something
/// or none is set, and else of each by itself.
fn tell_block(told: &mut Vec<BytesTold>, stack: &Stack, from: u16) -> Result<(), AllocError>
    requires { from + 8 ≤ 512 }
    ensures { OnOk result (TellsBlockBehind stack.now from told.old.items told.new.items) }
{
    let span = Span {
        least: from,
        greatest: from,
    };
    let known = match stack.load(span, Size::Eight) {
        Ok(known) => known,
        Err(_) if are_unset(stack, from) => Reg::Unset,
        Err(_) => return tell_bytes(told, stack, from),
    };
    told.push(BytesTold::Block(from, known))?;
    Ok(())
}

/// What is known of each block that bytes touch.
fn blocks_told(alloc: Global, stack: &Stack, bytes: BytesRead) -> Result<Vec<BytesTold>, AllocError>
    requires { bytes.to ≤ 512 }
    ensures { IfOk result (λ told. TellsBlocks stack.now (first_block bytes) (block_count bytes) told.items) }
{
    let first = bytes.from / 8;
    let count = ((bytes.to + 7) / 8).saturating_sub(first);
    let mut told = Vec::new(alloc);
    for block in 0..count {
        tell_block(&mut told, stack, 8 * (first + block))?;
    }
    Ok(told)
}

/// What is known of the bytes of the stack that are read, or may be: of each eight bytes, from a multiple of
/// eight on, of which some are; of none where none is read there. It fails only where memory is refused.
pub fn bytes_told(
    alloc: Global,
    layout: Layout,
    known: &Known,
    action: Action,
) -> Result<Vec<BytesTold>, AllocError>
    ensures { IfOk result (λ told. TellsBytes layout known.now action told.items) }
{
    match bytes_read(layout, known, action) {
        Some(bytes) => blocks_told(alloc, known.stack(), bytes),
        None => Ok(Vec::new(alloc)),
    }
}
