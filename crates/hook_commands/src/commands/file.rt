//! Files that are text, or in which the code of a program stands, and the commands about one: `asm FILE`, `list FILE` and
//! `list --slots FILE`, `check FILE` and `check2 FILE`, and these with `--why`.

ghost use Rattle.std.specs.Prelude.{◌≡◌, IfErr, IfNone, IfOk, IfSome, Some};
ghost use Rattle.std.specs.Option.{option_copied};
ghost use Rattle.hook_commands.specs.File.{is_elf as spec_is_elf, HoldsCode, HoldsNoProgram, HoldsProgram, HoldsText, IsAssembledAs, IsCheckedOn, IsCodeIn, IsExplainedOn, IsListedAs, IsListedWithSlotsAs, IsNoText};
ghost use Rattle.hook_commands.specs.HexText.{IsNoHex};

use crate::answer::{HookAnswer, HookResult};
use crate::fault::HookCommandFault;
use crate::hex_text::bytes_of_hex;
use crate::why::explanation;
use assembler::{AsmFault, assemble};
use encoding::{decode, encode};
use insn::fault::InsnFault;
use insn::layout::Layout;
use insn::program::Program;
use lister::{list, slot_lines};
use std::alloc::{AllocError, Global};
use verifier::verified::verify;

/// The text of a file. `None` where it is not UTF-8, which counts as one that cannot be read.
pub fn text_in(file: Option<&[u8]>) -> Option<&str>
    ensures found { IfSome result (λ text. HoldsText (option_copied file.entry) text.now) }
    ensures none { IfNone result (IsNoText (option_copied file.entry)) }
{
    str::from_utf8(file?).ok()
}

/// The code in a hook's file.
#[derive(Drop)]
enum FileCode {
    /// The bytes that its text is hex of.
    OfHex(Vec<u8>),
    /// The file itself, which is no hex.
    Plain(Vec<u8>),
}

/// The code in a hook's file, and whether it stands there as hex.
fn file_code(alloc: Global, file: &[u8]) -> Result<FileCode, AllocError>
    ensures { IfOk result (IsCodeIn file.now) }
{
    match bytes_of_hex(alloc, file)? {
        Some(code) => Ok(FileCode::OfHex(code)),
        None => Ok(FileCode::Plain(Vec::from_slice(alloc, file)?)),
    }
}

/// The code in a hook's file: the bytes that its text is hex of, or the file itself, where it is no hex.
pub fn code_in(alloc: Global, file: &[u8]) -> Result<Vec<u8>, AllocError>
    ensures { IfOk result (λ code. HoldsCode (Some file.now) code.items) }
{
    match file_code(alloc, file)? {
        FileCode::OfHex(code) => Ok(code),
        FileCode::Plain(code) => Ok(code),
    }
}

/// Whether bytes begin as an ELF file does, which is what a compiler writes.
fn is_elf(bytes: &[u8]) -> bool
    ensures { result ≡ spec_is_elf bytes.now }
{
    matches!(bytes, [0x7f, b'E', b'L', b'F', ..])
}

/// The program whose bytes a file is that is no hex. Where they are none, an ELF file is told as one, and any other as no
/// hex.
fn plain_program<'w>(
    alloc: Global,
    path: &'w str,
    bytes: &[u8],
) -> Result<Program, HookCommandFault<'w>>
    requires { IsNoHex bytes.now }
    ensures found { IfOk result (HoldsProgram (Some bytes.now)) }
    ensures none { IfErr result (HoldsNoProgram path.now (Some bytes.now)) }
{
    match decode(alloc, bytes) {
        Ok(program) => Ok(program),
        Err(InsnFault::Memory) => Err(HookCommandFault::OutOfMemory),
        Err(_) if is_elf(bytes) => Err(HookCommandFault::IsElf(path)),
        Err(_) => Err(HookCommandFault::IsNotHex(path)),
    }
}

/// The program whose code stands in a file. First the file has to be read, and then its code to be a program.
pub fn program_in<'w>(
    alloc: Global,
    path: &'w str,
    file: Option<&[u8]>,
) -> Result<Program, HookCommandFault<'w>>
    ensures found { IfOk result (HoldsProgram (option_copied file.entry)) }
    ensures none { IfErr result (HoldsNoProgram path.now (option_copied file.entry)) }
{
    let Some(bytes) = file else {
        return Err(HookCommandFault::CannotRead(path));
    };
    let code = match file_code(alloc, bytes)? {
        FileCode::OfHex(code) => code,
        FileCode::Plain(_) => return plain_program(alloc, path, bytes),
    };
    match decode(alloc, &code) {
        Ok(program) => Ok(program),
        Err(fault) => Err(HookCommandFault::Insn(fault)),
    }
}

/// So many characters of a word are told of it.
const WORD_TOLD: usize = 40;

/// What is told of a line's first word: its first characters.
fn first_word(line: &str) -> Option<&str> {
    let word = line
        .split(|c| c == ' ' || c == '\t' || c == ';')
        .find(|word| !word.is_empty())?;
    match word.char_indices().nth(WORD_TOLD) {
        Some((end, _)) => word.get(..end),
        None => Some(word),
    }
}

/// The word of a text that names no instruction, where that is its fault. Where memory is refused, it is not told.
fn unknown_word(alloc: Global, text: &str, fault: AsmFault) -> Option<String> {
    let AsmFault::UnknownWord(number) = fault else {
        return None;
    };
    let line = text.split('\n').nth(number.checked_sub(1)?)?;
    String::from_str(alloc, first_word(line)?).ok()
}

/// The bytes of the program that the text of a file says, as hex.
pub fn assembled<'w>(alloc: Global, path: &'w str, file: Option<&[u8]>) -> HookResult<'w>
    ensures { IsAssembledAs path.now (option_copied file.entry) result }
{
    let Some(text) = text_in(file) else {
        return Err(HookCommandFault::CannotRead(path));
    };
    let program = match assemble(alloc, text) {
        Ok(program) => program,
        Err(fault) => return Err(HookCommandFault::Text(fault, unknown_word(alloc, text, fault))),
    };
    let code = encode(alloc, &program)?;
    let hex = hex::encode(alloc, code)?;
    Ok(HookAnswer::Code(hex))
}

/// The canonical text of the program whose code stands in a file.
pub fn listing<'w>(alloc: Global, path: &'w str, file: Option<&[u8]>) -> HookResult<'w>
    ensures { IsListedAs path.now (option_copied file.entry) result }
{
    let program = program_in(alloc, path, file)?;
    let text = list(alloc, &program)?;
    Ok(HookAnswer::Listing(text))
}

/// The instructions of the program whose code stands in a file, behind their slots.
pub fn listing_with_slots<'w>(alloc: Global, path: &'w str, file: Option<&[u8]>) -> HookResult<'w>
    ensures { IsListedWithSlotsAs path.now (option_copied file.entry) result }
{
    let program = program_in(alloc, path, file)?;
    let lines = slot_lines(alloc, &program)?;
    Ok(HookAnswer::Slots(lines))
}

/// Whether the program whose code stands in a file is accepted, for records of one version.
pub fn check<'w>(
    alloc: Global,
    layout: Layout,
    path: &'w str,
    file: Option<&[u8]>,
) -> HookResult<'w>
    ensures { IsCheckedOn layout path.now (option_copied file.entry) result }
{
    let program = program_in(alloc, path, file)?;
    match verify(alloc, program, layout) {
        Ok(verified) => Ok(HookAnswer::Accepted(verified.program().len())),
        Err((_, fault)) => Err(HookCommandFault::Verify(fault)),
    }
}

/// What is found of the program whose code stands in a file, for records of one version, told at length.
pub fn explained_check<'w>(
    alloc: Global,
    layout: Layout,
    path: &'w str,
    file: Option<&[u8]>,
) -> HookResult<'w>
    ensures { IsExplainedOn layout path.now (option_copied file.entry) result }
{
    let program = program_in(alloc, path, file)?;
    Ok(explanation(alloc, &program, layout)?)
}
