//! Programs from texts.

ghost use Rattle.std.specs.Prelude.{◌≡◌, ◌==◌, List, map, Some, IfOk, IfErr};
ghost use Rattle.std.specs.List.{slice_split};
ghost use Rattle.insn.specs.declared.instruction.Insn.{Insn};
ghost use Rattle.assembly.specs.Text.{Text};
ghost use Rattle.assembler.specs.Faults.{FirstTextFault};
ghost use Rattle.assembler.specs.Sheets.{find_in};
ghost use Rattle.assembler.specs.SheetsParts.{resolution, Unresolved};

use crate::draft::Draft;
use crate::fault::AsmFault;
use crate::sheet::{Place, Sheet, read_sheet};
use crate::slot_number::SlotNumber;
use insn::instruction::Insn;
use insn::program::Program;
use std::alloc::{AllocError, Global};
use std::collections::BTreeMap;

/// The instruction of a place, where its label stands somewhere.
fn resolved<'a>(labels: &BTreeMap<&'a [u8], SlotNumber>, place: &Place<'a>) -> Option<Insn>
    ensures { result ≡ resolution (find_in labels.now) place.now }
{
    match place.draft {
        Draft::Whole(insn) => Some(insn),
        Draft::ToLabel(jump, name) => {
            let to = *labels.get(&name)?;
            Some(jump.over(place.behind.distance(to)))
        }
    }
}

/// The instructions of a sheet, or the line of the first label that stands nowhere.
fn resolve(alloc: Global, sheet: &Sheet<'_>) -> Result<Vec<Insn>, AsmFault>
    ensures found { IfOk result (λ insns.
        map Some insns.items ≡ map (resolution (find_in sheet.now.labels)) sheet.now.places.items) }
    ensures fault { IfErr result (Unresolved (find_in sheet.now.labels) sheet.now.places.items) }
{
    let mut insns = Vec::new(alloc);
    for place in &sheet.places {
        let Some(insn) = resolved(&sheet.labels, place) else {
            return Err(AsmFault::UnknownLabel(place.line));
        };
        insns.push(insn)?;
    }
    Ok(insns)
}

/// The lines of a text.
fn lines(alloc: Global, text: &[u8]) -> Result<Vec<&[u8]>, AllocError>
    ensures { IfOk result (λ lines. map (λ line. line.now) lines.items ≡ slice_split (λ byte. byte == 10) text.now) }
{
    text.split(|byte| *byte == b'\n').collect(alloc)
}

/// The program that a text says, or its first fault. Lines are read in order, and then labels are looked up in order.
pub fn assemble(alloc: Global, text: &str) -> Result<Program, AsmFault>
    ensures text { IfOk result (Text text.now) }
    ensures fault { IfErr result (FirstTextFault text.now) }
    // What is said is answered, unless memory is refused.
    ensures only { IfErr result (λ fault. (program : List Insn) → Text text.now program → fault ≡ AsmFault.Memory) }
{
    let lines = lines(alloc, text.as_bytes())?;
    let sheet = read_sheet(alloc, &lines)?;
    let insns = resolve(alloc, &sheet)?;
    match Program::new(insns) {
        Ok(program) => Ok(program),
        Err(_) => Err(AsmFault::NoInstruction),
    }
}
