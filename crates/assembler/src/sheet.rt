//! What the lines of a text say: each by itself, and where labels stand.

ghost use Rattle.std.specs.Prelude.{◌≡◌, map, IfOk, IfErr};
ghost use Rattle.assembler.specs.Faults.{FaultIn};
ghost use Rattle.assembler.specs.Sheets.{find_in, lines_of, IsSheet};
ghost use Rattle.assembler.specs.SheetsParts.{fault_on_line};

use crate::draft::{Draft, WordFault, statement};
use crate::fault::AsmFault;
use crate::line::{Line, read};
use crate::slot_number::SlotNumber;
use std::alloc::Global;
use std::collections::BTreeMap;

/// A draft with its line, counted from 1, and the slot behind it.
#[derive(Clone, Copy)]
pub struct Place<'a> {
    pub line: usize,
    pub behind: SlotNumber,
    pub draft: Draft<'a>,
}

/// What stands in a text.
#[derive(Drop)]
pub struct Sheet<'a> {
    pub places: Vec<Place<'a>>,
    pub labels: BTreeMap<&'a [u8], SlotNumber>,
}

impl WordFault {
    /// The fault at a line.
    fn at(self, line: usize) -> AsmFault
        ensures { result ≡ fault_on_line self line }
    {
        match self {
            WordFault::UnknownWord => AsmFault::UnknownWord(line),
            WordFault::BadOperand => AsmFault::BadOperand(line),
            WordFault::OutOfRange => AsmFault::OutOfRange(line),
        }
    }
}

/// Reads lines in order: what they say but for where labels lie, or the first that is wrong.
pub fn read_sheet<'a>(alloc: Global, lines: &[&'a [u8]]) -> Result<Sheet<'a>, AsmFault>
    ensures sheet { IfOk result (λ sheet.
        IsSheet (lines_of (map (λ line. line.now) lines.now)) sheet.places.items (find_in sheet.labels)) }
    ensures fault { IfErr result (FaultIn (lines_of (map (λ line. line.now) lines.now))) }
{
    let mut places = Vec::new(alloc);
    let mut labels = BTreeMap::new(alloc);
    let mut end = SlotNumber::first();
    let mut number = 0;
    for bytes in lines {
        number += 1;
        match read(alloc, bytes)? {
            Line::Blank => {}
            Line::Label(name) => {
                if labels.contains_key(&name) {
                    return Err(AsmFault::DoubleLabel(number));
                }
                labels.insert(name, end)?;
            }
            Line::Statement(words) => {
                let draft = match statement(&words) {
                    Ok(draft) => draft,
                    Err(fault) => return Err(fault.at(number)),
                };
                let Some(behind) = end.behind(draft.slots()) else {
                    return Err(AsmFault::TooLong(number));
                };
                places.push(Place {
                    line: number,
                    behind,
                    draft,
                })?;
                end = behind;
            }
        }
    }
    Ok(Sheet { places, labels })
}
