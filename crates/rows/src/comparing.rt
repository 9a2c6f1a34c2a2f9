//! What is found, beside what is wanted.

use crate::row::{Likeness, Row, Wanted};
use std::alloc::{AllocError, Global};
use std::fmt::Write;

/// How a command line ended.
#[derive(Drop)]
pub struct Ended {
    /// Its exit status.
    pub status: u8,
    /// What it wrote to standard output.
    pub out: Vec<u8>,
    /// What it wrote to standard error.
    pub err: Vec<u8>,
}

/// So many bytes are shown before the first one that differs.
const BEFORE: usize = 60;

/// At most so many bytes are shown.
const ROOM: usize = 240;

/// The part of a text round a place.
fn part_round(alloc: Global, text: &[u8], place: usize) -> Result<String, AllocError> {
    let behind = text.get(place.saturating_sub(BEFORE)..).unwrap_or(&[]);
    let part = behind.get(..ROOM).unwrap_or(behind);
    String::from_utf8_lossy(alloc, part)
}

/// At how many places two texts are the same before they differ.
fn common_length(a: &[u8], b: &[u8]) -> usize {
    a.iter().zip(b).take_while(|(x, y)| **x == **y).count()
}

/// What is told of two texts that differ, from a little before a place.
fn shown(
    alloc: Global,
    wanted: &[u8],
    found: &[u8],
    place: usize,
) -> Result<Option<String>, AllocError> {
    let wanted = part_round(alloc, wanted, place)?;
    let found = part_round(alloc, found, place)?;
    Ok(Some(format!(in alloc; "wanted {wanted:?}, found {found:?}")?))
}

/// What is told of two texts, if they are not the same.
fn parted(alloc: Global, wanted: &[u8], found: &[u8]) -> Result<Option<String>, AllocError> {
    if wanted == found {
        return Ok(None);
    }
    shown(alloc, wanted, found, common_length(wanted, found))
}

/// What is told of the first line of a text that is none of another one, if there is one.
fn missing(alloc: Global, wanted: &[u8], found: &[u8]) -> Result<Option<String>, AllocError> {
    let lines = String::from_utf8_lossy(alloc, wanted)?;
    let text = String::from_utf8_lossy(alloc, found)?;
    for line in lines.trim_end_matches('\n').split('\n') {
        if !text.split('\n').any(|other| other == line) {
            return shown(alloc, line.as_bytes(), found, 0);
        }
    }
    Ok(None)
}

/// What differs in an output, if anything does. Nothing is to be written, where that is not said.
fn difference(
    alloc: Global,
    wanted: Option<&Wanted>,
    found: &[u8],
) -> Result<Option<String>, AllocError> {
    let Some(wanted) = wanted else {
        return parted(alloc, &[], found);
    };
    match wanted.likeness {
        Likeness::Whole => parted(alloc, &wanted.bytes, found),
        Likeness::Front => {
            let front = found.get(..wanted.bytes.len()).unwrap_or(found);
            parted(alloc, &wanted.bytes, front)
        }
        Likeness::Lines => missing(alloc, &wanted.bytes, found),
    }
}

/// Tells what differs, each thing behind a colon: nothing, where a command line of a row ended as it is to end.
pub fn differences(alloc: Global, row: &Row, ended: &Ended) -> Result<String, AllocError> {
    let mut told = String::new(alloc);
    let (wanted, found) = (row.status.unwrap_or(0), ended.status);
    if wanted != found {
        write!(told, ": exit status: wanted {wanted}, found {found}")?;
    }
    if let Some(shown) = difference(alloc, row.err.as_ref(), &ended.err)? {
        write!(told, ": standard error: {shown}")?;
    }
    if let Some(shown) = difference(alloc, row.out.as_ref(), &ended.out)? {
        write!(told, ": standard output: {shown}")?;
    }
    Ok(told)
}
