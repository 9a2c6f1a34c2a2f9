//! The sections of a row, and their lines. Empty lines at the end of a section say nothing.
//!
//! - `-- file NAME`: a file of this name has these lines, each with its end. `-- file NAME cut`: the last one has none.
//!   `-- file NAME hex`: it has the bytes that the hex digits in the lines say, with any blanks between them.
//!   `-- file NAME assembled`: it has what `asm` makes of the lines.
//! - `-- out` (or `cut`, or `hex`): these lines (or bytes) are written to standard output. `-- out begins`, `-- out begins cut`:
//!   what is written begins with them. `-- out has`: each of these lines is one of those that are written.
//! - `-- err`: the same for standard error.
//! - `-- status N`, `-- now N`: the exit status, and the seconds since 1970 that the clock tells. No line that says anything may
//!   stand behind these.
//! - `-- talk $NAME`: a talk with a server of the registry that the name stands for, in place of command lines.
//!   `byte by byte`, `in two pieces` or `broken off` may stand behind the name. It ends with its replies, unless the row has an
//!   `-- out` or `-- err`.

use crate::blocks::refuse_lines;
use crate::fault::wrong;
use crate::names::Names;
use crate::row::{Likeness, Pieces, Row, RowFile, Talk, Wanted};
use std::alloc::{AllocError, Global};
use std::io;
use std::str::FromStr;

/// No section has this form.
const UNKNOWN: &str = "unknown section";

/// The row says the same twice.
const TWICE: &str = "said twice";

/// The first word of a heading, and what stands behind it.
pub fn split_heading(heading: &str) -> (&str, &str) {
    heading.split_once(' ').unwrap_or((heading, ""))
}

/// The bytes that hex digits say. Blanks and line ends between them say nothing.
fn hex_bytes(alloc: Global, lines: &str) -> io::Result<Vec<u8>> {
    let mut digits = String::new(alloc);
    for part in lines.split_ascii_whitespace() {
        digits.push_str(part)?;
    }
    match hex::decode(alloc, digits.as_str()) {
        Ok(bytes) => Ok(bytes),
        Err(hex::FromHexError::OutOfMemory) => Err(io::Error::from(AllocError)),
        Err(_) => Err(wrong("bad hex")),
    }
}

/// The bytes of a section's text, without the empty lines at its end, in the form that stands behind the section's name.
fn bytes_in(alloc: Global, form: &str, text: &str) -> io::Result<Vec<u8>> {
    let lines = text.trim_end_matches('\n');
    let mut bytes = match form {
        "hex" => hex_bytes(alloc, lines)?,
        "" | "cut" => Vec::from_slice(alloc, lines.as_bytes())?,
        _ => return Err(wrong(UNKNOWN)),
    };
    if form.is_empty() && !lines.is_empty() {
        bytes.push(b'\n')?;
    }
    Ok(bytes)
}

/// What is to be written to an output.
fn wanted(alloc: Global, form: &str, text: &str) -> io::Result<Wanted> {
    let (likeness, form) = match form {
        "begins" => (Likeness::Front, ""),
        "begins cut" => (Likeness::Front, "cut"),
        "has" => (Likeness::Lines, ""),
        form => (Likeness::Whole, form),
    };
    let bytes = bytes_in(alloc, form, text)?;
    match likeness {
        Likeness::Front | Likeness::Lines if bytes.is_empty() => Err(wrong("no text")),
        _ => Ok(Wanted { likeness, bytes }),
    }
}

/// Puts a file of a name into its row, in the form that stands behind the name.
fn put_file(alloc: Global, row: &mut Row, heading: &str, text: &str) -> io::Result<()> {
    let (name, form) = split_heading(heading);
    if name.is_empty() || name.contains('/') {
        return Err(wrong("no name"));
    }
    let is_assembled = form == "assembled";
    let bytes = bytes_in(alloc, if is_assembled { "" } else { form }, text)?;
    if row.has_file(name) {
        return Err(wrong(TWICE));
    }
    let name = String::from_str(alloc, name)?;
    row.files.push(RowFile {
        name,
        bytes,
        is_assembled,
    })?;
    Ok(())
}

/// In which pieces requests come.
fn pieces(form: &str) -> io::Result<Pieces> {
    match form {
        "" => Ok(Pieces::Whole),
        "byte by byte" => Ok(Pieces::Bytes),
        "in two pieces" => Ok(Pieces::Two),
        "broken off" => Ok(Pieces::Front),
        _ => Err(wrong(UNKNOWN)),
    }
}

/// A talk: the name of its registry and in which pieces requests come, and its lines, with those that it names, written out.
fn talk(alloc: Global, names: &Names, heading: &str, body: &str) -> io::Result<Talk> {
    let (name, form) = split_heading(heading);
    let pieces = pieces(form)?;
    let lines = names.with_lines(alloc, body)?;
    let talk = Talk {
        config: names.text_of(alloc, name)?,
        pieces,
        lines: names.written_out(alloc, lines.as_str())?,
    };
    if talk.is_whole() {
        Ok(talk)
    } else {
        Err(wrong("bad line in a talk"))
    }
}

/// An exit status or a moment, with no lines behind it.
fn number<N: FromStr + Drop>(form: &str, body: &str) -> io::Result<N>
where
    N::Err: Drop,
{
    let Ok(number) = form.parse() else {
        return Err(wrong("bad number"));
    };
    refuse_lines(body)?;
    Ok(number)
}

/// Says what is not yet said.
fn say<T: Drop>(place: &mut Option<T>, value: T) -> io::Result<()> {
    match place.replace(value) {
        None => Ok(()),
        Some(_) => Err(wrong(TWICE)),
    }
}

/// Puts the section of this heading, behind `-- `, with these lines into its row.
pub fn put_section(
    alloc: Global,
    names: &Names,
    row: &mut Row,
    heading: &str,
    body: &str,
) -> io::Result<()> {
    let (kind, form) = split_heading(heading);
    let text = names.written_out(alloc, body)?;
    match kind {
        "file" => put_file(alloc, row, form, text.as_str()),
        "out" => say(&mut row.out, wanted(alloc, form, text.as_str())?),
        "err" => say(&mut row.err, wanted(alloc, form, text.as_str())?),
        "status" => say(&mut row.status, number(form, body)?),
        "now" => say(&mut row.now, number(form, body)?),
        "talk" => say(&mut row.talk, talk(alloc, names, form, body)?),
        _ => Err(wrong(UNKNOWN)),
    }
}
