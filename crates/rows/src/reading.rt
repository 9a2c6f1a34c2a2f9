//! Reading a file of rows.

use crate::blocks::{Block, blocks_of, refuse_lines};
use crate::fault::{at, wrong};
use crate::names::Names;
use crate::row::Row;
use crate::sections::{put_section, split_heading};
use crate::words::words_of;
use std::alloc::Global;
use std::io;

/// A row of this name that says nothing yet, with no lines behind it.
fn row(alloc: Global, line: usize, name: &str, body: &str) -> io::Result<Row> {
    if name.is_empty() {
        return Err(wrong("no name"));
    }
    refuse_lines(body)?;
    Ok(Row {
        line,
        name: String::from_str(alloc, name)?,
        commands: Vec::new(alloc),
        files: Vec::new(alloc),
        out: None,
        err: None,
        status: None,
        now: None,
        talk: None,
    })
}

/// Defines a name of a text, which stands behind it or in the lines behind it.
fn define(
    alloc: Global,
    names: &mut Names,
    (name, text): (&str, &str),
    body: &str,
) -> io::Result<()> {
    let mut text = String::from_str(alloc, text)?;
    for line in body.split('\n') {
        text.push_str(line)?;
    }
    names.define(String::from_str(alloc, name)?, text)
}

/// Defines a name of lines.
fn define_lines(alloc: Global, names: &mut Names, name: &str, body: &str) -> io::Result<()> {
    let lines = names.with_lines(alloc, body.trim_end_matches('\n'))?;
    names.define_lines(String::from_str(alloc, name)?, lines)
}

/// Reads a block: defines a name, or goes on with the rows.
fn read_block(
    alloc: Global,
    names: &mut Names,
    rows: &mut Vec<Row>,
    block: &Block<'_>,
) -> io::Result<()> {
    let (kind, rest) = split_heading(block.heading);
    let body = block.body.as_str();
    if kind == "==" {
        rows.push(row(alloc, block.line, rest, body)?)?;
        return Ok(());
    }
    match (kind, rows.last_mut()) {
        ("$", Some(row)) => {
            refuse_lines(body)?;
            let words = names.written_out(alloc, rest)?;
            Ok(row.commands.push(words_of(alloc, words.as_str())?)?)
        }
        (_, Some(row)) => put_section(alloc, names, row, rest, body),
        ("--", None) => define_lines(alloc, names, split_heading(rest).1, body),
        (_, None) => define(alloc, names, (kind, rest), body),
    }
}

/// The rows in the text of a file. What it defines is known from there on.
pub fn rows_of(alloc: Global, names: &mut Names, text: &str) -> io::Result<Vec<Row>> {
    let mut rows: Vec<Row> = Vec::new(alloc);
    for block in &blocks_of(alloc, text)? {
        read_block(alloc, names, &mut rows, block).map_err(|error| at(alloc, block.line, error))?;
    }
    for row in rows.iter_mut() {
        row.check().map_err(|error| at(alloc, row.line, error))?;
        row.want_replies(alloc)?;
    }
    Ok(rows)
}
