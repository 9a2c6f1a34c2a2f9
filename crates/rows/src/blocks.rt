//! A file of rows in blocks: lines that begin something, each with the lines behind it.
//!
//! Before the first row a line that is empty or begins with `#` says nothing, and these define:
//! - `$NAME TEXT`: a name of a text;
//! - `$NAME` alone: a name of a text in the lines behind it, up to an empty one, joined without their ends;
//! - `-- lines NAME`: a name of the lines behind it, up to an empty one.
//!
//! A row begins with `== ` and its name, and goes up to the next one. In it a line that begins with `$ ` (or is `$`) is a command
//! line, and one that begins with `-- ` begins a section. What stands behind these belongs to them.

use crate::fault::{at, wrong};
use std::alloc::Global;
use std::io;

/// A line that begins something, and the lines behind it.
#[derive(Drop)]
pub struct Block<'t> {
    /// The number of the line.
    pub line: usize,
    /// The line.
    pub heading: &'t str,
    /// The lines behind it, each with its end.
    pub body: String,
}

/// What the lines belong to that begin nothing.
#[derive(Clone, Copy)]
enum Place {
    /// Nothing: they stand before the first row, outside of definitions.
    Outside,
    /// A definition, up to an empty line.
    Definition,
    /// A row.
    Row,
}

/// Whether a line says nothing, where it is no part of a section.
fn says_nothing(line: &str) -> bool {
    line.is_empty() || line.starts_with('#')
}

/// Refuses lines that say something, where none of a section stands.
pub fn refuse_lines(lines: &str) -> io::Result<()> {
    if lines.split('\n').all(says_nothing) {
        Ok(())
    } else {
        Err(wrong("outside of a section"))
    }
}

impl Place {
    /// Where the lines behind one stand that begins something here.
    fn behind(self, line: &str) -> Option<Place> {
        let is_command = line == "$" || line.starts_with("$ ");
        match self {
            _ if line.starts_with("== ") => Some(Place::Row),
            Place::Outside if line.starts_with("-- lines ") => Some(Place::Definition),
            Place::Outside if line.starts_with('$') && line.contains(' ') => Some(Place::Outside),
            Place::Outside if line.starts_with('$') => Some(Place::Definition),
            Place::Row if is_command || line.starts_with("-- ") => Some(Place::Row),
            _ => None,
        }
    }
}

/// Puts what begins with a line behind the blocks, or a line that begins nothing into the block that it belongs to, if it says
/// anything. It says where the next line stands.
fn put_line<'t>(blocks: &mut Vec<Block<'t>>, place: Place, begun: Block<'t>) -> io::Result<Place> {
    let line = begun.heading;
    if let Some(behind) = place.behind(line) {
        blocks.push(begun)?;
        return Ok(behind);
    }
    match (place, blocks.last_mut()) {
        (Place::Definition, _) if line.is_empty() => Ok(Place::Outside),
        (Place::Definition | Place::Row, Some(block)) => {
            block.body.push_str(line)?;
            block.body.push('\n')?;
            Ok(place)
        }
        _ if says_nothing(line) => Ok(place),
        _ => Err(wrong("no definition")),
    }
}

/// The blocks of a text.
pub fn blocks_of(alloc: Global, text: &str) -> io::Result<Vec<Block<'_>>> {
    let mut blocks = Vec::new(alloc);
    let mut place = Place::Outside;
    for (index, heading) in text.split('\n').enumerate() {
        let line = index.saturating_add(1);
        let body = String::new(alloc);
        let begun = Block {
            line,
            heading,
            body,
        };
        place = put_line(&mut blocks, place, begun).map_err(|error| at(alloc, line, error))?;
    }
    Ok(blocks)
}
