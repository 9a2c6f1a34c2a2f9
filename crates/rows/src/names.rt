//! Names of longer texts, and of lines.
//!
//! From its definition on, a text stands wherever its name does in a command line, a section or a talk. Names are put in one after
//! the other, in the order in which they are defined, so that a text may name those that are defined behind it. Lines of a talk
//! stand in the place of `with NAME`.

use crate::fault::wrong;
use std::alloc::{AllocError, Global};
use std::io;

/// A text behind its name.
#[derive(Drop)]
struct Definition {
    name: String,
    text: String,
}

/// What is defined so far.
#[derive(Drop)]
pub struct Names {
    /// Texts behind `$NAME`, in the order of their definition.
    texts: Vec<Definition>,
    /// Lines behind NAME.
    lines: Vec<Definition>,
}

/// The text behind a name.
fn text_behind<'d>(definitions: &'d [Definition], name: &str) -> io::Result<&'d str> {
    for definition in definitions {
        if definition.name.as_str() == name {
            return Ok(definition.text.as_str());
        }
    }
    Err(wrong("undefined name"))
}

/// Puts a text behind its name. What this stood for before is forgotten.
fn put(definitions: &mut Vec<Definition>, name: String, text: String) -> io::Result<()> {
    definitions.retain(|definition| definition.name.as_str() != name.as_str());
    definitions.push(Definition { name, text })?;
    Ok(())
}

/// Whether a byte may stand in a name.
fn is_of_name(byte: u8) -> bool {
    byte.is_ascii_uppercase() || byte.is_ascii_digit() || byte == b'_'
}

/// Whether a text is a name of a text: `$` and capital letters, digits and `_`.
fn is_name(text: &str) -> bool {
    match text.strip_prefix('$') {
        Some(name) => !name.is_empty() && name.bytes().all(is_of_name),
        None => false,
    }
}

/// Whether one of two names begins the other, and they are not the same.
fn clash(one: &str, other: &str) -> bool {
    one != other && (one.starts_with(other) || other.starts_with(one))
}

impl Names {
    /// Nothing is defined.
    pub fn new(alloc: Global) -> Names {
        Names {
            texts: Vec::new(alloc),
            lines: Vec::new(alloc),
        }
    }

    /// Defines a name of a text. It may not begin another one.
    pub fn define(&mut self, name: String, text: String) -> io::Result<()> {
        if !is_name(name.as_str()) {
            return Err(wrong("no name"));
        }
        for definition in &self.texts {
            if clash(definition.name.as_str(), name.as_str()) {
                return Err(wrong("a name that begins another one, or begins with it"));
            }
        }
        put(&mut self.texts, name, text)
    }

    /// Defines a name of lines.
    pub fn define_lines(&mut self, name: String, text: String) -> io::Result<()> {
        put(&mut self.lines, name, text)
    }

    /// A text with the texts in the places of their names, one name after the other.
    pub fn written_out(&self, alloc: Global, text: &str) -> Result<String, AllocError> {
        let mut whole = String::from_str(alloc, text)?;
        for definition in &self.texts {
            if whole.contains('$') {
                whole = whole.replace(alloc, definition.name.as_str(), definition.text.as_str())?;
            }
        }
        Ok(whole)
    }

    /// The text behind a name that begins with `$`, written out.
    pub fn text_of(&self, alloc: Global, name: &str) -> io::Result<String> {
        Ok(self.written_out(alloc, text_behind(&self.texts, name)?)?)
    }

    /// Lines with those that are named in the places of `with NAME`.
    pub fn with_lines(&self, alloc: Global, lines: &str) -> io::Result<String> {
        let mut all = String::new(alloc);
        for line in lines.split('\n') {
            all.push_str(match line.strip_prefix("with ") {
                Some(name) => text_behind(&self.lines, name)?,
                None => line,
            })?;
            all.push('\n')?;
        }
        Ok(all)
    }
}
