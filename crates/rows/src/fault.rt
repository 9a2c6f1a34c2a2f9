//! What is wrong with a file of rows.

use std::alloc::Global;
use std::io::{self, ErrorKind};

/// A line says this, which is wrong.
pub fn wrong(what: &str) -> io::Error {
    io::Error::new(ErrorKind::InvalidData, what)
}

/// Why the line of this number is not read: what is wrong with it is told behind the number.
pub fn at(alloc: Global, line: usize, error: io::Error) -> io::Error {
    match format!(in alloc; "line {line}: {error}") {
        Ok(told) if error.kind() == ErrorKind::InvalidData => wrong(told.as_str()),
        Ok(_) => error,
        Err(refused) => io::Error::from(refused),
    }
}
