//! Rows: command lines, or a talk, and what they are to come to.

use crate::fault::wrong;
use std::alloc::{AllocError, Global};
use std::io;

/// How a text that is wanted is compared with the one that is found.
#[derive(Clone, Copy)]
pub enum Likeness {
    /// Both are the same.
    Whole,
    /// The one that is found begins with it.
    Front,
    /// Each of its lines is one of the text that is found.
    Lines,
}

/// What is to be written to an output.
#[derive(Drop)]
pub struct Wanted {
    /// How it is compared.
    pub likeness: Likeness,
    /// Its text.
    pub bytes: Vec<u8>,
}

/// A file that stands in the folder while its row runs.
#[derive(Drop)]
pub struct RowFile {
    /// Its name.
    pub name: String,
    /// The bytes that the row gives.
    pub bytes: Vec<u8>,
    /// Whether it has what `asm` makes of these.
    pub is_assembled: bool,
}

/// A word of a command line.
#[derive(Drop)]
pub enum Word {
    /// It is this.
    Text(String),
    /// It is what stands in the row's file of this name.
    OfFile(String),
}

/// In which pieces the requests of a talk come.
#[derive(Clone, Copy)]
pub enum Pieces {
    /// Each comes whole.
    Whole,
    /// Each on connection 1 comes byte by byte.
    Bytes,
    /// Each on connection 1 comes in two pieces, and the row runs once for each place at which one of them can be cut.
    Two,
    /// Of each on connection 2 only a front comes, and the row runs once for each front that one of them has.
    Front,
}

/// What comes on connections, and what goes out.
#[derive(Drop)]
pub struct Talk {
    /// The registry's JSON.
    pub config: String,
    /// In which pieces the requests come.
    pub pieces: Pieces,
    /// What comes and goes out, in lines.
    pub lines: String,
}

/// A row.
#[derive(Drop)]
pub struct Row {
    /// The number of the line in which it begins.
    pub line: usize,
    /// What it is called.
    pub name: String,
    /// Its command lines, each of which is to come to the same.
    pub commands: Vec<Vec<Word>>,
    /// Its files.
    pub files: Vec<RowFile>,
    /// What is to be written to standard output, where the row says it.
    pub out: Option<Wanted>,
    /// What is to be written to standard error, where the row says it.
    pub err: Option<Wanted>,
    /// The exit status, where the row says it.
    pub status: Option<u8>,
    /// The machine's clock, where the row sets it.
    pub now: Option<u64>,
    /// Its talk, where it has one.
    pub talk: Option<Talk>,
}

impl Row {
    /// Whether it has a file of this name.
    pub fn has_file(&self, name: &str) -> bool {
        self.files.iter().any(|file| file.name.as_str() == name)
    }

    /// Refuses it where it has no command lines and no talk, or both, or a word of a file that it has not.
    pub fn check(&self) -> io::Result<()> {
        if self.commands.is_empty() != self.talk.is_some() {
            return Err(wrong("no command line and no talk, or both"));
        }
        for words in &self.commands {
            for word in words {
                match word {
                    Word::OfFile(name) if !self.has_file(name.as_str()) => {
                        return Err(wrong("a word of a file that the row has not"));
                    }
                    _ => {}
                }
            }
        }
        Ok(())
    }

    /// A talk ends with its replies, unless the row says what is written.
    pub fn want_replies(&mut self, alloc: Global) -> Result<(), AllocError> {
        if let Some(talk) = &self.talk
            && self.out.is_none()
            && self.err.is_none()
        {
            let bytes = talk.replies(alloc)?.into_bytes();
            let likeness = Likeness::Whole;
            self.out = Some(Wanted { likeness, bytes });
        }
        Ok(())
    }
}
