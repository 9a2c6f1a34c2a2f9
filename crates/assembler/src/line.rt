//! Lines and their words.

ghost use Rattle.std.specs.Prelude.{◌≡◌, ◌==◌, ◌||◌, map, IfOk};
ghost use Rattle.std.specs.Option.{option_map};
ghost use Rattle.assembly.specs.Text as text;
ghost use Rattle.assembly.specs.Text.{line_of, words_in};
ghost use Rattle.assembler.specs.Lines.{line_seen};

use crate::operand::is_name;
use std::alloc::{AllocError, Global};

/// What stands on a line: nothing, a label, or the words of an instruction.
#[derive(Drop)]
pub enum Line<'a> {
    Blank,
    Label(&'a [u8]),
    Statement(Vec<&'a [u8]>),
}

/// Whether a byte parts words: a space or a tab.
fn is_space(byte: u8) -> bool
    ensures { result ≡ (byte == 32 || byte == 9) }
{
    byte == b' ' || byte == b'\t'
}

/// A line without its comment.
fn before_comment(line: &[u8]) -> &[u8]
    ensures { result.now ≡ text.before_comment line.now }
{
    match line.iter().position(|byte| *byte == b';') {
        Some(end) => &line[..end],
        None => line,
    }
}

/// The words of a line.
fn words(alloc: Global, line: &[u8]) -> Result<Vec<&[u8]>, AllocError>
    ensures { IfOk result (λ words. map (λ word. word.now) words.items ≡ words_in line.now) }
{
    before_comment(line)
        .split(|byte| is_space(*byte))
        .filter(|word| !word.is_empty())
        .collect(alloc)
}

/// What stands before a colon at a word's end.
fn labelled(word: &[u8]) -> Option<&[u8]>
    ensures { option_map (λ name. name.now) result ≡ text.labelled word.now }
{
    match word.split_last() {
        Some((b':', name)) => Some(name),
        Some(_) => None,
        None => None,
    }
}

/// What stands on a line.
pub fn read<'a>(alloc: Global, line: &'a [u8]) -> Result<Line<'a>, AllocError>
    ensures { IfOk result (λ seen. line_seen seen ≡ line_of (words_in line.now)) }
{
    let words = words(alloc, line)?;
    if words.is_empty() {
        return Ok(Line::Blank);
    }
    if words.len() == 1 {
        if let Some(name) = labelled(words[0]) {
            if is_name(name) {
                return Ok(Line::Label(name));
            }
        }
    }
    Ok(Line::Statement(words))
}
