//! The words of a command line: `$ WORD WORD ..`. One space stands between two words. A word in double quotes may be empty and
//! have spaces; one that begins with `@` is what stands in the row's file of that name, without the end of its last line. `$`
//! alone has no words.

use crate::fault::wrong;
use crate::row::Word;
use std::alloc::{AllocError, Global};
use std::io;

/// The words are not parted by single spaces, or a double quote is missing.
const BAD_WORDS: &str = "bad words";

/// The first word of a command line, whether it stands in double quotes, and what stands behind it.
fn first_word(text: &str) -> Option<(&str, bool, &str)> {
    if let Some(quoted) = text.strip_prefix('"') {
        let (word, behind) = quoted.split_once('"')?;
        return Some((word, true, behind));
    }
    let end = text.find(' ').unwrap_or(text.len());
    let (word, behind) = text.split_at_checked(end)?;
    if word.is_empty() {
        return None;
    }
    Some((word, false, behind))
}

/// A word of a command line: what stands in a file, where it begins with `@` and stands in no double quotes.
fn word_of(alloc: Global, word: &str, is_quoted: bool) -> Result<Word, AllocError> {
    match word.strip_prefix('@') {
        Some(name) if !is_quoted => Ok(Word::OfFile(String::from_str(alloc, name)?)),
        _ => Ok(Word::Text(String::from_str(alloc, word)?)),
    }
}

/// The words of a command line.
pub fn words_of(alloc: Global, text: &str) -> io::Result<Vec<Word>> {
    let mut words = Vec::new(alloc);
    if text.is_empty() {
        return Ok(words);
    }
    let mut rest = text;
    for _ in 0..text.len() {
        let (word, is_quoted, behind) = first_word(rest).ok_or(wrong(BAD_WORDS))?;
        words.push(word_of(alloc, word, is_quoted)?)?;
        if behind.is_empty() {
            return Ok(words);
        }
        rest = behind.strip_prefix(' ').ok_or(wrong(BAD_WORDS))?;
    }
    Err(wrong(BAD_WORDS))
}
