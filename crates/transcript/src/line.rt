//! The lines of a transcript.

ghost use Rattle.std.specs.Prelude.{◌≡◌, ◌∷◌, [], ℕ, List, map, Some, IfOk, IfSome};
ghost use Rattle.std.specs.Option.{option_copied, option_map};
ghost use Rattle.transcript.specs.Lines.{transcript_lines, line_words, HandsIn, States, Statement, WordsState};
ghost use Rattle.transcript.specs.Seen.{stated};
ghost use Rattle.transcript.specs.SeenParts.{MeansOne, MeansOnly};

use crate::number::{connection, moment};
use crate::piece::{draws, piece};
use consent::Moment;
use http_edge::ConnectionNo;
use messages::Draws;
use std::alloc::{AllocError, Global};

/// What a line behind the first states.
#[derive(Drop)]
pub enum Line {
    /// `open C`: a connection is opened.
    Open(ConnectionNo),
    /// `bytes C MOMENT DRAWS HEX`: a piece of its stream came.
    Bytes {
        connection: ConnectionNo,
        moment: Moment,
        draws: Vec<Draws>,
        piece: Vec<u8>,
    },
    /// `end C`: its stream ended.
    End(ConnectionNo),
}

/// The lines of a text.
pub fn lines(alloc: Global, text: &str) -> Result<Vec<&str>, AllocError>
    ensures { IfOk result (λ lines. map (λ line. line.now) lines.items ≡ transcript_lines text.now) }
{
    text.strip_suffix('\n')
        .unwrap_or(text)
        .split('\n')
        .collect(alloc)
}

/// The JSON text that a line hands in.
pub fn json(line: &str) -> Option<&str>
    ensures some { IfSome result (λ json. HandsIn line.now json.now) }
    ensures only { (other : List ℕ) → HandsIn line.now other → option_copied result ≡ Some other }
{
    match line.split_once(' ') {
        Some(("config", json)) => Some(json),
        _ => None,
    }
}

/// The words of a line.
fn words(alloc: Global, line: &str) -> Result<Vec<&str>, AllocError>
    ensures { IfOk result (λ words. map (λ word. word.now) words.items ≡ line_words line.now) }
{
    line.split(' ').collect(alloc)
}

/// What a word and a connection's number state.
fn of_connection(name: &str, number: &str) -> Option<Line>
    ensures some { IfSome result (λ line. WordsState (name.now ∷ number.now ∷ []) (stated line)) }
    ensures only { (other : Statement) → WordsState (name.now ∷ number.now ∷ []) other → option_map stated result ≡ Some other }
{
    let number = connection(number)?;
    match name {
        "open" => Some(Line::Open(number)),
        "end" => Some(Line::End(number)),
        _ => None,
    }
}

/// What a word states with four of a piece.
#[tactic(auto, using(crate::proofs::Stating::no_name, crate::proofs::Stating::no_connection, crate::proofs::Stating::no_moment, crate::proofs::Stating::no_piece))]
fn of_piece(
    alloc: Global,
    name: &str,
    number: &str,
    seconds: &str,
    drawn: &str,
    hex: &str,
) -> Result<Option<Line>, AllocError>
    ensures some { IfOk result (MeansOne (WordsState (name.now ∷ number.now ∷ seconds.now ∷ drawn.now ∷ hex.now ∷ [])) stated) }
    ensures only { IfOk result (MeansOnly (WordsState (name.now ∷ number.now ∷ seconds.now ∷ drawn.now ∷ hex.now ∷ [])) stated) }
{
    if name != "bytes" {
        return Ok(None);
    }
    let Some(connection) = connection(number) else {
        return Ok(None);
    };
    let Some(moment) = moment(seconds) else {
        return Ok(None);
    };
    let Some(draws) = draws(alloc, drawn)? else {
        return Ok(None);
    };
    let Some(piece) = piece(alloc, hex)? else {
        return Ok(None);
    };
    Ok(Some(Line::Bytes {
        connection,
        moment,
        draws,
        piece,
    }))
}

/// What words state.
fn of_words(alloc: Global, words: &[&str]) -> Result<Option<Line>, AllocError>
    ensures some { IfOk result (MeansOne (WordsState (map (λ word. word.now) words.now)) stated) }
    ensures only { IfOk result (MeansOnly (WordsState (map (λ word. word.now) words.now)) stated) }
{
    match words {
        [name, number] => Ok(of_connection(name, number)),
        [name, number, seconds, drawn, hex] => of_piece(alloc, name, number, seconds, drawn, hex),
        _ => Ok(None),
    }
}

/// What a line states, where it states anything.
pub fn statement(alloc: Global, line: &str) -> Result<Option<Line>, AllocError>
    ensures some { IfOk result (λ o. IfSome o (λ read. States line.now (stated read))) }
    ensures only { IfOk result (λ o. (other : Statement) → States line.now other → option_map stated o ≡ Some other) }
{
    let words = words(alloc, line)?;
    of_words(alloc, &words)
}
